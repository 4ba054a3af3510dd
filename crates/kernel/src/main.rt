// Reads a kernel sheet from standard input and prints the certificate of its domain and kernel polynomial.
#![tactic(auto)]

ghost use Rattle.printing.specs.Printing.{KernelText};

// The one place that prints. What it asks has `main` proved to hand over nothing but the right text for its input; one that the four programs shared
// could not ask for the text of each.
fn print(rt: &HostRuntime, sheet: &[u8], text: &[u8])
    requires { KernelText sheet.now text.now }
{
    console::write(&mut rt.stdout(), text);
}

fn main(rt: HostRuntime) {
    let mut bytes = [0u8; printing::INPUT];
    let n = console::read(&mut rt.stdin(), &mut bytes);
    let mut text = [0u8; printing::ROOM];
    let count = printing::kernel(&bytes[..n], &mut text);
    print(&rt, &bytes[..n], &text[..count]);
}
