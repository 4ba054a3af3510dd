// Reads a point's number, eight bytes with the lowest first, and then a certificate from standard input, and prints the number of the point's image.
#![tactic(auto)]

ghost use Rattle.printing.specs.Printing.{PushText};

// The one place that prints. What it asks has `main` proved to hand over nothing but the right text for its input; one that the four programs shared
// could not ask for the text of each.
fn print(rt: &HostRuntime, input: &[u8], text: &[u8])
    requires { PushText input.now text.now }
{
    console::write(&mut rt.stdout(), text);
}

fn main(rt: HostRuntime) {
    let mut bytes = [0u8; printing::PUSH_INPUT];
    let n = console::read(&mut rt.stdin(), &mut bytes);
    let mut text = [0u8; printing::ROOM];
    let count = printing::push(&bytes[..n], &mut text);
    print(&rt, &bytes[..n], &text[..count]);
}
