// Reads a question from standard input and prints the certificate that answers it.
#![tactic(auto)]

ghost use Rattle.printing.specs.Printing.{SolveText};

// The one place that prints. What it asks has `main` proved to hand over nothing but the right text for its input; one that the four programs shared
// could not ask for the text of each.
fn print(rt: &HostRuntime, question: &[u8], text: &[u8])
    requires { SolveText question.now text.now }
{
    console::write(&mut rt.stdout(), text);
}

fn main(rt: HostRuntime) {
    let mut bytes = [0u8; printing::INPUT];
    let n = console::read(&mut rt.stdin(), &mut bytes);
    let mut text = [0u8; printing::ROOM];
    let count = printing::solve(&bytes[..n], &mut text);
    print(&rt, &bytes[..n], &text[..count]);
}
