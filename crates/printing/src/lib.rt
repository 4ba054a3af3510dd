// What each program prints for the bytes of its input: the service's answer, put into words by `text`, at the front of a lent buffer. The answer is the
// count of the bytes.
#![tactic(auto)]

ghost use Rattle.std.specs.Prelude.{◌*◌, ◌≤◌, length};
ghost use Rattle.text.specs.Fills.{Fills};
ghost use Rattle.printing.specs.Printing.{written_text, verdict_text, image_text, Prints, SolveText, KernelText, CheckText, PushText};
ghost use Rattle.printing.specs.Room.{room, Within};

use services::{Point, Refusal};

// Room for every text: a line of nine characters for each word of the largest certificate.
pub const ROOM: usize = 9 * sheet::MOST_WORDS;

// Room for a program's input: one word more than the largest certificate has, and three bytes more, which tell of a longer input whether it has whole
// words; and for a point's number before it.
pub const INPUT: usize = 4 * (sheet::MOST_WORDS + 1) + 3;

pub const PUSH_INPUT: usize = INPUT + 8;

fn written_text(written: Result<u32, Refusal>, words: &[u32], out: &mut [u8]) -> usize
    requires { Within written (length words.now) × (9 * length words.now ≤ length out.old) × (room ≤ length out.old) }
    ensures { Fills (written_text words.now written) out.old out.new result }
{
    match written {
        Ok(count) => text::word_lines(&words[..count as usize], out),
        Err(refusal) => text::refused_line(u32::from(refusal), out),
    }
}

pub fn solve(bytes: &[u8], out: &mut [u8]) -> usize
    requires { room ≤ length out.old }
    ensures { Prints (SolveText bytes.now) out.new result }
{
    let mut answer = [0u32; sheet::MOST_WORDS];
    let written = sagepliers::files::solve(bytes, &mut answer);
    written_text(written, &answer, out)
}

pub fn kernel(bytes: &[u8], out: &mut [u8]) -> usize
    requires { room ≤ length out.old }
    ensures { Prints (KernelText bytes.now) out.new result }
{
    let mut answer = [0u32; sheet::MOST_WORDS];
    let written = sagepliers::files::kernel(bytes, &mut answer);
    written_text(written, &answer, out)
}

fn verdict_text(verdict: Result<(), Refusal>, out: &mut [u8]) -> usize
    requires { room ≤ length out.old }
    ensures { Fills (verdict_text verdict) out.old out.new result }
{
    match verdict {
        Ok(()) => text::passes_line(out),
        Err(refusal) => text::refused_line(u32::from(refusal), out),
    }
}

pub fn check(bytes: &[u8], out: &mut [u8]) -> usize
    requires { room ≤ length out.old }
    ensures { Prints (CheckText bytes.now) out.new result }
{
    verdict_text(sagepliers::files::check(bytes), out)
}

fn image_text(image: Result<Point, Refusal>, out: &mut [u8]) -> usize
    requires { room ≤ length out.old }
    ensures { Fills (image_text image) out.old out.new result }
{
    let Ok(Point::Affine(u, v)) = image else {
        let Err(refusal) = image else {
            return text::number_line(sagepliers::files::INFINITY, out);
        };
        return text::refused_line(u32::from(refusal), out);
    };
    text::number_line(sagepliers::point_number(u, v), out)
}

pub fn push(bytes: &[u8], out: &mut [u8]) -> usize
    requires { room ≤ length out.old }
    ensures { Prints (PushText bytes.now) out.new result }
{
    image_text(sagepliers::files::push_input(bytes), out)
}
