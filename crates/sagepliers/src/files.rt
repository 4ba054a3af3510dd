// The services on sheets held as bytes, as files and the C entries have them: four bytes a word, lowest first. A byte count that is no multiple of
// four fails question 2. No sheet has more words than the largest certificate, so of a longer one the words up to one more than that get the answer that
// all of them would get.
ghost use Rattle.std.specs.Prelude.{◌≡◌, length, take, MatchResult};
ghost use Rattle.questions.specs.declared.refusal.Refusal.TheVariants.{Header};
ghost use Rattle.sheet.specs.Word.{words_of};
ghost use Rattle.sagepliers.specs.Entry.{WholeWords, CheckAnswer, PushAnswer, PushInput, SolveAnswer, KernelAnswer};

pub use encoding::INFINITY;
use services::{Point, Refusal};

// The words that a service is given, in the lent room.
fn kept<'a>(bytes: &[u8], room: &'a mut [u32]) -> Result<&'a [u32], Refusal>
    ensures { MatchResult result (λ words. WholeWords bytes.now × (words.now ≡ take (length room.old) (words_of bytes.now)))
        (λ q. (q ≡ Header) × (WholeWords bytes.now → ⊥)) }
{
    if bytes.len() % 4 != 0 {
        return Err(Refusal::Header);
    }
    let n = encoding::keep(bytes, room);
    Ok(&room[..n])
}

pub fn check(bytes: &[u8]) -> Result<(), Refusal>
    ensures { CheckAnswer bytes.now result }
{
    let mut room = encoding::blank();
    services::check(kept(bytes, &mut room)?)
}

// A number above 2^56 is no point, which counts once the certificate has passed.
pub fn push(bytes: &[u8], point: u64) -> Result<Point, Refusal>
    ensures { PushAnswer bytes.now point result }
{
    if INFINITY < point {
        return encoding::unpointed(check(bytes));
    }
    let mut room = encoding::blank();
    services::push(kept(bytes, &mut room)?, encoding::point_of(point))
}

// `solve` and `kernel` differ in the service alone; one function for both would have to say what a service may be lent and what it leaves, which is more than
// the lines that they share.
pub fn solve(bytes: &[u8], answer: &mut [u32]) -> Result<u32, Refusal>
    ensures { SolveAnswer bytes.now answer.old answer.new result }
{
    if answer.len() < sheet::MOST_WORDS {
        return Err(Refusal::Room);
    }
    let mut room = encoding::blank();
    services::solve(kept(bytes, &mut room)?, answer)
}

pub fn kernel(bytes: &[u8], answer: &mut [u32]) -> Result<u32, Refusal>
    ensures { KernelAnswer bytes.now answer.old answer.new result }
{
    if answer.len() < sheet::MOST_WORDS {
        return Err(Refusal::Room);
    }
    let mut room = encoding::blank();
    services::kernel(kept(bytes, &mut room)?, answer)
}

// Push on the input of the push program: a point's number in eight bytes, lowest first, and the certificate behind it. Fewer bytes hold no point, and
// no word of a certificate: question 2.
pub fn push_input(bytes: &[u8]) -> Result<Point, Refusal>
    ensures { PushInput bytes.now result }
{
    let (point, certificate) = bytes.split_first_chunk::<8>().ok_or(Refusal::Header)?;
    push(certificate, encoding::number(point))
}
