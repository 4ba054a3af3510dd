// Sheets, points and answers as bytes and numbers, as files and C programs have them: words of four bytes, lowest first; the affine point (u, v) as
// u + 2^28·v and infinity as 2^56; an answer as one number, a refusal of 64 bits as 2^57 plus its own.
#![tactic(auto)]

ghost use Rattle.std.specs.Prelude.{◌≡◌, ℕ, ◌+◌, ◌*◌, ◌^◌, ◌<◌, ◌≤◌, length, MatchResult, IsErrAnd};
ghost use Rattle.sheet.specs.Word.{word_at};
ghost use Rattle.sheet.specs.Form.{most_words};
ghost use Rattle.questions.specs.declared.refusal.Refusal.TheVariants as question;
ghost use Rattle.encoding.specs.Encoding.{point_of, Loaded};

use promises::Point;
use questions::Refusal;

// ── words

// The words that are kept: one more than the largest certificate has.
pub const KEPT: usize = sheet::MOST_WORDS + 1;

// Room for them.
pub fn blank() -> [u32; KEPT]
    ensures { most_words + 1 ≡ length result }
{
    [0; KEPT]
}

// The words of `bytes`, or as many as `words` has room for; the answer is their count.
pub fn keep(bytes: &[u8], words: &mut [u32]) -> usize
    ensures { Loaded bytes.now (length words.old) words.new result }
{
    let n = (bytes.len() / 4).min(words.len());
    sheet::load(bytes, &mut words[..n]);
    n
}

// ── points

// The point number of infinity, 2^56; smaller ones are u + 2^28·v.
pub const INFINITY: u64 = 72057594037927936;

// The number in eight bytes, lowest first.
pub fn number(bytes: &[u8]) -> u64
    requires { 8 ≤ length bytes.now }
    ensures { result ≡ word_at bytes.now 0 + 2 ^ 32 * word_at bytes.now 1 }
{
    let mut first = [0u8; 8];
    first.copy_from_slice(&bytes[..8]);
    u64::from_le_bytes(first)
}

// The point that a number up to 2^56 stands for.
pub fn point_of(k: u64) -> Point
    requires { k ≤ 2 ^ 56 }
    ensures { result ≡ point_of k }
{
    if k == INFINITY {
        return Point::Infinity;
    }
    Point::Affine((k % 268435456) as u32, (k / 268435456) as u32)
}

// What push answers to a number that is no point, from what check answers: its refusal, or question 12's. This and the numbers below take a refusal, or its
// number itself: any word.
pub fn unpointed<Q: From<Refusal> + Copy>(verdict: Result<(), Q>) -> Result<Point, Q>
    ensures { IsErrAnd result (λ q. MatchResult verdict (λ _. Q.from_gives question.Point q) (λ first. q ≡ first)) }
{
    verdict?;
    Err(Q::from(Refusal::Point))
}

// ── answers

// The number of what check answers.
pub fn verdict_number<Q: Into<u32>>(verdict: Result<(), Q>) -> u32
    ensures { MatchResult verdict (λ _. result ≡ 0) (λ q. Q.converts q result) }
{
    match verdict {
        Ok(()) => 0,
        Err(q) => q.into(),
    }
}

// The number of an affine point.
pub fn point_number(u: u32, v: u32) -> u64
    ensures { result ≡ u + 2 ^ 28 * v }
{
    u64::from(u) + 268435456 * u64::from(v)
}

// 2^57 plus a refusal's number: no point, count or j-value is so large.
pub fn refusal<Q: Into<u32>>(q: Q) -> u64
    ensures { (n : ℕ) × Q.converts q n × (result ≡ 2 ^ 57 + n) }
{
    let n: u32 = q.into();
    144115188075855872 + u64::from(n)
}

// The number of what solve, kernel and compose answer.
pub fn written_number<Q: Into<u32>>(written: Result<u32, Q>) -> u64
    ensures { MatchResult written (λ count. result ≡ count) (λ q. (n : ℕ) × Q.converts q n × (result ≡ 2 ^ 57 + n)) }
{
    match written {
        Ok(count) => u64::from(count),
        Err(q) => refusal(q),
    }
}
