// An input to its end, and a run of bytes to an output: all that the programs have of the operating system. What is said of the bytes holds of readers and
// writers whose bytes are known, as those over memory; no contract can say which bytes came from the system or reached it.
#![tactic(auto)]

ghost use Rattle.std.specs.Prelude.{◌≤◌, ◌<◌, ◌-◌, length, take};
ghost use Rattle.std.specs.Io.KnownBytes.{Consumes, Appends};
ghost use Rattle.io.specs.Counts.{IsPrefixLen};
ghost use Rattle.console.specs.Bytes.{Gives, GivesModulo4, KeepsFront};

use std::io::{Read, Write};

// Reads until `kept` is full, the input ends or it cannot be read, and answers how many bytes came. Its loop stays a `while`, as that of `write`: a call
// takes as many bytes as it likes.
fn fill<R: Read>(input: &mut R, kept: &mut [u8]) -> usize
    ensures count { IsPrefixLen result kept.new }
    ensures front { Consumes (R.remaining input.old) (R.remaining input.new) (take result kept.new) }
{
    let mut done: usize = 0;
    while done < kept.len() {
        match input.read(&mut kept[done..]) {
            Ok(0) | Err(_) => return done,
            Ok(n) => done += n,
        }
    }
    done
}

// Reads once more, and answers how many bytes came.
fn piece<R: Read>(input: &mut R) -> usize
    ensures count { result ≤ 4096 }
    ensures gives { Gives (R.remaining input.old) (R.remaining input.new) result }
{
    let mut bytes = [0u8; 4096];
    fill(input, &mut bytes)
}

// Reads the rest of the input in pieces, and answers the count of its bytes modulo 4. Nothing says that an input ends, so the loop counts turns that no
// run uses up.
fn drain<R: Read>(input: &mut R) -> usize
    ensures count { result < 4 }
    ensures gives { GivesModulo4 (R.remaining input.old) (R.remaining input.new) result }
{
    let mut count: usize = 0;
    for _ in 0..u64::MAX {
        let n = piece(input);
        if n == 0 {
            return count;
        }
        count = (count + n) % 4;
    }
    count
}

// Reads the input to its end and keeps its first bytes, as many as `kept` has room for but three. Of a longer input the count has the rest modulo 4 on
// top, so that it tells whether the input is made of whole words. An input that cannot be read counts as one that ends there.
pub fn read<R: Read>(input: &mut R, kept: &mut [u8]) -> usize
    ensures count { IsPrefixLen result kept.new }
    ensures front { KeepsFront (R.remaining input.old) (R.remaining input.new) kept.new (length kept.new - 3) result }
{
    if kept.len() < 3 {
        return 0;
    }
    let most = kept.len() - 3;
    let n = fill(input, &mut kept[..most]);
    if n < most {
        return n;
    }
    most + drain(input)
}

// Hands the bytes to the output, from the first on, and answers how many were taken: all of them, or fewer where a call failed or took none.
pub fn write<W: Write>(output: &mut W, bytes: &[u8]) -> usize
    ensures count { result ≤ length bytes.now }
    ensures taken { Appends (W.contents output.old) (W.contents output.new) (take result bytes.now) }
{
    let mut done: usize = 0;
    while done < bytes.len() {
        match output.write(&bytes[done..]) {
            Ok(0) | Err(_) => return done,
            Ok(n) => done += n,
        }
    }
    done
}
