// What the programs print, as bytes in a lent buffer. Each function puts a text at the front of `out` and leaves what stands behind it; the public
// ones answer the count of the text's bytes. The digits are put by hand: `write!` answers an error where a buffer is full, and these have none.
#![tactic(auto)]

ghost use Rattle.std.specs.Prelude.{◌≡◌, ◌*◌, ◌<◌, ◌≤◌, length};
ghost use Rattle.text.specs.Text.{code, digits, decimal, hex_line, hex_lines, refused_line, passes_line};
ghost use Rattle.text.specs.Fills.{Fills};

fn code_of(digit: u64) -> u8
    requires { digit < 16 }
    ensures { result ≡ code digit }
{
    if digit < 10 {
        b'0' + digit as u8
    } else {
        b'a' - 10 + digit as u8
    }
}

// The last k digits of n, from the last to the first.
fn put_digits(n: u64, base: u64, k: usize, out: &mut [u8])
    requires { (0 < base) × (base ≤ 16) × (k ≤ length out.old) }
    ensures { Fills (digits base k n) out.old out.new k }
{
    let mut rest = n;
    for i in (0..k).rev() {
        out[i] = code_of(rest % base);
        rest /= base;
    }
}

// How many digits n has in decimal. Its loop stays a `while`: the count of its turns is what is asked.
fn places(n: u64) -> usize
    ensures { result ≡ length (decimal n) }
{
    let mut k = 1;
    let mut rest = n;
    while rest >= 10 {
        rest /= 10;
        k += 1;
    }
    k
}

fn put_decimal(n: u64, out: &mut [u8]) -> usize
    requires { length (decimal n) ≤ length out.old }
    ensures { Fills (decimal n) out.old out.new result }
{
    let k = places(n);
    put_digits(n, 10, k, out);
    k
}

fn put_bytes(bytes: &[u8], out: &mut [u8])
    requires { length bytes.now ≤ length out.old }
    ensures { Fills bytes.now out.old out.new (length bytes.now) }
{
    out[..bytes.len()].copy_from_slice(bytes);
}

fn hex_line(n: u64, k: usize, out: &mut [u8]) -> usize
    requires { k < length out.old }
    ensures { Fills (hex_line k n) out.old out.new result }
{
    put_digits(n, 16, k, out);
    out[k] = b'\n';
    k + 1
}

// A line for each word: eight hexadecimal digits.
pub fn word_lines(words: &[u32], out: &mut [u8]) -> usize
    requires { 9 * length words.now ≤ length out.old }
    ensures { Fills (hex_lines words.now) out.old out.new result }
{
    for (i, word) in words.iter().enumerate() {
        hex_line(u64::from(*word), 8, &mut out[9 * i..]);
    }
    9 * words.len()
}

// A line: a number as sixteen hexadecimal digits.
pub fn number_line(n: u64, out: &mut [u8]) -> usize
    requires { 17 ≤ length out.old }
    ensures { Fills (hex_line 16 n) out.old out.new result }
{
    hex_line(n, 16, out)
}

// A line: the number of the question that is answered with no.
pub fn refused_line(n: u32, out: &mut [u8]) -> usize
    requires { 19 ≤ length out.old }
    ensures { Fills (refused_line n) out.old out.new result }
{
    put_bytes(b"refused ", out);
    let k = put_decimal(u64::from(n), &mut out[8..]);
    let end = 8 + k;
    out[end] = b'\n';
    end + 1
}

// A line: a certificate passes.
pub fn passes_line(out: &mut [u8]) -> usize
    requires { 7 ≤ length out.old }
    ensures { Fills passes_line out.old out.new result }
{
    put_bytes(b"passes\n", out);
    7
}
