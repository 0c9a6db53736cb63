// Decimal numbers in a text: reads a skip, writes a number. A support crate: its functions may have a `requires`.
#![tactic(auto)]

ghost use Rattle.std.specs.Prelude.{◌≡◌, ◌+◌, ◌-◌, ◌*◌, ◌≤◌, min, length, set, Ok};
ghost use Rattle.std.proofs.lemmas.List.Edits.{sets};
ghost use Rattle.lent.specs.Outcome.{need};
ghost use Rattle.samtags.specs.Decimal.{is_number, value, digits};

use lent::Refusal;

// One more digit, but never above `most`.
fn with_digit(n: usize, digit: u8, most: usize) -> usize
    requires { (n ≤ most) × (most ≤ 4294967296) × (48 ≤ digit) }
    ensures { result ≡ min most (10 * n + (digit - 48)) }
{
    let m = 10 * n + (digit - b'0') as usize;
    if most < m {
        return most;
    }
    m
}

// Reads a plain decimal of any length. A number above `most` is read as `most`, so that no number is too large to read.
pub fn read_skip(field: &[u8], most: usize) -> Result<usize, Refusal>
    requires { most ≤ 4294967296 }
    ensures { result ≡ need (is_number field.now) 6 (Ok (min most (value field.now))) }
{
    if field.is_empty() {
        return Err(Refusal::BadSkip);
    }
    let mut n = 0;
    for &digit in field {
        if digit < b'0' {
            return Err(Refusal::BadSkip);
        }
        if b'9' < digit {
            return Err(Refusal::BadSkip);
        }
        n = with_digit(n, digit, most);
    }
    Ok(n)
}

// Writes an entry at an index if the row is long enough. So the same code writes into a row and, with an empty row, measures.
pub fn put<T: Copy>(out: &mut [T], at: usize, entry: T)
    ensures { out.new ≡ set out.old at entry }
{
    if at < out.len() {
        out[at] = entry;
    }
}

// Writes the digits of n from an index on, as far as the room reaches, and returns the index after them.
fn put_digits(out: &mut [u8], at: usize, n: usize) -> usize
    requires { at ≤ 4294967296 }
    ensures { (result ≡ at + length (digits n)) × (out.new ≡ sets out.old at (digits n)) }
{
    if n < 10 {
        put(out, at, b'0' + n as u8);
        return at + 1;
    }
    let next = put_digits(out, at, n / 10);
    put(out, next, b'0' + (n % 10) as u8);
    next + 1
}

// Writes n in decimal from an index on, as far as the room reaches, and returns the index after it. Most skips have one digit; they need no call.
pub fn put_decimal(out: &mut [u8], at: usize, n: usize) -> usize
    requires { at ≤ 4294967296 }
    ensures { (result ≡ at + length (digits n)) × (out.new ≡ sets out.old at (digits n)) }
{
    if 9 < n {
        return put_digits(out, at, n);
    }
    put(out, at, b'0' + n as u8);
    at + 1
}
