// Numbers in a record, and how many bytes a field takes.
ghost use Rattle.std.specs.Prelude.{◌≡◌, ◌+◌, ◌≤◌, ◌<◌, eqb, length, drop, position};
ghost use Rattle.std.proofs.lemmas.List.Edits.{sets};
ghost use Rattle.record_fields.specs.Bam.{half, word, word_bytes};
ghost use Rattle.record_fields.specs.Fields.{array_size, element_size, field_size, fixed_size, text_size, value_size};

// The 16-bit number at a byte.
pub fn half_at(bytes: &[u8], i: usize) -> usize
    requires { i + 1 < length bytes.now }
    ensures { (result ≡ half bytes.now i) × (result < 65536) }
{
    bytes[i] as usize + 256 * (bytes[i + 1] as usize)
}

// The 32-bit number at a byte.
pub fn word_at(bytes: &[u8], i: usize) -> usize
    requires { i + 3 < length bytes.now }
    ensures { (result ≡ word bytes.now i) × (result < 4294967296) }
{
    half_at(bytes, i) + 65536 * half_at(bytes, i + 2)
}

// How many bytes a value of this type takes; 0 if it has no fixed size.
fn fixed_size(kind: u8) -> usize
    ensures { (result ≡ fixed_size kind) × (result ≤ 4) }
{
    if kind == b'A' {
        return 1;
    }
    if kind == b'c' {
        return 1;
    }
    if kind == b'C' {
        return 1;
    }
    if kind == b's' {
        return 2;
    }
    if kind == b'S' {
        return 2;
    }
    if kind == b'i' {
        return 4;
    }
    if kind == b'I' {
        return 4;
    }
    if kind == b'f' {
        return 4;
    }
    0
}

// How many bytes an array's element of this type takes; 0 if there is no such array.
fn element_size(kind: u8) -> usize
    ensures { (result ≡ element_size kind) × (result ≤ 4) }
{
    if kind == b'A' {
        return 0; // no array of characters
    }
    fixed_size(kind)
}

// Where the first NUL is, if there is one.
fn first_nul(bytes: &[u8]) -> Option<usize>
    ensures { result ≡ position (λ b. eqb b 0) bytes.now }
{
    bytes.iter().position(|b| *b == 0)
}

// How many bytes a text takes from a byte on, with its NUL; 0 if there is no NUL.
fn text_size(bytes: &[u8], from: usize) -> usize
    requires { from ≤ length bytes.now }
    ensures { result ≡ text_size (drop from bytes.now) }
{
    let Some(n) = first_nul(&bytes[from..]) else {
        return 0;
    };
    n + 1
}

// How many bytes an array takes from a byte on, as its count says; 0 if its type or its count is no such thing. The count has 32 bits, and the
// product needs more.
fn array_size(bytes: &[u8], from: usize) -> usize
    requires { from ≤ length bytes.now }
    ensures { (result ≡ array_size (drop from bytes.now)) × (result ≤ 17179869189) }
{
    if bytes.len() - from < 5 {
        return 0;
    }
    let size = element_size(bytes[from]);
    if size == 0 {
        return 0;
    }
    5 + word_at(bytes, from + 1) * size
}

// How many bytes a value of this type takes from a byte on; 0 if it does not parse.
fn value_size(kind: u8, bytes: &[u8], from: usize) -> usize
    requires { from ≤ length bytes.now }
    ensures { result ≡ value_size kind (drop from bytes.now) }
{
    if kind == b'B' {
        return array_size(bytes, from);
    }
    if kind == b'Z' {
        return text_size(bytes, from);
    }
    if kind == b'H' {
        return text_size(bytes, from);
    }
    fixed_size(kind)
}

// How many bytes the field at a byte takes; 0 if it does not parse.
pub fn field_size(bytes: &[u8], at: usize) -> usize
    requires { at ≤ length bytes.now }
    ensures { result ≡ field_size (drop at bytes.now) }
{
    let left = bytes.len() - at;
    if left < 3 {
        return 0;
    }
    let n = value_size(bytes[at + 2], bytes, at + 3);
    if n == 0 {
        return 0;
    }
    if left - 3 < n {
        return 0;
    }
    3 + n
}

// Writes a 32-bit number from a byte on, as far as the row reaches.
pub fn put_word(out: &mut [u8], at: usize, n: usize)
    requires { (at + 4 < 18446744073709551616) × (n < 4294967296) }
    ensures { out.new ≡ sets out.old at (word_bytes n) }
{
    numbers::put(out, at, (n % 256) as u8);
    numbers::put(out, at + 1, (n / 256 % 256) as u8);
    numbers::put(out, at + 2, (n / 65536 % 256) as u8);
    numbers::put(out, at + 3, (n / 16777216 % 256) as u8);
}
