// What a header says: its base, its codes, how many ML values a listed base takes, and whether an unlisted base is of unknown status. A support
// crate: its functions may have a `requires`.
#![tactic(auto)]

ghost use Rattle.std.specs.Prelude.{◌≡◌, ◌≤◌, length};
ghost use Rattle.lent.specs.Lists.{every};
ghost use Rattle.samtags.specs.Bytes.{is_digit, is_mark};
ghost use Rattle.samtags.specs.Text.{codes_of, values_per, base_of, ends_in_question};
ghost use Rattle.samtags.specs.Reading.{values_if};

fn is_digit(b: u8) -> bool
    ensures { result ≡ is_digit b }
{
    b'0' <= b && b <= b'9'
}

fn is_mark(b: u8) -> bool
    ensures { result ≡ is_mark b }
{
    b == b'.' || b == b'?'
}

fn all_digits(codes: &[u8]) -> bool
    ensures { result ≡ every is_digit codes.now }
{
    codes.iter().all(|&b| is_digit(b))
}

// The codes: a part of the header, without its first two bytes and without the marks at its end.
pub fn codes(header: &[u8]) -> &[u8]
    requires { 2 ≤ length header.now }
    ensures { result.now ≡ codes_of header.now }
{
    for last in (2..header.len()).rev() {
        if !is_mark(header[last]) {
            return &header[2..=last];
        }
    }
    &header[2..2]
}

// How many ML values a listed base takes.
pub fn values_per(header: &[u8]) -> usize
    requires { 2 ≤ length header.now }
    ensures { result ≡ values_per header.now }
{
    let codes = codes(header);
    let digits = all_digits(codes);
    if digits {
        return 1;
    }
    codes.len()
}

// The same if ML may be missing: without ML no value is taken.
pub fn values_if(has_ml: bool, header: &[u8]) -> usize
    requires { 2 ≤ length header.now }
    ensures { result ≡ values_if has_ml header.now }
{
    if has_ml {
        return values_per(header);
    }
    0
}

// The base whose places the group's entries count.
pub fn base_of(header: &[u8]) -> u8
    requires { 2 ≤ length header.now }
    ensures { result ≡ base_of header.now }
{
    pattern::to_ascii_uppercase(header[0])
}

// Whether an unlisted base is of unknown status: the header ends in '?'.
pub fn ends_in_question(header: &[u8]) -> bool
    requires { 2 ≤ length header.now }
    ensures { result ≡ ends_in_question header.now }
{
    header[header.len() - 1] == b'?'
}
