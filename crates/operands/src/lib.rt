// The numbers that a line of `tagedit`'s input lists: plain decimals separated by commas, leading zeros allowed. A field that is no decimal, or too
// large, makes its line bad. A support crate: its functions may have a `requires`.
#![tactic(auto)]

ghost use Rattle.std.specs.Prelude.{◌≡◌, true, map, ◌≤◌, length, None};
ghost use Rattle.samtags.specs.Decimal.{value};
ghost use Rattle.changing.specs.Windows.{stored_at};
ghost use Rattle.lines.specs.Lines.{joined, are_numbers, numbers_of, given, cut_of};
ghost use Rattle.operands.specs.Answers.{number_to, ends_says, ValuesPut, values_in};

// Reads a plain decimal of at most `most`; None for any other field. It is read up to `most` + 1, so that no number is too large to read.
pub fn read_number(field: &[u8], most: usize) -> Option<usize>
    requires { most ≤ 4294967295 }
    ensures { result ≡ number_to most field.now }
{
    let Ok(n) = numbers::read_skip(field, most + 1) else {
        return None;
    };
    if most < n {
        return None;
    }
    Some(n)
}

// Writes a byte at each listed place that the row has, and answers whether the places are numbers of 32 bits. If not, nothing is promised about the row.
pub fn put_listed(body: &[u8], row: &mut [u8], b: u8) -> bool
    requires { length body.now ≤ 4294967295 }
    ensures { (result ≡ are_numbers 4294967295 (joined body.now))
        × (result ≡ true → row.new ≡ stored_at b (map value (joined body.now)) row.old) }
{
    let mut at = 0;
    // A cursor, not a count: a field is as long as it is, and the last one may be empty.
    while at <= body.len() {
        let field = lines::up_to(body, at, b',');
        let Some(place) = read_number(field, 4294967295) else {
            return false;
        };
        numbers::put(row, place, b);
        at = at + field.len() + 1;
    }
    true
}

// Writes the values of an ML line, each at most 255, to the front of a row, and answers how many there are; None if the line is bad. An empty body
// lists none.
pub fn put_values(body: &[u8], row: &mut [u8]) -> Option<usize>
    requires { length body.now ≤ 4294967295 }
    ensures { ValuesPut (values_in body.now) result row.old row.new }
{
    if body.len() == 0 {
        return Some(0);
    }
    let mut at = 0;
    let mut n = 0;
    // A cursor, not a count: a field is as long as it is, and the last one may be empty.
    while at <= body.len() {
        let field = lines::up_to(body, at, b',');
        let value = read_number(field, 255)?;
        numbers::put(row, n, value as u8);
        n += 1;
        at = at + field.len() + 1;
    }
    Some(n)
}

// Reads exactly two numbers of 32 bits; None for any other body.
pub fn read_ends(body: &[u8]) -> Option<(u32, u32)>
    requires { length body.now ≤ 4294967295 }
    ensures { ends_says result ≡ given (numbers_of 4294967295 body.now) None cut_of }
{
    let front = lines::up_to(body, 0, b',');
    if front.len() == body.len() {
        return None;
    }
    let second = front.len() + 1;
    let back = lines::up_to(body, second, b',');
    if second + back.len() != body.len() {
        return None;
    }
    let a = read_number(front, 4294967295)?;
    let b = read_number(back, 4294967295)?;
    Some((a as u32, b as u32))
}
