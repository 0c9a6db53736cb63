// The fields of a text, and the checks of a text before it is read. A support crate: its functions may have a `requires`.
#![tactic(auto)]

ghost use Rattle.std.specs.Prelude.{◌≡◌, ◌≤◌, eqb, length, drop};
ghost use Rattle.lent.specs.Lists.{every, last_or};
ghost use Rattle.samtags.specs.Bytes.{semicolon, is_ascii};
ghost use Rattle.fields.specs.Fields.{field_of};

// The field that begins at index `from`: a part of the caller's own text, up to the comma or semicolon that ends it.
pub fn next_field(text: &[u8], from: usize) -> &[u8]
    requires { from ≤ length text.now }
    ensures { result.now ≡ field_of (drop from text.now) }
{
    for end in from..text.len() {
        if text[end] == b',' {
            return &text[from..end];
        }
        if text[end] == b';' {
            return &text[from..end];
        }
    }
    &text[from..]
}

// Whether no byte is above 127. It looks at all bytes, which is faster than stopping at the first one: sixteen are looked at in one step.
pub fn all_ascii(text: &[u8]) -> bool
    ensures { result ≡ every is_ascii text.now }
{
    let mut ascii = true;
    for &b in text {
        if 127 < b {
            ascii = false;
        }
    }
    ascii
}

// Whether the text's last group is closed.
pub fn ends_in_semicolon(text: &[u8]) -> bool
    ensures { result ≡ eqb (last_or 0 text.now) semicolon }
{
    match text.last() {
        Some(&b) => b == b';',
        None => false,
    }
}
