// The lines of `tagedit`'s input, their marks and their fields: each is a part of the caller's own text. `operands` reads the numbers that a line
// lists; `printing` writes the lines of the output. A support crate: its functions may have a `requires`.
#![tactic(auto)]

ghost use Rattle.std.specs.Prelude.{◌≡◌, [], ◌∷◌, ◌≤◌, eqb, length, take, drop, position};
ghost use Rattle.samtags.specs.Text.{up_to};
ghost use Rattle.samtags.specs.Edits.{same_bytes_of};
ghost use Rattle.lines.specs.Lines.{line_end, body_of};

// Where the first byte c is, if there is one.
fn first_of(text: &[u8], c: u8) -> Option<usize>
    ensures { result ≡ position (λ b. eqb b c) text.now }
{
    text.iter().position(|b| *b == c)
}

// From an index on, the bytes before the next byte c, or all that are left.
pub fn up_to(text: &[u8], from: usize, c: u8) -> &[u8]
    requires { from ≤ length text.now }
    ensures { result.now ≡ up_to c (drop from text.now) }
{
    let rest = &text[from..];
    let Some(n) = first_of(rest, c) else {
        return rest;
    };
    &rest[..n]
}

// The line that begins at an index, without its LF; the last line may have none.
pub fn next_line(input: &[u8], at: usize) -> &[u8]
    requires { at ≤ length input.now }
    ensures { result.now ≡ up_to line_end (drop at input.now) }
{
    up_to(input, at, b'\n')
}

// Whether the line begins with the two bytes of a mark.
pub fn has_mark(line: &[u8], a: u8, b: u8) -> bool
    ensures { result ≡ same_bytes_of (take 2 line.now) (a ∷ b ∷ []) }
{
    if line.len() < 2 {
        return false;
    }
    if line[0] != a {
        return false;
    }
    line[1] == b
}

// The bytes after the mark; none if the line is shorter than a mark.
pub fn body_of(line: &[u8]) -> &[u8]
    ensures { result.now ≡ body_of line.now }
{
    let end = line.len();
    if end < 2 {
        return &line[end..end];
    }
    &line[2..end]
}
