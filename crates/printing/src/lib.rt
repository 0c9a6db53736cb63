// Writes lines into `tagedit`'s output from an index on, as far as the room reaches; each function returns the index after what it writes. A support
// crate: its functions may have a `requires`.
#![tactic(auto)]

ghost use Rattle.std.specs.Prelude.{◌≡◌, [], ◌∷◌, ◌++◌, ◌+◌, ◌≤◌, length};
ghost use Rattle.std.proofs.lemmas.List.Edits.{sets};
ghost use Rattle.lines.specs.Lines.{line_of, line_end, answer_line, decimals};

// Writes the mark, the body, and LF.
pub fn put_line(out: &mut [u8], at: usize, a: u8, b: u8, body: &[u8]) -> usize
    requires { (at ≤ 16777216) × (length body.now ≤ 16777216) }
    ensures { (result ≡ at + length (a ∷ b ∷ body.now ++ line_end ∷ []))
        × (out.new ≡ sets out.old at (a ∷ b ∷ body.now ++ line_end ∷ [])) }
{
    numbers::put(out, at, a);
    numbers::put(out, at + 1, b);
    let end = entries::put_all(out, at + 2, body);
    numbers::put(out, end, b'\n'); // each line ends in LF
    end + 1
}

// Writes the line of an answer's number.
pub fn put_answer(out: &mut [u8], at: usize, number: usize) -> usize
    requires { (at ≤ 16777216) × (number ≤ 255) }
    ensures { (result ≡ at + length (answer_line number)) × (out.new ≡ sets out.old at (answer_line number)) }
{
    numbers::put(out, at, b'A');
    numbers::put(out, at + 1, b'N');
    let end = numbers::put_decimal(out, at + 2, number);
    numbers::put(out, end, b'\n');
    end + 1
}

// Writes decimals separated by commas.
fn put_decimals(out: &mut [u8], at: usize, values: &[u8]) -> usize
    requires { (at ≤ 16777216) × (length values.now ≤ 65536) }
    ensures { (result ≡ at + length (decimals values.now))
        × (out.new ≡ sets out.old at (decimals values.now)) × (result ≤ at + 33554432) }
{
    if values.len() == 0 {
        return at;
    }
    let mut end = numbers::put_decimal(out, at, values[0] as usize);
    for &value in &values[1..] {
        end = entries::put_skip(out, end, value as usize);
    }
    end
}

// Writes the line of an ML.
pub fn put_values_line(out: &mut [u8], at: usize, values: &[u8]) -> usize
    requires { (at ≤ 8388608) × (length values.now ≤ 65536) }
    ensures { (result ≡ at + length (line_of "ML" (decimals values.now)))
        × (out.new ≡ sets out.old at (line_of "ML" (decimals values.now))) }
{
    numbers::put(out, at, b'M');
    numbers::put(out, at + 1, b'L');
    let end = put_decimals(out, at + 2, values);
    numbers::put(out, end, b'\n');
    end + 1
}
