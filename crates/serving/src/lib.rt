// Answers the lines of `tagedit`'s input that follow the opening, and writes the session's contents at the end. A support crate: its functions may
// have a `requires`; the public call is in `transcript`.
#![tactic(auto)]

ghost use Rattle.std.specs.Prelude.{◌≡◌, ◌+◌, ◌≤◌, length, drop};
ghost use Rattle.std.proofs.lemmas.List.Edits.{sets};
ghost use Rattle.samtags.specs.Session.{held_in};
ghost use Rattle.stepping.specs.Steps.{Ordered, memory};
ghost use Rattle.lines.specs.Lines.{lines_of};
ghost use Rattle.serving.specs.Serving.{closing, after_opening};

use stepping::Lengths;

// Writes the session's contents at the end: SEQ, the MM text, and the ML if one was given.
fn put_closing(
    out: &mut [u8],
    at: usize,
    seq: &[u8],
    mm: &[u8],
    ml: &[u8],
    has_ml: bool,
    lengths: Lengths,
) -> usize
    requires { Ordered has_ml (memory seq.now mm.now ml.now lengths) × (at ≤ 81925) }
    ensures { let said = closing has_ml (held_in (memory seq.now mm.now ml.now lengths)) in
        (result ≡ at + length said) × (out.new ≡ sets out.old at said) }
{
    let bases = lengths.seq;
    let text = lengths.mm;
    let values = lengths.ml;
    let after_seq = printing::put_line(out, at, b'S', b'Q', &seq[0..bases]);
    let after_mm = printing::put_line(out, after_seq, b'M', b'M', &mm[0..text]);
    if has_ml {
        return printing::put_values_line(out, after_mm, &ml[0..values]);
    }
    after_mm
}

// Answers the lines from an index on, and writes the session's contents at the end. A bad line ends the output; a refused step does not.
pub fn answer_rest(
    input: &[u8],
    from: usize,
    seq: &mut [u8],
    mm: &mut [u8],
    ml: &mut [u8],
    has_ml: bool,
    lengths: Lengths,
    out: &mut [u8],
    at: usize,
) -> usize
    requires { Ordered has_ml (memory seq.old mm.old ml.old lengths) × (length input.now ≤ 65536) × (from ≤ 65538)
        × (at + length (after_opening has_ml (lines_of (drop from input.now)) (held_in (memory seq.old mm.old ml.old lengths))) ≤ 81925) }
    ensures { let said = after_opening has_ml (lines_of (drop from input.now))
        (held_in (memory seq.old mm.old ml.old lengths)) in
        (result ≡ at + length said) × (out.new ≡ sets out.old at said) }
{
    let mut place = from;
    let mut end = at;
    let mut held = lengths;
    // A cursor, not a count: a line is as long as it is.
    while place < input.len() {
        let line = lines::next_line(input, place);
        let Some((number, next)) = answering::answer_line(line, seq, mm, ml, has_ml, held) else {
            return printing::put_answer(out, end, 13);
        };
        end = printing::put_answer(out, end, number);
        held = next;
        place = place + line.len() + 1;
    }
    put_closing(out, end, seq, mm, ml, has_ml, held)
}
