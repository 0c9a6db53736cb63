// One line of `tagedit` after the opening: its step is done on the session's own rows. A call answers the step's number and the session's lengths
// after it; None if the line is bad. A support crate: its functions may have a `requires`.
//
// The places of a mask or a drop are written directly from the line into a row, so that no list of them is held.
#![tactic(auto)]

ghost use Rattle.std.specs.Prelude.{◌≡◌, ◌≤◌, length, None, Some};
ghost use Rattle.samtags.specs.Session.{mask, drop_calls};
ghost use Rattle.stepping.specs.Steps.{Ordered, memory};
ghost use Rattle.lines.specs.Lines.{numbers_of, given, cut_of, step_of};
ghost use Rattle.answering.specs.Answers.{answer_of, LineAnswered};

use lent::Refusal;
use stepping::Lengths;

// A step's answer: 0 and the new lengths, or its number and the old lengths.
fn step_answer(step: Result<Lengths, Refusal>, before: Lengths) -> (usize, Lengths)
    ensures { result ≡ answer_of step before }
{
    match step {
        Ok(lengths) => (0, lengths),
        Err(refusal) => (refusal.number() as usize, before),
    }
}

// Masks: N at the listed places of SEQ.
fn mask_line(
    body: &[u8],
    seq: &mut [u8],
    mm: &mut [u8],
    ml: &mut [u8],
    has_ml: bool,
    lengths: Lengths,
) -> Option<(usize, Lengths)>
    requires { Ordered has_ml (memory seq.old mm.old ml.old lengths) × (length body.now ≤ 65536) }
    ensures { LineAnswered has_ml (given (numbers_of 4294967295 body.now) None (λ ns. Some (mask ns)))
        (memory seq.old mm.old ml.old lengths) result seq.new mm.new ml.new }
{
    let n = lengths.seq;
    let mut after = changing::no_marks();
    entries::put_all(&mut after, 0, &seq[0..n]);
    let good = operands::put_listed(body, &mut after, b'N');
    if !good {
        return None;
    }
    let step = masking::mask_to(seq, mm, ml, has_ml, lengths, &after[0..n]);
    Some(step_answer(step, lengths))
}

// Drops the calls at the listed places.
fn drop_line(
    body: &[u8],
    seq: &[u8],
    mm: &mut [u8],
    ml: &mut [u8],
    has_ml: bool,
    lengths: Lengths,
) -> Option<(usize, Lengths)>
    requires { Ordered has_ml (memory seq.now mm.old ml.old lengths) × (length body.now ≤ 65536) }
    ensures { LineAnswered has_ml (given (numbers_of 4294967295 body.now) None (λ ns. Some (drop_calls ns)))
        (memory seq.now mm.old ml.old lengths) result seq.now mm.new ml.new }
{
    let mut marks = changing::no_marks();
    let good = operands::put_listed(body, &mut marks, 1);
    if !good {
        return None;
    }
    let step = dropping::drop_marked(seq, mm, ml, has_ml, lengths, &marks);
    Some(step_answer(step, lengths))
}

// Cuts bases off the front and off the back.
fn cut_line(
    body: &[u8],
    seq: &mut [u8],
    mm: &mut [u8],
    ml: &mut [u8],
    has_ml: bool,
    lengths: Lengths,
) -> Option<(usize, Lengths)>
    requires { Ordered has_ml (memory seq.old mm.old ml.old lengths) × (length body.now ≤ 65536) }
    ensures { LineAnswered has_ml (given (numbers_of 4294967295 body.now) None cut_of)
        (memory seq.old mm.old ml.old lengths) result seq.new mm.new ml.new }
{
    let (front, back) = operands::read_ends(body)?;
    let step = cutting::cut_ends(seq, mm, ml, has_ml, lengths, front, back);
    Some(step_answer(step, lengths))
}

// Does the line's step and answers it. A line that asks for no step is bad; then nothing is promised about the rows.
pub fn answer_line(
    line: &[u8],
    seq: &mut [u8],
    mm: &mut [u8],
    ml: &mut [u8],
    has_ml: bool,
    lengths: Lengths,
) -> Option<(usize, Lengths)>
    requires { Ordered has_ml (memory seq.old mm.old ml.old lengths) × (length line.now ≤ 65536) }
    ensures { LineAnswered has_ml (step_of line.now)
        (memory seq.old mm.old ml.old lengths) result seq.new mm.new ml.new }
{
    let body = lines::body_of(line);
    let masks = lines::has_mark(line, b'M', b'K');
    if masks {
        return mask_line(body, seq, mm, ml, has_ml, lengths);
    }
    let drops = lines::has_mark(line, b'D', b'R');
    if drops {
        return drop_line(body, seq, mm, ml, has_ml, lengths);
    }
    let cuts = lines::has_mark(line, b'C', b'U');
    if cuts {
        return cut_line(body, seq, mm, ml, has_ml, lengths);
    }
    None
}
