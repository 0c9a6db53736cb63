// Writes one field of the new record, as far as its row reaches, by the plan's number for it. A support crate: its functions may have a `requires`; the
// public calls are in `record`.
//
// Two parts of one row cannot be lent at once. So the walk over a tag writes straight to its place what comes first, the text of MM or the values of ML, and
// the other into a work row. That is copied from there, if the work row has room for it; else the walk runs once more.
#![tactic(auto)]

ghost use Rattle.std.specs.Prelude.{◌≡◌, false, true, [], ◌∷◌, ℕ, ◌+◌, ◌*◌, ◌≤◌, ◌<◌, length, take};
ghost use Rattle.lent.specs.Answers.{is_done};
ghost use Rattle.lent.specs.Lists.{among};
ghost use Rattle.record_fields.specs.Spots.{part};
ghost use Rattle.record_tags.specs.Changes.{applied, length_set};
ghost use Rattle.record_tags.specs.Plans.{PAIRED, VALUES, by_window, is_ready, means, queue_by};
ghost use Rattle.record_tags.specs.Values.{text_of, with_text, with_values};
ghost use Rattle.record_pieces.specs.Pens.{Waiting, Wrote, text_in, values_in};
ghost use Rattle.samtags.specs.Bytes.{ascii};

use record_fields::sizes::put_word;
use record_rows::put_bytes;
use record_tags::{ALONE, GOES, GOES_THEN_LENGTH, LENGTH, PAIRED, VALUES};

// The end of the written part, and how many bytes of the edited tag wait in the work row: its values, its text, or neither.
#[derive(Clone, Copy)]
pub struct Pen {
    pub end: usize,
    pub kept: usize,
    pub values: bool,
    pub text: bool,
}

// Writes a text that is edited without ML.
fn put_alone(
    bam: &[u8],
    at: usize,
    size: usize,
    seq: &[u8],
    after: &[u8],
    marks: &[u8],
    lo: usize,
    out: &mut [u8],
    end: usize,
) -> usize
    requires size_in_bounds { (at + size ≤ length bam.now) × (4 ≤ size) × (end + 2 * size < 18446744073709551616) × (length seq.now ≤ 16000) }
    requires size_value { (is_done (by_window lo after.now marks.now seq.now false (text_of (part bam.now at size)) []) ≡ true)
        × (length (text_of (part bam.now at size)) ≤ 65536) }
    ensures { Wrote (with_text
        (text_in (by_window lo after.now marks.now seq.now false (text_of (part bam.now at size)) []))
        (part bam.now at size) ∷ []) end out.old result out.new }
{
    let from = put_bytes(out, end, &bam[at..at + 3]);
    let no_ml: [u8; 0] = [];
    let mut no_values: [u8; 0] = [];
    let put = record_rows::put_tag(
        seq,
        after,
        marks,
        &bam[at + 3..at + size - 1],
        &no_ml,
        lo,
        false,
        out,
        from,
        &mut no_values,
    );
    let last = from + put.text;
    numbers::put(out, last, 0);
    last + 1
}

// Writes the text of MM by a walk over the tag. The values wait in the work row.
fn walk_text(
    bam: &[u8],
    at: usize,
    mm: &[u8],
    ml: &[u8],
    seq: &[u8],
    after: &[u8],
    marks: &[u8],
    lo: usize,
    out: &mut [u8],
    end: usize,
    work: &mut [u8],
) -> Pen
    requires at_in_bounds { (at + 4 ≤ length bam.now) × (end + length mm.now + 4 < 18446744073709551616) × (length seq.now ≤ 16000)
        × (length mm.now ≤ 65536) × (length ml.now ≤ 65536) }
    requires ml_value { is_done (by_window lo after.now marks.now seq.now true mm.now ml.now) ≡ true }
    ensures { ((size : ℕ) → 4 ≤ size → Wrote (with_text
        (text_in (by_window lo after.now marks.now seq.now true mm.now ml.now))
        (part bam.now at size) ∷ []) end out.old result.end out.new)
        × Waiting (by_window lo after.now marks.now seq.now true mm.now ml.now) result work.new }
{
    let from = put_bytes(out, end, &bam[at..at + 3]);
    let put = record_rows::put_tag(seq, after, marks, mm, ml, lo, true, out, from, work);
    let last = from + put.text;
    numbers::put(out, last, 0);
    Pen {
        end: last + 1,
        kept: put.values,
        values: put.values <= work.len(),
        text: false,
    }
}

// Writes ML by a walk over the tag. The text waits in the work row.
fn walk_array(
    bam: &[u8],
    at: usize,
    mm: &[u8],
    ml: &[u8],
    seq: &[u8],
    after: &[u8],
    marks: &[u8],
    lo: usize,
    out: &mut [u8],
    end: usize,
    work: &mut [u8],
) -> Pen
    requires at_in_bounds { (at + 4 ≤ length bam.now) × (end + length ml.now + 8 < 18446744073709551616) × (length seq.now ≤ 16000)
        × (length mm.now ≤ 65536) × (length ml.now ≤ 65536) }
    requires ml_value { is_done (by_window lo after.now marks.now seq.now true mm.now ml.now) ≡ true }
    ensures { ((size : ℕ) → 4 ≤ size → Wrote (with_values
        (values_in (by_window lo after.now marks.now seq.now true mm.now ml.now))
        (part bam.now at size) ∷ []) end out.old result.end out.new)
        × Waiting (by_window lo after.now marks.now seq.now true mm.now ml.now) result work.new }
{
    let from = put_bytes(out, end, &bam[at..at + 4]);
    let put = record_rows::put_values(seq, after, marks, mm, ml, lo, out, from + 4, work);
    put_word(out, from, put.values);
    Pen {
        end: from + 4 + put.values,
        kept: put.text,
        values: false,
        text: put.text <= work.len(),
    }
}

// Writes MM with the text that waits in the work row.
fn copy_text(bam: &[u8], at: usize, work: &[u8], kept: usize, out: &mut [u8], end: usize) -> usize
    requires { (at + 4 ≤ length bam.now) × (kept ≤ length work.now) × (end + kept + 4 < 18446744073709551616) }
    ensures { (size : ℕ) → 4 ≤ size → Wrote (with_text (take kept work.now) (part bam.now at size) ∷ [])
        end out.old result out.new }
{
    let from = put_bytes(out, end, &bam[at..at + 3]);
    let last = put_bytes(out, from, &work[0..kept]);
    numbers::put(out, last, 0);
    last + 1
}

// Writes ML with the values that wait in the work row.
fn copy_array(bam: &[u8], at: usize, work: &[u8], kept: usize, out: &mut [u8], end: usize) -> usize
    requires { (at + 4 ≤ length bam.now) × (kept ≤ length work.now) × (kept ≤ 65536) × (end + kept + 8 < 18446744073709551616) }
    ensures { (size : ℕ) → 4 ≤ size → Wrote (with_values (take kept work.now) (part bam.now at size) ∷ [])
        end out.old result out.new }
{
    let from = put_bytes(out, end, &bam[at..at + 4]);
    put_word(out, from, kept);
    put_bytes(out, from + 4, &work[0..kept])
}

// Writes the text of MM, edited with its ML: the text that waits, or else by a walk.
fn put_text(
    bam: &[u8],
    at: usize,
    mm: &[u8],
    ml: &[u8],
    seq: &[u8],
    after: &[u8],
    marks: &[u8],
    lo: usize,
    pen: Pen,
    out: &mut [u8],
    work: &mut [u8],
) -> Pen
    requires at_in_bounds { (at + 4 ≤ length bam.now) × (pen.end + length mm.now + 4 < 18446744073709551616) × (length seq.now ≤ 16000)
        × (length mm.now ≤ 65536) × (length ml.now ≤ 65536) }
    requires ml_value { is_done (by_window lo after.now marks.now seq.now true mm.now ml.now) ≡ true }
    requires waiting { Waiting (by_window lo after.now marks.now seq.now true mm.now ml.now) pen work.old }
    ensures { ((size : ℕ) → 4 ≤ size → Wrote (with_text
        (text_in (by_window lo after.now marks.now seq.now true mm.now ml.now))
        (part bam.now at size) ∷ []) pen.end out.old result.end out.new)
        × Waiting (by_window lo after.now marks.now seq.now true mm.now ml.now) result work.new }
{
    if pen.text {
        let end = copy_text(bam, at, work, pen.kept, out, pen.end);
        return Pen {
            end,
            kept: pen.kept,
            values: pen.values,
            text: pen.text,
        };
    }
    walk_text(bam, at, mm, ml, seq, after, marks, lo, out, pen.end, work)
}

// Writes ML with the values of the edited tag: those that wait, or else by a walk.
fn put_array(
    bam: &[u8],
    at: usize,
    mm: &[u8],
    ml: &[u8],
    seq: &[u8],
    after: &[u8],
    marks: &[u8],
    lo: usize,
    pen: Pen,
    out: &mut [u8],
    work: &mut [u8],
) -> Pen
    requires at_in_bounds { (at + 4 ≤ length bam.now) × (pen.end + length ml.now + 8 < 18446744073709551616) × (length seq.now ≤ 16000)
        × (length mm.now ≤ 65536) × (length ml.now ≤ 65536) }
    requires ml_value { is_done (by_window lo after.now marks.now seq.now true mm.now ml.now) ≡ true }
    requires waiting { Waiting (by_window lo after.now marks.now seq.now true mm.now ml.now) pen work.old }
    ensures { ((size : ℕ) → 4 ≤ size → Wrote (with_values
        (values_in (by_window lo after.now marks.now seq.now true mm.now ml.now))
        (part bam.now at size) ∷ []) pen.end out.old result.end out.new)
        × Waiting (by_window lo after.now marks.now seq.now true mm.now ml.now) result work.new }
{
    if pen.values {
        let end = copy_array(bam, at, work, pen.kept, out, pen.end);
        return Pen {
            end,
            kept: pen.kept,
            values: pen.values,
            text: pen.text,
        };
    }
    walk_array(bam, at, mm, ml, seq, after, marks, lo, out, pen.end, work)
}

// Whether a field of this type is an integer.
pub fn is_integer(kind: u8) -> bool
    ensures { result ≡ among (ascii "cCsSiI") kind }
{
    if kind == b'c' {
        return true;
    }
    if kind == b'C' {
        return true;
    }
    if kind == b's' {
        return true;
    }
    if kind == b'S' {
        return true;
    }
    if kind == b'i' {
        return true;
    }
    if kind == b'I' {
        return true;
    }
    false
}

// Writes MN: an integer becomes the length of SEQ.
fn put_length(bam: &[u8], at: usize, size: usize, bases: usize, out: &mut [u8], end: usize) -> usize
    requires { (at + size ≤ length bam.now) × (4 ≤ size) × (end + 2 * size < 18446744073709551616) × (bases ≤ 16000) }
    ensures { Wrote (length_set bases (part bam.now at size)) end out.old result out.new }
{
    let integer = is_integer(bam[at + 2]);
    if integer {
        let from = put_bytes(out, end, &bam[at..at + 2]);
        numbers::put(out, from, b'i');
        put_word(out, from + 1, bases);
        return from + 5;
    }
    put_bytes(out, end, &bam[at..at + size])
}

// Writes what becomes of a field by the plan's number for it, unless it is MM or ML and edited with the other: then neither of them matters.
fn put_other(
    bam: &[u8],
    at: usize,
    size: usize,
    number: u8,
    bases: usize,
    seq: &[u8],
    after: &[u8],
    marks: &[u8],
    lo: usize,
    out: &mut [u8],
    end: usize,
) -> usize
    requires size_in_bounds { (at + size ≤ length bam.now) × (4 ≤ size) × (end + 2 * size < 18446744073709551616) × (length seq.now ≤ 16000)
        × (bases ≤ 16000) × (number ≡ PAIRED → ⊥) × (number ≡ VALUES → ⊥) }
    requires size_value { is_ready (means (by_window lo after.now marks.now seq.now) [] [] bases) number (part bam.now at size) ≡ true }
    ensures { Wrote (applied (queue_by (means (by_window lo after.now marks.now seq.now) [] [] bases) number)
        (part bam.now at size)) end out.old result out.new }
{
    if number == GOES {
        return end;
    }
    if number == GOES_THEN_LENGTH {
        return end;
    }
    if number == ALONE {
        return put_alone(bam, at, size, seq, after, marks, lo, out, end);
    }
    if number == LENGTH {
        return put_length(bam, at, size, bases, out, end);
    }
    put_bytes(out, end, &bam[at..at + size])
}

// Writes what becomes of a field by the plan's number for it.
pub fn put_field(
    bam: &[u8],
    at: usize,
    size: usize,
    number: u8,
    mm: &[u8],
    ml: &[u8],
    bases: usize,
    seq: &[u8],
    after: &[u8],
    marks: &[u8],
    lo: usize,
    pen: Pen,
    out: &mut [u8],
    work: &mut [u8],
) -> Pen
    requires size_in_bounds { (at + size ≤ length bam.now) × (4 ≤ size) × (pen.end + 2 * size < 18446744073709551616) × (length seq.now ≤ 16000)
        × (length mm.now ≤ 65536) × (length ml.now ≤ 65536) × (bases ≤ 16000) }
    requires size_value { is_ready (means (by_window lo after.now marks.now seq.now) mm.now ml.now bases) number (part bam.now at size) ≡ true }
    requires waiting { Waiting (by_window lo after.now marks.now seq.now true mm.now ml.now) pen work.old }
    ensures { Wrote (applied (queue_by (means (by_window lo after.now marks.now seq.now)
        mm.now ml.now bases) number) (part bam.now at size)) pen.end out.old result.end out.new
        × Waiting (by_window lo after.now marks.now seq.now true mm.now ml.now) result work.new }
{
    if number == PAIRED {
        return put_text(bam, at, mm, ml, seq, after, marks, lo, pen, out, work);
    }
    if number == VALUES {
        return put_array(bam, at, mm, ml, seq, after, marks, lo, pen, out, work);
    }
    let end = put_other(
        bam, at, size, number, bases, seq, after, marks, lo, out, pen.end,
    );
    Pen {
        end,
        kept: pen.kept,
        values: pen.values,
        text: pen.text,
    }
}
