// The entries of a group: reads an entry against SEQ, and writes it into the rows as the edit leaves it. A support crate: its functions may have a `requires`.
#![tactic(auto)]

ghost use Rattle.std.specs.Prelude.{◌≡◌, cond, ◌||◌, ◌+◌, ◌-◌, ◌≤◌, min, length};
ghost use Rattle.std.proofs.lemmas.List.Edits.{sets};
ghost use Rattle.samtags.specs.Decimal.{value};
ghost use Rattle.samtags.specs.Reading.{read_entry, values_if};
ghost use Rattle.samtags.specs.Text.{base_of, ends_in_question};
ghost use Rattle.samtags.specs.Writing.{entry_text};
ghost use Rattle.strides.specs.Counts.{Told, between, held_between};
ghost use Rattle.places.specs.Walk.{tracked_from};
ghost use Rattle.entries.specs.Answers.{reached_says, past_by};
ghost use Rattle.changing.specs.Drafts.{passing, with_passed, draft, entry_put};
ghost use Rattle.changing.specs.Windows.{held_in, is_marked, denied_in};

use lent::Refusal;
use places::{Ordinal, Place};
use strides::{Stride, Window};

// What a group's header says of each entry: the base that it counts, how many values of ML it takes, and whether the group may lose a call.
#[derive(Clone, Copy)]
pub struct Kind {
    pub base: u8,
    pub values: usize,
    pub may_drop: bool,
}

// The kind of a group's entries. Without ML no value is taken.
pub fn kind_of(has_ml: bool, header: &[u8]) -> Kind
    requires { 2 ≤ length header.now }
    ensures { (result.base ≡ base_of header.now) × (result.values ≡ values_if has_ml header.now)
        × (result.may_drop ≡ ends_in_question header.now) }
{
    let values = headers::values_if(has_ml, header);
    let base = headers::base_of(header);
    let may_drop = headers::ends_in_question(header);
    Kind {
        base,
        values,
        may_drop,
    }
}

fn one_more(n: Ordinal, yes: bool) -> Ordinal
    requires { n.0 ≤ 4294967296 }
    ensures { result.0 ≡ n.0 + cond yes 1 0 }
{
    if yes {
        return Ordinal(n.0 + 1);
    }
    n
}

// Where a walk may begin: after whole blocks, if there are more than a few bases to pass and the base is not 'N'; else at `from`.
fn ahead(seq: &[u8], after: &[u8], window: Window, base: u8, from: usize, skip: usize) -> Stride
    requires { (from ≤ length seq.now) × (length seq.now ≤ 16000) × Told window after.now seq.now }
    ensures { (from ≤ result.place) × (result.place ≤ length seq.now) × (result.passed ≤ skip)
        × (result.passed ≡ length (between base seq.now from result.place))
        × (result.held ≡ held_between window.lo after.now base seq.now from result.place) }
{
    if skip < 6 || base == b'N' {
        return Stride {
            place: from,
            passed: 0,
            held: 0,
        };
    }
    strides::pass_blocks(seq, after, window, base, from, skip)
}

// Whether a passed base of SEQ is still of its kind. If nothing changed, the base is not looked at again.
fn stays(after: &[u8], window: Window, base: u8, place: Place) -> bool
    ensures { result ≡ (window.same || held_in window.lo after.now base place.0) }
{
    if window.same {
        return true;
    }
    changing::still_held(base, after, window.lo, place)
}

// From a place on, passes `skip` of the group's bases: the place of the next one, and how many of the passed ones are still held. A base that is gone
// counts in no skip. 7 if SEQ has too few bases.
pub fn pass_tracked(
    seq: &[u8],
    after: &[u8],
    window: Window,
    base: u8,
    from: Place,
    skip: Ordinal,
) -> Result<(Place, Ordinal), Refusal>
    requires { (from.0 ≤ length seq.now) × (length seq.now ≤ 16000) × Told window after.now seq.now }
    ensures { reached_says result
        ≡ passing (held_in window.lo after.now base) 0 skip.0 (tracked_from base from.0 seq.now) }
{
    let start = ahead(seq, after, window, base, from.0, skip.0);
    let mut ordinal = Ordinal(start.passed);
    let mut held = Ordinal(start.held);
    for at in start.place..seq.len() {
        let hit = strides::counts(base, seq[at]);
        if hit {
            if ordinal.0 == skip.0 {
                return Ok((Place(at), held));
            }
            ordinal = Ordinal(ordinal.0 + 1);
            let still = stays(after, window, base, Place(at));
            held = one_more(held, still);
        }
    }
    Err(Refusal::SkipTooFar)
}

// Reads an entry, from a place on and with `left` values of ML left: 6 if its field is no number, 7 if SEQ has too few bases for it, 8 if some of its
// values are missing, 10 if the edit drops its call and the group may lose none.
pub fn read_entry(
    seq: &[u8],
    after: &[u8],
    marks: &[u8],
    field: &[u8],
    window: Window,
    kind: Kind,
    from: Place,
    left: usize,
) -> Result<(Place, Ordinal), Refusal>
    requires { (from.0 ≤ length seq.now) × (length seq.now ≤ 16000) × Told window after.now seq.now }
    ensures { reached_says result
        ≡ with_passed (held_in window.lo after.now kind.base) (value field.now)
        (tracked_from kind.base from.0 seq.now)
        (read_entry kind.values (denied_in marks.now kind.may_drop) field.now
        (tracked_from kind.base from.0 seq.now) left) }
{
    let skip = numbers::read_skip(field, 16001)?;
    let (place, passed) = pass_tracked(seq, after, window, kind.base, from, Ordinal(skip))?;
    if left < kind.values {
        return Err(Refusal::MlTooShort);
    }
    let denied = changing::is_denied(marks, kind.may_drop, place);
    if denied {
        return Err(Refusal::DropWithoutMark);
    }
    Ok((place, passed))
}

// How many of `bytes` bytes a row has room for, from an index on.
fn fitting(room: usize, at: usize, bytes: usize) -> usize
    ensures { result ≡ min bytes (room - at) }
{
    bytes.min(room.saturating_sub(at))
}

// Writes bytes from an index on, as far as the room reaches, and returns the index after them.
pub fn put_all(out: &mut [u8], at: usize, bytes: &[u8]) -> usize
    requires { (at ≤ 4294967296) × (length bytes.now ≤ 4294967296) }
    ensures { (result ≡ at + length bytes.now) × (out.new ≡ sets out.old at bytes.now) }
{
    let n = fitting(out.len(), at, bytes.len());
    for i in 0..n {
        out[at + i] = bytes[i];
    }
    at + bytes.len()
}

// Writes a comma and the skip, as far as the room reaches, and returns the index after them.
pub fn put_skip(out: &mut [u8], at: usize, skip: usize) -> usize
    requires { at ≤ 4294967295 }
    ensures { (result ≡ at + length (entry_text skip)) × (out.new ≡ sets out.old at (entry_text skip)) }
{
    numbers::put(out, at, b',');
    numbers::put_decimal(out, at + 1, skip)
}

// The end of the written part of each row, and how many of the group's bases were passed since the last call that stays.
#[derive(Clone, Copy)]
pub struct Pen {
    pub end: usize,
    pub kept: usize,
    pub gap: usize,
}

impl Pen {
    // The pen after `passed` more bases.
    pub fn past(self, passed: Ordinal) -> Pen
        requires { self.gap + passed.0 ≤ 4294967296 }
        ensures { result ≡ past_by self passed.0 }
    {
        Pen {
            end: self.end,
            kept: self.kept,
            gap: self.gap + passed.0,
        }
    }
}

// Writes a call as the edit leaves it: listed with its values; or dropped, so that its base counts in the next skip; or gone with its base.
pub fn put_entry(
    after: &[u8],
    marks: &[u8],
    window: Window,
    kind: Kind,
    place: Place,
    values: &[u8],
    pen: Pen,
    out: &mut [u8],
    ml_out: &mut [u8],
) -> Pen
    requires { (pen.end ≤ 1048576) × (pen.kept ≤ 1048576) × (pen.gap ≤ 1048576) × (length values.now ≤ 1048576) }
    ensures { entry_put (held_in window.lo after.now kind.base place.0) (is_marked marks.now place.0)
        (draft out.old pen.end ml_out.old pen.kept) pen.gap values.now
        ≡ (draft out.new result.end ml_out.new result.kept, result.gap) }
{
    let held = changing::still_held(kind.base, after, window.lo, place);
    if !held {
        return pen;
    }
    let end = pen.end;
    let kept = pen.kept;
    let gap = pen.gap;
    let named = changing::is_named(marks, place);
    if named {
        return Pen {
            end,
            kept,
            gap: gap + 1,
        };
    }
    let next_end = put_skip(out, end, gap);
    let next_kept = put_all(ml_out, kept, values);
    Pen {
        end: next_end,
        kept: next_kept,
        gap: 0,
    }
}
