// The walk over the bases that a group counts. An ordinal counts these bases, a place counts the bytes of SEQ; each has its own type. A support
// crate: its functions may have a `requires`.
#![tactic(auto)]

ghost use Rattle.std.specs.Prelude.{◌≡◌, ◌≤◌, length, drop};
ghost use Rattle.strides.specs.Counts.{between};
ghost use Rattle.places.specs.Answers.{found_says, entry_says};
ghost use Rattle.places.specs.Walk.{first_of, tracked_from, entry_at};

use lent::Refusal;
use strides::{Stride, Window};

// How many of the group's bases were passed.
#[derive(Clone, Copy)]
pub struct Ordinal(pub usize);

// A place in SEQ.
#[derive(Clone, Copy)]
pub struct Place(pub usize);

// Where a walk may begin: after whole blocks, if there are more than a few bases to pass and the base is not 'N'; else at `from`.
fn ahead(seq: &[u8], base: u8, from: usize, skip: usize) -> Stride
    requires { (from ≤ length seq.now) × (length seq.now ≤ 16000) }
    ensures { (from ≤ result.place) × (result.place ≤ length seq.now) × (result.passed ≤ skip)
        × (result.passed ≡ length (between base seq.now from result.place)) }
{
    if skip < 6 || base == b'N' {
        return Stride {
            place: from,
            passed: 0,
            held: 0,
        };
    }
    let whole = Window { lo: 0, same: true };
    strides::pass_blocks(seq, seq, whole, base, from, skip)
}

// From a place on, passes `skip` of the group's bases and returns the place of the next one.
pub fn next_tracked(seq: &[u8], base: u8, from: Place, skip: Ordinal) -> Option<Place>
    requires { (from.0 ≤ length seq.now) × (length seq.now ≤ 16000) }
    ensures { found_says result ≡ first_of (drop skip.0 (tracked_from base from.0 seq.now)) }
{
    let start = ahead(seq, base, from.0, skip.0);
    let mut ordinal = Ordinal(start.passed);
    for at in start.place..seq.len() {
        let hit = strides::counts(base, seq[at]);
        if hit {
            if ordinal.0 == skip.0 {
                return Some(Place(at));
            }
            ordinal = Ordinal(ordinal.0 + 1);
        }
    }
    None
}

// The base that an entry lists, from a place on: 6 if its field is no number, 7 if SEQ has too few bases for it.
pub fn find_entry(seq: &[u8], base: u8, field: &[u8], from: Place) -> Result<Place, Refusal>
    requires { (length seq.now ≤ 16000) × (from.0 ≤ length seq.now) }
    ensures { entry_says result ≡ entry_at field.now (tracked_from base from.0 seq.now) }
{
    // A field's reading gives a skip or a refusal, and is taken apart at once.
    let Ok(skip) = numbers::read_skip(field, 16001) else {
        return Err(Refusal::BadSkip);
    };
    let Some(place) = next_tracked(seq, base, from, Ordinal(skip)) else {
        return Err(Refusal::SkipTooFar);
    };
    Ok(place)
}
