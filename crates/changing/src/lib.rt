// The one form of edit that the rewriting calls and the steps of a session share: SEQ became `after`, which begins at place `lo` of the old SEQ, and
// the calls at the marked places are dropped. A support crate: its functions may have a `requires`.
#![tactic(auto)]

ghost use Rattle.std.specs.Prelude.{◌≡◌};
ghost use Rattle.changing.specs.Windows.{held_in, is_marked, denied_in, Unmarked, stored_at};

use places::Place;
use strides::counts;

// Whether the base at a place is still of its kind.
pub fn still_held(base: u8, after: &[u8], lo: usize, place: Place) -> bool
    ensures { result ≡ held_in lo after.now base place.0 }
{
    let p = place.0;
    if p < lo {
        return false;
    }
    let d = p - lo;
    if after.len() <= d {
        return false;
    }
    counts(base, after[d])
}

// Whether the call at a place is to be dropped. Places past the row's end are not marked.
pub fn is_named(marks: &[u8], place: Place) -> bool
    ensures { result ≡ is_marked marks.now place.0 }
{
    let p = place.0;
    if marks.len() <= p {
        return false;
    }
    marks[p] != 0
}

// Whether a call at the place is to be dropped, in a group that may lose none: without the call the group would say "unmodified".
pub fn is_denied(marks: &[u8], may_drop: bool, place: Place) -> bool
    ensures { result ≡ denied_in marks.now may_drop place.0 }
{
    if may_drop {
        return false;
    }
    is_named(marks, place)
}

// A row as long as SEQ may be, without a mark.
pub fn no_marks() -> [u8; 16000]
    ensures { Unmarked 16000 result }
{
    [0; 16000]
}

// A row without a mark, for a SEQ of at most 1,024 bases. For a short SEQ, clearing the longer row would be much of the work.
pub fn few_marks() -> [u8; 1024]
    ensures { Unmarked 1024 result }
{
    [0; 1024]
}

// Writes a byte at the places of a list, of any length and order. Places past the row's end do nothing.
pub fn mark_places(places: &[u32], row: &mut [u8], b: u8)
    ensures { row.new ≡ stored_at b places.now row.old }
{
    for &p in places {
        numbers::put(row, p as usize, b);
    }
}
