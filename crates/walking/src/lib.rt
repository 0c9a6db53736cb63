// The walk over an alignment's operations, forward or backward. It writes each base's place into a lent row. A support crate: its functions may have
// a `requires` (room, and places that an i64 holds); the public calls are in `alignment`.
#![tactic(auto)]

ghost use Rattle.std.specs.Prelude.{◌≡◌, ◌+◌, ◌<◌, ◌≤◌, ◌^◌, length, get_or, replicate};
ghost use Rattle.lent.specs.Filled.{over};
ghost use Rattle.cigar.specs.Cigar.{bases_taken, places_taken, query_length, reference_span, missing, placed};
ghost use Rattle.walking.specs.Walk.{in_order_of, outset, run, place_of, moved, walked, Reaches};

use cigar::{bases_taken, places_taken, reference_span, takes_places};

// ---- where the walk is

// Operation i in the walk's order.
fn word_at(cigar: &[u32], i: usize, is_reverse: bool) -> u32
    requires { i < length cigar.now }
    ensures { result ≡ get_or (in_order_of is_reverse cigar.now) i 0 }
{
    if is_reverse {
        return cigar[cigar.len() - i - 1];
    }
    cigar[i]
}

// The place where the walk begins. Backward, it is the place after the last one, so that a walk down to place 0 does not go below 0.
pub fn outset(cigar: &[u32], start: u64, is_reverse: bool) -> u64
    requires { start + reference_span cigar.now < 2 ^ 64 }
    ensures { result ≡ outset is_reverse cigar.now start }
{
    if is_reverse {
        return start + reference_span(cigar);
    }
    start
}

fn moved(place: u64, n: u64, is_reverse: bool) -> u64
    requires { Reaches is_reverse place n }
    ensures { result ≡ moved is_reverse place n }
{
    if is_reverse {
        return place - n;
    }
    place + n
}

// The place of base i of an operation that begins at `place`.
fn place_of(place: u64, i: u64, is_reverse: bool) -> i64
    requires { Reaches is_reverse place (i + 1) }
    ensures { result ≡ place_of is_reverse place i }
{
    if is_reverse {
        return (place - i - 1) as i64;
    }
    (place + i) as i64
}

// ---- what the walk writes

fn put_places(place: u64, n: usize, is_reverse: bool, out: &mut [i64])
    requires { (n ≤ length out.old) × Reaches is_reverse place n }
    ensures { out.new ≡ over (run is_reverse place n) out.old }
{
    for i in 0..n {
        let at = place_of(place, i as u64, is_reverse);
        out[i] = at;
    }
}

fn put_missing(n: usize, out: &mut [i64])
    requires { n ≤ length out.old }
    ensures { out.new ≡ over (replicate n missing) out.old }
{
    for i in 0..n {
        out[i] = -1;
    }
}

// Writes the places of one operation's bases to the front of `out`. An operation that takes no bases writes nothing, however long it is.
fn put_operation(word: u32, place: u64, is_reverse: bool, out: &mut [i64])
    requires { (bases_taken word ≤ length out.old) × Reaches is_reverse place (places_taken word) }
    ensures { out.new ≡ over (placed word (run is_reverse place (bases_taken word))) out.old }
{
    let n = bases_taken(word) as usize;
    if takes_places(word % 16) {
        put_places(place, n, is_reverse, out);
    } else {
        put_missing(n, out);
    }
}

// Walks over all operations from the outset on. Places without a base cost no time: a deletion of any length is one step.
pub fn walk(cigar: &[u32], outset: u64, is_reverse: bool, positions: &mut [i64])
    requires { (query_length cigar.now ≤ length positions.old) × Reaches is_reverse outset (reference_span cigar.now) }
    ensures { positions.new ≡ over (walked is_reverse outset (in_order_of is_reverse cigar.now)) positions.old }
{
    let mut place = outset;
    let mut at = 0;
    for i in 0..cigar.len() {
        let word = word_at(cigar, i, is_reverse);
        put_operation(word, place, is_reverse, &mut positions[at..]);
        place = moved(place, places_taken(word), is_reverse);
        at += bases_taken(word) as usize;
    }
}
