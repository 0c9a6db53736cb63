// What the calls on a stored read share: the checks of its lengths, places counted from the other end, and the start of a window in read orientation.
// A support crate: its functions may have a `requires`; the public calls are in `stored`, `stored_edits` and `stored_session`.
//
// Here: places and starts. order: whether lengths are in order.
#![tactic(auto)]

pub mod order;

ghost use Rattle.std.specs.Prelude.{◌≡◌, true, [], ◌∷◌, map, ◌-◌, ◌≤◌};
ghost use Rattle.changing.specs.Windows.{stored_at};
ghost use Rattle.packed.specs.Stored.{mirrored, places_in_read, start_in_read};

// Writes a byte at the mirror of a place. Places past the end do nothing.
fn put_mirrored(row: &mut [u8], n: usize, place: usize, b: u8)
    ensures { row.new ≡ stored_at b (places_in_read true n (place ∷ [])) row.old }
{
    if n <= place {
        return;
    }
    numbers::put(row, n - 1 - place, b);
}

// Writes a byte at the mirrors of the places of a list, of any length and order: each place is mirrored as it is marked, so that no list is copied.
fn mark_mirrored(places: &[u32], n: usize, row: &mut [u8], b: u8)
    ensures { row.new ≡ stored_at b (places_in_read true n places.now) row.old }
{
    for &place in places {
        put_mirrored(row, n, place as usize, b);
    }
}

// Writes a byte at places that are counted in a stored read of n bases, into a row in read orientation.
pub fn mark_in_read(places: &[u32], n: usize, reverse: bool, row: &mut [u8], b: u8)
    ensures { row.new ≡ stored_at b (places_in_read reverse n places.now) row.old }
{
    if reverse {
        mark_mirrored(places, n, row, b);
        return;
    }
    changing::mark_places(places, row, b);
}

// A place counted from the other end; 0 past the end, where no listed place is.
fn mirror(bases: u32, place: u32) -> u32
    ensures { result ≡ mirrored bases place }
{
    if bases <= place {
        return 0;
    }
    bases - 1 - place
}

// Mirrors each place of a list.
pub fn mirror_all(places: &mut [u32], n: usize)
    requires { n ≤ 16000 }
    ensures { places.new ≡ map (mirrored n) places.old }
{
    let bases = n as u32;
    for place in places.iter_mut() {
        *place = mirror(bases, *place);
    }
}

// The start of a window of k bases, counted from the other end; unknown if the window does not fit.
fn start_mirrored(start: Option<usize>, n: usize, k: usize) -> Option<usize>
    ensures { result ≡ start_in_read true n k start }
{
    let Some(s) = start else {
        return None;
    };
    if n < k {
        return None;
    }
    if n - k < s {
        return None;
    }
    Some(n - k - s)
}

// The start of a window of k bases in a stored read of n bases, in read orientation.
pub fn start_in_read(start: Option<usize>, reverse: bool, n: usize, k: usize) -> Option<usize>
    ensures { result ≡ start_in_read reverse n k start }
{
    if reverse {
        return start_mirrored(start, n, k);
    }
    start
}
