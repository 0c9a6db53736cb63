// Compares SEQ after an edit with SEQ before it: whether they are the same, and whether the edited SEQ is a window of the old one. A support crate:
// its functions may have a `requires`.
#![tactic(auto)]

ghost use Rattle.std.specs.Prelude.{◌≡◌, ◌+◌, ◌≤◌, ◌&&◌, ◌||◌, leb, eqb, length, take, drop};
ghost use Rattle.samtags.specs.Edits.{same_bytes_of, is_masked, lies_in};
ghost use Rattle.strides.specs.Counts.{Told};

use strides::Window;

// Whether a block of two rows is the same, from an index on. It looks at each byte of the block, sixteen in one step.
fn same_block(a: &[u8], b: &[u8], from: usize, size: usize) -> bool
    requires { (from + size ≤ length a.now) × (from + size ≤ length b.now) }
    ensures { result ≡ same_bytes_of (take size (drop from a.now)) (take size (drop from b.now)) }
{
    let mut same = true;
    for i in 0..size {
        let here = a[from + i] == b[from + i];
        same = same & here;
    }
    same
}

// Whether the bytes are the same: compares block by block, up to the first block that differs.
pub fn same_bytes(a: &[u8], b: &[u8]) -> bool
    ensures { result ≡ same_bytes_of a.now b.now }
{
    if a.len() != b.len() {
        return false;
    }
    let mut i = 0;
    // A cursor, not a count: it goes on by a block, and what is left is shorter than one.
    while 128 <= a.len() - i {
        let same = same_block(a, b, i, 128);
        if !same {
            return false;
        }
        i = i + 128;
    }
    same_block(a, b, i, a.len() - i)
}

// The window of an edit after which `after` begins at place lo of SEQ. If its flag is set, `after` is SEQ itself.
pub fn window_of(seq: &[u8], after: &[u8], lo: usize) -> Window
    ensures { (result.lo ≡ lo) × Told result after.now seq.now }
{
    if lo != 0 {
        return Window { lo, same: false };
    }
    let same = same_bytes(after, seq);
    Window { lo, same }
}

// Whether a byte may be there after a cut: it is the old byte, or masked.
fn stands(b: u8, stood: u8) -> bool
    ensures { result ≡ (eqb b stood || is_masked b) }
{
    if b == stood {
        return true;
    }
    b == b'N' || b == b'n'
}

// Whether each byte of `after` is the old byte of SEQ, from place lo on, or masked.
pub fn lies_in(after: &[u8], seq: &[u8], lo: usize) -> bool
    ensures { result ≡ (leb lo (length seq.now) && lies_in after.now (drop lo seq.now)) }
{
    if seq.len() < lo {
        return false;
    }
    if seq.len() - lo < after.len() {
        return false;
    }
    let mut lies = true;
    for (i, &b) in after.iter().enumerate() {
        let fits = stands(b, seq[lo + i]);
        lies = lies & fits;
    }
    lies
}
