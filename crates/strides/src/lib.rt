// Passes whole blocks of SEQ at a time. A group's entry says how many bases of a letter to pass. A block with no more of them than are left to pass
// is passed by its counts alone, which takes the processor about one step for each base. A support crate: its functions may have a `requires`.
#![tactic(auto)]

ghost use Rattle.std.specs.Prelude.{◌≡◌, ◌+◌, ◌-◌, ◌≤◌, false, true, length, take, drop};
ghost use Rattle.lent.specs.Lists.{filter};
ghost use Rattle.samtags.specs.Spots.{holds, tracked};
ghost use Rattle.strides.specs.Counts.{Told, Undivided, between, held_between, hold_both};

// The offset of the edited SEQ in the old one, and whether the edited SEQ is SEQ itself. If it is, no passed base is checked for being held.
#[derive(Clone, Copy)]
pub struct Window {
    pub lo: usize,
    pub same: bool,
}

// Whether a byte of SEQ counts for the base: every byte if the base is 'N', else only the base itself.
pub fn counts(base: u8, b: u8) -> bool
    ensures { result ≡ holds base b }
{
    base == b'N' || b == base
}

// How many bytes of a block from a place on are the base. The count is kept in a byte, so that sixteen counts are added in one step.
fn count_block(seq: &[u8], from: usize, size: usize, base: u8) -> usize
    requires { (from + size ≤ length seq.now) × (size ≤ 128) × (base ≡ 78 → ⊥) }
    ensures { result ≡ length (filter (holds base) (take size (drop from seq.now))) }
{
    let block = &seq[from..from + size];
    let mut n: u8 = 0;
    for &b in block {
        let hit = b == base;
        n = n + hit as u8;
    }
    n as usize
}

// How many of 32 places hold the base both in SEQ and in the edited SEQ.
fn both_in_block(seq: &[u8], from: usize, after: &[u8], there: usize, base: u8) -> usize
    requires { (from + 32 ≤ length seq.now) × (there + 32 ≤ length after.now) × (base ≡ 78 → ⊥) }
    ensures { result ≡ hold_both base (take 32 (drop from seq.now)) (take 32 (drop there after.now)) }
{
    let mut n: u8 = 0;
    for i in 0..32 {
        let first = seq[from + i] == base;
        let second = after[there + i] == base;
        n = n + (first & second) as u8;
    }
    n as usize
}

// Whether the window's start or its end is inside the block at a place. A divided block is passed base by base. SEQ itself divides no block.
fn is_split(place: usize, window: Window, bases: usize) -> bool
    requires { place + 32 ≤ 16000 }
    ensures { result ≡ false → Undivided window bases place }
{
    if window.same {
        return false;
    }
    if place < window.lo {
        return window.lo < place + 32;
    }
    let there = place - window.lo;
    if bases <= there {
        return false;
    }
    bases - there < 32
}

// How many of the group's n bases of a block are still held: none outside the window, and all if the window is SEQ itself.
fn held_in_block(
    seq: &[u8],
    after: &[u8],
    window: Window,
    base: u8,
    place: usize,
    n: usize,
) -> usize
    requires { (place + 32 ≤ length seq.now) × (base ≡ 78 → ⊥) × Told window after.now seq.now
        × Undivided window (length after.now) place × (n ≡ length (filter (holds base) (take 32 (drop place seq.now)))) }
    ensures { result ≡ held_between window.lo after.now base seq.now place (place + 32) }
{
    if window.same {
        return n;
    }
    if place < window.lo {
        return 0;
    }
    let there = place - window.lo;
    if after.len() <= there {
        return 0;
    }
    both_in_block(seq, place, after, there, base)
}

// How far a walk came: its place, how many of the bases to pass it has passed, and how many of those are still held.
#[derive(Clone, Copy)]
pub struct Stride {
    pub place: usize,
    pub passed: usize,
    pub held: usize,
}

// From a place on, passes blocks while each holds no more of the group's bases than are left to pass. The last few are passed faster one by one.
pub fn pass_blocks(
    seq: &[u8],
    after: &[u8],
    window: Window,
    base: u8,
    from: usize,
    skip: usize,
) -> Stride
    requires { (from ≤ length seq.now) × (length seq.now ≤ 16000) × (base ≡ 78 → ⊥) × Told window after.now seq.now }
    ensures { (from ≤ result.place) × (result.place ≤ length seq.now) × (result.passed ≤ skip)
        × (result.passed ≡ length (between base seq.now from result.place))
        × (result.held ≡ held_between window.lo after.now base seq.now from result.place) }
{
    let mut place = from;
    let mut passed = 0;
    let mut held = 0;
    // A cursor, not a count: how far it goes depends on what each block holds.
    while is_far(skip - passed, seq.len() - place) {
        let split = is_split(place, window, after.len());
        let n = count_block(seq, place, 32, base);
        if split {
            return Stride {
                place,
                passed,
                held,
            };
        }
        if skip - passed < n {
            return Stride {
                place,
                passed,
                held,
            };
        }
        held = held + held_in_block(seq, after, window, base, place, n);
        passed = passed + n;
        place = place + 32;
    }
    Stride {
        place,
        passed,
        held,
    }
}

// Whether there are more than a few bases to pass, and a whole block ahead.
fn is_far(skip: usize, bases: usize) -> bool
    ensures { result ≡ true → 32 ≤ bases }
{
    if skip < 6 {
        return false;
    }
    32 <= bases
}

// How many bases of SEQ a group on the base counts.
pub fn how_many(seq: &[u8], base: u8) -> usize
    requires { length seq.now ≤ 16000 }
    ensures { result ≡ length (tracked base seq.now) }
{
    if base == b'N' {
        return seq.len();
    }
    let mut n = 0;
    let mut i = 0;
    // A cursor, not a count: it goes on by a block, and what is left is shorter than one.
    while 128 <= seq.len() - i {
        n = n + count_block(seq, i, 128, base);
        i = i + 128;
    }
    n + count_block(seq, i, seq.len() - i, base)
}
