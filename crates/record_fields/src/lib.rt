// A BAM record as its bytes: what its head says, and where its optional fields are. Whether the head and the fields parse is found out here, and nowhere
// else. A support crate: its functions may have a `requires`; the public calls are in `record`.
//
// Here: the head, and the walk over the fields. sizes: how many bytes a field takes.
#![tactic(auto)]

pub mod sizes;

ghost use Rattle.std.specs.Prelude.{◌≡◌, cond, true, ℕ, ◌+◌, ◌≤◌, ◌<◌, eqb, length, drop, get_or, set};
ghost use Rattle.lent.specs.Answers.{is_done};
ghost use Rattle.record_fields.specs.Bam.{head_size, is_reverse, is_whole, seq_length, seq_start};
ghost use Rattle.record_fields.specs.Fields.{fields, fields_of, name_by};
ghost use Rattle.record_fields.specs.Spots.{Spots};

use sizes::{half_at, word_at};

// What the head says: the flag 0x10, the number of bases, and where SEQ and the optional fields begin.
#[derive(Clone, Copy)]
pub struct Head {
    pub reverse: bool,
    pub bases: usize,
    pub seq_at: usize,
    pub fields_at: usize,
}

// Reads the head. The fields may begin past the record's end.
pub fn head_of(bam: &[u8]) -> Head
    requires { 32 ≤ length bam.now }
    ensures { (result.reverse ≡ is_reverse bam.now) × (result.bases ≡ seq_length bam.now)
        × (result.seq_at ≡ seq_start bam.now) × (result.fields_at ≡ head_size bam.now) }
{
    let bases = word_at(bam, 16);
    let words = half_at(bam, 12);
    let seq_at = 32 + bam[8] as usize + 4 * words;
    Head {
        reverse: half_at(bam, 14) / 16 % 2 == 1,
        bases,
        seq_at,
        fields_at: seq_at + (bases + 1) / 2 + bases,
    }
}

// Whether the record is as long as its head says.
pub fn is_whole(bam: &[u8]) -> bool
    ensures { result ≡ is_whole bam.now }
{
    if bam.len() < 32 {
        return false;
    }
    let head = head_of(bam);
    head.fields_at <= bam.len()
}

// The names that the calls look at, and every other name, each by a number: an index into rows with an entry for each name.
pub const MM: usize = 0;

pub const ML: usize = 1;

pub const MN: usize = 2;

pub const AM: usize = 3;

pub const BM: usize = 4;

pub const ANY_OTHER: usize = 5;

// The name of two bytes, by its number.
pub fn name_by(first: u8, second: u8) -> usize
    ensures { (result ≡ name_by first second) × (result < 6) }
{
    if first == b'M' {
        if second == b'M' {
            return MM;
        }
        if second == b'L' {
            return ML;
        }
        if second == b'N' {
            return MN;
        }
        return ANY_OTHER;
    }
    if second != b'm' {
        return ANY_OTHER;
    }
    if first == b'a' {
        return AM;
    }
    if first == b'b' {
        return BM;
    }
    ANY_OTHER
}

// A row with no spot in it.
pub fn no_spots() -> [usize; 6]
    ensures { (6 ≡ length result) × ((k : ℕ) → get_or result k 0 ≡ 0) }
{
    [0; 6]
}

// Notes a field, unless one of its name was noted before.
fn note(ats: &mut [usize; 6], sizes: &mut [usize; 6], name: usize, at: usize, size: usize)
    requires { name < 6 }
    ensures { (ats.new ≡ cond (eqb (get_or sizes.old name 0) 0) (set ats.old name at) ats.old)
        × (sizes.new ≡ cond (eqb (get_or sizes.old name 0) 0) (set sizes.old name size) sizes.old) }
{
    if sizes[name] == 0 {
        ats[name] = at;
        sizes[name] = size;
    }
}

// Walks over the fields from a byte on, and notes the first field of each name: where it begins, and how many bytes it takes. Whether all of them parse.
// What the rows held before does not matter.
pub fn scan_fields(bam: &[u8], from: usize, ats: &mut [usize; 6], sizes: &mut [usize; 6]) -> bool
    requires { from ≤ length bam.now }
    ensures { (result ≡ is_done (fields (drop from bam.now)))
        × (result ≡ true → Spots bam.now (fields_of (drop from bam.now)) ats.new sizes.new) }
{
    *ats = no_spots();
    *sizes = no_spots();
    let mut at = from;
    // A cursor, not a count: a field takes as many bytes as it says.
    while at < bam.len() {
        let size = sizes::field_size(bam, at);
        if size == 0 {
            return false;
        }
        let name = name_by(bam[at], bam[at + 1]);
        note(ats, sizes, name, at, size);
        at = at + size;
    }
    true
}
