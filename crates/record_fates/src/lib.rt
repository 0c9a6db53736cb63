// Opens a record, and finds out what becomes of its tags: which are edited, which go, and whether MN disagrees. A support crate: its functions may have a
// `requires`; the public calls are in `record`.
//
// Here: opening. fates: the plan.
#![tactic(auto)]

pub mod fates;

ghost use Rattle.std.specs.Prelude.{◌≡◌, ◌||◌, not, true, List, ℕ, ◌+◌, ◌≤◌, ◌<◌, eqb, leb, get_or, length};
ghost use Rattle.record_fates.specs.Fates.{OpenedAs, is_sound};
ghost use Rattle.record_fields.specs.Fields.{Field};
ghost use Rattle.record_fields.specs.Spots.{Spots, part};
ghost use Rattle.record_tags.specs.Records.{array_fits, in_domain, text_fits};
ghost use Rattle.record_tags.specs.Values.{disagrees};

use lent::Refusal;
use record_fields::sizes::{half_at, word_at};
use record_fields::{AM, BM, Head, ML, MM};

// Whether a text is within the domain.
fn text_fits(bam: &[u8], at: usize, size: usize) -> bool
    requires { (at + size ≤ length bam.now) × (is_sound (part bam.now at size) ≡ true) }
    ensures { result ≡ text_fits (part bam.now at size) }
{
    if size == 0 {
        return true;
    }
    if bam[at + 2] != b'Z' {
        return true;
    }
    size - 4 <= 65536
}

// Whether an array of bytes is within the domain.
fn array_fits(bam: &[u8], at: usize, size: usize) -> bool
    requires { (at + size ≤ length bam.now) × (is_sound (part bam.now at size) ≡ true) }
    ensures { result ≡ array_fits (part bam.now at size) }
{
    if size < 8 {
        return true;
    }
    if bam[at + 2] != b'B' {
        return true;
    }
    if bam[at + 3] != b'C' {
        return true;
    }
    size - 8 <= 65536
}

// Whether the lengths of SEQ, of SEQ before and of the tags are within the domain.
fn lengths_fit(
    bam: &[u8],
    bases: usize,
    letters: usize,
    ats: &[usize; 6],
    sizes: &[usize; 6],
) -> bool
    requires { (k : ℕ) → k < 6 → (get_or ats.now k 0 + get_or sizes.now k 0 ≤ length bam.now)
        × (is_sound (part bam.now (get_or ats.now k 0) (get_or sizes.now k 0)) ≡ true) }
    ensures { (fs : List Field) → Spots bam.now fs ats.now sizes.now → result ≡ in_domain bases letters fs }
{
    if 16000 < bases {
        return false;
    }
    if 16000 < letters {
        return false;
    }
    let mm = text_fits(bam, ats[MM], sizes[MM]);
    let ml = array_fits(bam, ats[ML], sizes[ML]);
    let am = text_fits(bam, ats[AM], sizes[AM]);
    let bm = text_fits(bam, ats[BM], sizes[BM]);
    mm & ml & am & bm
}

// Opens a record, and notes where the first field of each name is. `letters` is how many letters SEQ had before. Ok with what the head says; Err with 14, 15
// or 1, in this order.
pub fn open_record(
    bam: &[u8],
    letters: usize,
    ats: &mut [usize; 6],
    sizes: &mut [usize; 6],
) -> Result<Head, Refusal>
    ensures { OpenedAs bam.now letters ats.new sizes.new result }
{
    let whole = record_fields::is_whole(bam);
    if !whole {
        return Err(Refusal::ShortRecord);
    }
    let head = record_fields::head_of(bam);
    let parsed = record_fields::scan_fields(bam, head.fields_at, ats, sizes);
    if !parsed {
        return Err(Refusal::BadFields);
    }
    let fits = lengths_fit(bam, head.bases, letters, ats, sizes);
    if !fits {
        return Err(Refusal::TooLong);
    }
    Ok(head)
}

// Whether an integer of limited range is another one than n: at the limit and above it is negative.
fn is_other(value: usize, limit: usize, n: usize) -> bool
    ensures { result ≡ (leb limit value || not (eqb value n)) }
{
    if limit <= value {
        return true;
    }
    value != n
}

// Whether MN is an integer other than n.
pub fn is_stale(bam: &[u8], at: usize, size: usize, n: usize) -> bool
    requires { (at + size ≤ length bam.now) × (is_sound (part bam.now at size) ≡ true) }
    ensures { result ≡ disagrees n (part bam.now at size) }
{
    if size == 0 {
        return false;
    }
    let kind = bam[at + 2];
    if kind == b'c' {
        return is_other(bam[at + 3] as usize, 128, n);
    }
    if kind == b'C' {
        return is_other(bam[at + 3] as usize, 256, n);
    }
    if kind == b's' {
        return is_other(half_at(bam, at + 3), 32768, n);
    }
    if kind == b'S' {
        return is_other(half_at(bam, at + 3), 65536, n);
    }
    if kind == b'i' {
        return is_other(word_at(bam, at + 3), 2147483648, n);
    }
    if kind == b'I' {
        return is_other(word_at(bam, at + 3), 4294967296, n);
    }
    false
}
