// The plan: what becomes of the first field of each name.
ghost use Rattle.std.specs.Prelude.{◌≡◌, true, ◌+◌, ◌≤◌, length};
ghost use Rattle.record_fates.specs.Fates.{alone_fate, array_fate, guarded, is_sound, length_fate, pair_fate, plan_of};
ghost use Rattle.record_fields.specs.Spots.{part};
ghost use Rattle.record_tags.specs.Plans.{by_window};
ghost use Rattle.record_tags.specs.Records.{array_fits, text_fits};

use record_tags::{ALONE, GOES, GOES_THEN_LENGTH, LENGTH, PAIRED, STAYS, VALUES};

// What becomes of a text that is edited without ML; what is no text stays.
pub fn alone_fate(
    bam: &[u8],
    at: usize,
    size: usize,
    seq: &[u8],
    after: &[u8],
    marks: &[u8],
    lo: usize,
    possible: bool,
) -> u8
    requires { (at + size ≤ length bam.now) × (is_sound (part bam.now at size) ≡ true) × (text_fits (part bam.now at size) ≡ true)
        × (length seq.now ≤ 16000) }
    ensures { result ≡ alone_fate (guarded possible (by_window lo after.now marks.now seq.now))
        (part bam.now at size) }
{
    if size == 0 {
        return STAYS;
    }
    if bam[at + 2] != b'Z' {
        return STAYS;
    }
    if !possible {
        return GOES;
    }
    let no_ml: [u8; 0] = [];
    let text = &bam[at + 3..at + size - 1];
    let accepted = record_rows::accepts(seq, after, marks, text, &no_ml, lo, false);
    if accepted {
        return ALONE;
    }
    GOES
}

// What becomes of MM, whose ML is at another byte: it is edited alone if there is no ML, and else with it; what is no text stays.
pub fn pair_fate(
    bam: &[u8],
    at: usize,
    size: usize,
    ml_at: usize,
    ml_size: usize,
    seq: &[u8],
    after: &[u8],
    marks: &[u8],
    lo: usize,
    possible: bool,
) -> u8
    requires size_in_bounds { (at + size ≤ length bam.now) × (is_sound (part bam.now at size) ≡ true) × (text_fits (part bam.now at size) ≡ true)
        × (length seq.now ≤ 16000) }
    requires ml_size_in_bounds { (ml_at + ml_size ≤ length bam.now) × (is_sound (part bam.now ml_at ml_size) ≡ true)
        × (array_fits (part bam.now ml_at ml_size) ≡ true) }
    ensures { result ≡ pair_fate (guarded possible (by_window lo after.now marks.now seq.now))
        (part bam.now at size) (part bam.now ml_at ml_size) }
{
    if ml_size == 0 {
        return alone_fate(bam, at, size, seq, after, marks, lo, possible);
    }
    if size == 0 {
        return STAYS;
    }
    if bam[at + 2] != b'Z' {
        return STAYS;
    }
    if bam[ml_at + 2] != b'B' {
        return GOES;
    }
    if bam[ml_at + 3] != b'C' {
        return GOES;
    }
    if !possible {
        return GOES;
    }
    let text = &bam[at + 3..at + size - 1];
    let values = &bam[ml_at + 8..ml_at + ml_size];
    let accepted = record_rows::accepts(seq, after, marks, text, values, lo, true);
    if accepted {
        return PAIRED;
    }
    GOES
}

// What becomes of ML, by what becomes of MM.
fn array_fate(mm: u8) -> u8
    ensures { result ≡ array_fate mm }
{
    if mm == GOES {
        return GOES;
    }
    if mm == PAIRED {
        return VALUES;
    }
    STAYS
}

// What becomes of MN, by what becomes of MM and whether SEQ's length changed.
fn length_fate(mm: u8, set: bool) -> u8
    ensures { result ≡ length_fate mm set }
{
    if mm == GOES {
        if set {
            return GOES_THEN_LENGTH;
        }
        return GOES;
    }
    if set {
        return LENGTH;
    }
    STAYS
}

// The plan by what becomes of MM, am and bm, and whether SEQ's length changed.
pub fn plan_of(mm: u8, am: u8, bm: u8, set: bool) -> [u8; 6]
    ensures { result ≡ plan_of mm am bm set }
{
    let ml = array_fate(mm);
    let mn = length_fate(mm, set);
    [mm, ml, mn, am, bm, STAYS]
}
