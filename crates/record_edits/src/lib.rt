// Removes or edits the tags of a record that was opened. A support crate: its functions may have a `requires`; the public calls are in `record`.
#![tactic(auto)]

ghost use Rattle.std.specs.Prelude.{◌≡◌, ◌||◌, cond, true, ℕ, ◌+◌, ◌≤◌, eqb, drop, length, None, Some};
ghost use Rattle.lent.specs.Answers.{is_done};
ghost use Rattle.record_edits.specs.Finish.{finished_from};
ghost use Rattle.record_fates.specs.Fates.{guarded};
ghost use Rattle.record_fields.specs.Fields.{fields, fields_of};
ghost use Rattle.record_fields.specs.Spots.{Spots, part};
ghost use Rattle.record_tags.specs.Changes.{changed, editing, is_tagged, removal};
ghost use Rattle.record_tags.specs.Plans.{GOES, PAIRED, by_window};
ghost use Rattle.record_tags.specs.Records.{in_domain, in_room};
ghost use Rattle.record_tags.specs.Values.{text_of, values_of};
ghost use Rattle.record_writing.specs.Answers.{leaves_record, left};

use lent::Refusal;
use record_fates::fates::{alone_fate, pair_fate, plan_of};
use record_fields::{AM, BM, ML, MM};
use record_tags::{GOES, PAIRED, STAYS};

// The record without the first field of each of the five names.
pub fn remove_record(bam: &[u8], from: usize, out: &mut [u8]) -> Result<(usize, bool), Refusal>
    requires { (from ≤ length bam.now) × (is_done (fields (drop from bam.now)) ≡ true) × (is_tagged (fields_of (drop from bam.now)) ≡ true) }
    ensures { left result out.new
        ≡ leaves_record (in_room (length out.old) (finished_from from bam.now (fields_of (drop from bam.now))
        (changed removal (fields_of (drop from bam.now))))) out.old }
{
    let none: [u8; 0] = [];
    let mut no_work: [u8; 0] = [];
    record_writing::whole::write_record(
        bam,
        from,
        [GOES, GOES, GOES, GOES, GOES, STAYS],
        &none,
        &none,
        0,
        &none,
        &none,
        &none,
        0,
        true,
        out,
        &mut no_work,
    )
}

// Whether MM, am or bm goes.
fn any_goes(mm: u8, am: u8, bm: u8) -> bool
    ensures { result ≡ (eqb mm GOES || eqb am GOES || eqb bm GOES) }
{
    if mm == GOES {
        return true;
    }
    if am == GOES {
        return true;
    }
    bm == GOES
}

// The text of MM, if it is edited with its ML; else no text.
fn paired_text(bam: &[u8], at: usize, size: usize, fate: u8) -> &[u8]
    requires { (at + size ≤ length bam.now) × (fate ≡ PAIRED → (4 ≤ size) × (size ≤ 65540)) }
    ensures { (fate ≡ PAIRED → result.now ≡ text_of (part bam.now at size)) × (length result.now ≤ 65536) }
{
    if fate == PAIRED {
        return &bam[at + 3..at + size - 1];
    }
    &bam[0..0]
}

// The values of ML, if MM is edited with it; else no value.
fn paired_values(bam: &[u8], at: usize, size: usize, fate: u8) -> &[u8]
    requires { (at + size ≤ length bam.now) × (fate ≡ PAIRED → (8 ≤ size) × (size ≤ 65544)) }
    ensures { (fate ≡ PAIRED → result.now ≡ values_of (part bam.now at size)) × (length result.now ≤ 65536) }
{
    if fate == PAIRED {
        return &bam[at + 8..at + size];
    }
    &bam[0..0]
}

// The record with its tags edited, each in its place; a tag goes if its edit refuses, and every tag if the edit is not possible. If SEQ's length changed,
// MN becomes the number of bases.
pub fn edit_record(
    bam: &[u8],
    from: usize,
    ats: &[usize; 6],
    sizes: &[usize; 6],
    bases: usize,
    seq: &[u8],
    after: &[u8],
    marks: &[u8],
    lo: usize,
    possible: bool,
    set: bool,
    out: &mut [u8],
    work: &mut [u8],
) -> Result<(usize, bool), Refusal>
    requires from_in_bounds { (from ≤ length bam.now) × (is_done (fields (drop from bam.now)) ≡ true)
        × Spots bam.now (fields_of (drop from bam.now)) ats.now sizes.now × (length seq.now ≤ 16000) }
    requires by_index { (k : ℕ) × (in_domain bases k (fields_of (drop from bam.now)) ≡ true) }
    ensures { left result out.new
        ≡ leaves_record (in_room (length out.old) (finished_from from bam.now (fields_of (drop from bam.now))
        (changed (editing (guarded possible (by_window lo after.now marks.now seq.now)) (cond set (Some bases) None)
        (fields_of (drop from bam.now))) (fields_of (drop from bam.now))))) out.old }
{
    let mm = pair_fate(
        bam, ats[MM], sizes[MM], ats[ML], sizes[ML], seq, after, marks, lo, possible,
    );
    let am = alone_fate(bam, ats[AM], sizes[AM], seq, after, marks, lo, possible);
    let bm = alone_fate(bam, ats[BM], sizes[BM], seq, after, marks, lo, possible);
    let plan = plan_of(mm, am, bm, set);
    let went = any_goes(mm, am, bm);
    let text = paired_text(bam, ats[MM], sizes[MM], mm);
    let values = paired_values(bam, ats[ML], sizes[ML], mm);
    record_writing::whole::write_record(
        bam, from, plan, text, values, bases, seq, after, marks, lo, went, out, work,
    )
}
