// Writes the new record. Err with 12 if it has no room: the row is unchanged then.
ghost use Rattle.std.specs.Prelude.{◌≡◌, false, true, ◌++◌, ◌≤◌, leb, length, drop, take};
ghost use Rattle.lent.specs.Answers.{is_done};
ghost use Rattle.record_fields.specs.Fields.{fields, fields_of, joined};
ghost use Rattle.record_tags.specs.Changes.{changed};
ghost use Rattle.record_tags.specs.Plans.{Ready, by_window, growth, means, planned};
ghost use Rattle.record_tags.specs.Records.{finished_with, in_room};
ghost use Rattle.record_writing.specs.Answers.{leaves_record, left};

use crate::put_fields;
use lent::Refusal;
use record_fields::MN;
use record_rows::put_bytes;
use record_tags::LENGTH;

// The record as it came: Ok with its length, and that no field went.
pub fn keep_record(bam: &[u8], out: &mut [u8]) -> Result<(usize, bool), Refusal>
    ensures { left result out.new ≡ leaves_record (in_room (length out.old) (finished_with false bam.now)) out.old }
{
    if out.len() < bam.len() {
        return Err(Refusal::NoRoom);
    }
    let n = put_bytes(out, 0, bam);
    Ok((n, false))
}

// How many bytes the record may grow by.
fn growth_of(plan: [u8; 6]) -> usize
    ensures { result ≡ growth plan }
{
    if LENGTH <= plan[MN] {
        return 3; // an integer of one byte becomes one of four
    }
    0
}

// Whether the record with its fields by a plan has room. If the room is as long as the record can become, the new length need not be known.
fn has_room(
    bam: &[u8],
    from: usize,
    plan: [u8; 6],
    mm: &[u8],
    ml: &[u8],
    bases: usize,
    seq: &[u8],
    after: &[u8],
    marks: &[u8],
    lo: usize,
    room: usize,
    work: &mut [u8],
) -> bool
    requires from_in_bounds { (from ≤ length bam.now) × (length seq.now ≤ 16000) × (length mm.now ≤ 65536) × (length ml.now ≤ 65536) × (bases ≤ 16000) }
    requires bam_value { is_done (fields (drop from bam.now)) ≡ true }
    requires ready { Ready (means (by_window lo after.now marks.now seq.now) mm.now ml.now bases) plan (fields_of (drop from bam.now)) }
    ensures { result ≡ leb (length (take from bam.now ++ joined
        (changed (planned (means (by_window lo after.now marks.now seq.now)
        mm.now ml.now bases) plan) (fields_of (drop from bam.now))))) room }
{
    let growth = growth_of(plan);
    if bam.len() + growth <= room {
        return true;
    }
    let mut none: [u8; 0] = [];
    let n = put_fields(
        bam, from, plan, mm, ml, bases, seq, after, marks, lo, &mut none, work,
    );
    n <= room
}

// The record with its fields by a plan: Ok with its length, and whether a field went.
pub fn write_record(
    bam: &[u8],
    from: usize,
    plan: [u8; 6],
    mm: &[u8],
    ml: &[u8],
    bases: usize,
    seq: &[u8],
    after: &[u8],
    marks: &[u8],
    lo: usize,
    went: bool,
    out: &mut [u8],
    work: &mut [u8],
) -> Result<(usize, bool), Refusal>
    requires from_in_bounds { (from ≤ length bam.now) × (length seq.now ≤ 16000) × (length mm.now ≤ 65536) × (length ml.now ≤ 65536) × (bases ≤ 16000) }
    requires bam_value { is_done (fields (drop from bam.now)) ≡ true }
    requires ready { Ready (means (by_window lo after.now marks.now seq.now) mm.now ml.now bases) plan (fields_of (drop from bam.now)) }
    ensures { left result out.new
        ≡ leaves_record (in_room (length out.old) (finished_with went (take from bam.now ++ joined
        (changed (planned (means (by_window lo after.now marks.now seq.now)
        mm.now ml.now bases) plan) (fields_of (drop from bam.now)))))) out.old }
{
    let fits = has_room(
        bam,
        from,
        plan,
        mm,
        ml,
        bases,
        seq,
        after,
        marks,
        lo,
        out.len(),
        work,
    );
    if !fits {
        return Err(Refusal::NoRoom);
    }
    put_bytes(out, 0, &bam[0..from]);
    let n = put_fields(
        bam, from, plan, mm, ml, bases, seq, after, marks, lo, out, work,
    );
    Ok((n, went))
}
