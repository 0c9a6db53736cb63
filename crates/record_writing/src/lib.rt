// Writes the new record: a walk over the fields of the old one, each by the plan's number for its name. The row is written as far as it reaches, so that
// the same walk measures over an empty row. A support crate: its functions may have a `requires`; the public calls are in `record`.
//
// Here: all fields. whole: the record.
#![tactic(auto)]

pub mod whole;

ghost use Rattle.std.specs.Prelude.{◌≡◌, true, ◌≤◌, length, drop};
ghost use Rattle.lent.specs.Answers.{is_done};
ghost use Rattle.record_fields.specs.Fields.{fields, fields_of};
ghost use Rattle.record_tags.specs.Changes.{changed};
ghost use Rattle.record_tags.specs.Plans.{Ready, by_window, means, next_of, planned};
ghost use Rattle.record_pieces.specs.Pens.{Wrote};

use record_pieces::Pen;
use record_tags::{GOES_THEN_LENGTH, LENGTH, STAYS};

// The plan's number for a name, after a field of that name.
fn next_of(number: u8) -> u8
    ensures { result ≡ next_of number }
{
    if number == GOES_THEN_LENGTH {
        return LENGTH;
    }
    STAYS
}

// Writes the fields that begin at a byte of the record to the same byte of the new one and on. Answers the new record's length.
pub fn put_fields(
    bam: &[u8],
    from: usize,
    plan: [u8; 6],
    mm: &[u8],
    ml: &[u8],
    bases: usize,
    seq: &[u8],
    after: &[u8],
    marks: &[u8],
    lo: usize,
    out: &mut [u8],
    work: &mut [u8],
) -> usize
    requires from_in_bounds { (from ≤ length bam.now) × (length seq.now ≤ 16000) × (length mm.now ≤ 65536) × (length ml.now ≤ 65536) × (bases ≤ 16000) }
    requires bam_value { is_done (fields (drop from bam.now)) ≡ true }
    requires ready { Ready (means (by_window lo after.now marks.now seq.now) mm.now ml.now bases) plan (fields_of (drop from bam.now)) }
    ensures { Wrote (changed (planned (means (by_window lo after.now marks.now seq.now)
        mm.now ml.now bases) plan) (fields_of (drop from bam.now))) from out.old result out.new }
{
    let mut left = plan;
    let mut at = from;
    let mut pen = Pen {
        end: from,
        kept: 0,
        values: false,
        text: false,
    };
    // A cursor, not a count: a field takes as many bytes as it says.
    while at < bam.len() {
        let size = record_fields::sizes::field_size(bam, at);
        let name = record_fields::name_by(bam[at], bam[at + 1]);
        let number = left[name];
        left[name] = next_of(number);
        pen = record_pieces::put_field(
            bam, at, size, number, mm, ml, bases, seq, after, marks, lo, pen, out, work,
        );
        at = at + size;
    }
    pen.end
}
