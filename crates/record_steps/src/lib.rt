// The three calls on a record that was opened and has a tag, with rows to work in. A support crate: its functions may have a `requires`; the public calls
// are in `record`.
#![tactic(auto)]

ghost use Rattle.std.specs.Prelude.{◌≡◌, ◌&&◌, cond, false, true, List, ℕ, ◌+◌, ◌≤◌, eqb, drop, length, Ok, Some};
ghost use Rattle.record_steps.specs.Cuts.{cut_turned};
ghost use Rattle.changing.specs.Windows.{Unmarked};
ghost use Rattle.lent.specs.Filled.{over};
ghost use Rattle.lent.specs.Lists.{is_empty};
ghost use Rattle.packed.specs.Packed.{bytes_for};
ghost use Rattle.packed.specs.Stored.{in_read};
ghost use Rattle.record_fates.specs.Fates.{OpenedAs};
ghost use Rattle.record_fields.specs.Bam.{head_size, seq_length};
ghost use Rattle.record_fields.specs.Fields.{Field, MN, fields_of, first_named};
ghost use Rattle.record_fields.specs.Spots.{Spots, part};
ghost use Rattle.record_tags.specs.Changes.{is_tagged};
ghost use Rattle.record_tags.specs.Records.{cut_record, drop_record, finished, in_room, mask_record, same_direction, start_of};
ghost use Rattle.record_tags.specs.Values.{disagrees};
ghost use Rattle.record_writing.specs.Answers.{leaves_record, left};

use lent::Refusal;
use record_fields::{AM, BM, Head, MM};
use record_writing::whole::keep_record;

// Unpacks SEQ to the front of a row, reverse-complemented or not.
fn unpack_seq(bam: &[u8], at: usize, n: usize, turned: bool, row: &mut [u8])
    requires { (at + bytes_for n ≤ length bam.now) × (n ≤ 16000) × (n ≤ length row.old) }
    ensures { row.new ≡ over (in_read turned n (part bam.now at (bytes_for n))) row.old }
{
    let end = at + (n + 1) / 2;
    packed_rows::unpack_row(&bam[at..end], n, turned, row);
}

// Masking. `first` is for SEQ before, `second` for SEQ now, `work` for what waits of an edited tag; all with any contents.
pub fn mask_with(
    bam: &[u8],
    head: Head,
    ats: &[usize; 6],
    sizes: &[usize; 6],
    before: &[u8],
    first: &mut [u8],
    second: &mut [u8],
    work: &mut [u8],
    out: &mut [u8],
) -> Result<(usize, bool), Refusal>
    requires opened_as { OpenedAs bam.now (length before.now) ats.now sizes.now (Ok head) }
    requires bam_value { (is_tagged (fields_of (drop (head_size bam.now) bam.now)) ≡ true)
        × (disagrees (seq_length bam.now) (first_named MN (fields_of (drop (head_size bam.now) bam.now))) ≡ false)
        × (length before.now ≤ length first.old) × (seq_length bam.now ≤ length second.old) }
    ensures { left result out.new
        ≡ leaves_record (mask_record bam.now before.now (length out.old)) out.old }
{
    let n = head.bases;
    let k = before.len();
    unpack_seq(bam, head.seq_at, n, false, second); // as it is stored
    let same = windows::same_bytes(before, &second[0..n]);
    if same {
        return keep_record(bam, out);
    }
    record_rows::turn_letters(before, head.reverse, first);
    unpack_seq(bam, head.seq_at, n, head.reverse, second);
    let no_marks: [u8; 0] = [];
    record_edits::edit_record(
        bam,
        head.fields_at,
        ats,
        sizes,
        n,
        &first[0..k],
        &second[0..n],
        &no_marks,
        0,
        k == n,
        false,
        out,
        work,
    )
}

// Dropping. `row` is for SEQ, with any contents, `marks` for the places, without a mark yet, `work` for what waits of an edited tag.
pub fn drop_with(
    bam: &[u8],
    head: Head,
    ats: &[usize; 6],
    sizes: &[usize; 6],
    places: &[u32],
    row: &mut [u8],
    marks: &mut [u8],
    work: &mut [u8],
    out: &mut [u8],
) -> Result<(usize, bool), Refusal>
    requires opened_as { OpenedAs bam.now 0 ats.now sizes.now (Ok head) }
    requires bam_value { (is_tagged (fields_of (drop (head_size bam.now) bam.now)) ≡ true) × (is_empty places.now ≡ false)
        × (disagrees (seq_length bam.now) (first_named MN (fields_of (drop (head_size bam.now) bam.now))) ≡ false)
        × (seq_length bam.now ≤ length row.old) × (seq_length bam.now ≤ length marks.old) × Unmarked (length marks.old) marks.old }
    ensures { left result out.new
        ≡ leaves_record (drop_record bam.now places.now (length out.old)) out.old }
{
    let n = head.bases;
    unpack_seq(bam, head.seq_at, n, head.reverse, row);
    stored_rows::mark_in_read(places, n, head.reverse, marks, 1);
    record_edits::edit_record(
        bam,
        head.fields_at,
        ats,
        sizes,
        n,
        &row[0..n],
        &row[0..n],
        marks,
        0,
        true,
        false,
        out,
        work,
    )
}

// Whether the read is stored in the same direction now and before.
fn same_direction(reverse: bool, before_reverse: bool) -> bool
    ensures { result ≡ same_direction reverse before_reverse }
{
    if reverse {
        return before_reverse;
    }
    !before_reverse
}

// The start of the window in read orientation; unknown if the read was stored in the other direction.
fn start_of(
    start: Option<usize>,
    reverse: bool,
    before_reverse: bool,
    k: usize,
    n: usize,
) -> Option<usize>
    ensures { result ≡ cond (eqb k n) (Some 0) (start_of reverse before_reverse k n start) }
{
    if k == n {
        return Some(0);
    }
    let same = same_direction(reverse, before_reverse);
    if !same {
        return None;
    }
    stored_rows::start_in_read(start, reverse, k, n)
}

// Cutting, once SEQ before and SEQ now are in read orientation in `old` and `new`, which differ.
pub fn cut_turned(
    bam: &[u8],
    head: Head,
    ats: &[usize; 6],
    sizes: &[usize; 6],
    old: &[u8],
    new: &[u8],
    start: Option<usize>,
    work: &mut [u8],
    out: &mut [u8],
) -> Result<(usize, bool), Refusal>
    requires opened_as { OpenedAs bam.now (length old.now) ats.now sizes.now (Ok head) }
    requires bam_value { (is_tagged (fields_of (drop (head_size bam.now) bam.now)) ≡ true) × (length new.now ≡ seq_length bam.now) }
    ensures { left result out.new
        ≡ leaves_record (in_room (length out.old) (finished bam.now (fields_of (drop (head_size bam.now) bam.now))
        (cut_turned bam.now old.now new.now start (fields_of (drop (head_size bam.now) bam.now)))))
        out.old }
{
    let Some(lo) = start else {
        return record_edits::remove_record(bam, head.fields_at, out);
    };
    let window = windows::lies_in(new, old, lo);
    if !window {
        return record_edits::remove_record(bam, head.fields_at, out);
    }
    let no_marks: [u8; 0] = [];
    record_edits::edit_record(
        bam,
        head.fields_at,
        ats,
        sizes,
        head.bases,
        old,
        new,
        &no_marks,
        lo,
        true,
        old.len() != new.len(),
        out,
        work,
    )
}

// Cutting. The rows are as in masking.
pub fn cut_with(
    bam: &[u8],
    head: Head,
    ats: &[usize; 6],
    sizes: &[usize; 6],
    before: &[u8],
    before_reverse: bool,
    start: Option<usize>,
    first: &mut [u8],
    second: &mut [u8],
    work: &mut [u8],
    out: &mut [u8],
) -> Result<(usize, bool), Refusal>
    requires opened_as { OpenedAs bam.now (length before.now) ats.now sizes.now (Ok head) }
    requires bam_value { (is_tagged (fields_of (drop (head_size bam.now) bam.now)) ≡ true)
        × (disagrees (length before.now) (first_named MN (fields_of (drop (head_size bam.now) bam.now))) ≡ false)
        × (is_empty before.now && eqb (seq_length bam.now) 0 ≡ false)
        × (length before.now ≤ length first.old) × (seq_length bam.now ≤ length second.old) }
    ensures { left result out.new
        ≡ leaves_record (cut_record bam.now before.now before_reverse start (length out.old)) out.old }
{
    let n = head.bases;
    let k = before.len();
    record_rows::turn_letters(before, before_reverse, first);
    unpack_seq(bam, head.seq_at, n, head.reverse, second);
    let same = windows::same_bytes(&first[0..k], &second[0..n]);
    if same {
        return keep_record(bam, out);
    }
    let begin = start_of(start, head.reverse, before_reverse, k, n);
    cut_turned(
        bam,
        head,
        ats,
        sizes,
        &first[0..k],
        &second[0..n],
        begin,
        work,
        out,
    )
}

// Whether there is an MM, am or bm, by how many bytes the first field of each name takes.
pub fn is_tagged(sizes: &[usize; 6]) -> bool
    ensures { (bam : List ℕ) (fs : List Field) (ats : List ℕ) → Spots bam fs ats sizes.now → result ≡ is_tagged fs }
{
    if sizes[MM] != 0 {
        return true;
    }
    if sizes[AM] != 0 {
        return true;
    }
    sizes[BM] != 0
}
