// Keeps the tags MM, ML, MN, am and bm of a BAM record in step with its SEQ: after SEQ was masked or cut, or without the calls at some places. Each call
// takes one record (SAM v1, without its block size) and writes the new one into a lent row; the rest of the row stays as it was. No public function has
// a `requires`. Each answers Ok with the new record's length and whether a field went.
//
// Err with 14 if the record is shorter than its head says, 15 if its optional fields do not parse, 1 if a length is past the domain, last 12 if the new record is
// longer than the row. With a refusal the row is unchanged. What is none of the five fields stays as it came, byte for byte, and an edited field stays where
// it stood. If a name is there twice, its first field counts.
//
// A call walks over the fields a fixed number of times, and over a tag as the first package's calls do. Its largest locals are three rows of 16,000 bytes, or
// of 1,024 if both SEQs have at most 1,024 bases.
#![tactic(auto)]

ghost use Rattle.std.specs.Prelude.{◌≡◌, ◌&&◌, false, true, eqb, leb, drop, length, Ok};
ghost use Rattle.lent.specs.Lists.{is_empty};
ghost use Rattle.record_fates.specs.Fates.{OpenedAs};
ghost use Rattle.record_fields.specs.Bam.{head_size, seq_length};
ghost use Rattle.record_fields.specs.Fields.{MN, fields_of, first_named};
ghost use Rattle.record_tags.specs.Changes.{is_tagged};
ghost use Rattle.record_tags.specs.Values.{disagrees};
ghost use Rattle.record.specs.PublicContracts.{CutsRecord, DropsRecord, MasksRecord};

use lent::Refusal;
use record_edits::remove_record;
use record_fates::{is_stale, open_record};
use record_fields::{Head, MN, no_spots};
use record_writing::whole::keep_record;

// Whether two numbers of bases fit into the short rows.
fn both_few(n: usize, k: usize) -> bool
    ensures { result ≡ (leb n 1024 && leb k 1024) }
{
    if 1024 < n {
        return false;
    }
    k <= 1024
}

// Masks an opened record, with rows of its own.
fn mask_opened(
    bam: &[u8],
    head: Head,
    ats: &[usize; 6],
    sizes: &[usize; 6],
    before: &[u8],
    out: &mut [u8],
) -> Result<(usize, bool), Refusal>
    requires opened_as { OpenedAs bam.now (length before.now) ats.now sizes.now (Ok head) }
    requires bam_value { (is_tagged (fields_of (drop (head_size bam.now) bam.now)) ≡ true)
        × (disagrees (seq_length bam.now) (first_named MN (fields_of (drop (head_size bam.now) bam.now))) ≡ false) }
    ensures { MasksRecord bam.now before.now out.old result out.new }
{
    let few = both_few(head.bases, before.len());
    if few {
        let mut first = changing::few_marks();
        let mut second = changing::few_marks();
        let mut work = changing::few_marks();
        return record_steps::mask_with(
            bam,
            head,
            ats,
            sizes,
            before,
            &mut first,
            &mut second,
            &mut work,
            out,
        );
    }
    let mut first = changing::no_marks();
    let mut second = changing::no_marks();
    let mut work = changing::no_marks();
    record_steps::mask_with(
        bam,
        head,
        ats,
        sizes,
        before,
        &mut first,
        &mut second,
        &mut work,
        out,
    )
}

// SEQ was masked: `before` are its letters as they were stored before. A base that SEQ no longer holds loses its call, and counts in no later skip. A tag
// that cannot be edited goes: MM with ML and MN, am and bm alone. If MN disagrees with SEQ's length, all five go.
pub fn mask_record(bam: &[u8], before: &[u8], out: &mut [u8]) -> Result<(usize, bool), Refusal>
    ensures { MasksRecord bam.now before.now out.old result out.new }
{
    let mut ats = no_spots();
    let mut sizes = no_spots();
    let head = open_record(bam, before.len(), &mut ats, &mut sizes)?; // its letters are bounded too
    let tagged = record_steps::is_tagged(&sizes);
    if !tagged {
        return keep_record(bam, out); // whatever MN is
    }
    let stale = is_stale(bam, ats[MN], sizes[MN], head.bases); // a mask keeps the length
    if stale {
        return remove_record(bam, head.fields_at, out);
    }
    mask_opened(bam, head, &ats, &sizes, before, out)
}

// Drops from an opened record, with rows of its own.
fn drop_opened(
    bam: &[u8],
    head: Head,
    ats: &[usize; 6],
    sizes: &[usize; 6],
    places: &[u32],
    out: &mut [u8],
) -> Result<(usize, bool), Refusal>
    requires opened_as { OpenedAs bam.now 0 ats.now sizes.now (Ok head) }
    requires bam_value { (is_tagged (fields_of (drop (head_size bam.now) bam.now)) ≡ true) × (is_empty places.now ≡ false)
        × (disagrees (seq_length bam.now) (first_named MN (fields_of (drop (head_size bam.now) bam.now))) ≡ false) }
    ensures { DropsRecord bam.now places.now out.old result out.new }
{
    if head.bases <= 1024 {
        let mut row = changing::few_marks();
        let mut marks = changing::few_marks();
        let mut work = changing::few_marks();
        return record_steps::drop_with(
            bam, head, ats, sizes, places, &mut row, &mut marks, &mut work, out,
        );
    }
    let mut row = changing::no_marks();
    let mut marks = changing::no_marks();
    let mut work = changing::no_marks();
    record_steps::drop_with(
        bam, head, ats, sizes, places, &mut row, &mut marks, &mut work, out,
    )
}

// Drops the calls at places of the stored read. SEQ stays: their bases still count in later skips. Places past the end do nothing. A tag that may lose no
// such call, since its header does not end in '?', goes.
pub fn drop_record(bam: &[u8], places: &[u32], out: &mut [u8]) -> Result<(usize, bool), Refusal>
    ensures { DropsRecord bam.now places.now out.old result out.new }
{
    let mut ats = no_spots();
    let mut sizes = no_spots();
    let head = open_record(bam, 0, &mut ats, &mut sizes)?;
    if places.len() == 0 {
        return keep_record(bam, out);
    }
    let tagged = record_steps::is_tagged(&sizes);
    if !tagged {
        return keep_record(bam, out);
    }
    let stale = is_stale(bam, ats[MN], sizes[MN], head.bases);
    if stale { // the tags are of another SEQ
        return remove_record(bam, head.fields_at, out);
    }
    drop_opened(bam, head, &ats, &sizes, places, out)
}

// Cuts an opened record, with rows of its own.
fn cut_opened(
    bam: &[u8],
    head: Head,
    ats: &[usize; 6],
    sizes: &[usize; 6],
    before: &[u8],
    before_reverse: bool,
    start: Option<usize>,
    out: &mut [u8],
) -> Result<(usize, bool), Refusal>
    requires opened_as { OpenedAs bam.now (length before.now) ats.now sizes.now (Ok head) }
    requires bam_value { (is_tagged (fields_of (drop (head_size bam.now) bam.now)) ≡ true)
        × (disagrees (length before.now) (first_named MN (fields_of (drop (head_size bam.now) bam.now))) ≡ false)
        × (is_empty before.now && eqb (seq_length bam.now) 0 ≡ false) }
    ensures { CutsRecord bam.now before.now before_reverse start out.old result out.new }
{
    let few = both_few(head.bases, before.len());
    if few {
        let mut first = changing::few_marks();
        let mut second = changing::few_marks();
        let mut work = changing::few_marks();
        return record_steps::cut_with(
            bam,
            head,
            ats,
            sizes,
            before,
            before_reverse,
            start,
            &mut first,
            &mut second,
            &mut work,
            out,
        );
    }
    let mut first = changing::no_marks();
    let mut second = changing::no_marks();
    let mut work = changing::no_marks();
    record_steps::cut_with(
        bam,
        head,
        ats,
        sizes,
        before,
        before_reverse,
        start,
        &mut first,
        &mut second,
        &mut work,
        out,
    )
}

// Whether there was no base before, and there is none now.
fn is_nothing(letters: usize, bases: usize) -> bool
    ensures { result ≡ (eqb letters 0 && eqb bases 0) }
{
    if letters != 0 {
        return false;
    }
    bases == 0
}

// SEQ was cut: `before` are its letters as they were stored before, reverse or not, and `start` is where SEQ begins in them, counted from the stored front.
// Calls outside the window go, and so do calls on masked bases, except in a group on any base ('N'). MN becomes SEQ's length. If MN disagrees with the length
// of `before`, or SEQ is no window of it, all five go.
pub fn cut_record(
    bam: &[u8],
    before: &[u8],
    before_reverse: bool,
    start: Option<usize>,
    out: &mut [u8],
) -> Result<(usize, bool), Refusal>
    ensures { CutsRecord bam.now before.now before_reverse start out.old result out.new }
{
    let mut ats = no_spots();
    let mut sizes = no_spots();
    let head = open_record(bam, before.len(), &mut ats, &mut sizes)?;
    let tagged = record_steps::is_tagged(&sizes);
    if !tagged {
        return keep_record(bam, out);
    }
    let nothing = is_nothing(before.len(), head.bases);
    if nothing {
        return keep_record(bam, out);
    }
    let stale = is_stale(bam, ats[MN], sizes[MN], before.len());
    if stale {
        return remove_record(bam, head.fields_at, out);
    }
    cut_opened(bam, head, &ats, &sizes, before, before_reverse, start, out)
}
