// Rewrites the tag of a stored read after its SEQ was masked or cut, or without the calls at some places: the edits of `rewriting` on packed SEQ.
//
// A stored read is its packed bytes, its stated number of bases, and whether it is reverse; `stored` says how it is counted. Each call answers Err with 1
// by the stated numbers and the lengths of text and ML, then 2 if packed bytes are not as many as their bases take, and then as the plain edit does on
// the bases in read orientation. The tag is in read orientation, as is the edited one. No public function has a `requires`.
#![tactic(auto)]

ghost use Rattle.std.specs.Prelude.{◌≡◌, true, ◌&&◌, ◌≤◌, leb, length};
ghost use Rattle.changing.specs.Windows.{Unmarked};
ghost use Rattle.packed.specs.Packed.{bytes_for};
ghost use Rattle.packed.specs.Stored.{in_read, places_in_read};
ghost use Rattle.rewriting.specs.PublicContracts.{Drops, Masks, Trims};
ghost use Rattle.samtags.specs.Reading.{in_domain};
ghost use Rattle.stored_edits.specs.PublicContracts.{DropsStored, MasksStored, TrimsStored};

use lent::Refusal;

// Whether two numbers of bases fit into the short rows.
fn both_few(n: usize, k: usize) -> bool
    ensures { result ≡ (leb n 1024 && leb k 1024) }
{
    if 1024 < n {
        return false;
    }
    k <= 1024
}

// Masks with two rows to unpack SEQ in, with any contents.
fn mask_with(
    before: &[u8],
    n: usize,
    after: &[u8],
    k: usize,
    reverse: bool,
    mm: &[u8],
    ml: &[u8],
    has_ml: bool,
    first: &mut [u8],
    second: &mut [u8],
    mm_out: &mut [u8],
    ml_out: &mut [u8],
) -> Result<(usize, usize), Refusal>
    requires { (n ≤ 16000) × (bytes_for n ≤ length before.now) × (n ≤ length first.old)
        × (k ≤ 16000) × (bytes_for k ≤ length after.now) × (k ≤ length second.old) }
    ensures { Masks has_ml (in_read reverse n before.now) (in_read reverse k after.now)
        mm.now ml.now mm_out.old ml_out.old result mm_out.new ml_out.new }
{
    packed_rows::unpack_row(before, n, reverse, first);
    packed_rows::unpack_row(after, k, reverse, second); // the masked bases
    rewriting::drop_masked_modifications(
        &first[0..n],
        &second[0..k],
        mm,
        ml,
        has_ml,
        mm_out,
        ml_out,
    )
}

// The stored SEQ was masked: `after` has as many bases as `before`. A base that `after` no longer holds leaves its group: its call is dropped, and it
// counts in no later skip. Err with 2 also if the two differ in their number of bases.
pub fn drop_masked_modifications(
    before: &[u8],
    before_bases: usize,
    after: &[u8],
    after_bases: usize,
    reverse: bool,
    mm: &[u8],
    ml: &[u8],
    has_ml: bool,
    mm_out: &mut [u8],
    ml_out: &mut [u8],
) -> Result<(usize, usize), Refusal>
    ensures { MasksStored reverse has_ml before_bases before.now after_bases after.now
        mm.now ml.now mm_out.old ml_out.old result mm_out.new ml_out.new }
{
    stored_rows::order::two_in_order(
        before.len(),
        before_bases,
        after.len(),
        after_bases, // of the masked SEQ
        mm.len(),
        ml.len(),
        has_ml,
    )?;
    let few = both_few(before_bases, after_bases);
    if few {
        let mut first = changing::few_marks();
        let mut second = changing::few_marks();
        return mask_with(
            before,
            before_bases,
            after,
            after_bases,
            reverse,
            mm,
            ml,
            has_ml,
            &mut first,
            &mut second,
            mm_out,
            ml_out,
        );
    }
    let mut first = changing::no_marks();
    let mut second = changing::no_marks();
    mask_with(
        before,
        before_bases,
        after,
        after_bases,
        reverse,
        mm,
        ml,
        has_ml,
        &mut first,
        &mut second,
        mm_out,
        ml_out,
    )
}

// Drops with a row to unpack SEQ in, with any contents, and a row to mark the places in, which has no mark yet.
fn drop_with(
    packed: &[u8],
    n: usize,
    reverse: bool,
    places: &[u32],
    mm: &[u8],
    ml: &[u8],
    has_ml: bool,
    row: &mut [u8],
    marks: &mut [u8],
    mm_out: &mut [u8],
    ml_out: &mut [u8],
) -> Result<(usize, usize), Refusal>
    requires { (bytes_for n ≤ length packed.now) × (n ≤ length row.old)
        × (in_domain has_ml (in_read reverse n packed.now) mm.now ml.now ≡ true)
        × (n ≤ length marks.old) × Unmarked (length marks.old) marks.old }
    ensures { Drops has_ml (in_read reverse n packed.now) (places_in_read reverse n places.now)
        mm.now ml.now mm_out.old ml_out.old result mm_out.new ml_out.new }
{
    packed_rows::unpack_row(packed, n, reverse, row);
    stored_rows::mark_in_read(places, n, reverse, marks, 1);
    editing::edit_tag(
        &row[0..n],
        &row[0..n],
        marks,
        mm,
        ml,
        0,
        has_ml,
        mm_out,
        ml_out,
    )
}

// Drops the calls at places of the stored read. SEQ stays: their bases still count in later skips. The places may come in any order and more than once;
// places past the end do nothing, in a reverse read too.
pub fn drop_modifications_at(
    packed: &[u8],
    bases: usize,
    reverse: bool,
    places: &[u32],
    mm: &[u8],
    ml: &[u8],
    has_ml: bool,
    mm_out: &mut [u8],
    ml_out: &mut [u8],
) -> Result<(usize, usize), Refusal>
    ensures { DropsStored reverse has_ml bases packed.now places.now mm.now ml.now
        mm_out.old ml_out.old result mm_out.new ml_out.new }
{
    stored_rows::order::stored_in_order(packed.len(), bases, mm.len(), ml.len(), has_ml)?;
    if bases <= 1024 {
        let mut row = changing::few_marks();
        let mut marks = changing::few_marks();
        return drop_with(
            packed, bases, reverse, places, mm, ml, has_ml, &mut row, &mut marks, mm_out, ml_out,
        );
    }
    let mut row = changing::no_marks();
    let mut marks = changing::no_marks();
    drop_with(
        packed, bases, reverse, places, mm, ml, has_ml, &mut row, &mut marks, mm_out, ml_out,
    )
}

// Trims with two rows to unpack SEQ in, with any contents. `start` is in read orientation.
fn trim_with(
    before: &[u8],
    n: usize,
    after: &[u8],
    k: usize,
    reverse: bool,
    start: Option<usize>,
    mm: &[u8],
    ml: &[u8],
    has_ml: bool,
    first: &mut [u8],
    second: &mut [u8],
    mm_out: &mut [u8],
    ml_out: &mut [u8],
) -> Result<(usize, usize), Refusal>
    requires { (n ≤ 16000) × (bytes_for n ≤ length before.now) × (n ≤ length first.old)
        × (k ≤ 16000) × (bytes_for k ≤ length after.now) × (k ≤ length second.old) }
    ensures { Trims has_ml start (in_read reverse n before.now) (in_read reverse k after.now)
        mm.now ml.now mm_out.old ml_out.old result mm_out.new ml_out.new }
{
    packed_rows::unpack_row(before, n, reverse, first);
    packed_rows::unpack_row(after, k, reverse, second);
    rewriting::trim_clipped_modifications(
        &first[0..n],
        &second[0..k],
        start,
        mm,
        ml,
        has_ml,
        mm_out,
        ml_out,
    )
}

// The stored SEQ was cut: `after` is a window of `before`, in which a base may be masked by N. The start is counted from the stored front. Calls outside
// the window are dropped, and so are calls on masked bases, except in a group on any base ('N'). The two are compared by their bases: Err with 21 if
// these are the same, 11 if `after` is no window of `before` or its start is unknown.
pub fn trim_clipped_modifications(
    before: &[u8],
    before_bases: usize,
    after: &[u8],
    after_bases: usize,
    reverse: bool,
    start: Option<usize>,
    mm: &[u8],
    ml: &[u8],
    has_ml: bool,
    mm_out: &mut [u8],
    ml_out: &mut [u8],
) -> Result<(usize, usize), Refusal>
    ensures { TrimsStored reverse has_ml start before_bases before.now after_bases after.now
        mm.now ml.now mm_out.old ml_out.old result mm_out.new ml_out.new }
{
    stored_rows::order::two_in_order(
        before.len(),
        before_bases,
        after.len(),
        after_bases,
        mm.len(),
        ml.len(),
        has_ml,
    )?;
    let begin = stored_rows::start_in_read(start, reverse, before_bases, after_bases);
    let few = both_few(before_bases, after_bases);
    if few {
        let mut first = changing::few_marks();
        let mut second = changing::few_marks();
        return trim_with(
            before,
            before_bases,
            after,
            after_bases,
            reverse,
            begin,
            mm,
            ml,
            has_ml,
            &mut first,
            &mut second,
            mm_out,
            ml_out,
        );
    }
    let mut first = changing::no_marks();
    let mut second = changing::no_marks();
    trim_with(
        before,
        before_bases,
        after,
        after_bases,
        reverse,
        begin,
        mm,
        ml,
        has_ml,
        &mut first,
        &mut second,
        mm_out,
        ml_out,
    )
}
