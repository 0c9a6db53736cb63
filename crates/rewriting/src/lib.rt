// Rewrites a tag after its SEQ was masked or cut, or without the calls at some places. Port step 6: the public calls for what `samtags` defines as edits.
//
// Each call takes SEQ, the MM text and the ML as the caller has them, of any length and content and in read orientation, and answers with the scope's
// numbers in the scope's order. Ok with how many bytes of text and of ML the edited tag takes: they fill the front of the two lent rows, and the
// rest of each row is unchanged. With any other answer the rows are unchanged. If `has_ml` is false, the tag has no ML and both rows lent for ML are
// ignored. Headers stay as spelled, skips are spelled anew, and a group that lost all its calls stays. No public function has a `requires`.
#![tactic(auto)]

ghost use Rattle.std.specs.Prelude.{◌≡◌, true, ◌≤◌, length};
ghost use Rattle.samtags.specs.Reading.{in_domain};
ghost use Rattle.changing.specs.Windows.{Unmarked};
ghost use Rattle.rewriting.specs.Starts.{start_of};
ghost use Rattle.rewriting.specs.PublicContracts.{Masks, Drops, Trims};

use lent::Refusal;

// SEQ was masked: `after` is as long as `before`. A base that `after` no longer holds leaves its group: its call is dropped, and it counts in no
// later skip. Any byte of `after` may differ, not only by an N.
// 1 if something is too long, 2 if the lengths differ, then 3, 4, .. as the reader, and last 12.
pub fn drop_masked_modifications(
    before: &[u8],
    after: &[u8],
    mm: &[u8],
    ml: &[u8],
    has_ml: bool,
    mm_out: &mut [u8],
    ml_out: &mut [u8],
) -> Result<(usize, usize), Refusal>
    ensures { Masks has_ml before.now after.now mm.now ml.now
        mm_out.old ml_out.old result mm_out.new ml_out.new }
{
    let fits = editing::in_domain(before, mm, ml, has_ml);
    if !fits {
        return Err(Refusal::TooLong);
    }
    if 16000 < after.len() {
        return Err(Refusal::TooLong);
    }
    if before.len() != after.len() {
        return Err(Refusal::LengthsDisagree);
    }
    let no_marks: [u8; 0] = [];
    editing::edit_tag(before, after, &no_marks, mm, ml, 0, has_ml, mm_out, ml_out)
}

// Drops the calls at the places. `marks` is a row to mark the places in: it has no mark yet and is at least as long as SEQ.
fn drop_with(
    seq: &[u8],
    places: &[u32],
    mm: &[u8],
    ml: &[u8],
    has_ml: bool,
    marks: &mut [u8],
    mm_out: &mut [u8],
    ml_out: &mut [u8],
) -> Result<(usize, usize), Refusal>
    requires { (in_domain has_ml seq.now mm.now ml.now ≡ true)
        × (length seq.now ≤ length marks.old) × Unmarked (length marks.old) marks.old }
    ensures { Drops has_ml seq.now places.now mm.now ml.now
        mm_out.old ml_out.old result mm_out.new ml_out.new }
{
    changing::mark_places(places, marks, 1);
    editing::edit_tag(seq, seq, marks, mm, ml, 0, has_ml, mm_out, ml_out)
}

// Drops the calls at the places. SEQ stays: their bases still count in later skips. The places may come in any order and more than once; places past
// SEQ's end do nothing.
// 1 if something is too long, then 3, 4, .. as the reader, with 10 at an entry whose call would be dropped from a group that may lose none, and last 12.
pub fn drop_modifications_at(
    seq: &[u8],
    places: &[u32],
    mm: &[u8],
    ml: &[u8],
    has_ml: bool,
    mm_out: &mut [u8],
    ml_out: &mut [u8],
) -> Result<(usize, usize), Refusal>
    ensures { Drops has_ml seq.now places.now mm.now ml.now
        mm_out.old ml_out.old result mm_out.new ml_out.new }
{
    let fits = editing::in_domain(seq, mm, ml, has_ml);
    if !fits {
        return Err(Refusal::TooLong);
    }
    if seq.len() <= 1024 {
        let mut few = changing::few_marks();
        return drop_with(seq, places, mm, ml, has_ml, &mut few, mm_out, ml_out);
    }
    let mut marks = changing::no_marks();
    drop_with(seq, places, mm, ml, has_ml, &mut marks, mm_out, ml_out)
}

// The start of the window: 0 if nothing was cut off, whatever start is given.
fn window_start(start: Option<usize>, before: usize, after: usize) -> Option<usize>
    ensures { result ≡ start_of start before after }
{
    if before == after {
        return Some(0);
    }
    start
}

// SEQ was cut: `after` is a window of `before`, in which a base may be masked by N or n. Calls outside the window are dropped, and so are calls on
// masked bases, except in a group on any base ('N').
// `start` is the place of `before` where `after` begins, or None if it is not known; if nothing was cut off, it is ignored.
// 1 if something is too long, 21 if nothing changed (then the tag is not read), 11 if `after` is no window of `before` or its start is unknown, then
// 3, 4, .. as the reader, and last 12.
pub fn trim_clipped_modifications(
    before: &[u8],
    after: &[u8],
    start: Option<usize>,
    mm: &[u8],
    ml: &[u8],
    has_ml: bool,
    mm_out: &mut [u8],
    ml_out: &mut [u8],
) -> Result<(usize, usize), Refusal>
    ensures { Trims has_ml start before.now after.now mm.now ml.now
        mm_out.old ml_out.old result mm_out.new ml_out.new }
{
    let fits = editing::in_domain(before, mm, ml, has_ml);
    if !fits {
        return Err(Refusal::TooLong);
    }
    if 16000 < after.len() {
        return Err(Refusal::TooLong);
    }
    let same = windows::same_bytes(before, after);
    if same {
        return Err(Refusal::Unchanged);
    }
    let found = window_start(start, before.len(), after.len());
    let Some(lo) = found else {
        return Err(Refusal::NoWindow);
    };
    let window = windows::lies_in(after, before, lo);
    if !window {
        return Err(Refusal::NoWindow);
    }
    let none: [u8; 0] = [];
    editing::edit_tag(before, after, &none, mm, ml, lo, has_ml, mm_out, ml_out)
}
