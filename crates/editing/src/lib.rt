// Edits a whole tag. A first walk finds every refusal, so that a refusal writes nothing. This walk needs no places; but if a row is shorter than the
// tag, or if the places matter, it is the walk that writes, over empty rows. The room is checked last. A support crate of `rewriting` and `inplace`:
// its functions may have a `requires`.
#![tactic(auto)]

ghost use Rattle.std.specs.Prelude.{◌≡◌, cond, [], ◌≤◌, length, Ok};
ghost use Rattle.samtags.specs.Edits.{edited, in_room};
ghost use Rattle.samtags.specs.Reading.{in_domain};
ghost use Rattle.samtags.specs.Writing.{Tag};
ghost use Rattle.editing.specs.Rewrote.{rewrote, leaves_tag};
ghost use Rattle.editing.specs.Tags.{TagMeasured};
ghost use Rattle.changing.specs.Windows.{window_edit};

use drafting::Cursor;
use lent::Refusal;

// Whether the lengths of SEQ, text and ML are within the domain. Without ML the ML row is ignored.
pub fn in_domain(seq: &[u8], mm: &[u8], ml: &[u8], has_ml: bool) -> bool
    ensures { result ≡ in_domain has_ml seq.now mm.now ml.now }
{
    let taken = scanning::values_taken(ml.len(), has_ml);
    if 16000 < seq.len() {
        return false;
    }
    if 65536 < mm.len() {
        return false;
    }
    taken <= 65536
}

// The first walk, over empty rows: every refusal except for too little room, and the lengths of the edited tag. Without ML the ML row is empty.
pub fn measure(
    seq: &[u8],
    after: &[u8],
    marks: &[u8],
    mm: &[u8],
    ml: &[u8],
    lo: usize,
    has_ml: bool,
) -> Result<Cursor, Refusal>
    requires { (length seq.now ≤ 16000) × (length mm.now ≤ 65536) × (length ml.now ≤ 65536) × (cond has_ml ml.now [] ≡ ml.now) }
    ensures { TagMeasured
        (edited (window_edit lo after.now marks.now) has_ml seq.now mm.now ml.now) result }
{
    let ascii = fields::all_ascii(mm);
    if !ascii {
        return Err(Refusal::MmNotAscii);
    }
    let closed = fields::ends_in_semicolon(mm);
    if !closed {
        return Err(Refusal::MmNotClosed);
    }
    let mut no_text: [u8; 0] = [];
    let mut no_ml: [u8; 0] = [];
    drafting::edit_groups(
        seq,
        after,
        marks,
        mm,
        ml,
        lo,
        has_ml,
        &mut no_text,
        &mut no_ml,
    )
}

// Edits a tag into two lent rows of any length. The first walk is the one that writes, over empty rows, which measures.
fn edit_measured(
    seq: &[u8],
    after: &[u8],
    marks: &[u8],
    mm: &[u8],
    ml: &[u8],
    lo: usize,
    has_ml: bool,
    mm_out: &mut [u8],
    ml_out: &mut [u8],
) -> Result<(usize, usize), Refusal>
    requires { (length seq.now ≤ 16000) × (length mm.now ≤ 65536) × (cond has_ml (length ml.now) 0 ≤ 65536) }
    ensures { rewrote result mm_out.new ml_out.new
        ≡ leaves_tag has_ml
        (in_room has_ml (length mm_out.old) (length ml_out.old)
        (edited (window_edit lo after.now marks.now) has_ml seq.now mm.now ml.now))
        mm_out.old ml_out.old }
{
    let taken = scanning::values_taken(ml.len(), has_ml);
    let size = measure(seq, after, marks, mm, &ml[0..taken], lo, has_ml)?;
    let end = size.end;
    let kept = size.kept;
    if mm_out.len() < end {
        return Err(Refusal::NoRoom);
    }
    if ml_out.len() < kept {
        return Err(Refusal::NoRoom);
    }
    // What refuses a tag was found over the empty rows.
    let _ = drafting::edit_groups(
        seq,
        after,
        marks,
        mm,
        &ml[0..taken],
        lo,
        has_ml,
        mm_out,
        ml_out,
    );
    Ok((end, kept))
}

// Writes a tag that is not refused into rows at least as long as the tag was. An edited tag is never longer, so the walk itself gives its lengths.
fn edit_checked(
    seq: &[u8],
    after: &[u8],
    marks: &[u8],
    mm: &[u8],
    ml: &[u8],
    lo: usize,
    has_ml: bool,
    mm_out: &mut [u8],
    ml_out: &mut [u8],
) -> Result<(usize, usize), Refusal>
    requires seq_len_bound { (length seq.now ≤ 16000) × (length mm.now ≤ 65536) × (length ml.now ≤ 65536) × (cond has_ml ml.now [] ≡ ml.now) }
    requires mm_in_bounds { (length mm.now ≤ length mm_out.old) × (length ml.now ≤ length ml_out.old) }
    requires ml_value { (t : Tag) × (edited (window_edit lo after.now marks.now) has_ml seq.now mm.now ml.now ≡ Ok t) }
    ensures { rewrote result mm_out.new ml_out.new
        ≡ leaves_tag has_ml
        (in_room has_ml (length mm_out.old) (length ml_out.old)
        (edited (window_edit lo after.now marks.now) has_ml seq.now mm.now ml.now))
        mm_out.old ml_out.old }
{
    let size = drafting::edit_groups(seq, after, marks, mm, ml, lo, has_ml, mm_out, ml_out)?;
    Ok((size.end, size.kept))
}

// Edits a tag into rows at least as long as the tag was. The first walk needs no places. If it is unsure, the tag is measured.
fn edit_roomy(
    seq: &[u8],
    after: &[u8],
    marks: &[u8],
    mm: &[u8],
    ml: &[u8],
    lo: usize,
    has_ml: bool,
    mm_out: &mut [u8],
    ml_out: &mut [u8],
) -> Result<(usize, usize), Refusal>
    requires seq_len_bound { (length seq.now ≤ 16000) × (length mm.now ≤ 65536) × (cond has_ml (length ml.now) 0 ≤ 65536) }
    requires mm_in_bounds { (length mm.now ≤ length mm_out.old) × (cond has_ml (length ml.now) 0 ≤ length ml_out.old) }
    ensures { rewrote result mm_out.new ml_out.new
        ≡ leaves_tag has_ml
        (in_room has_ml (length mm_out.old) (length ml_out.old)
        (edited (window_edit lo after.now marks.now) has_ml seq.now mm.now ml.now))
        mm_out.old ml_out.old }
{
    let taken = scanning::values_taken(ml.len(), has_ml);
    let counted = measuring::count_tag(seq, mm, &ml[0..taken], has_ml, marks.len() != 0)?;
    match counted {
        Some(_) => edit_checked(
            seq,
            after,
            marks,
            mm,
            &ml[0..taken],
            lo,
            has_ml,
            mm_out,
            ml_out,
        ),
        None => edit_measured(seq, after, marks, mm, ml, lo, has_ml, mm_out, ml_out),
    }
}

// Edits a tag into two lent rows: the reader's numbers and 10, last 12. With any refusal the rows are unchanged.
pub fn edit_tag(
    seq: &[u8],
    after: &[u8],
    marks: &[u8],
    mm: &[u8],
    ml: &[u8],
    lo: usize,
    has_ml: bool,
    mm_out: &mut [u8],
    ml_out: &mut [u8],
) -> Result<(usize, usize), Refusal>
    requires { (length seq.now ≤ 16000) × (length mm.now ≤ 65536) × (cond has_ml (length ml.now) 0 ≤ 65536) }
    ensures { rewrote result mm_out.new ml_out.new
        ≡ leaves_tag has_ml
        (in_room has_ml (length mm_out.old) (length ml_out.old)
        (edited (window_edit lo after.now marks.now) has_ml seq.now mm.now ml.now))
        mm_out.old ml_out.old }
{
    let taken = scanning::values_taken(ml.len(), has_ml);
    if mm_out.len() < mm.len() {
        return edit_measured(seq, after, marks, mm, ml, lo, has_ml, mm_out, ml_out);
    }
    if ml_out.len() < taken {
        return edit_measured(seq, after, marks, mm, ml, lo, has_ml, mm_out, ml_out);
    }
    edit_roomy(seq, after, marks, mm, ml, lo, has_ml, mm_out, ml_out)
}
