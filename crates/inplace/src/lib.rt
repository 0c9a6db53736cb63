// Edits a whole tag in its own rows. An edited tag is never longer than the tag was, and a walk from the left overwrites only what it has read. So it
// needs no copy of the text or of ML. A first walk finds every refusal, so that a refusal writes nothing; then a walk that can no longer refuse
// writes the tag. A support crate: its functions may have a `requires`.
#![tactic(auto)]

ghost use Rattle.std.specs.Prelude.{◌≡◌, cond, ◌≤◌, length, Ok};
ghost use Rattle.samtags.specs.Edits.{edited};
ghost use Rattle.samtags.specs.Writing.{Tag};
ghost use Rattle.changing.specs.Windows.{window_edit};
ghost use Rattle.editing.specs.Rewrote.{rewrote, leaves_tag};

use lent::Refusal;

// Edits a tag in place. The first walk is `editing::measure`, which looks for every place.
fn edit_measured(
    seq: &[u8],
    after: &[u8],
    marks: &[u8],
    lo: usize,
    has_ml: bool,
    text: &mut [u8],
    ml: &mut [u8],
) -> Result<(usize, usize), Refusal>
    requires { (length seq.now ≤ 16000) × (length text.old ≤ 65536) × (cond has_ml (length ml.old) 0 ≤ 65536) }
    ensures { rewrote result text.new ml.new
        ≡ leaves_tag has_ml
        (edited (window_edit lo after.now marks.now) has_ml seq.now text.old ml.old)
        text.old ml.old }
{
    let taken = scanning::values_taken(ml.len(), has_ml);
    let size = editing::measure(seq, after, marks, text, &ml[0..taken], lo, has_ml)?;
    // What refuses a tag was found over empty rows.
    let _ = overwriting::edit_groups(seq, after, marks, lo, has_ml, text, &mut ml[0..taken]);
    Ok((size.end, size.kept))
}

// Writes a tag that is not refused. No room is checked, since an edited tag is never longer.
fn edit_checked(
    seq: &[u8],
    after: &[u8],
    marks: &[u8],
    lo: usize,
    has_ml: bool,
    text: &mut [u8],
    ml: &mut [u8],
) -> Result<(usize, usize), Refusal>
    requires seq_len_bound { (length seq.now ≤ 16000) × (length text.old ≤ 65536) × (cond has_ml (length ml.old) 0 ≤ 65536) }
    requires ml_value { (t : Tag) × (edited (window_edit lo after.now marks.now) has_ml seq.now text.old ml.old ≡ Ok t) }
    ensures { rewrote result text.new ml.new
        ≡ leaves_tag has_ml
        (edited (window_edit lo after.now marks.now) has_ml seq.now text.old ml.old)
        text.old ml.old }
{
    let taken = scanning::values_taken(ml.len(), has_ml);
    let size = overwriting::edit_groups(seq, after, marks, lo, has_ml, text, &mut ml[0..taken])?;
    Ok((size.end, size.kept))
}

// Edits a tag in place: the reader's numbers and 10, and with any refusal the rows are unchanged. The first walk needs no places; if it is unsure,
// the tag is measured. Without ML the ML row is ignored.
pub fn edit_in_place(
    seq: &[u8],
    after: &[u8],
    marks: &[u8],
    lo: usize,
    has_ml: bool,
    text: &mut [u8],
    ml: &mut [u8],
) -> Result<(usize, usize), Refusal>
    requires { (length seq.now ≤ 16000) × (length text.old ≤ 65536) × (cond has_ml (length ml.old) 0 ≤ 65536) }
    ensures { rewrote result text.new ml.new
        ≡ leaves_tag has_ml
        (edited (window_edit lo after.now marks.now) has_ml seq.now text.old ml.old)
        text.old ml.old }
{
    let taken = scanning::values_taken(ml.len(), has_ml); // none where there is no ML
    let counted = measuring::count_tag(seq, text, &ml[0..taken], has_ml, marks.len() != 0)?;
    match counted {
        Some(_) => edit_checked(seq, after, marks, lo, has_ml, text, ml),
        None => edit_measured(seq, after, marks, lo, has_ml, text, ml),
    }
}
