// Edits the tag at the front of its rows, in place.
ghost use Rattle.std.specs.Prelude.{◌≡◌, cond, ◌≤◌, length, take};
ghost use Rattle.samtags.specs.Edits.{edited};
ghost use Rattle.editing.specs.Rewrote.{rewrote, leaves_tag};
ghost use Rattle.changing.specs.Windows.{window_edit};

use lent::Refusal;

// The text is the first `text` bytes of its row, and the ML the first `values` of its row; the bytes after them are unchanged. Answers the reader's
// numbers and 10; with any refusal the rows are unchanged.
pub fn edit_front(
    seq: &[u8],
    after: &[u8],
    marks: &[u8],
    lo: usize,
    has_ml: bool,
    text: usize,
    values: usize,
    mm: &mut [u8],
    ml: &mut [u8],
) -> Result<(usize, usize), Refusal>
    requires { (length seq.now ≤ 16000) × (text ≤ 65536) × (cond has_ml values 0 ≤ 65536)
        × (text ≤ length mm.old) × (cond has_ml values 0 ≤ length ml.old) }
    ensures { rewrote result mm.new ml.new
        ≡ leaves_tag has_ml
        (edited (window_edit lo after.now marks.now) has_ml seq.now
        (take text mm.old) (take values ml.old))
        mm.old ml.old }
{
    let taken = scanning::values_taken(values, has_ml);
    inplace::edit_in_place(
        seq,
        after,
        marks,
        lo,
        has_ml,
        &mut mm[0..text],
        &mut ml[0..taken],
    )
}
