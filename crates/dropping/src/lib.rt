// A session's dropping step, on lengths that are in order. Every refusal comes before a byte is written, and leaves the rows unchanged. SEQ stays. A
// support crate: its functions may have a `requires`; the public calls are in `session`.
#![tactic(auto)]

ghost use Rattle.std.specs.Prelude.{◌≡◌, ◌≤◌, length};
ghost use Rattle.changing.specs.Windows.{Unmarked, window_edit};
ghost use Rattle.samtags.specs.Edits.{edited};
ghost use Rattle.samtags.specs.Session.{drop_calls, held_in, step_in_memory};
ghost use Rattle.stepping.specs.Steps.{Ordered, came, leaves_memory, memory, step_says, stored_with};

use lent::Refusal;
use stepping::Lengths;

// Drops the calls at the marked places; SEQ stays.
pub fn drop_marked(
    seq: &[u8],
    mm: &mut [u8],
    ml: &mut [u8],
    has_ml: bool,
    lengths: Lengths,
    marks: &[u8],
) -> Result<Lengths, Refusal>
    requires { Ordered has_ml (memory seq.now mm.old ml.old lengths) }
    ensures { let m = memory seq.now mm.old ml.old lengths in
        came (step_says result) seq.now mm.new ml.new
        ≡ leaves_memory m (stored_with has_ml m (held_in m).seq
        (edited (window_edit 0 (held_in m).seq marks.now) has_ml (held_in m).seq (held_in m).text (held_in m).ml)) }
{
    let n = lengths.seq;
    let (end, kept) = stepping::tags::edit_front(
        &seq[0..n],
        &seq[0..n],
        marks,
        0,
        has_ml,
        lengths.mm,
        lengths.ml,
        mm,
        ml,
    )?;
    Ok(stepping::lengths_now(n, end, kept, has_ml, lengths))
}

// The dropping step of a session whose lengths are in order. `marks` is a row to mark the places in: it has no mark yet and is at least as long as SEQ.
pub fn drop_with(
    seq: &[u8],
    mm: &mut [u8],
    ml: &mut [u8],
    has_ml: bool,
    lengths: Lengths,
    places: &[u32],
    marks: &mut [u8],
) -> Result<Lengths, Refusal>
    requires { Ordered has_ml (memory seq.now mm.old ml.old lengths)
        × (lengths.seq ≤ length marks.old) × Unmarked (length marks.old) marks.old }
    ensures { let m = memory seq.now mm.old ml.old lengths in
        came (step_says result) seq.now mm.new ml.new
        ≡ leaves_memory m (step_in_memory has_ml (drop_calls places.now) m) }
{
    changing::mark_places(places, marks, 1);
    drop_marked(seq, mm, ml, has_ml, lengths, marks)
}
