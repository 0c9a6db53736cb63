// A session's masking step, on lengths that are in order. The tag is edited first: every refusal comes before a byte is written, and leaves the rows
// unchanged. Then the new SEQ is written. A support crate: its functions may have a `requires`; the public calls are in `session`.
#![tactic(auto)]

ghost use Rattle.std.specs.Prelude.{◌≡◌, ◌≤◌, length, take};
ghost use Rattle.lent.specs.Lists.{among};
ghost use Rattle.samtags.specs.Edits.{edited, masked_to};
ghost use Rattle.samtags.specs.Session.{held_in, mask, masked, step_in_memory};
ghost use Rattle.stepping.specs.Steps.{Ordered, came, leaves_memory, memory, step_says, stored_with};

use lent::Refusal;
use stepping::Lengths;

// SEQ becomes `after`, which is as long as SEQ.
pub fn mask_to(
    seq: &mut [u8],
    mm: &mut [u8],
    ml: &mut [u8],
    has_ml: bool,
    lengths: Lengths,
    after: &[u8],
) -> Result<Lengths, Refusal>
    requires { Ordered has_ml (memory seq.old mm.old ml.old lengths) × (length after.now ≡ lengths.seq) }
    ensures { let m = memory seq.old mm.old ml.old lengths in
        came (step_says result) seq.new mm.new ml.new
        ≡ leaves_memory m (stored_with has_ml m after.now
        (edited (masked_to after.now) has_ml (held_in m).seq (held_in m).text (held_in m).ml)) }
{
    let n = lengths.seq;
    let no_marks: [u8; 0] = [];
    let (end, kept) = stepping::tags::edit_front(
        &seq[0..n],
        after,
        &no_marks,
        0,
        has_ml,
        lengths.mm,
        lengths.ml,
        mm,
        ml,
    )?;
    entries::put_all(seq, 0, after);
    Ok(stepping::lengths_now(n, end, kept, has_ml, lengths))
}

// Copies SEQ to the front of a row, with N at the places. Places past SEQ's end mask nothing of it.
fn mask_copy(seq: &[u8], places: &[u32], row: &mut [u8])
    requires { (length seq.now ≤ 16000) × (length seq.now ≤ length row.old) }
    ensures { take (length seq.now) row.new ≡ masked (among places.now) seq.now }
{
    entries::put_all(row, 0, seq);
    changing::mark_places(places, row, b'N');
}

// The masking step of a session whose lengths are in order. `after` is a row for the new SEQ, with any contents.
pub fn mask_with(
    seq: &mut [u8],
    mm: &mut [u8],
    ml: &mut [u8],
    has_ml: bool,
    lengths: Lengths,
    places: &[u32],
    after: &mut [u8],
) -> Result<Lengths, Refusal>
    requires { Ordered has_ml (memory seq.old mm.old ml.old lengths) × (lengths.seq ≤ length after.old) }
    ensures { let m = memory seq.old mm.old ml.old lengths in
        came (step_says result) seq.new mm.new ml.new
        ≡ leaves_memory m (step_in_memory has_ml (mask places.now) m) }
{
    let bases = lengths.seq;
    mask_copy(&seq[0..bases], places, after);
    mask_to(seq, mm, ml, has_ml, lengths, &after[0..bases])
}
