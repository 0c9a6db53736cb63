// A session's cutting step, on lengths that are in order. The tag is edited first: every refusal comes before a byte is written, and leaves the rows
// unchanged. Then the new SEQ is written. A support crate: its functions may have a `requires`; the public calls are in `session`.
#![tactic(auto)]

ghost use Rattle.std.specs.Prelude.{◌≡◌, ◌+◌, ◌≤◌};
ghost use Rattle.samtags.specs.Edits.{cut_to, edited};
ghost use Rattle.samtags.specs.Session.{cut, held_in, step_in_memory, window};
ghost use Rattle.stepping.specs.Steps.{Ordered, came, leaves_memory, memory, step_says, stored_with};

use lent::Refusal;
use stepping::Lengths;

// SEQ becomes n of its bases, from place `front` on.
fn cut_to(
    seq: &mut [u8],
    mm: &mut [u8],
    ml: &mut [u8],
    has_ml: bool,
    lengths: Lengths,
    front: usize,
    n: usize,
) -> Result<Lengths, Refusal>
    requires { Ordered has_ml (memory seq.old mm.old ml.old lengths) × (front + n ≤ lengths.seq) }
    ensures { let m = memory seq.old mm.old ml.old lengths in
        came (step_says result) seq.new mm.new ml.new
        ≡ leaves_memory m (stored_with has_ml m (window front n (held_in m).seq)
        (edited (cut_to front (window front n (held_in m).seq)) has_ml (held_in m).seq (held_in m).text (held_in m).ml)) }
{
    let size = lengths.seq;
    let none: [u8; 0] = [];
    let (end, kept) = stepping::tags::edit_front(
        &seq[0..size],
        &seq[front..front + n],
        &none,
        front,
        has_ml,
        lengths.mm,
        lengths.ml,
        mm,
        ml,
    )?;
    moving::move_left(seq, front, 0, n);
    Ok(stepping::lengths_now(n, end, kept, has_ml, lengths))
}

// Cuts `front` bases off the front and `back` bases off the back: 21 if both are 0, 11 if SEQ has fewer bases. The sum may exceed a u32.
pub fn cut_ends(
    seq: &mut [u8],
    mm: &mut [u8],
    ml: &mut [u8],
    has_ml: bool,
    lengths: Lengths,
    front: u32,
    back: u32,
) -> Result<Lengths, Refusal>
    requires { Ordered has_ml (memory seq.old mm.old ml.old lengths) }
    ensures { let m = memory seq.old mm.old ml.old lengths in
        came (step_says result) seq.new mm.new ml.new ≡ leaves_memory m (step_in_memory has_ml (cut front back) m) }
{
    let off = front as usize + back as usize;
    if off == 0 {
        return Err(Refusal::Unchanged);
    }
    if lengths.seq < off {
        return Err(Refusal::NoWindow);
    }
    cut_to(
        seq,
        mm,
        ml,
        has_ml,
        lengths,
        front as usize,
        lengths.seq - off,
    )
}
