// The steps of an edit session on a stored read whose lengths are in order: SEQ is unpacked in read orientation into a row, the plain step is made there,
// and SEQ is packed back. Every Err comes before a byte is written, and leaves the rows unchanged. A support crate: its functions may have a
// `requires`; the public calls are in `stored_session`.
#![tactic(auto)]

ghost use Rattle.std.specs.Prelude.{◌≡◌, cond, true, ◌&&◌, ◌≤◌, leb, length, take, Ok};
ghost use Rattle.changing.specs.Windows.{Unmarked};
ghost use Rattle.lent.specs.Lists.{among};
ghost use Rattle.lent.specs.Outcome.{need};
ghost use Rattle.packed.specs.Packed.{bytes_for};
ghost use Rattle.packed.specs.Stored.{places_in_read};
ghost use Rattle.samtags.specs.Session.{cut, drop_calls, lengths_in_domain, mask, masked};
ghost use Rattle.stepping.specs.Steps.{came, leaves_memory, lengths_of, memory, step_says};
ghost use Rattle.stored_steps.specs.Back.{FitsBack, OrderedStored, packed_back};
ghost use Rattle.stored_steps.specs.Steps.{step_stored};

use lent::Refusal;
use stepping::Lengths;

// Checks a session's lengths against rows of `packed`, `mm` and `ml` bytes: Err with 1 if a length is outside the domain, with 2 if a row is too
// short for it.
pub fn lengths_in_order(
    packed: usize,
    mm: usize,
    ml: usize,
    has_ml: bool,
    lengths: Lengths,
) -> Result<(), Refusal>
    ensures { result ≡ need (lengths_in_domain has_ml (lengths_of lengths)) 1
        (need (leb (bytes_for lengths.seq) packed && (leb lengths.mm mm && cond has_ml (leb lengths.ml ml) true)) 2 (Ok tt)) }
{
    let bases = stored_rows::order::bases_in(packed);
    stepping::order::lengths_in_order(bases, mm, ml, has_ml, lengths)
}

// Packs SEQ of a step that is Ok back into its row, and passes the answer on.
fn put_back(
    answer: Result<Lengths, Refusal>,
    row: &[u8],
    reverse: bool,
    packed: &mut [u8],
) -> Result<Lengths, Refusal>
    requires { FitsBack answer row.now packed.old }
    ensures { (result ≡ answer) × (packed.new ≡ packed_back answer reverse row.now packed.old) }
{
    let Ok(held) = answer else {
        return answer;
    };
    let n = held.seq;
    packed_rows::pack_row(&row[0..n], reverse, packed);
    Ok(held)
}

// Copies SEQ, in read orientation, to the front of a row, with N at the places of the stored read. Places past SEQ's end mask nothing of it.
fn mask_copy(seq: &[u8], places: &[u32], reverse: bool, row: &mut [u8])
    requires { (length seq.now ≤ 16000) × (length seq.now ≤ length row.old) }
    ensures { take (length seq.now) row.new
        ≡ masked (among (places_in_read reverse (length seq.now) places.now)) seq.now }
{
    entries::put_all(row, 0, seq);
    stored_rows::mark_in_read(places, seq.len(), reverse, row, b'N');
}

// The masking step. `seq` and `after` are rows for SEQ as it is and as it will be, with any contents.
pub fn mask_with(
    packed: &mut [u8],
    reverse: bool,
    mm: &mut [u8],
    ml: &mut [u8],
    has_ml: bool,
    lengths: Lengths,
    places: &[u32],
    seq: &mut [u8],
    after: &mut [u8],
) -> Result<Lengths, Refusal>
    requires { OrderedStored has_ml (memory packed.old mm.old ml.old lengths)
        × (lengths.seq ≤ length seq.old) × (lengths.seq ≤ length after.old) }
    ensures { let m = memory packed.old mm.old ml.old lengths in
        came (step_says result) packed.new mm.new ml.new
        ≡ leaves_memory m (step_stored reverse has_ml (mask places.now) m) }
{
    let n = lengths.seq;
    packed_rows::unpack_row(packed, n, reverse, seq);
    mask_copy(&seq[0..n], places, reverse, after);
    let made = masking::mask_to(seq, mm, ml, has_ml, lengths, &after[0..n]);
    put_back(made, seq, reverse, packed)
}

// The dropping step. `seq` is a row for SEQ, with any contents; `marks` is a row to mark the places in, which has no mark yet.
pub fn drop_with(
    packed: &mut [u8],
    reverse: bool,
    mm: &mut [u8],
    ml: &mut [u8],
    has_ml: bool,
    lengths: Lengths,
    places: &[u32],
    seq: &mut [u8],
    marks: &mut [u8],
) -> Result<Lengths, Refusal>
    requires { OrderedStored has_ml (memory packed.old mm.old ml.old lengths)
        × (lengths.seq ≤ length seq.old) × (lengths.seq ≤ length marks.old) × Unmarked (length marks.old) marks.old }
    ensures { let m = memory packed.old mm.old ml.old lengths in
        came (step_says result) packed.new mm.new ml.new
        ≡ leaves_memory m (step_stored reverse has_ml (drop_calls places.now) m) }
{
    let n = lengths.seq;
    packed_rows::unpack_row(packed, n, reverse, seq);
    stored_rows::mark_in_read(places, n, reverse, marks, 1);
    let made = dropping::drop_marked(seq, mm, ml, has_ml, lengths, marks);
    put_back(made, seq, reverse, packed)
}

// One end of a cut in read orientation: the ends of a reverse read change places.
fn end_in_read(reverse: bool, this: u32, other: u32) -> u32
    ensures { result ≡ cond reverse other this }
{
    if reverse {
        return other;
    }
    this
}

// The cutting step. `seq` is a row for SEQ, with any contents.
pub fn cut_with(
    packed: &mut [u8],
    reverse: bool,
    mm: &mut [u8],
    ml: &mut [u8],
    has_ml: bool,
    lengths: Lengths,
    front: u32,
    back: u32,
    seq: &mut [u8],
) -> Result<Lengths, Refusal>
    requires { OrderedStored has_ml (memory packed.old mm.old ml.old lengths) × (lengths.seq ≤ length seq.old) }
    ensures { let m = memory packed.old mm.old ml.old lengths in
        came (step_says result) packed.new mm.new ml.new
        ≡ leaves_memory m (step_stored reverse has_ml (cut front back) m) }
{
    packed_rows::unpack_row(packed, lengths.seq, reverse, seq);
    let first = end_in_read(reverse, front, back);
    let last = end_in_read(reverse, back, front);
    let made = cutting::cut_ends(seq, mm, ml, has_ml, lengths, first, last);
    put_back(made, seq, reverse, packed)
}
