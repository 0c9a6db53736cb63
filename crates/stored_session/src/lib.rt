// The edit session of a stored read: packed SEQ, the MM text and the ML in three lent rows, opened once and then changed in place, step by step. SEQ stays
// packed, and reverse-complemented if the read is reverse.
//
// The session owns nothing and hides nothing, as the plain one of `session`. Its lengths are the number of bases and how much of the rows of text and ML
// it holds. Everything is counted in the stored read: places, the two ends of a cut. The tag is in read orientation and is never turned. A step equals
// turning SEQ, making the plain step and turning back, so that after every step that is Ok the spare half of the last byte is 0. With any Err, also that
// of a cut of nothing (21), nothing at all is changed, the spare half neither. Err with 1 if a length is outside the domain; 2 if the packed bytes are fewer than the
// bases take, and at the opening also if they are more; then as the plain session. No public function has a `requires`.
#![tactic(auto)]

ghost use Rattle.samtags.specs.Session.{cut, drop_calls, mask};
ghost use Rattle.session.specs.PublicContracts.{call, rows};
ghost use Rattle.stored_session.specs.PublicContracts.{MeetsStored, OpensStored};

use lent::Refusal;
use stepping::Lengths;

// Opens a session: Ok with the numbers of its tag's groups and calls. Nothing is written.
pub fn open(
    packed: &[u8],
    reverse: bool,
    mm: &[u8],
    ml: &[u8],
    has_ml: bool,
    lengths: Lengths,
) -> Result<(usize, usize), Refusal>
    ensures { OpensStored reverse has_ml (rows packed.now mm.now ml.now lengths) result }
{
    stored_steps::lengths_in_order(packed.len(), mm.len(), ml.len(), has_ml, lengths)?;
    let text = lengths.mm;
    let taken = scanning::values_taken(lengths.ml, has_ml);
    stored::check_tag(
        packed,
        lengths.seq,
        reverse,
        &mm[0..text],
        &ml[0..taken],
        has_ml,
    )
}

// Masks: writes N at the listed places of the stored read, in any order and more than once. Places past its end are ignored. A masked base is no longer
// one of its group's: its call is dropped, and it counts in no later skip. A group on any base (N) keeps its calls.
pub fn mask(
    packed: &mut [u8],
    reverse: bool,
    mm: &mut [u8],
    ml: &mut [u8],
    has_ml: bool,
    lengths: Lengths,
    places: &[u32],
) -> Result<Lengths, Refusal>
    ensures { MeetsStored reverse has_ml (rows packed.old mm.old ml.old lengths)
        (call (mask places.now) result packed.new mm.new ml.new) }
{
    stored_steps::lengths_in_order(packed.len(), mm.len(), ml.len(), has_ml, lengths)?;
    if lengths.seq <= 1024 {
        let mut seq = changing::few_marks();
        let mut after = changing::few_marks();
        return stored_steps::mask_with(
            packed, reverse, mm, ml, has_ml, lengths, places, &mut seq, &mut after,
        );
    }
    let mut seq = changing::no_marks();
    let mut after = changing::no_marks();
    stored_steps::mask_with(
        packed, reverse, mm, ml, has_ml, lengths, places, &mut seq, &mut after,
    )
}

// Drops the calls at the listed places of the stored read, in any order and more than once. SEQ stays, so their bases still count in later skips. Err with
// 10 at a call whose group's header does not end in '?'.
pub fn drop_calls(
    packed: &mut [u8],
    reverse: bool,
    mm: &mut [u8],
    ml: &mut [u8],
    has_ml: bool,
    lengths: Lengths,
    places: &[u32],
) -> Result<Lengths, Refusal>
    ensures { MeetsStored reverse has_ml (rows packed.old mm.old ml.old lengths)
        (call (drop_calls places.now) result packed.new mm.new ml.new) }
{
    stored_steps::lengths_in_order(packed.len(), mm.len(), ml.len(), has_ml, lengths)?;
    if lengths.seq <= 1024 {
        let mut seq = changing::few_marks();
        let mut marks = changing::few_marks();
        return stored_steps::drop_with(
            packed, reverse, mm, ml, has_ml, lengths, places, &mut seq, &mut marks,
        );
    }
    let mut seq = changing::no_marks();
    let mut marks = changing::no_marks();
    stored_steps::drop_with(
        packed, reverse, mm, ml, has_ml, lengths, places, &mut seq, &mut marks,
    )
}

// Cuts bases off the front and off the back of the stored read. Err with 21 if both are 0, and then the tag is not read; with 11 if they are more than
// SEQ has, however large their sum.
pub fn cut(
    packed: &mut [u8],
    reverse: bool,
    mm: &mut [u8],
    ml: &mut [u8],
    has_ml: bool,
    lengths: Lengths,
    front: u32,
    back: u32,
) -> Result<Lengths, Refusal>
    ensures { MeetsStored reverse has_ml (rows packed.old mm.old ml.old lengths)
        (call (cut front back) result packed.new mm.new ml.new) }
{
    stored_steps::lengths_in_order(packed.len(), mm.len(), ml.len(), has_ml, lengths)?;
    if lengths.seq <= 1024 {
        let mut few = changing::few_marks();
        return stored_steps::cut_with(
            packed, reverse, mm, ml, has_ml, lengths, front, back, &mut few,
        );
    }
    let mut seq = changing::no_marks();
    stored_steps::cut_with(
        packed, reverse, mm, ml, has_ml, lengths, front, back, &mut seq,
    )
}
