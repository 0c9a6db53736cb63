// An edit session: SEQ, the MM text and the ML in three lent rows, opened once and then changed in place, step by step. Port step 8: the public calls
// for what `samtags` defines as a session.
//
// The session owns nothing and hides nothing. Its lengths say how much of each row it holds. A call takes them by value, and the answer of a step
// gives the new ones. A row may be longer than its length; the bytes after the length are unchanged. A refused step, and a cut of nothing (21),
// change nothing at all. Whoever wrote the contents of the rows, each call answers by the same table: 1 if a length is outside the domain, 2 if a
// length is longer than its row, then its own numbers and the reader's. If `has_ml` is false, the session has no ML, and both the row lent for ML and
// its length are ignored. No public function has a `requires`.
//
// A step walks over text, ML and the list of places a fixed number of times, and over SEQ again for each group: the first walk counts the group's
// letter over the whole of SEQ, even if the group lists nothing. So its work is in proportion to text, ML, places, and SEQ times the number of
// groups. It copies neither text nor ML. Its largest local is a row of 16,000 bytes, one for each base that SEQ may have; for a SEQ of at most 1,024
// bases a row of 1,024 is cleared instead.
#![tactic(auto)]

ghost use Rattle.samtags.specs.Session.{cut, drop_calls, mask};
ghost use Rattle.session.specs.PublicContracts.{Meets, Opens, call, rows};

use lent::Refusal;
use stepping::{Lengths, order};

// Opens a session: Ok with the numbers of its tag's groups and calls. Nothing is written.
pub fn open(
    seq: &[u8],
    mm: &[u8],
    ml: &[u8],
    has_ml: bool,
    lengths: Lengths,
) -> Result<(usize, usize), Refusal>
    ensures { Opens has_ml (rows seq.now mm.now ml.now lengths) result }
{
    order::lengths_in_order(seq.len(), mm.len(), ml.len(), has_ml, lengths)?;
    let bases = lengths.seq;
    let text = lengths.mm;
    let taken = scanning::values_taken(lengths.ml, has_ml);
    reading::check_tag(&seq[0..bases], &mm[0..text], &ml[0..taken], has_ml)
}

// Masks: writes N at the listed places of SEQ, in any order and more than once. Places past SEQ's end are ignored. A masked base is no longer one of
// its group's: its call is dropped, and it counts in no later skip. A group on any base (N) keeps its calls.
pub fn mask(
    seq: &mut [u8],
    mm: &mut [u8],
    ml: &mut [u8],
    has_ml: bool,
    lengths: Lengths,
    places: &[u32],
) -> Result<Lengths, Refusal>
    ensures { Meets has_ml (rows seq.old mm.old ml.old lengths)
        (call (mask places.now) result seq.new mm.new ml.new) }
{
    order::lengths_in_order(seq.len(), mm.len(), ml.len(), has_ml, lengths)?;
    if lengths.seq <= 1024 {
        let mut few = changing::few_marks();
        return masking::mask_with(seq, mm, ml, has_ml, lengths, places, &mut few);
    }
    let mut after = changing::no_marks();
    masking::mask_with(seq, mm, ml, has_ml, lengths, places, &mut after)
}

// Drops the calls at the listed places, in any order and more than once. SEQ stays, so their bases still count in later skips. 10 at a call whose
// group's header does not end in '?'.
pub fn drop_calls(
    seq: &[u8],
    mm: &mut [u8],
    ml: &mut [u8],
    has_ml: bool,
    lengths: Lengths,
    places: &[u32],
) -> Result<Lengths, Refusal>
    ensures { Meets has_ml (rows seq.now mm.old ml.old lengths)
        (call (drop_calls places.now) result seq.now mm.new ml.new) }
{
    order::lengths_in_order(seq.len(), mm.len(), ml.len(), has_ml, lengths)?;
    if lengths.seq <= 1024 {
        let mut few = changing::few_marks();
        return dropping::drop_with(seq, mm, ml, has_ml, lengths, places, &mut few);
    }
    let mut marks = changing::no_marks();
    dropping::drop_with(seq, mm, ml, has_ml, lengths, places, &mut marks)
}

// Cuts bases off the front and off the back. 21 if both are 0, and then the tag is not read; 11 if they are more than SEQ has, however large their sum.
pub fn cut(
    seq: &mut [u8],
    mm: &mut [u8],
    ml: &mut [u8],
    has_ml: bool,
    lengths: Lengths,
    front: u32,
    back: u32,
) -> Result<Lengths, Refusal>
    ensures { Meets has_ml (rows seq.old mm.old ml.old lengths)
        (call (cut front back) result seq.new mm.new ml.new) }
{
    order::lengths_in_order(seq.len(), mm.len(), ml.len(), has_ml, lengths)?;
    cutting::cut_ends(seq, mm, ml, has_ml, lengths, front, back)
}
