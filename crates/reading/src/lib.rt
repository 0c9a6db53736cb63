// Reading a tag: the call list, an answer without a list, and the tally. Port step 4: the public calls for what `samtags` defines.
//
// Each call takes SEQ, the MM text and the ML as the caller has them, of any length and content, and answers with the scope's numbers in the scope's
// order. If `has_ml` is false, the tag has no ML and the row lent for ML is ignored. No public function has a `requires`.
#![tactic(auto)]

ghost use Rattle.std.specs.Prelude.{◌≡◌, length};
ghost use Rattle.lent.specs.Lists.{filter};
ghost use Rattle.lent.specs.Outcome.{need};
ghost use Rattle.samtags.specs.Reading.{in_domain, read, nowhere, is_above};
ghost use Rattle.reading.specs.PublicContracts.{ChecksTag, ReadsCalls, Tallies};
ghost use Rattle.reading.specs.Measured.{TagMeasured};

use lent::Refusal;
use measuring::Count;

// The first walk, which needs no places: every refusal except for too little room, and the length of the list.
fn measure(seq: &[u8], mm: &[u8], ml: &[u8], has_ml: bool) -> Result<Count, Refusal>
    ensures { TagMeasured
        (need
        (in_domain has_ml seq.now mm.now ml.now)
        1
        (read has_ml nowhere seq.now mm.now ml.now))
        result }
{
    let taken = scanning::values_taken(ml.len(), has_ml);
    if 16000 < seq.len() {
        return Err(Refusal::TooLong);
    }
    if 65536 < mm.len() {
        return Err(Refusal::TooLong);
    }
    if 65536 < taken {
        return Err(Refusal::TooLong);
    }
    // No call is marked, so the walk needs no places.
    let Some(count) = measuring::count_tag(seq, mm, &ml[0..taken], has_ml, false)? else {
        unreachable!();
    };
    Ok(count)
}

// Reads a tag and answers without a list: Ok with the numbers of its groups and calls.
pub fn check_tag(seq: &[u8], mm: &[u8], ml: &[u8], has_ml: bool) -> Result<(usize, usize), Refusal>
    ensures { ChecksTag has_ml seq.now mm.now ml.now result }
{
    let end = measure(seq, mm, ml, has_ml)?;
    Ok((end.group, end.calls))
}

// Writes the calls of a tag, in order, into three lent columns: the group's number counted from 1, the place in SEQ, and the index of the call's
// first value in ML (0 without ML). Ok with the numbers of groups and calls; the calls fill the front of each column. Err with 12 if a column is
// shorter than the list. With any Err the columns are unchanged.
pub fn read_calls(
    seq: &[u8],
    mm: &[u8],
    ml: &[u8],
    has_ml: bool,
    groups: &mut [u32],
    places: &mut [u32],
    starts: &mut [u32],
) -> Result<(usize, usize), Refusal>
    ensures { ReadsCalls
        has_ml
        seq.now
        mm.now
        ml.now
        groups.old
        places.old
        starts.old
        result
        groups.new
        places.new
        starts.new }
{
    let end = measure(seq, mm, ml, has_ml)?;
    let calls = end.calls;
    if groups.len() < calls {
        return Err(Refusal::NoRoom);
    }
    if places.len() < calls {
        return Err(Refusal::NoRoom);
    }
    if starts.len() < calls {
        return Err(Refusal::NoRoom);
    }
    let taken = scanning::values_taken(ml.len(), has_ml);
    // What refuses a tag was found by the first walk.
    let _ = scanning::scan_groups(seq, mm, &ml[0..taken], has_ml, groups, places, starts);
    Ok((end.group, calls))
}

// How many of the values are above.
fn count_above(ml: &[u8]) -> usize
    ensures { result ≡ length (filter is_above ml.now) }
{
    let mut above: usize = 0;
    for &v in ml {
        if 128 <= v {
            above += 1;
        }
    }
    above
}

// Ok with how many of a tag's ML values are above (128 or more) and how many below; each value counts once. It always takes an ML.
pub fn tally(seq: &[u8], mm: &[u8], ml: &[u8]) -> Result<(usize, usize), Refusal>
    ensures { Tallies seq.now mm.now ml.now result }
{
    measure(seq, mm, ml, true)?;
    let above = count_above(ml);
    Ok((above, ml.len() - above))
}
