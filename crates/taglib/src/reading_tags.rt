// Reading a tag: how many groups and calls it has, the calls themselves, the tally.
ghost use Rattle.taglib.specs.ReadingContracts.{ChecksTagInC, ReadsCallsInC, TalliesInC};

// Reads a tag without a list: how many groups and calls it has.
#[unsafe(no_mangle)]
pub extern "C" fn aql_check_tag(
    seq: &[u8],
    mm: &[u8],
    ml: &[u8],
    has_ml: u8,
    groups: &mut usize,
    calls: &mut usize,
) -> u8
    ensures { ChecksTagInC seq.now mm.now ml.now has_ml groups.old calls.old
        result groups.new calls.new }
{
    let answer = reading::check_tag(seq, mm, ml, has_ml != 0);
    telling::both(answer, groups, calls)
}

// Writes the calls of a tag in order into three columns: group, place, and the index of the call's first value in ML.
#[unsafe(no_mangle)]
pub extern "C" fn aql_read_calls(
    seq: &[u8],
    mm: &[u8],
    ml: &[u8],
    has_ml: u8,
    call_groups: &mut [u32],
    call_places: &mut [u32],
    call_starts: &mut [u32],
    groups: &mut usize,
    calls: &mut usize,
) -> u8
    ensures { ReadsCallsInC seq.now mm.now ml.now has_ml
        call_groups.old call_places.old call_starts.old groups.old calls.old
        result call_groups.new call_places.new call_starts.new groups.new calls.new }
{
    let answer = reading::read_calls(
        seq,
        mm,
        ml,
        has_ml != 0,
        call_groups,
        call_places,
        call_starts,
    );
    telling::both(answer, groups, calls)
}

// How many values of a tag's ML are above (128 or more) and how many below. It always takes an ML.
#[unsafe(no_mangle)]
pub extern "C" fn aql_tally(
    seq: &[u8],
    mm: &[u8],
    ml: &[u8],
    above: &mut usize,
    below: &mut usize,
) -> u8
    ensures { TalliesInC seq.now mm.now ml.now above.old below.old
        result above.new below.new }
{
    let answer = reading::tally(seq, mm, ml);
    telling::both(answer, above, below)
}
