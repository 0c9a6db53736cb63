// Reads as a BAM record stores them: turning, unpacking, and reading a tag over packed SEQ.
ghost use Rattle.taglib.specs.StoredReadingContracts.{ChecksStoredInC, ReadsStoredInC, TalliesStoredInC, TurnsInC, UnpacksInC};

// Turns a packed SEQ: its reverse complement, packed.
#[unsafe(no_mangle)]
pub extern "C" fn aql_turn(packed: &[u8], bases: usize, out: &mut [u8], out_len: &mut usize) -> u8
    ensures { TurnsInC packed.now bases out.old out_len.old result out.new out_len.new }
{
    let answer = stored::turn(packed, bases, out);
    telling::written(answer, out_len)
}

// Unpacks a stored read in read orientation, a letter for each base.
#[unsafe(no_mangle)]
pub extern "C" fn aql_unpack(
    packed: &[u8],
    bases: usize,
    reverse: u8,
    seq: &mut [u8],
    seq_len: &mut usize,
) -> u8
    ensures { UnpacksInC packed.now bases reverse seq.old seq_len.old
        result seq.new seq_len.new }
{
    let answer = stored::unpack(packed, bases, reverse != 0, seq);
    telling::written(answer, seq_len)
}

// Reads the tag of a stored read without a list: how many groups and calls it has.
#[unsafe(no_mangle)]
pub extern "C" fn aql_stored_check_tag(
    packed: &[u8],
    bases: usize,
    reverse: u8,
    mm: &[u8],
    ml: &[u8],
    has_ml: u8,
    groups: &mut usize,
    calls: &mut usize,
) -> u8
    ensures { ChecksStoredInC packed.now bases reverse mm.now ml.now has_ml
        groups.old calls.old result groups.new calls.new }
{
    let answer = stored::check_tag(packed, bases, reverse != 0, mm, ml, has_ml != 0);
    telling::both(answer, groups, calls)
}

// Writes the calls of a stored read's tag into three columns: group, place in the stored read, and the index of the call's first value in ML.
#[unsafe(no_mangle)]
pub extern "C" fn aql_stored_read_calls(
    packed: &[u8],
    bases: usize,
    reverse: u8,
    mm: &[u8],
    ml: &[u8],
    has_ml: u8,
    call_groups: &mut [u32],
    call_places: &mut [u32],
    call_starts: &mut [u32],
    groups: &mut usize,
    calls: &mut usize,
) -> u8
    ensures { ReadsStoredInC packed.now bases reverse mm.now ml.now has_ml
        call_groups.old call_places.old call_starts.old groups.old calls.old
        result call_groups.new call_places.new call_starts.new groups.new calls.new }
{
    let answer = stored::read_calls(
        packed,
        bases,
        reverse != 0,
        mm,
        ml,
        has_ml != 0,
        call_groups,
        call_places,
        call_starts,
    );
    telling::both(answer, groups, calls)
}

// How many values of the ML of a stored read's tag are above (128 or more) and how many below. It always takes an ML.
#[unsafe(no_mangle)]
pub extern "C" fn aql_stored_tally(
    packed: &[u8],
    bases: usize,
    reverse: u8,
    mm: &[u8],
    ml: &[u8],
    above: &mut usize,
    below: &mut usize,
) -> u8
    ensures { TalliesStoredInC packed.now bases reverse mm.now ml.now above.old below.old
        result above.new below.new }
{
    let answer = stored::tally(packed, bases, reverse != 0, mm, ml);
    telling::both(answer, above, below)
}
