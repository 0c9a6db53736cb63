// The edit session of a stored read: packed SEQ, MM and ML in three rows of the caller, edited in place, with an array that says how many bases there are
// and how much of the other rows it holds.
ghost use Rattle.samtags.specs.Session.{cut, drop_calls, mask};
ghost use Rattle.taglib.specs.StoredSessionContracts.{OpensStoredInC, StepsStoredInC};

// Opens a session: how many groups and calls its tag has. Nothing of the session is written.
#[unsafe(no_mangle)]
pub extern "C" fn aql_stored_open(
    packed: &[u8],
    reverse: u8,
    mm: &[u8],
    ml: &[u8],
    has_ml: u8,
    lengths: &[usize; 3],
    groups: &mut usize,
    calls: &mut usize,
) -> u8
    ensures { OpensStoredInC packed.now reverse mm.now ml.now has_ml lengths.now
        groups.old calls.old result groups.new calls.new }
{
    let held = telling_steps::lengths_in(lengths);
    let answer = stored_session::open(packed, reverse != 0, mm, ml, has_ml != 0, held);
    telling::both(answer, groups, calls)
}

// Masks: writes N at the listed places of the stored read. Calls on these bases go, and the bases count in no later skip, except in a group on N.
#[unsafe(no_mangle)]
pub extern "C" fn aql_stored_mask(
    packed: &mut [u8],
    reverse: u8,
    mm: &mut [u8],
    ml: &mut [u8],
    has_ml: u8,
    lengths: &mut [usize; 3],
    places: &[u32],
) -> u8
    ensures { StepsStoredInC (mask places.now) packed.old reverse mm.old ml.old has_ml lengths.old
        result packed.new mm.new ml.new lengths.new }
{
    let held = telling_steps::lengths_in(lengths);
    let answer = stored_session::mask(packed, reverse != 0, mm, ml, has_ml != 0, held, places);
    telling_steps::stepped(answer, lengths)
}

// Drops the calls at the listed places of the stored read; its bases stay.
#[unsafe(no_mangle)]
pub extern "C" fn aql_stored_drop_calls(
    packed: &mut [u8],
    reverse: u8,
    mm: &mut [u8],
    ml: &mut [u8],
    has_ml: u8,
    lengths: &mut [usize; 3],
    places: &[u32],
) -> u8
    ensures { StepsStoredInC (drop_calls places.now) packed.old reverse mm.old ml.old has_ml lengths.old
        result packed.new mm.new ml.new lengths.new }
{
    let held = telling_steps::lengths_in(lengths);
    let answer = stored_session::drop_calls(
        packed,
        reverse != 0,
        mm,
        ml,
        has_ml != 0,
        held,
        places,
    );
    telling_steps::stepped(answer, lengths)
}

// Cuts bases off the front and off the back of the stored read.
#[unsafe(no_mangle)]
pub extern "C" fn aql_stored_cut(
    packed: &mut [u8],
    reverse: u8,
    mm: &mut [u8],
    ml: &mut [u8],
    has_ml: u8,
    lengths: &mut [usize; 3],
    front: u32,
    back: u32,
) -> u8
    ensures { StepsStoredInC (cut front back) packed.old reverse mm.old ml.old has_ml lengths.old
        result packed.new mm.new ml.new lengths.new }
{
    let held = telling_steps::lengths_in(lengths);
    let answer = stored_session::cut(packed, reverse != 0, mm, ml, has_ml != 0, held, front, back);
    telling_steps::stepped(answer, lengths)
}
