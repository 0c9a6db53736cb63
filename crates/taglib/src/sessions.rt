// The edit session: SEQ, MM and ML in three rows of the caller, edited in place, with an array that says how much of each row it holds.
ghost use Rattle.samtags.specs.Session.{cut, drop_calls, mask};
ghost use Rattle.taglib.specs.SessionContracts.{OpensInC, StepsInC};

// Opens a session: how many groups and calls its tag has. Nothing of the session is written.
#[unsafe(no_mangle)]
pub extern "C" fn aql_session_open(
    seq: &[u8],
    mm: &[u8],
    ml: &[u8],
    has_ml: u8,
    lengths: &[usize; 3],
    groups: &mut usize,
    calls: &mut usize,
) -> u8
    ensures { OpensInC seq.now mm.now ml.now has_ml lengths.now
        groups.old calls.old result groups.new calls.new }
{
    let held = telling_steps::lengths_in(lengths);
    let answer = session::open(seq, mm, ml, has_ml != 0, held);
    telling::both(answer, groups, calls)
}

// Masks: writes N at the listed places of SEQ. Calls on these bases go, and the bases count in no later skip, except in a group on N.
#[unsafe(no_mangle)]
pub extern "C" fn aql_session_mask(
    seq: &mut [u8],
    mm: &mut [u8],
    ml: &mut [u8],
    has_ml: u8,
    lengths: &mut [usize; 3],
    places: &[u32],
) -> u8
    ensures { StepsInC (mask places.now) seq.old mm.old ml.old has_ml lengths.old
        result seq.new mm.new ml.new lengths.new }
{
    let held = telling_steps::lengths_in(lengths);
    let answer = session::mask(seq, mm, ml, has_ml != 0, held, places);
    telling_steps::stepped(answer, lengths)
}

// Drops the calls at the listed places; SEQ stays.
#[unsafe(no_mangle)]
pub extern "C" fn aql_session_drop_calls(
    seq: &[u8],
    mm: &mut [u8],
    ml: &mut [u8],
    has_ml: u8,
    lengths: &mut [usize; 3],
    places: &[u32],
) -> u8
    ensures { StepsInC (drop_calls places.now) seq.now mm.old ml.old has_ml lengths.old
        result seq.now mm.new ml.new lengths.new }
{
    let held = telling_steps::lengths_in(lengths);
    let answer = session::drop_calls(seq, mm, ml, has_ml != 0, held, places);
    telling_steps::stepped(answer, lengths)
}

// Cuts bases off the front and off the back.
#[unsafe(no_mangle)]
pub extern "C" fn aql_session_cut(
    seq: &mut [u8],
    mm: &mut [u8],
    ml: &mut [u8],
    has_ml: u8,
    lengths: &mut [usize; 3],
    front: u32,
    back: u32,
) -> u8
    ensures { StepsInC (cut front back) seq.old mm.old ml.old has_ml lengths.old
        result seq.new mm.new ml.new lengths.new }
{
    let held = telling_steps::lengths_in(lengths);
    let answer = session::cut(seq, mm, ml, has_ml != 0, held, front, back);
    telling_steps::stepped(answer, lengths)
}
