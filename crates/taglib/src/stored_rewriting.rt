// Rewrites the tag of a stored read into other rows, after its SEQ was masked or cut, or without the calls at some places.
ghost use Rattle.taglib.specs.StoredRewritingContracts.{CutsStoredInC, DropsStoredInC, MasksStoredInC};

// The stored SEQ was masked: a call goes if `after` no longer holds its base, and that base counts in no later skip. A group on N keeps every call.
#[unsafe(no_mangle)]
pub extern "C" fn aql_stored_drop_masked_modifications(
    before: &[u8],
    before_bases: usize,
    after: &[u8],
    after_bases: usize,
    reverse: u8,
    mm: &[u8],
    ml: &[u8],
    has_ml: u8,
    mm_out: &mut [u8],
    ml_out: &mut [u8],
    mm_out_len: &mut usize,
    ml_out_len: &mut usize,
) -> u8
    ensures { MasksStoredInC before.now before_bases after.now after_bases reverse mm.now ml.now has_ml
        mm_out.old ml_out.old mm_out_len.old ml_out_len.old
        result mm_out.new ml_out.new mm_out_len.new ml_out_len.new }
{
    let answer = stored_edits::drop_masked_modifications(
        before,
        before_bases,
        after,
        after_bases,
        reverse != 0,
        mm,
        ml,
        has_ml != 0,
        mm_out,
        ml_out,
    );
    telling::both(answer, mm_out_len, ml_out_len)
}

// Drops the calls at places of the stored read. SEQ stays, so their bases still count in later skips.
#[unsafe(no_mangle)]
pub extern "C" fn aql_stored_drop_modifications_at(
    packed: &[u8],
    bases: usize,
    reverse: u8,
    places: &[u32],
    mm: &[u8],
    ml: &[u8],
    has_ml: u8,
    mm_out: &mut [u8],
    ml_out: &mut [u8],
    mm_out_len: &mut usize,
    ml_out_len: &mut usize,
) -> u8
    ensures { DropsStoredInC packed.now bases reverse places.now mm.now ml.now has_ml
        mm_out.old ml_out.old mm_out_len.old ml_out_len.old
        result mm_out.new ml_out.new mm_out_len.new ml_out_len.new }
{
    let answer = stored_edits::drop_modifications_at(
        packed,
        bases,
        reverse != 0,
        places,
        mm,
        ml,
        has_ml != 0,
        mm_out,
        ml_out,
    );
    telling::both(answer, mm_out_len, ml_out_len)
}

// The stored SEQ was cut: `after` is the part of `before` that begins at the start, in which a base may be masked by N.
#[unsafe(no_mangle)]
pub extern "C" fn aql_stored_trim_clipped_modifications(
    before: &[u8],
    before_bases: usize,
    after: &[u8],
    after_bases: usize,
    reverse: u8,
    start_known: u8,
    start: usize,
    mm: &[u8],
    ml: &[u8],
    has_ml: u8,
    mm_out: &mut [u8],
    ml_out: &mut [u8],
    mm_out_len: &mut usize,
    ml_out_len: &mut usize,
) -> u8
    ensures { CutsStoredInC before.now before_bases after.now after_bases reverse start_known start
        mm.now ml.now has_ml
        mm_out.old ml_out.old mm_out_len.old ml_out_len.old
        result mm_out.new ml_out.new mm_out_len.new ml_out_len.new }
{
    let begin = telling::starts::window_start(start_known, start);
    let answer = stored_edits::trim_clipped_modifications(
        before,
        before_bases,
        after,
        after_bases,
        reverse != 0,
        begin,
        mm,
        ml,
        has_ml != 0,
        mm_out,
        ml_out,
    );
    telling::both(answer, mm_out_len, ml_out_len)
}
