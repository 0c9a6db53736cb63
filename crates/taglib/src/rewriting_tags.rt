// Rewrites a tag into other rows, after its SEQ was masked or cut, or without the calls at some places.
ghost use Rattle.taglib.specs.RewritingContracts.{MasksTagInC, DropsFromTagInC, CutsTagInC};

// SEQ was masked: a call goes if `after` no longer holds its base, and that base counts in no later skip. A group on N keeps every call.
#[unsafe(no_mangle)]
pub extern "C" fn aql_drop_masked_modifications(
    before: &[u8],
    after: &[u8],
    mm: &[u8],
    ml: &[u8],
    has_ml: u8,
    mm_out: &mut [u8],
    ml_out: &mut [u8],
    mm_out_len: &mut usize,
    ml_out_len: &mut usize,
) -> u8
    ensures { MasksTagInC before.now after.now mm.now ml.now has_ml
        mm_out.old ml_out.old mm_out_len.old ml_out_len.old
        result mm_out.new ml_out.new mm_out_len.new ml_out_len.new }
{
    let answer = rewriting::drop_masked_modifications(
        before,
        after,
        mm,
        ml,
        has_ml != 0,
        mm_out,
        ml_out,
    );
    telling::both(answer, mm_out_len, ml_out_len)
}

// Drops the calls at the places. SEQ stays, so their bases still count in later skips.
#[unsafe(no_mangle)]
pub extern "C" fn aql_drop_modifications_at(
    seq: &[u8],
    places: &[u32],
    mm: &[u8],
    ml: &[u8],
    has_ml: u8,
    mm_out: &mut [u8],
    ml_out: &mut [u8],
    mm_out_len: &mut usize,
    ml_out_len: &mut usize,
) -> u8
    ensures { DropsFromTagInC seq.now places.now mm.now ml.now has_ml
        mm_out.old ml_out.old mm_out_len.old ml_out_len.old
        result mm_out.new ml_out.new mm_out_len.new ml_out_len.new }
{
    let answer = rewriting::drop_modifications_at(seq, places, mm, ml, has_ml != 0, mm_out, ml_out);
    telling::both(answer, mm_out_len, ml_out_len)
}

// SEQ was cut: `after` is the part of `before` that begins at the start, in which a base may be masked by N or n.
#[unsafe(no_mangle)]
pub extern "C" fn aql_trim_clipped_modifications(
    before: &[u8],
    after: &[u8],
    start_known: u8,
    start: usize,
    mm: &[u8],
    ml: &[u8],
    has_ml: u8,
    mm_out: &mut [u8],
    ml_out: &mut [u8],
    mm_out_len: &mut usize,
    ml_out_len: &mut usize,
) -> u8
    ensures { CutsTagInC before.now after.now start_known start mm.now ml.now has_ml
        mm_out.old ml_out.old mm_out_len.old ml_out_len.old
        result mm_out.new ml_out.new mm_out_len.new ml_out_len.new }
{
    let begin = telling::starts::window_start(start_known, start);
    let answer = rewriting::trim_clipped_modifications(
        before,
        after,
        begin,
        mm,
        ml,
        has_ml != 0,
        mm_out,
        ml_out,
    );
    telling::both(answer, mm_out_len, ml_out_len)
}
