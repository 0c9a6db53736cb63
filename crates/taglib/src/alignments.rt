// The reference places of a read's bases, and the reference bases there.
ghost use Rattle.taglib.specs.AlignmentContracts.{FindsPlacesInC, TellsCpgInC, FetchesBasesInC};

// The reference place of each base of a read, or -1 if it has none.
#[unsafe(no_mangle)]
pub extern "C" fn aql_query_to_ref_positions(
    cigar: &[u32],
    alignment_start: i64,
    is_reverse: u8,
    positions: &mut [i64],
    n: &mut usize,
) -> u8
    ensures { FindsPlacesInC cigar.now alignment_start is_reverse positions.old n.old
        result positions.new n.new }
{
    let answer = alignment::query_to_ref_positions(
        cigar,
        alignment_start,
        is_reverse != 0,
        positions,
    );
    telling::written(answer, n)
}

// 1 if the place is part of a CpG of its strand, else 0.
#[unsafe(no_mangle)]
pub extern "C" fn aql_is_cpg_context(ref_seq: &[u8], pos: usize, is_top_strand: u8) -> u8
    ensures { TellsCpgInC ref_seq.now pos is_top_strand result }
{
    alignment::is_cpg_context(ref_seq, pos, is_top_strand != 0) as u8
}

// The reference's base at each place of a row, or 0 if there is none.
#[unsafe(no_mangle)]
pub extern "C" fn aql_fetch_ref_bases_at_positions(
    ref_positions: &[i64],
    reference: &[u8],
    bases: &mut [u8],
    n: &mut usize,
) -> u8
    ensures { FetchesBasesInC ref_positions.now reference.now bases.old n.old
        result bases.new n.new }
{
    let answer = alignment::fetch_ref_bases_at_positions(ref_positions, reference, bases);
    telling::written(answer, n)
}
