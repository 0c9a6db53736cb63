// The methylation annotation of a consensus: counting from reads, gating, truncating, the counts as tags hold them, restoring SEQ. Port step 3.
//
// The names are those of the Rust code. Its vector of evidence is three lent columns here: informative (nonzero is yes, and yes is written as 1),
// unconverted and converted. No function here has a `requires`. Each contract is one proposition of specs/PublicContracts, over definitions of the crates
// `refusals`, `columns` and `counting`. The functions of these crates check whether a call is refused and, if it is not, do the work.
#![tactic(auto)]

ghost use Rattle.annotation.specs.PublicContracts.{Annotates, Gates, Truncates, GivesCounts, Restores};

use lent::Refusal;
use pattern::ConversionPattern;

// Marks each position of the consensus whose reference base is the pattern's, and counts the reads that show the unconverted and the converted base
// there. With `count_all_positions` it counts at every position, aligned or not. The reads are one after the other in `read_bases`, each with as many
// bases as its length says, and `read_aligned` has a byte for each base. Parts of the reads and of the reference row beyond the consensus are ignored.
// Ok with the consensus' length, which is the number of filled entries in each column; Err with 1 if something is too long, 2 if lengths, bases and aligned
// bytes disagree, 12 if a column has no room for the consensus.
pub fn annotate_simplex_methylation(
    consensus_len: usize,
    read_lengths: &[u32],
    read_bases: &[u8],
    ref_bases: &[u8],
    pattern: ConversionPattern,
    read_aligned: &[u8],
    count_all_positions: bool,
    informative: &mut [u8],
    unconverted: &mut [u32],
    converted: &mut [u32],
) -> Result<usize, Refusal>
    ensures { Annotates consensus_len read_lengths.now read_bases.now ref_bases.now pattern
        read_aligned.now count_all_positions informative.old unconverted.old converted.old
        result informative.new unconverted.new converted.new }
{
    let n = refusals::annotated(
        consensus_len,
        read_lengths,
        read_bases,
        read_aligned,
        informative.len(),
        unconverted.len(),
        converted.len(),
    )?;
    counting::fill(
        read_lengths,
        read_bases,
        ref_bases,
        pattern,
        read_aligned,
        count_all_positions,
        &mut informative[0..n],
        &mut unconverted[0..n],
        &mut converted[0..n],
    );
    Ok(n)
}

// Zeroes both counts at positions that are not informative.
// Ok with the number of positions; Err with 1 if a column is too long, 2 if the columns differ in length.
pub fn gate_to_informative(
    informative: &[u8],
    unconverted: &mut [u32],
    converted: &mut [u32],
) -> Result<usize, Refusal>
    ensures { Gates informative.now unconverted.old converted.old
        result unconverted.new converted.new }
{
    let n = refusals::columns_of(informative.len(), unconverted.len(), converted.len())?;
    columns::gate(informative, unconverted);
    columns::gate(informative, converted);
    Ok(n)
}

// Copies the first `len` positions, or all if there are fewer, into three other rows.
// Ok with the number of filled entries in each row; Err with 1 or 2 as for gating, and 12 if a row has no room for them.
pub fn truncate(
    len: usize,
    informative: &[u8],
    unconverted: &[u32],
    converted: &[u32],
    kept_informative: &mut [u8],
    kept_unconverted: &mut [u32],
    kept_converted: &mut [u32],
) -> Result<usize, Refusal>
    ensures { Truncates len informative.now unconverted.now converted.now
        kept_informative.old kept_unconverted.old kept_converted.old
        result kept_informative.new kept_unconverted.new kept_converted.new }
{
    let k = refusals::truncated(
        len,
        informative.len(),
        unconverted.len(),
        converted.len(),
        kept_informative.len(),
        kept_unconverted.len(),
        kept_converted.len(),
    )?;
    columns::marks::copy_marks(&informative[0..k], kept_informative);
    columns::copy_counts(&unconverted[0..k], kept_unconverted);
    columns::copy_counts(&converted[0..k], kept_converted);
    Ok(k)
}

// The unconverted counts as the `cu` tag holds them: signed 16-bit numbers, 32,767 for any larger count.
// Ok with the number of positions; Err with 1 or 2 as for gating, and 12 if there is no room for them.
pub fn unconverted_counts(
    informative: &[u8],
    unconverted: &[u32],
    converted: &[u32],
    counts: &mut [i16],
) -> Result<usize, Refusal>
    ensures { GivesCounts unconverted.now informative.now unconverted.now converted.now
        counts.old result counts.new }
{
    let n = refusals::counts_in_room(
        informative.len(),
        unconverted.len(),
        converted.len(),
        counts.len(),
    )?;
    columns::put_tag_counts(unconverted, counts);
    Ok(n)
}

// The converted counts as the `ct` tag holds them; the answers are those of `unconverted_counts`.
pub fn converted_counts(
    informative: &[u8],
    unconverted: &[u32],
    converted: &[u32],
    counts: &mut [i16],
) -> Result<usize, Refusal>
    ensures { GivesCounts converted.now informative.now unconverted.now converted.now
        counts.old result counts.new }
{
    let n = refusals::counts_in_room(
        informative.len(),
        unconverted.len(),
        converted.len(),
        counts.len(),
    )?;
    columns::put_tag_counts(converted, counts);
    Ok(n)
}

// Writes the unconverted base over the converted one, in upper or lower case, at informative positions; every other base stays.
// Ok with the number of bases; Err with 1 if the bases or the column are too long, 2 if they differ in length.
pub fn restore_unconverted_bases(
    consensus_bases: &mut [u8],
    pattern: ConversionPattern,
    informative: &[u8],
) -> Result<usize, Refusal>
    ensures { Restores consensus_bases.old pattern informative.now result consensus_bases.new }
{
    let n = refusals::restorable(consensus_bases.len(), informative.len())?;
    columns::restore(consensus_bases, pattern, informative);
    Ok(n)
}
