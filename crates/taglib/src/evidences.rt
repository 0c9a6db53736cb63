// The evidence of one position, and the evidence of a consensus in three columns.
ghost use Rattle.taglib.specs.EvidenceContracts.{StartsEvidenceInC, CountsBaseInC, GatesPositionInC, AnnotatesInC, GatesInC, TruncatesInC, GivesCountsInC, RestoresInC};

use evidence::MethylationEvidence;
use pattern::ConversionPattern;

// Evidence with nothing counted yet: the counts, and the informative byte as it is written.
#[unsafe(no_mangle)]
pub extern "C" fn aql_evidence_new(
    informative: u8,
    unconverted: &mut u32,
    converted: &mut u32,
) -> u8
    ensures { StartsEvidenceInC informative result unconverted.new converted.new }
{
    let e = MethylationEvidence::new(informative != 0);
    *unconverted = e.unconverted;
    *converted = e.converted;
    e.informative as u8
}

// Counts one base of a read. Whether the position is informative does not matter.
#[unsafe(no_mangle)]
pub extern "C" fn aql_evidence_counted(
    base: u8,
    read_flags: u16,
    unconverted: &mut u32,
    converted: &mut u32,
)
    ensures { CountsBaseInC base read_flags unconverted.old converted.old
        unconverted.new converted.new }
{
    let before = MethylationEvidence {
        informative: false,
        unconverted: *unconverted,
        converted: *converted,
    };
    let e = before.counted(base, ConversionPattern::from_read_flags(read_flags));
    *unconverted = e.unconverted;
    *converted = e.converted;
}

// Writes 0 to both counts of a position that is not informative.
#[unsafe(no_mangle)]
pub extern "C" fn aql_evidence_gated(informative: u8, unconverted: &mut u32, converted: &mut u32)
    ensures { GatesPositionInC informative unconverted.old converted.old
        unconverted.new converted.new }
{
    let before = MethylationEvidence {
        informative: informative != 0,
        unconverted: *unconverted,
        converted: *converted,
    };
    let e = before.gated();
    *unconverted = e.unconverted;
    *converted = e.converted;
}

// Marks each position of a consensus whose reference base is the pattern's, and counts the reads that show the unconverted and the converted base there.
#[unsafe(no_mangle)]
pub extern "C" fn aql_annotate_simplex_methylation(
    consensus_len: usize,
    read_lengths: &[u32],
    read_bases: &[u8],
    ref_bases: &[u8],
    read_flags: u16,
    read_aligned: &[u8],
    count_all_positions: u8,
    informative: &mut [u8],
    unconverted: &mut [u32],
    converted: &mut [u32],
    n: &mut usize,
) -> u8
    ensures { AnnotatesInC consensus_len read_lengths.now read_bases.now ref_bases.now read_flags
        read_aligned.now count_all_positions
        informative.old unconverted.old converted.old n.old
        result informative.new unconverted.new converted.new n.new }
{
    let answer = annotation::annotate_simplex_methylation(
        consensus_len,
        read_lengths,
        read_bases,
        ref_bases,
        ConversionPattern::from_read_flags(read_flags),
        read_aligned,
        count_all_positions != 0,
        informative,
        unconverted,
        converted,
    );
    telling::written(answer, n)
}

// Writes 0 to both counts of each position that is not informative.
#[unsafe(no_mangle)]
pub extern "C" fn aql_gate_to_informative(
    informative: &[u8],
    unconverted: &mut [u32],
    converted: &mut [u32],
    n: &mut usize,
) -> u8
    ensures { GatesInC informative.now unconverted.old converted.old n.old
        result unconverted.new converted.new n.new }
{
    let answer = annotation::gate_to_informative(informative, unconverted, converted);
    telling::written(answer, n)
}

// Copies the first `len` positions, or all if there are fewer, into three other columns.
#[unsafe(no_mangle)]
pub extern "C" fn aql_truncate(
    len: usize,
    informative: &[u8],
    unconverted: &[u32],
    converted: &[u32],
    kept_informative: &mut [u8],
    kept_unconverted: &mut [u32],
    kept_converted: &mut [u32],
    n: &mut usize,
) -> u8
    ensures { TruncatesInC len informative.now unconverted.now converted.now
        kept_informative.old kept_unconverted.old kept_converted.old n.old
        result kept_informative.new kept_unconverted.new kept_converted.new n.new }
{
    let answer = annotation::truncate(
        len,
        informative,
        unconverted,
        converted,
        kept_informative,
        kept_unconverted,
        kept_converted,
    );
    telling::written(answer, n)
}

// The unconverted counts as the `cu` tag holds them.
#[unsafe(no_mangle)]
pub extern "C" fn aql_unconverted_counts(
    informative: &[u8],
    unconverted: &[u32],
    converted: &[u32],
    counts: &mut [i16],
    n: &mut usize,
) -> u8
    ensures { GivesCountsInC unconverted.now informative.now unconverted.now converted.now
        counts.old n.old result counts.new n.new }
{
    let answer = annotation::unconverted_counts(informative, unconverted, converted, counts);
    telling::written(answer, n)
}

// The converted counts as the `ct` tag holds them.
#[unsafe(no_mangle)]
pub extern "C" fn aql_converted_counts(
    informative: &[u8],
    unconverted: &[u32],
    converted: &[u32],
    counts: &mut [i16],
    n: &mut usize,
) -> u8
    ensures { GivesCountsInC converted.now informative.now unconverted.now converted.now
        counts.old n.old result counts.new n.new }
{
    let answer = annotation::converted_counts(informative, unconverted, converted, counts);
    telling::written(answer, n)
}

// Writes the unconverted base over the converted one at the informative positions of the consensus.
#[unsafe(no_mangle)]
pub extern "C" fn aql_restore_unconverted_bases(
    consensus_bases: &mut [u8],
    read_flags: u16,
    informative: &[u8],
    n: &mut usize,
) -> u8
    ensures { RestoresInC consensus_bases.old read_flags informative.now n.old
        result consensus_bases.new n.new }
{
    let pattern = ConversionPattern::from_read_flags(read_flags);
    let answer = annotation::restore_unconverted_bases(consensus_bases, pattern, informative);
    telling::written(answer, n)
}
