// SEQ, tags and counts of a record with one strand or two.
ghost use Rattle.duplex.specs.PublicContracts.{eleven_rows};
ghost use Rattle.taglib.specs.DuplexContracts.{DuplexesInC, strand_in_c};

use pattern::ConversionPattern;

// Writes SEQ restored by each strand, the joined MM and ML of both, the combined counts, and each strand's own text and counts. The length of each
// part goes to its entry of `lengths`.
#[unsafe(no_mangle)]
pub extern "C" fn aql_duplex_methylation_tags(
    bases: &[u8],
    strands: usize,
    mode: u8,
    first_flags: u16,
    first_informative: &[u8],
    first_unconverted: &[u32],
    first_converted: &[u32],
    second_flags: u16,
    second_informative: &[u8],
    second_unconverted: &[u32],
    second_converted: &[u32],
    seq: &mut [u8],
    mm: &mut [u8],
    ml: &mut [u8],
    unconverted: &mut [i16],
    converted: &mut [i16],
    first_mm: &mut [u8],
    first_unconverted_counts: &mut [i16],
    first_converted_counts: &mut [i16],
    second_mm: &mut [u8],
    second_unconverted_counts: &mut [i16],
    second_converted_counts: &mut [i16],
    lengths: &mut [usize; 11],
) -> u8
    ensures { DuplexesInC bases.now strands mode
        (strand_in_c first_flags first_informative.now first_unconverted.now first_converted.now)
        (strand_in_c second_flags second_informative.now second_unconverted.now second_converted.now)
        (eleven_rows seq.old mm.old ml.old unconverted.old converted.old
        first_mm.old first_unconverted_counts.old first_converted_counts.old
        second_mm.old second_unconverted_counts.old second_converted_counts.old)
        lengths.old
        result
        (eleven_rows seq.new mm.new ml.new unconverted.new converted.new
        first_mm.new first_unconverted_counts.new first_converted_counts.new
        second_mm.new second_unconverted_counts.new second_converted_counts.new)
        lengths.new }
{
    match modes::mode_of(mode) {
        Ok(chosen) => {
            let answer = duplex::duplex_methylation_tags(
                bases,
                strands,
                chosen,
                ConversionPattern::from_read_flags(first_flags),
                first_informative,
                first_unconverted,
                first_converted,
                ConversionPattern::from_read_flags(second_flags),
                second_informative,
                second_unconverted,
                second_converted,
                seq,
                mm,
                ml,
                unconverted,
                converted,
                first_mm,
                first_unconverted_counts,
                first_converted_counts,
                second_mm,
                second_unconverted_counts,
                second_converted_counts,
            );
            telling_strands::joined(answer, lengths)
        }
        Err(refusal) => refusal.number(),
    }
}
