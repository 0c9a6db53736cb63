// MM and ML from a consensus and its evidence, for one strand.
ghost use Rattle.taglib.specs.BuildingContracts.{BuildsInC, BuildsTextInC};

use pattern::ConversionPattern;

// A strand's MM text and ML.
#[unsafe(no_mangle)]
pub extern "C" fn aql_build_mm_ml_tags(
    consensus_bases: &[u8],
    informative: &[u8],
    unconverted: &[u32],
    converted: &[u32],
    read_flags: u16,
    mode: u8,
    mm: &mut [u8],
    ml: &mut [u8],
    mm_len: &mut usize,
    ml_len: &mut usize,
) -> u8
    ensures { BuildsInC consensus_bases.now informative.now unconverted.now converted.now
        read_flags mode mm.old ml.old mm_len.old ml_len.old
        result mm.new ml.new mm_len.new ml_len.new }
{
    match modes::mode_of(mode) {
        Ok(chosen) => {
            let answer = building::build_mm_ml_tags(
                consensus_bases,
                informative,
                unconverted,
                converted,
                ConversionPattern::from_read_flags(read_flags),
                chosen,
                mm,
                ml,
            );
            telling::both(answer, mm_len, ml_len)
        }
        Err(refusal) => refusal.number(),
    }
}

// A strand's MM text alone, as the `am` and `bm` tags hold it.
#[unsafe(no_mangle)]
pub extern "C" fn aql_build_mm_tag_no_ml(
    consensus_bases: &[u8],
    informative: &[u8],
    unconverted: &[u32],
    converted: &[u32],
    read_flags: u16,
    mode: u8,
    mm: &mut [u8],
    mm_len: &mut usize,
) -> u8
    ensures { BuildsTextInC consensus_bases.now informative.now unconverted.now converted.now
        read_flags mode mm.old mm_len.old result mm.new mm_len.new }
{
    match modes::mode_of(mode) {
        Ok(chosen) => {
            let answer = building::build_mm_tag_no_ml(
                consensus_bases,
                informative,
                unconverted,
                converted,
                ConversionPattern::from_read_flags(read_flags),
                chosen,
                mm,
            );
            telling::written(answer, mm_len)
        }
        Err(refusal) => refusal.number(),
    }
}
