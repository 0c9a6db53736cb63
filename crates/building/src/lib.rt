// Builds MM and ML for one strand from a consensus and its evidence. Port step 5.
//
// The names are those of the Rust code. The evidence is three columns, as long as the consensus: informative (nonzero is yes), unconverted and
// converted. A base of the pattern's letter, in upper or lower case, is listed if it is informative and has a read counted, with the skip since the last listed
// base. No function here has a `requires`. Each public contract is a proposition of specs/PublicContracts.antt.
#![tactic(auto)]

ghost use Rattle.std.specs.Prelude.{◌≡◌};
ghost use Rattle.lent.specs.Outcome.{on_done};
ghost use Rattle.samtags.specs.Writing.{sizes_of};
ghost use Rattle.samtags.specs.Building.{columns, built_tag};
ghost use Rattle.building.specs.PublicContracts.{Built, BuiltAlone};

use lent::Refusal;
use pattern::{ConversionPattern, MethylationMode};

// The first pass: every refusal except for too little room, and 20; else the lengths of the tag.
fn measure(
    consensus_bases: &[u8],
    informative: &[u8],
    unconverted: &[u32],
    converted: &[u32],
    pattern: ConversionPattern,
    methylation_mode: MethylationMode,
) -> Result<(usize, usize), Refusal>
    ensures { result ≡ on_done sizes_of (built_tag methylation_mode pattern
        (columns informative.now unconverted.now converted.now) consensus_bases.now) }
{
    let short = strand::in_domain(consensus_bases, informative, unconverted, converted);
    if !short {
        return Err(Refusal::TooLong);
    }
    let agree = strand::agree(consensus_bases, informative, unconverted, converted);
    if !agree {
        return Err(Refusal::LengthsDisagree);
    }
    let own = strand::measure(
        consensus_bases,
        informative,
        unconverted,
        converted,
        pattern,
        methylation_mode,
    );
    if own.values == 0 {
        return Err(Refusal::NoCalls);
    }
    Ok((own.text, own.values))
}

// Builds the strand's MM text and ML into two lent rows.
// Ok with the number of filled bytes of `mm` and of filled values of `ml`; Err with 1 if an input is too long, 2 if consensus and columns differ in length,
// 20 if there is no call or no chemistry, 12 if `mm` or `ml` has no room. Unless the answer is Ok, the rows are unchanged.
pub fn build_mm_ml_tags(
    consensus_bases: &[u8],
    informative: &[u8],
    unconverted: &[u32],
    converted: &[u32],
    pattern: ConversionPattern,
    methylation_mode: MethylationMode,
    mm: &mut [u8],
    ml: &mut [u8],
) -> Result<(usize, usize), Refusal>
    ensures { Built methylation_mode pattern (columns informative.now unconverted.now converted.now)
        consensus_bases.now mm.old ml.old result mm.new ml.new }
{
    let (text_len, calls) = measure(
        consensus_bases,
        informative,
        unconverted,
        converted,
        pattern,
        methylation_mode,
    )?;
    if mm.len() < text_len {
        return Err(Refusal::NoRoom);
    }
    if ml.len() < calls {
        return Err(Refusal::NoRoom);
    }
    strand::put_tag(
        consensus_bases,
        informative,
        unconverted,
        converted,
        pattern,
        methylation_mode,
        calls,
        mm,
        ml,
    );
    Ok((text_len, calls))
}

// Builds the strand's MM text alone, as the `am` and `bm` tags hold it.
// Ok with the number of filled bytes of `mm`; Err with 1, 2, 20 and 12 as for `build_mm_ml_tags`.
pub fn build_mm_tag_no_ml(
    consensus_bases: &[u8],
    informative: &[u8],
    unconverted: &[u32],
    converted: &[u32],
    pattern: ConversionPattern,
    methylation_mode: MethylationMode,
    mm: &mut [u8],
) -> Result<usize, Refusal>
    ensures { BuiltAlone methylation_mode pattern (columns informative.now unconverted.now converted.now)
        consensus_bases.now mm.old result mm.new }
{
    let (text_len, calls) = measure(
        consensus_bases,
        informative,
        unconverted,
        converted,
        pattern,
        methylation_mode,
    )?;
    if mm.len() < text_len {
        return Err(Refusal::NoRoom);
    }
    let mut ml: [u8; 0] = [];
    strand::put_tag(
        consensus_bases,
        informative,
        unconverted,
        converted,
        pattern,
        methylation_mode,
        calls,
        mm,
        &mut ml,
    );
    Ok(text_len)
}
