// The SEQ and the tags of a record with one strand or two. Port step 7.
//
// The names are those of the Rust code. Each strand is a pattern and three columns of evidence, as long as the consensus. SEQ is restored by each
// strand, each strand's tag is built over that SEQ, and the joined tag has the C to T strand's group first. The number of strands is an argument. If
// it is 1, the second strand's inputs are not read and its rows are unchanged. No public function has a `requires`. The contract is `Duplexes` of
// specs/PublicContracts.antt.
#![tactic(auto)]

ghost use Rattle.std.specs.Prelude.{◌≡◌, true, cond, ◌&&◌, ◌||◌, ◌+◌, ◌≤◌, eqb, leb};
ghost use Rattle.samtags.specs.Building.{columns, evidence_in_domain, evidence_agrees};
ghost use Rattle.duplex.specs.Duplex.{strand, within, admitted};
ghost use Rattle.duplex.specs.PublicContracts.{Duplexes, eleven_rows};
ghost use Rattle.duplex.specs.Measured.{restored_seq, both_sizes, part_lengths};

use joining::BothSizes;
use lent::Refusal;
use pattern::{ConversionPattern, MethylationMode};

// How many entries of each row an answer fills, or how many a caller lends.
#[derive(Clone, Copy)]
pub struct Lengths {
    pub seq: usize,
    pub mm: usize,
    pub ml: usize,
    pub unconverted: usize,
    pub converted: usize,
    pub first_mm: usize,
    pub first_unconverted: usize,
    pub first_converted: usize,
    pub second_mm: usize,
    pub second_unconverted: usize,
    pub second_converted: usize,
}

// Whether the number of strands is 1 or 2.
fn is_count(strands: usize) -> bool
    ensures { result ≡ eqb strands 1 || eqb strands 2 }
{
    strands == 1 || strands == 2
}

// Whether the lengths of the second strand's columns are within the domain; true if there is no second strand.
fn second_in_domain(
    two: bool,
    bases: &[u8],
    informative: &[u8],
    unconverted: &[u32],
    converted: &[u32],
) -> bool
    ensures { result ≡ cond two (evidence_in_domain (columns informative.now unconverted.now converted.now) bases.now) true }
{
    if two {
        return strand::in_domain(bases, informative, unconverted, converted);
    }
    true
}

// Whether the second strand's columns are as long as the consensus; true if there is no second strand.
fn second_agrees(
    two: bool,
    bases: &[u8],
    informative: &[u8],
    unconverted: &[u32],
    converted: &[u32],
) -> bool
    ensures { result ≡ cond two (evidence_agrees (columns informative.now unconverted.now converted.now) bases.now) true }
{
    if two {
        return strand::agree(bases, informative, unconverted, converted);
    }
    true
}

// The first pass: every refusal except for too little room; else the lengths of the strands' own tags.
fn measure(
    bases: &[u8],
    mode: MethylationMode,
    strands: usize,
    first: ConversionPattern,
    first_informative: &[u8],
    first_unconverted: &[u32],
    first_converted: &[u32],
    second: ConversionPattern,
    second_informative: &[u8],
    second_unconverted: &[u32],
    second_converted: &[u32],
) -> Result<BothSizes, Refusal>
    ensures { let a = strand first first_informative.now first_unconverted.now first_converted.now in
        let b = strand second second_informative.now second_unconverted.now second_converted.now in
        let two? = eqb strands 2 in
        result ≡ admitted strands bases.now a b (both_sizes two? mode (restored_seq two? bases.now a b) a b) }
{
    let known = is_count(strands);
    if !known {
        return Err(Refusal::BadNumber);
    }
    let two = strands == 2;
    let first_short = strand::in_domain(
        bases,
        first_informative,
        first_unconverted,
        first_converted,
    );
    if !first_short {
        return Err(Refusal::TooLong);
    }
    let second_short = second_in_domain(
        two,
        bases,
        second_informative,
        second_unconverted,
        second_converted,
    );
    if !second_short {
        return Err(Refusal::TooLong);
    }
    let first_same = strand::agree(bases, first_informative, first_unconverted, first_converted);
    if !first_same {
        return Err(Refusal::LengthsDisagree);
    }
    let second_same = second_agrees(
        two,
        bases,
        second_informative,
        second_unconverted,
        second_converted,
    );
    if !second_same {
        return Err(Refusal::LengthsDisagree);
    }
    Ok(joining::measure(
        bases,
        mode,
        two,
        first,
        first_informative,
        first_unconverted,
        first_converted,
        second,
        second_informative,
        second_unconverted,
        second_converted,
    ))
}

// The number of counts of the second strand: one for each base, or 0 if there is no second strand.
fn second_counts(two: bool, bases: usize) -> usize
    ensures { result ≡ cond two bases 0 }
{
    if two {
        return bases;
    }
    0
}

// The lengths of all parts of the answer.
fn part_lengths(two: bool, bases: usize, sizes: BothSizes) -> Lengths
    requires { (sizes.first_text + sizes.second_text ≤ 65536) × (sizes.first_values + sizes.second_values ≤ 65536) }
    ensures { result ≡ part_lengths two bases sizes }
{
    let counts = second_counts(two, bases);
    Lengths {
        seq: bases,
        mm: sizes.first_text + sizes.second_text,
        ml: sizes.first_values + sizes.second_values,
        unconverted: bases,
        converted: bases,
        first_mm: sizes.first_text,
        first_unconverted: bases,
        first_converted: bases,
        second_mm: sizes.second_text,
        second_unconverted: counts,
        second_converted: counts,
    }
}

// Whether every row so far had room, and this one has room too.
fn fits_too(so_far: bool, part: usize, row: usize) -> bool
    ensures { result ≡ so_far && leb part row }
{
    if so_far {
        return part <= row;
    }
    false
}

// Whether each row has room for its part.
fn within(parts: Lengths, rows: Lengths) -> bool
    ensures { result ≡ within parts rows }
{
    let fits = fits_too(true, parts.seq, rows.seq);
    let fits = fits_too(fits, parts.mm, rows.mm);
    let fits = fits_too(fits, parts.ml, rows.ml);
    let fits = fits_too(fits, parts.unconverted, rows.unconverted);
    let fits = fits_too(fits, parts.converted, rows.converted);
    let fits = fits_too(fits, parts.first_mm, rows.first_mm);
    let fits = fits_too(fits, parts.first_unconverted, rows.first_unconverted);
    let fits = fits_too(fits, parts.first_converted, rows.first_converted);
    let fits = fits_too(fits, parts.second_mm, rows.second_mm);
    let fits = fits_too(fits, parts.second_unconverted, rows.second_unconverted);
    fits_too(fits, parts.second_converted, rows.second_converted)
}

// Writes SEQ, MM and ML, the combined counts (`cu`, `ct`), and each strand's own text and counts (`am`, `au`, `at` and `bm`, `bu`, `bt`) into lent
// rows. Ok with the number of filled entries of each row. If there is no call or no chemistry, SEQ and counts are written and the texts are empty.
// Err with 13 if there are not 1 or 2 strands, 1 if an input is too long, 2 if the consensus and a strand's columns differ in length, 12 if a row has
// no room. With a refusal every row is unchanged.
pub fn duplex_methylation_tags(
    bases: &[u8],
    strands: usize,
    methylation_mode: MethylationMode,
    first: ConversionPattern,
    first_informative: &[u8],
    first_unconverted: &[u32],
    first_converted: &[u32],
    second: ConversionPattern,
    second_informative: &[u8],
    second_unconverted: &[u32],
    second_converted: &[u32],
    seq: &mut [u8],
    mm: &mut [u8],
    ml: &mut [u8],
    unconverted: &mut [i16],
    converted: &mut [i16],
    first_mm: &mut [u8],
    first_unconverted_counts: &mut [i16],
    first_converted_counts: &mut [i16],
    second_mm: &mut [u8],
    second_unconverted_counts: &mut [i16],
    second_converted_counts: &mut [i16],
) -> Result<Lengths, Refusal>
    ensures { Duplexes strands methylation_mode bases.now
        (strand first first_informative.now first_unconverted.now first_converted.now)
        (strand second second_informative.now second_unconverted.now second_converted.now)
        (eleven_rows seq.old mm.old ml.old unconverted.old converted.old
        first_mm.old first_unconverted_counts.old first_converted_counts.old
        second_mm.old second_unconverted_counts.old second_converted_counts.old)
        result
        (eleven_rows seq.new mm.new ml.new unconverted.new converted.new
        first_mm.new first_unconverted_counts.new first_converted_counts.new
        second_mm.new second_unconverted_counts.new second_converted_counts.new) }
{
    let sizes = measure(
        bases,
        methylation_mode,
        strands,
        first,
        first_informative,
        first_unconverted,
        first_converted,
        second,
        second_informative,
        second_unconverted,
        second_converted,
    )?;
    let two = strands == 2;
    let parts = part_lengths(two, bases.len(), sizes);
    let roomy = within(
        parts,
        Lengths {
            seq: seq.len(),
            mm: mm.len(),
            ml: ml.len(),
            unconverted: unconverted.len(),
            converted: converted.len(),
            first_mm: first_mm.len(),
            first_unconverted: first_unconverted_counts.len(),
            first_converted: first_converted_counts.len(),
            second_mm: second_mm.len(),
            second_unconverted: second_unconverted_counts.len(),
            second_converted: second_converted_counts.len(),
        },
    );
    if !roomy {
        return Err(Refusal::NoRoom);
    }
    joining::restore(
        bases,
        two,
        first,
        first_informative,
        second,
        second_informative,
        seq,
    );
    joining::put_counts(
        two,
        first_unconverted,
        second_unconverted,
        unconverted,
        first_unconverted_counts,
        second_unconverted_counts,
    );
    joining::put_counts(
        two,
        first_converted,
        second_converted,
        converted,
        first_converted_counts,
        second_converted_counts,
    );
    let n = bases.len();
    joining::put_tags(
        &seq[0..n],
        methylation_mode,
        two,
        first,
        first_informative,
        first_unconverted,
        first_converted,
        second,
        second_informative,
        second_unconverted,
        second_converted,
        sizes.first_values,
        sizes.second_values,
        first_mm,
        second_mm,
        ml,
    );
    joining::join(
        first,
        first_mm,
        sizes.first_text,
        second,
        second_mm,
        sizes.second_text,
        mm,
    );
    Ok(parts)
}
