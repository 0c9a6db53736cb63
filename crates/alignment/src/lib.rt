// The reference places of a read's bases, and the reference bases there: port step 2.
//
// The names are those of the Rust code. No public function has a `requires`. Each contract is one proposition of specs/PublicContracts, over definitions of
// `cigar` for the places and of specs/ for the reference. The check of `cigar` and the walk of `walking` do the work for the places.
#![tactic(auto)]

ghost use Rattle.std.specs.Prelude.{◌≡◌, ◌&&◌, ◌+◌};
ghost use Rattle.alignment.specs.PublicContracts.{FindsPlaces, TellsCpg, FetchesBases};
ghost use Rattle.alignment.specs.Reference.{holds_at, base_at};

use cigar::{check, start_of};
use lent::Refusal;
use walking::{outset, walk};

// The place of each base on the reference, or -1 if it has none, for a read in its own orientation: the bases of a reverse read come in the order of
// sequencing, from the alignment's end. `cigar` holds BAM words, `alignment_start` counts from 0. Ok with the number of places in `positions`;
// Err with 13 for an unknown kind or the start, 1 for more than 65,535 operations or 16,000 bases, 12 if `positions` is too short.
pub fn query_to_ref_positions(
    cigar: &[u32],
    alignment_start: i64,
    is_reverse: bool,
    positions: &mut [i64],
) -> Result<usize, Refusal>
    ensures { FindsPlaces cigar.now alignment_start is_reverse positions.old result positions.new }
{
    let bases = check(cigar, alignment_start)?;
    if positions.len() < bases {
        return Err(Refusal::NoRoom);
    }
    let begin = outset(cigar, start_of(alignment_start), is_reverse);
    walk(cigar, begin, is_reverse, positions);
    Ok(bases)
}

// ---- the reference

// Whether the letter is at the place, in upper or lower case.
fn holds_at(reference: &[u8], place: usize, letter: u8) -> bool
    ensures { result ≡ holds_at reference.now place letter }
{
    if reference.len() <= place {
        return false;
    }
    pattern::eq_ignore_ascii_case(reference[place], letter)
}

// Whether a C is at the place and a G after it.
fn is_pair_at(reference: &[u8], place: usize) -> bool
    ensures { result ≡ holds_at reference.now place 67 && holds_at reference.now (place + 1) 71 }
{
    if !holds_at(reference, place, b'C') {
        return false;
    }
    holds_at(reference, place + 1, b'G')
}

// Whether the place is in a CpG: for the top strand a C followed by a G, for the bottom strand a G preceded by a C. Nothing matches outside the slice.
pub fn is_cpg_context(ref_seq: &[u8], pos: usize, is_top_strand: bool) -> bool
    ensures { TellsCpg ref_seq.now pos is_top_strand result }
{
    if is_top_strand {
        return is_pair_at(ref_seq, pos);
    }
    if pos == 0 {
        return false;
    }
    is_pair_at(ref_seq, pos - 1)
}

// The base at a place; byte 0 if the place is negative or outside the reference.
fn base_at(reference: &[u8], place: i64) -> u8
    ensures { result ≡ base_at reference.now place }
{
    if place < 0 {
        return 0;
    }
    let at = place as usize;
    if at < reference.len() {
        return reference[at];
    }
    0
}

// The reference's base at each place, or byte 0 if the place is negative or outside the reference. So a 0 in the reference reads as missing too.
// Ok with the number of bases in `bases`; Err with 12 if `bases` is too short.
pub fn fetch_ref_bases_at_positions(
    ref_positions: &[i64],
    reference: &[u8],
    bases: &mut [u8],
) -> Result<usize, Refusal>
    ensures { FetchesBases ref_positions.now reference.now bases.old result bases.new }
{
    if bases.len() < ref_positions.len() {
        return Err(Refusal::NoRoom);
    }
    for (i, &place) in ref_positions.iter().enumerate() {
        bases[i] = base_at(reference, place);
    }
    Ok(ref_positions.len())
}
