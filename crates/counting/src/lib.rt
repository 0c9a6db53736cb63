// Fills the columns of evidence from reads: sets the marks, zeroes the counts, then counts read by read. So it passes over the bases of all reads
// once and in order. A support crate: its functions may have a `requires`; the public calls are in `annotation`.
#![tactic(auto)]

ghost use Rattle.std.specs.Prelude.{◌≡◌, ◌<◌, length, get_or, set};
ghost use Rattle.pattern.specs.Patterns.{bases_of};
ghost use Rattle.lent.specs.Lists.{sum};
ghost use Rattle.columns.specs.Columns.{informative_column};
ghost use Rattle.counting.specs.Reads.{Read, reads_of, unconverted_column, converted_column};
ghost use Rattle.counting.specs.Counting.{counts_there, counted_there, add_read, add_reads};

use columns::clear;
use columns::marks::mark;
use evidence::MethylationEvidence;
use pattern::ConversionPattern;

// Whether a base counts: if all positions count, or if the position is informative and the base is aligned.
fn counts_there(count_all_positions: bool, informative: u8, aligned: u8) -> bool
    ensures { result ≡ counts_there count_all_positions informative aligned }
{
    if count_all_positions {
        return true;
    }
    if informative == 0 {
        return false;
    }
    aligned != 0
}

// Counts the base that a read shows at position i. If it does not count, as at most positions, no column is touched.
fn count_base(
    base: u8,
    aligned: u8,
    pattern: ConversionPattern,
    count_all_positions: bool,
    informative: u8,
    i: usize,
    unconverted: &mut [u32],
    converted: &mut [u32],
)
    requires { (i < length unconverted.old) × (i < length converted.old) }
    ensures { let after = counted_there count_all_positions informative (get_or unconverted.old i 0)
        (get_or converted.old i 0) base aligned pattern in
        (unconverted.new ≡ set unconverted.old i after.unconverted)
        × (converted.new ≡ set converted.old i after.converted) }
{
    let counts = counts_there(count_all_positions, informative, aligned);
    if !counts {
        return;
    }
    let before = MethylationEvidence {
        informative: informative != 0,
        unconverted: unconverted[i],
        converted: converted[i],
    };
    let after = before.counted(base, pattern);
    unconverted[i] = after.unconverted;
    converted[i] = after.converted;
}

// Counts one read over the columns, as far as both reach.
fn count_read(
    bases: &[u8],
    aligned: &[u8],
    pattern: ConversionPattern,
    count_all_positions: bool,
    informative: &[u8],
    unconverted: &mut [u32],
    converted: &mut [u32],
)
    requires { (length aligned.now ≡ length bases.now)
        × (length unconverted.old ≡ length informative.now) × (length converted.old ≡ length informative.now) }
    ensures { (let r : Read = record { bases = bases.entry.now; aligned = aligned.now } in
        let all? = count_all_positions in
        let inf = informative.now in
        (unconverted.new ≡ add_read (bases_of pattern).unconverted all? inf r unconverted.old)
        × (converted.new ≡ add_read (bases_of pattern).converted all? inf r converted.old)) }
{
    let reached = bases.len().min(informative.len());
    for i in 0..reached {
        count_base(
            bases[i],
            aligned[i],
            pattern,
            count_all_positions,
            informative[i],
            i,
            unconverted,
            converted,
        );
    }
}

// Counts all reads over the columns. In the joined rows each read begins where the last one ended.
fn count_reads(
    read_lengths: &[u32],
    read_bases: &[u8],
    read_aligned: &[u8],
    pattern: ConversionPattern,
    count_all_positions: bool,
    informative: &[u8],
    unconverted: &mut [u32],
    converted: &mut [u32],
)
    requires { (sum read_lengths.now ≡ length read_bases.now) × (length read_aligned.now ≡ length read_bases.now)
        × (length unconverted.old ≡ length informative.now) × (length converted.old ≡ length informative.now) }
    ensures { let reads = reads_of read_lengths.now read_bases.now read_aligned.now in
        let all? = count_all_positions in
        let inf = informative.now in
        (unconverted.new ≡ add_reads (bases_of pattern).unconverted all? inf reads unconverted.old)
        × (converted.new ≡ add_reads (bases_of pattern).converted all? inf reads converted.old) }
{
    let mut from = 0;
    for &length in read_lengths {
        let to = from + length as usize;
        count_read(
            &read_bases[from..to],
            &read_aligned[from..to],
            pattern,
            count_all_positions,
            informative,
            unconverted,
            converted,
        );
        from = to;
    }
}

// Fills the three columns of a consensus. The consensus has as many positions as each column has entries.
pub fn fill(
    read_lengths: &[u32],
    read_bases: &[u8],
    ref_bases: &[u8],
    pattern: ConversionPattern,
    read_aligned: &[u8],
    count_all_positions: bool,
    informative: &mut [u8],
    unconverted: &mut [u32],
    converted: &mut [u32],
)
    requires { (sum read_lengths.now ≡ length read_bases.now) × (length read_aligned.now ≡ length read_bases.now)
        × (length unconverted.old ≡ length informative.old) × (length converted.old ≡ length informative.old) }
    ensures { let n = length informative.old in
        let row = ref_bases.now in
        let reads = reads_of read_lengths.now read_bases.now read_aligned.now in
        (informative.new ≡ informative_column pattern row n)
        × (unconverted.new ≡ unconverted_column pattern count_all_positions row reads n)
        × (converted.new ≡ converted_column pattern count_all_positions row reads n) }
{
    mark(ref_bases, pattern, informative);
    clear(unconverted);
    clear(converted);
    count_reads(
        read_lengths,
        read_bases,
        read_aligned,
        pattern,
        count_all_positions,
        informative,
        unconverted,
        converted,
    );
}
