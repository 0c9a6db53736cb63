// Checks whether a call over columns or over reads is refused, before anything is written. Each check answers as its definition does, and its caller
// passes a refusal on. A support crate: its functions may have a `requires`; the public calls are in `annotation`.
#![tactic(auto)]

ghost use Rattle.std.specs.Prelude.{◌≡◌, min, ◌≤◌, length};
ghost use Rattle.refusals.specs.Refusals.{columns_of, in_room, restorable, truncated, counts_in_room, annotated};
ghost use Rattle.lent.specs.Lists.{sum};

use lent::Refusal;

// The most positions of a consensus, and the most bases of SEQ.
const POSITIONS: usize = 16000;
// The most reads in one count, and the most bases of these reads together.
const READS: usize = 4096;

const BASES: usize = 1048576;

// Three columns within the domain and of one length; Ok with the number of positions.
pub fn columns_of(
    informative: usize,
    unconverted: usize,
    converted: usize,
) -> Result<usize, Refusal>
    ensures { result ≡ columns_of informative unconverted converted }
{
    if POSITIONS < informative {
        return Err(Refusal::TooLong);
    }
    if POSITIONS < unconverted {
        return Err(Refusal::TooLong);
    }
    if POSITIONS < converted {
        return Err(Refusal::TooLong);
    }
    if unconverted != informative {
        return Err(Refusal::LengthsDisagree);
    }
    if converted != informative {
        return Err(Refusal::LengthsDisagree);
    }
    Ok(informative)
}

// Room for n entries in each of three rows.
fn in_room(
    n: usize,
    informative: usize,
    unconverted: usize,
    converted: usize,
) -> Result<usize, Refusal>
    ensures { result ≡ in_room n informative unconverted converted }
{
    if informative < n {
        return Err(Refusal::NoRoom);
    }
    if unconverted < n {
        return Err(Refusal::NoRoom);
    }
    if converted < n {
        return Err(Refusal::NoRoom);
    }
    Ok(n)
}

// SEQ and the informative column.
pub fn restorable(bases: usize, informative: usize) -> Result<usize, Refusal>
    ensures { result ≡ restorable bases informative }
{
    if POSITIONS < bases {
        return Err(Refusal::TooLong);
    }
    if POSITIONS < informative {
        return Err(Refusal::TooLong);
    }
    if informative != bases {
        return Err(Refusal::LengthsDisagree);
    }
    Ok(bases)
}

// One column's counts into a row of `room` entries.
pub fn counts_in_room(
    informative: usize,
    unconverted: usize,
    converted: usize,
    room: usize,
) -> Result<usize, Refusal>
    ensures { result ≡ counts_in_room informative unconverted converted room }
{
    let n = columns_of(informative, unconverted, converted)?;
    if room < n {
        return Err(Refusal::NoRoom);
    }
    Ok(n)
}

// The first `len` positions, or all if there are fewer, into three rows; Ok with their number.
pub fn truncated(
    len: usize,
    informative: usize,
    unconverted: usize,
    converted: usize,
    kept_informative: usize,
    kept_unconverted: usize,
    kept_converted: usize,
) -> Result<usize, Refusal>
    ensures { result ≡ truncated len informative unconverted converted kept_informative kept_unconverted kept_converted }
{
    let n = columns_of(informative, unconverted, converted)?;
    let kept = len.min(n);
    in_room(kept, kept_informative, kept_unconverted, kept_converted)
}

// The number of bases of all reads together. It has 64 bits, since each length may be any u32.
fn total(lengths: &[u32]) -> u64
    requires { length lengths.now ≤ 4096 }
    ensures { result ≡ sum lengths.now }
{
    lengths.iter().map(|n| *n as u64).sum()
}

// Reads whose lengths, bases and aligned bytes agree, and a consensus that has room in three columns; Ok with the consensus' length.
pub fn annotated(
    consensus_len: usize,
    read_lengths: &[u32],
    read_bases: &[u8],
    read_aligned: &[u8],
    informative: usize,
    unconverted: usize,
    converted: usize,
) -> Result<usize, Refusal>
    ensures { result ≡ annotated consensus_len read_lengths.now read_bases.now read_aligned.now
        informative unconverted converted }
{
    if POSITIONS < consensus_len {
        return Err(Refusal::TooLong);
    }
    if READS < read_lengths.len() {
        return Err(Refusal::TooLong);
    }
    if BASES < read_bases.len() {
        return Err(Refusal::TooLong);
    }
    if BASES < read_aligned.len() {
        return Err(Refusal::TooLong);
    }
    if total(read_lengths) != read_bases.len() as u64 {
        return Err(Refusal::LengthsDisagree);
    }
    if read_aligned.len() != read_bases.len() {
        return Err(Refusal::LengthsDisagree);
    }
    in_room(consensus_len, informative, unconverted, converted)
}
