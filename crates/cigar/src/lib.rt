// The operations of an alignment: how much of the read and of the reference each kind takes, their sums, and the check of an alignment. A support
// crate: its functions may have a `requires`; the public calls are in `alignment`.
#![tactic(auto)]

ghost use Rattle.std.specs.Prelude.{◌≡◌, true, ◌<◌, ◌^◌};
ghost use Rattle.lent.specs.Lists.{every};
ghost use Rattle.cigar.specs.Cigar.{is_known, takes_bases, takes_places, bases_taken, places_taken, query_length, reference_span};
ghost use Rattle.cigar.specs.Cigar.{is_start, start_of, checked};

use lent::Refusal;

// ---- one operation: a BAM word is length times 16 plus kind

fn is_known(word: u32) -> bool
    ensures { result ≡ is_known word }
{
    word % 16 <= 8
}

// M I S = X
fn takes_bases(kind: u32) -> bool
    ensures { result ≡ takes_bases kind }
{
    match kind {
        0 | 1 | 4 | 7 | 8 => true,
        _ => false,
    }
}

// M D N = X
pub fn takes_places(kind: u32) -> bool
    ensures { result ≡ takes_places kind }
{
    match kind {
        0 | 2 | 3 | 7 | 8 => true,
        _ => false,
    }
}

pub fn bases_taken(word: u32) -> u64
    ensures { result ≡ bases_taken word }
{
    if takes_bases(word % 16) {
        return (word / 16) as u64;
    }
    0
}

pub fn places_taken(word: u32) -> u64
    ensures { result ≡ places_taken word }
{
    if takes_places(word % 16) {
        return (word / 16) as u64;
    }
    0
}

// ---- all operations

fn all_known(cigar: &[u32]) -> bool
    ensures { result ≡ every is_known cigar.now }
{
    cigar.iter().all(|word| is_known(*word))
}

// The sums are in 64 bits: they can exceed 32 bits before they are compared with a limit.
fn query_length(cigar: &[u32]) -> u64
    requires { query_length cigar.now < 2 ^ 64 }
    ensures { result ≡ query_length cigar.now }
{
    let mut sum = 0;
    for word in cigar {
        sum += bases_taken(*word);
    }
    sum
}

pub fn reference_span(cigar: &[u32]) -> u64
    requires { reference_span cigar.now < 2 ^ 64 }
    ensures { result ≡ reference_span cigar.now }
{
    let mut sum = 0;
    for word in cigar {
        sum += places_taken(*word);
    }
    sum
}

// ---- the start: places are u64 inside, and i64 only as input and output

// Whether the start is neither negative nor too large.
fn is_start(start: i64) -> bool
    ensures { result ≡ is_start start }
{
    if start < 0 {
        return false;
    }
    start <= 2147483647
}

pub fn start_of(start: i64) -> u64
    requires { is_start start ≡ true }
    ensures { result ≡ start_of start }
{
    start as u64
}

// ---- the check

// The check of an alignment, without its walk: Err with 13, then 1, else Ok with the read's number of bases.
pub fn check(cigar: &[u32], start: i64) -> Result<usize, Refusal>
    ensures { result ≡ checked cigar.now start }
{
    if !all_known(cigar) {
        return Err(Refusal::BadNumber);
    }
    if !is_start(start) {
        return Err(Refusal::BadNumber);
    }
    if 65535 < cigar.len() {
        return Err(Refusal::TooLong);
    }
    let bases = query_length(cigar);
    if 16000 < bases {
        return Err(Refusal::TooLong);
    }
    Ok(bases as usize)
}
