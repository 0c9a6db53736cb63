// Reads a read as a BAM record stores it: SEQ packed, two bases to a byte, and reverse-complemented if the read is reverse. Turning, unpacking, and the
// calls that read a tag.
//
// A stored read is its packed bytes, its stated number of bases, and whether it is reverse. The tag is always in read orientation and is never turned.
// Places are counted in the stored read: place p of n bases of a reverse read is n - 1 - p in read orientation. Each call answers Err with 1 by the
// stated number and the lengths of text and ML, then 2 if the packed bytes are not as many as the bases take, and then as the plain call does on the
// bases in read orientation. The spare half of the last byte is not read, and is written as 0. No public function has a `requires`.
#![tactic(auto)]

ghost use Rattle.std.specs.Prelude.{◌≡◌, ◌≤◌, length};
ghost use Rattle.packed.specs.Packed.{bytes_for};
ghost use Rattle.packed.specs.Stored.{in_read};
ghost use Rattle.reading.specs.PublicContracts.{ChecksTag, ReadsCalls, Tallies};
ghost use Rattle.stored.specs.PublicContracts.{ChecksStored, ReadsStored, TalliesStored, Turns, Unpacks};
ghost use Rattle.stored.specs.Mirrors.{CallsIn, places_as_stored};

use lent::Refusal;

// Turns a packed SEQ: the reverse complement, packed, at the front of a lent row. Ok with the number of bytes that it takes.
// Err with 1 if it has too many bases, 2 if the bytes are not as many as the bases take, last 12.
pub fn turn(packed: &[u8], bases: usize, out: &mut [u8]) -> Result<usize, Refusal>
    ensures { Turns bases packed.now out.old result out.new }
{
    stored_rows::order::stored_in_order(packed.len(), bases, 0, 0, false)?;
    if out.len() < packed.len() {
        return Err(Refusal::NoRoom);
    }
    packed_rows::turn_row(packed, bases, out);
    Ok(packed.len())
}

// Unpacks a stored read in read orientation, a letter for each base, to the front of a lent row. Ok with the number of bases.
// Err with 1, 2 and 12 as `turn`.
pub fn unpack(packed: &[u8], bases: usize, reverse: bool, seq: &mut [u8]) -> Result<usize, Refusal>
    ensures { Unpacks reverse bases packed.now seq.old result seq.new }
{
    stored_rows::order::stored_in_order(packed.len(), bases, 0, 0, false)?;
    if seq.len() < bases {
        return Err(Refusal::NoRoom);
    }
    packed_rows::unpack_row(packed, bases, reverse, seq);
    Ok(bases)
}

// Checks a tag with a row to unpack SEQ in, with any contents.
fn check_with(
    packed: &[u8],
    n: usize,
    reverse: bool,
    mm: &[u8],
    ml: &[u8],
    has_ml: bool,
    row: &mut [u8],
) -> Result<(usize, usize), Refusal>
    requires { (n ≤ 16000) × (bytes_for n ≤ length packed.now) × (n ≤ length row.old) }
    ensures { ChecksTag has_ml (in_read reverse n packed.now) mm.now ml.now result }
{
    packed_rows::unpack_row(packed, n, reverse, row);
    reading::check_tag(&row[0..n], mm, ml, has_ml)
}

// Reads the tag of a stored read and answers without a list: Ok with the numbers of its groups and calls.
pub fn check_tag(
    packed: &[u8],
    bases: usize,
    reverse: bool,
    mm: &[u8],
    ml: &[u8],
    has_ml: bool,
) -> Result<(usize, usize), Refusal>
    ensures { ChecksStored reverse has_ml bases packed.now mm.now ml.now result }
{
    stored_rows::order::stored_in_order(packed.len(), bases, mm.len(), ml.len(), has_ml)?;
    if bases <= 1024 {
        let mut few = changing::few_marks();
        return check_with(packed, bases, reverse, mm, ml, has_ml, &mut few);
    }
    let mut row = changing::no_marks();
    check_with(packed, bases, reverse, mm, ml, has_ml, &mut row)
}

// Tallies with a row to unpack SEQ in, with any contents.
fn tally_with(
    packed: &[u8],
    n: usize,
    reverse: bool,
    mm: &[u8],
    ml: &[u8],
    row: &mut [u8],
) -> Result<(usize, usize), Refusal>
    requires { (n ≤ 16000) × (bytes_for n ≤ length packed.now) × (n ≤ length row.old) }
    ensures { Tallies (in_read reverse n packed.now) mm.now ml.now result }
{
    packed_rows::unpack_row(packed, n, reverse, row);
    reading::tally(&row[0..n], mm, ml)
}

// Ok with how many ML values of a stored read's tag are above (128 or more) and how many below; each value counts once. It always takes an ML.
pub fn tally(
    packed: &[u8],
    bases: usize,
    reverse: bool,
    mm: &[u8],
    ml: &[u8],
) -> Result<(usize, usize), Refusal>
    ensures { TalliesStored reverse bases packed.now mm.now ml.now result }
{
    stored_rows::order::stored_in_order(packed.len(), bases, mm.len(), ml.len(), true)?;
    if bases <= 1024 {
        let mut few = changing::few_marks();
        return tally_with(packed, bases, reverse, mm, ml, &mut few);
    }
    let mut row = changing::no_marks();
    tally_with(packed, bases, reverse, mm, ml, &mut row)
}

// The places of a list that was read, counted in the stored read; the answer is passed on.
fn as_stored(
    answer: Result<(usize, usize), Refusal>,
    reverse: bool,
    n: usize,
    places: &mut [u32],
) -> Result<(usize, usize), Refusal>
    requires { (n ≤ 16000) × CallsIn answer (length places.old) }
    ensures { (result ≡ answer) × (places.new ≡ places_as_stored answer reverse n places.old) }
{
    let Ok((groups, calls)) = answer else {
        return answer;
    };
    if reverse {
        stored_rows::mirror_all(&mut places[0..calls], n);
        return Ok((groups, calls));
    }
    Ok((groups, calls))
}

// Reads the calls with a row to unpack SEQ in, with any contents.
fn read_with(
    packed: &[u8],
    n: usize,
    reverse: bool,
    mm: &[u8],
    ml: &[u8],
    has_ml: bool,
    row: &mut [u8],
    groups: &mut [u32],
    places: &mut [u32],
    starts: &mut [u32],
) -> Result<(usize, usize), Refusal>
    requires { (n ≤ 16000) × (bytes_for n ≤ length packed.now) × (n ≤ length row.old) }
    ensures { ReadsCalls has_ml (in_read reverse n packed.now) mm.now ml.now
        groups.old places.old starts.old result groups.new places.new starts.new }
{
    packed_rows::unpack_row(packed, n, reverse, row);
    reading::read_calls(&row[0..n], mm, ml, has_ml, groups, places, starts)
}

// Writes the calls of a stored read's tag, in the order of the tag, into three lent columns: the group's number counted from 1, the place in the stored
// read, and the index of the call's first value in ML (0 without ML). Ok with the numbers of groups and calls; the calls fill the front of each
// column. Err with 12 if a column is shorter than the list. With any Err the columns are unchanged.
pub fn read_calls(
    packed: &[u8],
    bases: usize,
    reverse: bool,
    mm: &[u8],
    ml: &[u8],
    has_ml: bool,
    groups: &mut [u32],
    places: &mut [u32],
    starts: &mut [u32],
) -> Result<(usize, usize), Refusal>
    ensures { ReadsStored reverse has_ml bases packed.now mm.now ml.now
        groups.old places.old starts.old result groups.new places.new starts.new }
{
    stored_rows::order::stored_in_order(packed.len(), bases, mm.len(), ml.len(), has_ml)?;
    if bases <= 1024 {
        let mut few = changing::few_marks();
        let read = read_with(
            packed, bases, reverse, mm, ml, has_ml, &mut few, groups, places, starts,
        );
        return as_stored(read, reverse, bases, places);
    }
    let mut row = changing::no_marks();
    let read = read_with(
        packed, bases, reverse, mm, ml, has_ml, &mut row, groups, places, starts,
    );
    as_stored(read, reverse, bases, places)
}
