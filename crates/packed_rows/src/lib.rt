// The walks over packed SEQ, which look up in the tables of `packed`: a row is unpacked in read orientation, packed as the read is stored, or turned. A byte
// that is turned is looked up whole. A support crate: its functions may have a `requires`; the public calls are in `stored`, `stored_edits` and `stored_session`.
#![tactic(auto)]

ghost use Rattle.std.specs.Prelude.{◌≡◌, ℕ, ◌+◌, ◌*◌, ◌%◌, ◌≤◌, ◌<◌, length, set};
ghost use Rattle.lent.specs.Filled.{over};
ghost use Rattle.lent.specs.Lists.{tabulate};
ghost use Rattle.packed.specs.Packed.{bytes_for, code_of, pack, reverse_complement, turn, unpack};
ghost use Rattle.packed.specs.Stored.{as_stored, in_read};
ghost use Rattle.packed.specs.Walks.{TableOf, turned_at, turned_second};

// The entry of a table.
fn entry(table: &[u8; 256], index: u8) -> u8
    ensures { (rule : ℕ → ℕ) → TableOf rule table.now → result ≡ rule index }
{
    table[index as usize]
}

// Two letters as a packed pair.
fn packed_pair(codes: &[u8; 256], first: u8, second: u8) -> u8
    requires { TableOf code_of codes.now }
    ensures { result ≡ 16 * code_of first + code_of second }
{
    let high = entry(codes, first);
    let low = entry(codes, second);
    high * 16 + low
}

// Writes what two tables have for a packed pair: the entry of the first at an index, and that of the second after it.
fn put_pair(first: &[u8; 256], second: &[u8; 256], pair: u8, row: &mut [u8], at: usize)
    requires { at + 1 < length row.old }
    ensures { (f g : ℕ → ℕ) → TableOf f first.now → TableOf g second.now
        → row.new ≡ set (set row.old at (f pair)) (at + 1) (g pair) }
{
    row[at] = entry(first, pair);
    row[at + 1] = entry(second, pair);
}

// Unpacks n bases as they are stored.
fn unpack_forward(packed: &[u8], n: usize, row: &mut [u8])
    requires { (n ≤ 16000) × (bytes_for n ≤ length packed.now) × (n ≤ length row.old) }
    ensures { row.new ≡ over (unpack n packed.now) row.old }
{
    let first = packed::first_table();
    let second = packed::second_table();
    let whole = n / 2;
    for i in 0..whole {
        put_pair(&first, &second, packed[i], row, 2 * i);
    }
    if n % 2 == 1 {
        row[n - 1] = entry(&first, packed[whole]);
    }
}

// Writes what comes first when n bases are reverse-complemented by whole bytes: at an odd length the one base of the last byte, else nothing. Answers
// how many bases that is.
fn put_odd(packed: &[u8], n: usize, second: &[u8; 256], row: &mut [u8]) -> usize
    requires { (n ≤ 16000) × (bytes_for n ≤ length packed.now) × (n ≤ length row.old) × TableOf turned_second second.now }
    ensures { (result ≡ n % 2) × (row.new ≡ over (tabulate (n % 2) (turned_at n packed.now)) row.old) }
{
    if n % 2 == 0 {
        return 0;
    }
    row[0] = entry(second, packed[n / 2]);
    1
}

// Unpacks n bases, reverse-complemented. All bytes but the last one of an odd length are whole.
fn unpack_backward(packed: &[u8], n: usize, row: &mut [u8])
    requires { (n ≤ 16000) × (bytes_for n ≤ length packed.now) × (n ≤ length row.old) }
    ensures { row.new ≡ over (reverse_complement (unpack n packed.now)) row.old }
{
    let first = packed::turned_first_table();
    let second = packed::turned_second_table();
    let whole = n / 2;
    let odd = put_odd(packed, n, &second, row);
    for i in 0..whole {
        put_pair(&first, &second, packed[whole - 1 - i], row, odd + 2 * i);
    }
}

// Unpacks n bases in read orientation to the front of a row.
pub fn unpack_row(packed: &[u8], n: usize, reverse: bool, row: &mut [u8])
    requires { (n ≤ 16000) × (bytes_for n ≤ length packed.now) × (n ≤ length row.old) }
    ensures { row.new ≡ over (in_read reverse n packed.now) row.old }
{
    if reverse {
        unpack_backward(packed, n, row);
        return;
    }
    unpack_forward(packed, n, row);
}

// Packs bases as they are.
fn pack_forward(bases: &[u8], out: &mut [u8])
    requires { (length bases.now ≤ 16000) × (bytes_for (length bases.now) ≤ length out.old) }
    ensures { out.new ≡ over (pack bases.now) out.old }
{
    let coded = packed::code_table();
    let n = bases.len();
    let whole = n / 2;
    for i in 0..whole {
        out[i] = packed_pair(&coded, bases[2 * i], bases[2 * i + 1]);
    }
    if n % 2 == 1 {
        out[whole] = entry(&coded, bases[n - 1]) * 16;
    }
}

// Packs the reverse complement of bases.
fn pack_backward(bases: &[u8], out: &mut [u8])
    requires { (length bases.now ≤ 16000) × (bytes_for (length bases.now) ≤ length out.old) }
    ensures { out.new ≡ over (pack (reverse_complement bases.now)) out.old }
{
    let turned = packed::pair_table();
    let coded = packed::code_table();
    let n = bases.len();
    let whole = n / 2;
    for i in 0..whole {
        let at = n - 1 - 2 * i;
        let pair = packed_pair(&coded, bases[at - 1], bases[at]);
        out[i] = entry(&turned, pair);
    }
    if n % 2 == 1 {
        out[whole] = entry(&turned, entry(&coded, bases[0]));
    }
}

// Packs bases in read orientation, as the read is stored, to the front of a row. A spare half is written as 0.
pub fn pack_row(bases: &[u8], reverse: bool, out: &mut [u8])
    requires { (length bases.now ≤ 16000) × (bytes_for (length bases.now) ≤ length out.old) }
    ensures { out.new ≡ over (as_stored reverse bases.now) out.old }
{
    if reverse {
        pack_backward(bases, out);
        return;
    }
    pack_forward(bases, out);
}

// Turns an even number of bases: every byte is whole.
fn turn_even(packed: &[u8], n: usize, out: &mut [u8])
    requires { (n ≤ 16000) × (bytes_for n ≤ length packed.now) × (bytes_for n ≤ length out.old) × (n % 2 ≡ 0) }
    ensures { out.new ≡ over (turn n packed.now) out.old }
{
    let turned = packed::pair_table();
    let whole = n / 2;
    let mut at = whole; // counted down, which takes fewer instructions than `whole - 1 - i`
    for i in 0..whole {
        at -= 1;
        out[i] = entry(&turned, packed[at]);
    }
}

// Turns an odd number of bases: a byte is the second half of one turned pair and the first half of the next one.
fn turn_odd(packed: &[u8], n: usize, out: &mut [u8])
    requires { (n ≤ 16000) × (bytes_for n ≤ length packed.now) × (bytes_for n ≤ length out.old) × (n % 2 ≡ 1) }
    ensures { out.new ≡ over (turn n packed.now) out.old }
{
    let first = packed::first_low_table();
    let second = packed::second_high_table();
    let whole = n / 2;
    let mut last = entry(&second, packed[whole]);
    for i in 0..whole {
        let at = whole - 1 - i;
        out[i] = last + entry(&first, packed[at]);
        last = entry(&second, packed[at]);
    }
    out[whole] = last;
}

// Turns a packed SEQ of n bases to the front of a row. A spare half is not read, and is written as 0.
pub fn turn_row(packed: &[u8], n: usize, out: &mut [u8])
    requires { (n ≤ 16000) × (bytes_for n ≤ length packed.now) × (bytes_for n ≤ length out.old) }
    ensures { out.new ≡ over (turn n packed.now) out.old }
{
    if n % 2 == 0 {
        turn_even(packed, n, out);
        return;
    }
    turn_odd(packed, n, out);
}
