// What the calls on records do with rows: letters in read orientation, bytes copied into the new record, and the edited tag written into it. A support
// crate: its functions may have a `requires`; the public calls are in `record`.
#![tactic(auto)]

ghost use Rattle.std.specs.Prelude.{◌≡◌, cond, true, false, [], ◌+◌, ◌-◌, ◌≤◌, ◌<◌, min, length, Ok};
ghost use Rattle.std.proofs.lemmas.List.Edits.{sets};
ghost use Rattle.changing.specs.Windows.{window_edit};
ghost use Rattle.lent.specs.Answers.{is_done};
ghost use Rattle.lent.specs.Filled.{over};
ghost use Rattle.packed.specs.Walks.{TableOf};
ghost use Rattle.samtags.specs.Edits.{edited};
ghost use Rattle.samtags.specs.Writing.{Tag};
ghost use Rattle.record_rows.specs.Letters.{complement_of, turned_letters};

// The complement of each byte.
const COMPLEMENT: [u8; 256] = *b"\x00\x01\x02\x03\x04\x05\x06\x07\x08\x09\x0a\x0b\x0c\x0d\x0e\x0f\
        \x10\x11\x12\x13\x14\x15\x16\x17\x18\x19\x1a\x1b\x1c\x1d\x1e\x1f\
        \x20\x21\x22\x23\x24\x25\x26\x27\x28\x29\x2a\x2b\x2c\x2d\x2e\x2f\
        \x30\x31\x32\x33\x34\x35\x36\x37\x38\x39\x3a\x3b\x3c\x3d\x3e\x3f\
        \x40\x54\x56\x47\x48\x45\x46\x43\x44\x49\x4a\x4d\x4c\x4b\x4e\x4f\
        \x50\x51\x59\x53\x41\x41\x42\x57\x58\x52\x5a\x5b\x5c\x5d\x5e\x5f\
        \x60\x74\x76\x67\x68\x65\x66\x63\x64\x69\x6a\x6d\x6c\x6b\x6e\x6f\
        \x70\x71\x79\x73\x61\x61\x62\x77\x78\x72\x7a\x7b\x7c\x7d\x7e\x7f\
        \x80\x81\x82\x83\x84\x85\x86\x87\x88\x89\x8a\x8b\x8c\x8d\x8e\x8f\
        \x90\x91\x92\x93\x94\x95\x96\x97\x98\x99\x9a\x9b\x9c\x9d\x9e\x9f\
        \xa0\xa1\xa2\xa3\xa4\xa5\xa6\xa7\xa8\xa9\xaa\xab\xac\xad\xae\xaf\
        \xb0\xb1\xb2\xb3\xb4\xb5\xb6\xb7\xb8\xb9\xba\xbb\xbc\xbd\xbe\xbf\
        \xc0\xc1\xc2\xc3\xc4\xc5\xc6\xc7\xc8\xc9\xca\xcb\xcc\xcd\xce\xcf\
        \xd0\xd1\xd2\xd3\xd4\xd5\xd6\xd7\xd8\xd9\xda\xdb\xdc\xdd\xde\xdf\
        \xe0\xe1\xe2\xe3\xe4\xe5\xe6\xe7\xe8\xe9\xea\xeb\xec\xed\xee\xef\
        \xf0\xf1\xf2\xf3\xf4\xf5\xf6\xf7\xf8\xf9\xfa\xfb\xfc\xfd\xfe\xff";

// The table of the complements, as a value.
fn complement_table() -> [u8; 256]
    ensures { TableOf complement_of result }
{
    COMPLEMENT
}

// The complement of a byte, by the table.
fn complement(table: &[u8; 256], letter: u8) -> u8
    requires { TableOf complement_of table.now }
    ensures { result ≡ complement_of letter }
{
    table[letter as usize]
}

// Writes letters to the front of a row as they are.
fn letters_forward(letters: &[u8], row: &mut [u8])
    requires { length letters.now ≤ length row.old }
    ensures { row.new ≡ over (turned_letters false letters.now) row.old }
{
    for (i, &letter) in letters.iter().enumerate() {
        row[i] = letter;
    }
}

// Writes letters to the front of a row, reverse-complemented. The table is made a value once, before the loop.
fn letters_backward(letters: &[u8], row: &mut [u8])
    requires { length letters.now ≤ length row.old }
    ensures { row.new ≡ over (turned_letters true letters.now) row.old }
{
    let table = complement_table();
    let n = letters.len();
    for i in 0..n {
        row[i] = complement(&table, letters[n - 1 - i]);
    }
}

// Writes letters to the front of a row, reverse-complemented if the read is reverse.
pub fn turn_letters(letters: &[u8], reverse: bool, row: &mut [u8])
    requires { length letters.now ≤ length row.old }
    ensures { row.new ≡ over (turned_letters reverse letters.now) row.old }
{
    if reverse {
        letters_backward(letters, row);
        return;
    }
    letters_forward(letters, row);
}

// How many of `bytes` bytes a row of `room` bytes has room for, from an index on.
fn fitting(room: usize, at: usize, bytes: usize) -> usize
    ensures { result ≡ min bytes (room - at) }
{
    bytes.min(room.saturating_sub(at))
}

// Writes bytes from an index on, as far as the row reaches, and returns the index after them.
pub fn put_bytes(out: &mut [u8], at: usize, bytes: &[u8]) -> usize
    requires { at + length bytes.now < 18446744073709551616 }
    ensures { (result ≡ at + length bytes.now) × (out.new ≡ sets out.old at bytes.now) }
{
    let fits = fitting(out.len(), at, bytes.len());
    for i in 0..fits {
        out[at + i] = bytes[i];
    }
    at + bytes.len()
}

// Whether the tag can be edited. The first walk needs no places; if it gives None, the walk that writes decides, over empty rows.
pub fn accepts(
    seq: &[u8],
    after: &[u8],
    marks: &[u8],
    mm: &[u8],
    ml: &[u8],
    lo: usize,
    has_ml: bool,
) -> bool
    requires { (length seq.now ≤ 16000) × (length mm.now ≤ 65536) × (length ml.now ≤ 65536) × (cond has_ml ml.now [] ≡ ml.now) }
    ensures { result ≡ is_done
        (edited (window_edit lo after.now marks.now) has_ml seq.now mm.now ml.now) }
{
    let Ok(counted) = measuring::count_tag(seq, mm, ml, has_ml, marks.len() != 0) else {
        return false;
    };
    counted.is_some() || editing::measure(seq, after, marks, mm, ml, lo, has_ml).is_ok()
}

// How many bytes of text and how many values of ML an edited tag takes.
#[derive(Clone, Copy)]
pub struct Sizes {
    pub text: usize,
    pub values: usize,
}

// Writes a tag that can be edited: its text into the new record from an index on, and its values to the front of another row, as far as the rows reach.
pub fn put_tag(
    seq: &[u8],
    after: &[u8],
    marks: &[u8],
    mm: &[u8],
    ml: &[u8],
    lo: usize,
    has_ml: bool,
    out: &mut [u8],
    at: usize,
    work: &mut [u8],
) -> Sizes
    requires seq_len_bound { (length seq.now ≤ 16000) × (length mm.now ≤ 65536) × (length ml.now ≤ 65536) × (cond has_ml ml.now [] ≡ ml.now) }
    requires ml_value { is_done (edited (window_edit lo after.now marks.now) has_ml seq.now mm.now ml.now) ≡ true }
    ensures text_value { (t : Tag)
        → edited (window_edit lo after.now marks.now) has_ml seq.now mm.now ml.now ≡ Ok t
        → (result.text ≡ length t.text) × (result.values ≡ length t.ml)
        × (out.new ≡ sets out.old at t.text) × (work.new ≡ sets work.old 0 t.ml) }
    ensures text_in_bounds { (result.text ≤ length mm.now) × (result.values ≤ length ml.now) }
{
    let room = at.min(out.len());
    let edited = drafting::edit_groups(
        seq,
        after,
        marks,
        mm,
        ml,
        lo,
        has_ml,
        &mut out[room..],
        work,
    );
    let Ok(end) = edited else {
        return Sizes { text: 0, values: 0 };
    };
    Sizes {
        text: end.end,
        values: end.kept,
    }
}

// Writes a tag that can be edited: its values into the new record from an index on, and its text to the front of another row, as far as the rows reach.
pub fn put_values(
    seq: &[u8],
    after: &[u8],
    marks: &[u8],
    mm: &[u8],
    ml: &[u8],
    lo: usize,
    out: &mut [u8],
    at: usize,
    work: &mut [u8],
) -> Sizes
    requires seq_len_bound { (length seq.now ≤ 16000) × (length mm.now ≤ 65536) × (length ml.now ≤ 65536) }
    requires ml_value { is_done (edited (window_edit lo after.now marks.now) true seq.now mm.now ml.now) ≡ true }
    ensures text_value { (t : Tag)
        → edited (window_edit lo after.now marks.now) true seq.now mm.now ml.now ≡ Ok t
        → (result.text ≡ length t.text) × (result.values ≡ length t.ml)
        × (out.new ≡ sets out.old at t.ml) × (work.new ≡ sets work.old 0 t.text) }
    ensures text_in_bounds { (result.text ≤ length mm.now) × (result.values ≤ length ml.now) }
{
    let start = at.min(out.len());
    let edited = drafting::edit_groups(
        seq,
        after,
        marks,
        mm,
        ml,
        lo,
        true,
        work,
        &mut out[start..],
    );
    let Ok(end) = edited else {
        return Sizes { text: 0, values: 0 };
    };
    Sizes {
        text: end.end,
        values: end.kept,
    }
}
