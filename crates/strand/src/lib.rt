// A strand's group from SEQ and evidence: its value at a place, its entries from the left, its text and its ML. A support crate: its functions may
// have a `requires`; the public calls are in `building` and `duplex`.
//
// Rows are written as far as they reach. So the same walk measures over empty rows, and writes into the caller's rows once the tag is known to fit.
#![tactic(auto)]

ghost use Rattle.std.specs.Prelude.{◌≡◌, [], ◌∷◌, ◌+◌, ◌*◌, ◌≤◌, ◌<◌, length};
ghost use Rattle.std.proofs.lemmas.List.Edits.{sets};
ghost use Rattle.lent.specs.Lists.{concat_map};
ghost use Rattle.samtags.specs.Spots.{values_of};
ghost use Rattle.samtags.specs.Writing.{skips_from, entries_text, written};
ghost use Rattle.samtags.specs.Building.{numerator, ml_value, called, columns, header_of, strand_group, own_tag, evidence_in_domain, evidence_agrees};
ghost use Rattle.samtags.proofs.Skips.{bare_since};
ghost use Rattle.strand.specs.Walk.{spots_from, spots_at};

use pattern::{ConversionPattern, MethylationMode};

// The most bases of SEQ, and the most entries of a column.
const POSITIONS: usize = 16000;

// The state of a writer: the number of bases of the group's letter since the last call, the next byte of the text, the next value of ML.
#[derive(Clone, Copy)]
pub struct Pen {
    pub skip: usize,
    pub text: usize,
    pub values: usize,
}

// How many bytes of text and values of ML a strand's tag takes.
#[derive(Clone, Copy)]
pub struct Sizes {
    pub text: usize,
    pub values: usize,
}

// Whether the lengths of SEQ and of the columns are within the domain.
pub fn in_domain(seq: &[u8], informative: &[u8], unconverted: &[u32], converted: &[u32]) -> bool
    ensures { result ≡ evidence_in_domain (columns informative.now unconverted.now converted.now) seq.now }
{
    if POSITIONS < seq.len() {
        return false;
    }
    if POSITIONS < informative.len() {
        return false;
    }
    if POSITIONS < unconverted.len() {
        return false;
    }
    converted.len() <= POSITIONS
}

// Whether SEQ and the columns are of one length.
pub fn agree(seq: &[u8], informative: &[u8], unconverted: &[u32], converted: &[u32]) -> bool
    ensures { result ≡ evidence_agrees (columns informative.now unconverted.now converted.now) seq.now }
{
    if informative.len() != seq.len() {
        return false;
    }
    if unconverted.len() != seq.len() {
        return false;
    }
    converted.len() == seq.len()
}

// How many reads are evidence for methylation.
fn numerator(mode: MethylationMode, unconverted: u32, converted: u32) -> u32
    ensures { result ≡ numerator mode unconverted converted }
{
    match mode {
        MethylationMode::Disabled => 0,
        MethylationMode::EmSeq => unconverted,
        MethylationMode::Taps => converted,
    }
}

// A probability as ML holds it. It is computed in 64 bits: 256 times a count can exceed a u32, and so can the sum of two counts.
fn ml_value(speaking: u32, total: u64) -> u8
    requires { 0 < total }
    ensures { result ≡ ml_value speaking total }
{
    let scaled = 256 * speaking as u64 / total;
    if 255 < scaled {
        return 255;
    }
    scaled as u8
}

// The value of a call, if the place is informative and a read was counted there.
fn call_of(mode: MethylationMode, informative: u8, unconverted: u32, converted: u32) -> Option<u8>
    ensures { result ≡ called mode informative unconverted converted }
{
    if informative == 0 {
        return None;
    }
    let total = unconverted as u64 + converted as u64;
    if total == 0 {
        return None;
    }
    Some(ml_value(numerator(mode, unconverted, converted), total))
}

// Writes an entry: a comma, the skip, and the call's value in ML.
fn put_entry(pen: Pen, value: u8, text: &mut [u8], ml: &mut [u8]) -> Pen
    requires { (pen.text ≤ 65536) × (pen.skip ≤ 65536) × (pen.values ≤ 65536) }
    ensures { (result.skip ≡ 0) × (result.text ≡ pen.text + length (entries_text (pen.skip ∷ []))) × (result.values ≡ pen.values + 1)
        × (text.new ≡ sets text.old pen.text (entries_text (pen.skip ∷ [])))
        × (ml.new ≡ sets ml.old pen.values (value ∷ [])) }
{
    let at = pen.text;
    let used = pen.values;
    let skip = pen.skip;
    numbers::put(text, at, b',');
    let end = numbers::put_decimal(text, at + 1, skip);
    numbers::put(ml, used, value);
    Pen {
        skip: 0, // a listed base ends the run of those without a call
        text: end,
        values: used + 1,
    }
}

// Passes a place: does nothing if its base is not the group's, adds one to the skip if it has no call, else writes its entry.
fn pass_place(
    seq: &[u8],
    informative: &[u8],
    unconverted: &[u32],
    converted: &[u32],
    pattern: ConversionPattern,
    mode: MethylationMode,
    place: usize,
    pen: Pen,
    text: &mut [u8],
    ml: &mut [u8],
) -> Pen
    requires place_in_bounds { (place < length seq.now) × (place < length informative.now) × (place < length unconverted.now) × (place < length converted.now) }
    requires text_bound { (pen.text ≤ 65536) × (pen.skip ≤ 65535) × (pen.values ≤ 65536) }
    ensures { let here = spots_at mode pattern (columns informative.now unconverted.now converted.now) seq.now place in
        (result.skip ≡ bare_since pen.skip here)
        × (result.text ≡ pen.text + length (entries_text (skips_from pen.skip here)))
        × (result.values ≡ pen.values + length (concat_map values_of here))
        × (text.new ≡ sets text.old pen.text (entries_text (skips_from pen.skip here)))
        × (ml.new ≡ sets ml.old pen.values (concat_map values_of here)) }
{
    let same = pattern::eq_ignore_ascii_case(seq[place], pattern.letter());
    if !same {
        return pen;
    }
    let Some(value) = call_of(
        mode,
        informative[place],
        unconverted[place],
        converted[place],
    ) else {
        return Pen {
            skip: pen.skip + 1,
            text: pen.text,
            values: pen.values,
        };
    };
    put_entry(pen, value, text, ml)
}

// Writes the entries of a strand's group, place by place, from byte `at` of the text on.
fn put_entries(
    seq: &[u8],
    informative: &[u8],
    unconverted: &[u32],
    converted: &[u32],
    pattern: ConversionPattern,
    mode: MethylationMode,
    at: usize,
    text: &mut [u8],
    ml: &mut [u8],
) -> Pen
    requires { (length seq.now ≤ 16000) × (length informative.now ≡ length seq.now) × (length unconverted.now ≡ length seq.now)
        × (length converted.now ≡ length seq.now) × (at ≤ 16) }
    ensures { let spots = spots_from mode pattern (columns informative.now unconverted.now converted.now) seq.now 0 in
        (result.text ≡ at + length (entries_text (skips_from 0 spots)))
        × (result.values ≡ length (concat_map values_of spots))
        × (text.new ≡ sets text.old at (entries_text (skips_from 0 spots)))
        × (ml.new ≡ sets ml.old 0 (concat_map values_of spots)) }
{
    let mut pen = Pen {
        skip: 0,
        text: at,
        values: 0,
    };
    for place in 0..seq.len() {
        pen = pass_place(
            seq,
            informative,
            unconverted,
            converted,
            pattern,
            mode,
            place,
            pen,
            text,
            ml,
        );
    }
    pen
}

// Writes `C+m?` or `G-m?`.
fn put_header(pattern: ConversionPattern, text: &mut [u8])
    ensures { text.new ≡ sets text.old 0 (header_of pattern) }
{
    numbers::put(text, 0, pattern.letter());
    numbers::put(text, 1, pattern.sign());
    numbers::put(text, 2, b'm');
    numbers::put(text, 3, b'?');
}

// Writes a strand's group to the front of two rows, as far as they reach.
pub fn put_group(
    seq: &[u8],
    informative: &[u8],
    unconverted: &[u32],
    converted: &[u32],
    pattern: ConversionPattern,
    mode: MethylationMode,
    text: &mut [u8],
    ml: &mut [u8],
) -> Sizes
    requires { (length seq.now ≤ 16000) × (length informative.now ≡ length seq.now) × (length unconverted.now ≡ length seq.now)
        × (length converted.now ≡ length seq.now) }
    ensures { let tag = written (strand_group mode pattern (columns informative.now unconverted.now converted.now)
        seq.now ∷ []) in
        (result.text ≡ length tag.text) × (result.values ≡ length tag.ml)
        × (text.new ≡ sets text.old 0 tag.text)
        × (ml.new ≡ sets ml.old 0 tag.ml) }
{
    put_header(pattern, text);
    let end = put_entries(
        seq,
        informative,
        unconverted,
        converted,
        pattern,
        mode,
        4,
        text,
        ml,
    );
    let close = end.text;
    numbers::put(text, close, b';');
    Sizes {
        text: close + 1,
        values: end.values,
    }
}

// The lengths of the strand's own tag; both are 0 if there is no call or no chemistry.
pub fn measure(
    seq: &[u8],
    informative: &[u8],
    unconverted: &[u32],
    converted: &[u32],
    pattern: ConversionPattern,
    mode: MethylationMode,
) -> Sizes
    requires { (length seq.now ≤ 16000) × (length informative.now ≡ length seq.now) × (length unconverted.now ≡ length seq.now)
        × (length converted.now ≡ length seq.now) }
    ensures { let tag = own_tag mode pattern (columns informative.now unconverted.now converted.now) seq.now in
        (result.text ≡ length tag.text) × (result.values ≡ length tag.ml) }
{
    let enabled = mode.is_enabled();
    if !enabled {
        return Sizes { text: 0, values: 0 };
    }
    let mut text: [u8; 0] = [];
    let mut ml: [u8; 0] = [];
    let sizes = put_group(
        seq,
        informative,
        unconverted,
        converted,
        pattern,
        mode,
        &mut text,
        &mut ml,
    );
    if sizes.values == 0 {
        return Sizes { text: 0, values: 0 };
    }
    sizes
}

// Writes the strand's own tag, which has `calls` calls, to the front of two rows, as far as they reach.
pub fn put_tag(
    seq: &[u8],
    informative: &[u8],
    unconverted: &[u32],
    converted: &[u32],
    pattern: ConversionPattern,
    mode: MethylationMode,
    calls: usize,
    text: &mut [u8],
    ml: &mut [u8],
)
    requires seq_len_bound { (length seq.now ≤ 16000) × (length informative.now ≡ length seq.now) × (length unconverted.now ≡ length seq.now)
        × (length converted.now ≡ length seq.now) }
    requires calls_value { calls ≡ length (own_tag mode pattern (columns informative.now unconverted.now converted.now) seq.now).ml }
    ensures { let tag = own_tag mode pattern (columns informative.now unconverted.now converted.now) seq.now in
        (text.new ≡ sets text.old 0 tag.text)
        × (ml.new ≡ sets ml.old 0 tag.ml) }
{
    if calls != 0 {
        put_group(
            seq,
            informative,
            unconverted,
            converted,
            pattern,
            mode,
            text,
            ml,
        );
    }
}
