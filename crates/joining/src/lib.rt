// One strand or two in one record: SEQ restored by both, their counts added, their tags joined with C to T first. A support crate: its functions may
// have a `requires`; the public call is in `duplex`.
//
// `two` says whether there is a second strand. If there is none, its inputs are not read and its rows are unchanged.
#![tactic(auto)]

ghost use Rattle.std.specs.Prelude.{◌≡◌, true, cond, [], ◌+◌, ◌≤◌, min, pos, length, take};
ghost use Rattle.std.proofs.lemmas.List.Edits.{sets};
ghost use Rattle.lent.specs.Filled.{over};
ghost use Rattle.columns.specs.Columns.{as_tag_counts};
ghost use Rattle.samtags.specs.Building.{columns, own_tag};
ghost use Rattle.joining.specs.Order.{second_first, first_of, second_of, in_order_of, restored_by_both, both_counts, all_counts, second_tag};

use pattern::{ConversionPattern, MethylationMode};
use strand::Sizes;

// ---- SEQ

// Copies bytes to the front of a row.
fn copy(bytes: &[u8], out: &mut [u8])
    requires { length bytes.now ≤ length out.old }
    ensures { out.new ≡ over bytes.now out.old }
{
    for (i, &b) in bytes.iter().enumerate() {
        out[i] = b;
    }
}

// Writes the bases, restored by each strand, to the front of a row.
pub fn restore(
    bases: &[u8],
    two: bool,
    first: ConversionPattern,
    first_informative: &[u8],
    second: ConversionPattern,
    second_informative: &[u8],
    seq: &mut [u8],
)
    requires { (length first_informative.now ≡ length bases.now) × (two ≡ true → length second_informative.now ≡ length bases.now)
        × (length bases.now ≤ length seq.old) }
    ensures { seq.new ≡ over (restored_by_both two first first_informative.now second second_informative.now
        bases.now) seq.old }
{
    let n = bases.len();
    copy(bases, seq);
    columns::restore(&mut seq[0..n], first, first_informative);
    if two {
        columns::restore(&mut seq[0..n], second, second_informative);
    }
}

// ---- counts

// The sum of two counts as a tag holds it. It is computed in 64 bits, since it can exceed a u32.
fn sum_of(a: u32, b: u32) -> i16
    ensures { result ≡ pos (min 32767 (a + b)) }
{
    let total = a as u64 + b as u64;
    if 32767 < total {
        return 32767;
    }
    total as i16
}

// Writes the sums of two columns to the front of a row.
fn put_sums(a: &[u32], b: &[u32], counts: &mut [i16])
    requires { (length b.now ≡ length a.now) × (length a.now ≤ length counts.old) }
    ensures { counts.new ≡ over (both_counts a.now b.now) counts.old }
{
    for i in 0..a.len() {
        counts[i] = sum_of(a[i], b[i]);
    }
}

// Writes one kind of counts: both strands' together, and each strand's own.
pub fn put_counts(
    two: bool,
    first: &[u32],
    second: &[u32],
    all: &mut [i16],
    first_counts: &mut [i16],
    second_counts: &mut [i16],
)
    requires { (two ≡ true → length second.now ≡ length first.now) × (length first.now ≤ length all.old)
        × (length first.now ≤ length first_counts.old) × (two ≡ true → length first.now ≤ length second_counts.old) }
    ensures all_after { all.new ≡ over (all_counts two first.now second.now) all.old }
    ensures first_counts_after { first_counts.new ≡ over (as_tag_counts first.now) first_counts.old }
    ensures second_counts_after { second_counts.new ≡ over (cond two (as_tag_counts second.now) []) second_counts.old }
{
    columns::put_tag_counts(first, first_counts);
    if !two {
        columns::put_tag_counts(first, all);
        return;
    }
    columns::put_tag_counts(second, second_counts);
    put_sums(first, second, all);
}

// ---- texts

// Whether the second strand's group comes first: only if it is C to T and the first strand's group is not.
fn second_first(first: ConversionPattern, second: ConversionPattern) -> bool
    ensures { result ≡ second_first first second }
{
    match first {
        ConversionPattern::CToT => false,
        ConversionPattern::GToA => match second {
            ConversionPattern::CToT => true,
            ConversionPattern::GToA => false,
        },
    }
}

// The text that comes first, of the two strands' texts: a part of one of two lent rows.
fn first_text<'a>(
    first: ConversionPattern,
    a: &'a [u8],
    a_len: usize,
    second: ConversionPattern,
    b: &'a [u8],
    b_len: usize,
) -> &'a [u8]
    requires { (a_len ≤ length a.now) × (b_len ≤ length b.now) }
    ensures { result.now ≡ first_of first second (take a_len a.now) (take b_len b.now) }
{
    let swapped = second_first(first, second);
    if swapped {
        return &b[0..b_len];
    }
    &a[0..a_len]
}

// The text that comes second.
fn second_text<'a>(
    first: ConversionPattern,
    a: &'a [u8],
    a_len: usize,
    second: ConversionPattern,
    b: &'a [u8],
    b_len: usize,
) -> &'a [u8]
    requires { (a_len ≤ length a.now) × (b_len ≤ length b.now) }
    ensures { result.now ≡ second_of first second (take a_len a.now) (take b_len b.now) }
{
    let swapped = second_first(first, second);
    if swapped {
        return &a[0..a_len];
    }
    &b[0..b_len]
}

// Joins the strands' texts: the second text is written directly after the first one.
pub fn join<'a>(
    first: ConversionPattern,
    a: &'a [u8],
    a_len: usize,
    second: ConversionPattern,
    b: &'a [u8],
    b_len: usize,
    mm: &mut [u8],
)
    requires { (a_len ≤ length a.now) × (b_len ≤ length b.now) × (a_len + b_len ≤ length mm.old) }
    ensures { mm.new ≡ over (in_order_of first second (take a_len a.now) (take b_len b.now)) mm.old }
{
    let front = first_text(first, a, a_len, second, b, b_len);
    copy(front, mm);
    let end = front.len();
    copy(
        second_text(first, a, a_len, second, b, b_len),
        &mut mm[end..],
    );
}

// ---- the strands' own tags

// The lengths of each strand's own tag.
#[derive(Clone, Copy)]
pub struct BothSizes {
    pub first_text: usize,
    pub first_values: usize,
    pub second_text: usize,
    pub second_values: usize,
}

// The lengths of the second strand's own tag; both are 0 if there is no second strand.
fn measure_second(
    two: bool,
    seq: &[u8],
    informative: &[u8],
    unconverted: &[u32],
    converted: &[u32],
    pattern: ConversionPattern,
    mode: MethylationMode,
) -> Sizes
    requires { two ≡ true → (length seq.now ≤ 16000) × (length informative.now ≡ length seq.now) × (length unconverted.now ≡ length seq.now)
        × (length converted.now ≡ length seq.now) }
    ensures { let tag = second_tag two mode pattern (columns informative.now unconverted.now converted.now)
        seq.now in
        (result.text ≡ length tag.text) × (result.values ≡ length tag.ml) }
{
    if !two {
        return Sizes { text: 0, values: 0 };
    }
    strand::measure(seq, informative, unconverted, converted, pattern, mode)
}

// Room for SEQ while it is not known whether the answer fits.
fn scratch() -> [u8; 16000]
    ensures { 16000 ≡ length result }
{
    [0; 16000]
}

// The lengths of each strand's own tag, over SEQ as both strands restore it.
pub fn measure(
    bases: &[u8],
    mode: MethylationMode,
    two: bool,
    first: ConversionPattern,
    first_informative: &[u8],
    first_unconverted: &[u32],
    first_converted: &[u32],
    second: ConversionPattern,
    second_informative: &[u8],
    second_unconverted: &[u32],
    second_converted: &[u32],
) -> BothSizes
    requires bases_len_bound { (length bases.now ≤ 16000) × (length first_informative.now ≡ length bases.now) × (length first_unconverted.now ≡ length bases.now)
        × (length first_converted.now ≡ length bases.now) }
    requires second_informative_len { two ≡ true → (length second_informative.now ≡ length bases.now) × (length second_unconverted.now ≡ length bases.now)
        × (length second_converted.now ≡ length bases.now) }
    ensures { let seq = restored_by_both two first first_informative.now second second_informative.now bases.now in
        let own = own_tag mode first (columns first_informative.now first_unconverted.now first_converted.now) seq in
        let other = second_tag two mode second (columns second_informative.now second_unconverted.now second_converted.now) seq in
        (result.first_text ≡ length own.text) × (result.first_values ≡ length own.ml)
        × (result.second_text ≡ length other.text) × (result.second_values ≡ length other.ml) }
{
    let mut seq = scratch();
    restore(
        bases,
        two,
        first,
        first_informative,
        second,
        second_informative,
        &mut seq,
    );
    let n = bases.len();
    let own = strand::measure(
        &seq[0..n],
        first_informative,
        first_unconverted,
        first_converted,
        first,
        mode,
    );
    let other = measure_second(
        two,
        &seq[0..n],
        second_informative,
        second_unconverted,
        second_converted,
        second,
        mode,
    );
    BothSizes {
        first_text: own.text,
        first_values: own.values,
        second_text: other.text,
        second_values: other.values,
    }
}

// If there is a second strand, writes its own tag, which has `calls` calls, to the front of two rows.
fn put_second(
    two: bool,
    seq: &[u8],
    informative: &[u8],
    unconverted: &[u32],
    converted: &[u32],
    pattern: ConversionPattern,
    mode: MethylationMode,
    calls: usize,
    text: &mut [u8],
    ml: &mut [u8],
)
    requires seq_len_bound { two ≡ true → (length seq.now ≤ 16000) × (length informative.now ≡ length seq.now) × (length unconverted.now ≡ length seq.now)
        × (length converted.now ≡ length seq.now) }
    requires calls_value { calls ≡ length (second_tag two mode pattern (columns informative.now unconverted.now converted.now) seq.now).ml }
    ensures { let tag = second_tag two mode pattern (columns informative.now unconverted.now converted.now)
        seq.now in
        (text.new ≡ sets text.old 0 tag.text)
        × (ml.new ≡ sets ml.old 0 tag.ml) }
{
    if two {
        strand::put_tag(
            seq,
            informative,
            unconverted,
            converted,
            pattern,
            mode,
            calls,
            text,
            ml,
        );
    }
}

// The index of a strand's first value: after the other strand's values if those come first, else 0.
fn start_of(other_first: bool, other: usize) -> usize
    ensures { result ≡ cond other_first other 0 }
{
    if other_first {
        return other;
    }
    0
}

// Writes each strand's own text, and the values of both in the order of the joined tag.
pub fn put_tags(
    seq: &[u8],
    mode: MethylationMode,
    two: bool,
    first: ConversionPattern,
    first_informative: &[u8],
    first_unconverted: &[u32],
    first_converted: &[u32],
    second: ConversionPattern,
    second_informative: &[u8],
    second_unconverted: &[u32],
    second_converted: &[u32],
    first_calls: usize,
    second_calls: usize,
    first_mm: &mut [u8],
    second_mm: &mut [u8],
    ml: &mut [u8],
)
    requires seq_len_bound { (length seq.now ≤ 16000) × (length first_informative.now ≡ length seq.now) × (length first_unconverted.now ≡ length seq.now)
        × (length first_converted.now ≡ length seq.now) }
    requires second_informative_len { two ≡ true → (length second_informative.now ≡ length seq.now) × (length second_unconverted.now ≡ length seq.now)
        × (length second_converted.now ≡ length seq.now) }
    requires fact { let own = own_tag mode first (columns first_informative.now first_unconverted.now first_converted.now) seq.now in
        let other = second_tag two mode second (columns second_informative.now second_unconverted.now second_converted.now) seq.now in
        (first_calls ≡ length own.ml) × (second_calls ≡ length other.ml) × (first_calls + second_calls ≤ length ml.old)
        × (length own.text ≤ length first_mm.old) × (length other.text ≤ length second_mm.old) }
    ensures { let own = own_tag mode first (columns first_informative.now first_unconverted.now first_converted.now)
        seq.now in
        let other = second_tag two mode second (columns second_informative.now second_unconverted.now second_converted.now)
        seq.now in
        (first_mm.new ≡ over own.text first_mm.old)
        × (second_mm.new ≡ over other.text second_mm.old)
        × (ml.new ≡ over (in_order_of first second own.ml other.ml) ml.old) }
{
    let swapped = second_first(first, second);
    let first_start = start_of(swapped, second_calls);
    let second_start = start_of(!swapped, first_calls);
    strand::put_tag(
        seq,
        first_informative,
        first_unconverted,
        first_converted,
        first,
        mode,
        first_calls,
        first_mm,
        &mut ml[first_start..],
    );
    put_second(
        two,
        seq,
        second_informative,
        second_unconverted,
        second_converted,
        second,
        mode,
        second_calls,
        second_mm,
        &mut ml[second_start..],
    );
}
