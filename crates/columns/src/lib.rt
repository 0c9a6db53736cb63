// Works through columns of evidence, entry by entry from the left. Nothing is refused here. A support crate: its functions may have a `requires`; the
// public calls are in `annotation`.
//
// marks: the column that says which positions are informative.
#![tactic(auto)]

ghost use Rattle.std.specs.Prelude.{◌≡◌, cond, ◌&&◌, ℕ, min, ◌≤◌, pos, length};
ghost use Rattle.lent.specs.Filled.{over};
ghost use Rattle.lent.specs.Lists.{tabulate};
ghost use Rattle.pattern.specs.Case.{same_in_any_case};
ghost use Rattle.pattern.specs.Patterns.{bases_of};
ghost use Rattle.columns.specs.Columns.{is_yes, gated_counts, as_tag_counts, restored};

use pattern::ConversionPattern;

pub mod marks;

// Zeroes a column.
pub fn clear(counts: &mut [u32])
    ensures { counts.new ≡ tabulate (length counts.old) (λ (i : ℕ). 0) }
{
    counts.fill(0);
}

// A count as a tag holds it.
fn tag_count(count: u32) -> i16
    ensures { result ≡ pos (min 32767 count) }
{
    if 32767 < count {
        return 32767;
    }
    count as i16
}

// Writes one column's counts, as a tag holds them, to the front of a row.
pub fn put_tag_counts(column: &[u32], counts: &mut [i16])
    requires { length column.now ≤ length counts.old }
    ensures { counts.new ≡ over (as_tag_counts column.now) counts.old }
{
    for (i, &count) in column.iter().enumerate() {
        counts[i] = tag_count(count);
    }
}

// The count if the mark says yes, else 0.
fn gated_count(mark: u8, count: u32) -> u32
    ensures { result ≡ cond (is_yes mark) count 0 }
{
    if mark == 0 {
        return 0;
    }
    count
}

// Zeroes a column's counts at positions that are not informative.
pub fn gate(informative: &[u8], counts: &mut [u32])
    requires { length informative.now ≡ length counts.old }
    ensures { counts.new ≡ gated_counts informative.now counts.old }
{
    for i in 0..counts.len() {
        counts[i] = gated_count(informative[i], counts[i]);
    }
}

// The unconverted base if the position is informative and the base is the converted one, in upper or lower case; else the base unchanged.
fn restored_base(base: u8, pattern: ConversionPattern, informative: u8) -> u8
    ensures { result ≡ cond (is_yes informative && same_in_any_case base (bases_of pattern).converted) (bases_of pattern).unconverted base }
{
    if informative == 0 {
        return base;
    }
    let bases = pattern.bases();
    if pattern::eq_ignore_ascii_case(base, bases.converted) {
        return bases.unconverted;
    }
    base
}

// Writes the unconverted base over the converted one at informative positions.
pub fn restore(bases: &mut [u8], pattern: ConversionPattern, informative: &[u8])
    requires { length informative.now ≡ length bases.old }
    ensures { bases.new ≡ restored pattern informative.now bases.old }
{
    for i in 0..bases.len() {
        bases[i] = restored_base(bases[i], pattern, informative[i]);
    }
}

// Copies a column's counts to the front of a row.
pub fn copy_counts(counts: &[u32], out: &mut [u32])
    requires { length counts.now ≤ length out.old }
    ensures { out.new ≡ over counts.now out.old }
{
    for (i, &count) in counts.iter().enumerate() {
        out[i] = count;
    }
}
