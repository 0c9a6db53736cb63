// The column that says which positions of a consensus are informative: made from the reference row, and copied.
ghost use Rattle.std.specs.Prelude.{◌≡◌, ℕ, ◌≤◌, length};
ghost use Rattle.lent.specs.Filled.{over};
ghost use Rattle.lent.specs.Lists.{tabulate};
ghost use Rattle.pattern.specs.Case.{same_in_any_case};
ghost use Rattle.pattern.specs.Patterns.{bases_of};
ghost use Rattle.columns.specs.Columns.{yes_byte, informative_column, as_yes};

use pattern::ConversionPattern;

// The byte that is written for a mark.
fn yes_byte(yes: bool) -> u8
    ensures { result ≡ yes_byte yes }
{
    if yes {
        return 1;
    }
    0
}

// Marks no position.
fn clear(informative: &mut [u8])
    ensures { informative.new ≡ tabulate (length informative.old) (λ (i : ℕ). 0) }
{
    informative.fill(0); // so also beyond the reference row
}

// The mark of a position with this reference base: whether it is the pattern's reference base.
fn mark_of(base: u8, pattern: ConversionPattern) -> u8
    ensures { result ≡ yes_byte (same_in_any_case base (bases_of pattern).reference) }
{
    let bases = pattern.bases();
    yes_byte(pattern::eq_ignore_ascii_case(base, bases.reference))
}

// Marks each position of a column. It clears all, then marks those that the reference row has, in a loop that does nothing else.
pub fn mark(ref_bases: &[u8], pattern: ConversionPattern, informative: &mut [u8])
    ensures { informative.new ≡ informative_column pattern ref_bases.now (length informative.old) }
{
    clear(informative);
    let reached = ref_bases.len().min(informative.len());
    for i in 0..reached {
        informative[i] = mark_of(ref_bases[i], pattern);
    }
}

// Copies the marks of a column, yes as 1, to the front of a row.
pub fn copy_marks(informative: &[u8], out: &mut [u8])
    requires { length informative.now ≤ length out.old }
    ensures { out.new ≡ over (as_yes informative.now) out.old }
{
    for (i, &mark) in informative.iter().enumerate() {
        out[i] = yes_byte(mark != 0);
    }
}
