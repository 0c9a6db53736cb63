// Whether the lengths of a stored read and its tag are in order: Err with 1 if one is outside the domain, with 2 if the packed bytes are not as many as
// the bases take.
ghost use Rattle.std.specs.Prelude.{◌≡◌, ◌&&◌, ℕ, ◌≤◌, leb, eqb, Ok};
ghost use Rattle.lent.specs.Outcome.{need};
ghost use Rattle.packed.specs.Packed.{bytes_for};
ghost use Rattle.stored_rows.specs.Orders.{numbers_in_domain};

use lent::Refusal;

// The number of bytes that the bases take.
pub fn bytes_for(bases: usize) -> usize
    requires { bases ≤ 16000 }
    ensures { result ≡ bytes_for bases }
{
    (bases + 1) / 2
}

// The most bases that a number of bytes has, or 16,000 if that is fewer.
pub fn bases_in(bytes: usize) -> usize
    ensures { (n : ℕ) → n ≤ 16000 → leb n result ≡ leb (bytes_for n) bytes }
{
    if 8000 <= bytes {
        return 16000;
    }
    2 * bytes
}

// Checks a stored read of `bases` bases in `packed` bytes, with a text of `mm` bytes and `ml` values.
pub fn stored_in_order(
    packed: usize,
    bases: usize,
    mm: usize,
    ml: usize,
    has_ml: bool,
) -> Result<(), Refusal>
    ensures { result ≡ need (numbers_in_domain has_ml bases mm ml) 1 (need (eqb packed (bytes_for bases)) 2 (Ok tt)) }
{
    let taken = scanning::values_taken(ml, has_ml);
    if 16000 < bases {
        return Err(Refusal::TooLong);
    }
    if 65536 < mm {
        return Err(Refusal::TooLong);
    }
    if 65536 < taken {
        return Err(Refusal::TooLong);
    }
    if packed != bytes_for(bases) {
        return Err(Refusal::LengthsDisagree);
    }
    Ok(())
}

// Checks two stored reads, before and after an edit, with the tag of the first.
pub fn two_in_order(
    before: usize,
    before_bases: usize,
    after: usize,
    after_bases: usize,
    mm: usize,
    ml: usize,
    has_ml: bool,
) -> Result<(), Refusal>
    ensures { result ≡ need (numbers_in_domain has_ml before_bases mm ml && leb after_bases 16000) 1
        (need (eqb before (bytes_for before_bases) && eqb after (bytes_for after_bases)) 2 (Ok tt)) }
{
    if 16000 < after_bases {
        return Err(Refusal::TooLong);
    }
    stored_in_order(before, before_bases, mm, ml, has_ml)?;
    if after != bytes_for(after_bases) {
        return Err(Refusal::LengthsDisagree);
    }
    Ok(())
}
