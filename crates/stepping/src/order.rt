// Whether a session's lengths are in order: 1 if one is outside the domain, 2 if one is longer than its row. Longer rows are fine.
ghost use Rattle.std.specs.Prelude.{◌≡◌, Ok};
ghost use Rattle.lent.specs.Outcome.{need};
ghost use Rattle.samtags.specs.Session.{lengths_in_domain};
ghost use Rattle.stepping.specs.Steps.{lengths_of, lengths_in_rows};

use crate::Lengths;
use lent::Refusal;

// Checks the lengths against rows of `seq`, `mm` and `ml` bytes. Without ML the ML length is ignored.
pub fn lengths_in_order(
    seq: usize,
    mm: usize,
    ml: usize,
    has_ml: bool,
    lengths: Lengths,
) -> Result<(), Refusal>
    ensures { result
        ≡ need (lengths_in_domain has_ml (lengths_of lengths)) 1 (need (lengths_in_rows has_ml seq mm ml (lengths_of lengths)) 2 (Ok tt)) }
{
    let taken = scanning::values_taken(lengths.ml, has_ml);
    if 16000 < lengths.seq {
        return Err(Refusal::TooLong);
    }
    if 65536 < lengths.mm {
        return Err(Refusal::TooLong);
    }
    if 65536 < taken {
        return Err(Refusal::TooLong);
    }
    if seq < lengths.seq {
        return Err(Refusal::LengthsDisagree);
    }
    if mm < lengths.mm {
        return Err(Refusal::LengthsDisagree);
    }
    if ml < taken {
        return Err(Refusal::LengthsDisagree);
    }
    Ok(())
}
