// The chemistry by number, for callers that have no enum. A support crate of the C library.
#![tactic(auto)]

ghost use Rattle.std.specs.Prelude.{◌≡◌};
ghost use Rattle.modes.specs.Modes.{mode_of};

use lent::Refusal;
use pattern::MethylationMode;

// The chemistry with this number; 13 if there is none.
pub fn mode_of(number: u8) -> Result<MethylationMode, Refusal>
    ensures { result ≡ mode_of number }
{
    if number == 0 {
        return Ok(MethylationMode::Disabled);
    }
    if number == 1 {
        return Ok(MethylationMode::EmSeq);
    }
    if number == 2 {
        return Ok(MethylationMode::Taps);
    }
    Err(Refusal::BadNumber)
}
