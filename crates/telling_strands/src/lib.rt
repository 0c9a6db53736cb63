// The answer of the duplex call: how many entries of each row are filled, as an array of eleven. A support crate of the C library.
#![tactic(auto)]

ghost use Rattle.std.specs.Prelude.{◌≡◌};
ghost use Rattle.lent.specs.Outcome.{number_of};
ghost use Rattle.telling.specs.Told.{told};
ghost use Rattle.telling_strands.specs.Strands.{part_row};

use duplex::Lengths;
use lent::Refusal;

pub fn joined(answer: Result<Lengths, Refusal>, lengths: &mut [usize; 11]) -> u8
    ensures { (result ≡ number_of answer)
        × (lengths.new ≡ told part_row answer lengths.old) }
{
    match answer {
        Ok(parts) => {
            *lengths = [
                parts.seq,
                parts.mm,
                parts.ml,
                parts.unconverted,
                parts.converted,
                parts.first_mm,
                parts.first_unconverted,
                parts.first_converted,
                parts.second_mm,
                parts.second_unconverted,
                parts.second_converted,
            ];
            0
        }
        Err(refusal) => refusal.number(),
    }
}
