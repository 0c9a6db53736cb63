// A session's lengths as an array of three, and the answer of a step: its new lengths. A support crate of the C library.
#![tactic(auto)]

ghost use Rattle.std.specs.Prelude.{◌≡◌};
ghost use Rattle.lent.specs.Outcome.{number_of};
ghost use Rattle.stepping.specs.Steps.{step_says};
ghost use Rattle.telling.specs.Told.{told};
ghost use Rattle.telling_steps.specs.Lengths.{lengths_in, length_row};

use lent::Refusal;
use stepping::Lengths;

pub fn lengths_in(row: &[usize; 3]) -> Lengths
    ensures { result ≡ lengths_in row.now }
{
    Lengths {
        seq: row[0],
        mm: row[1],
        ml: row[2],
    }
}

pub fn stepped(answer: Result<Lengths, Refusal>, lengths: &mut [usize; 3]) -> u8
    ensures { (result ≡ number_of (step_says answer))
        × (lengths.new ≡ told length_row (step_says answer) lengths.old) }
{
    match answer {
        Ok(held) => {
            *lengths = [held.seq, held.mm, held.ml];
            0
        }
        Err(refusal) => refusal.number(),
    }
}
