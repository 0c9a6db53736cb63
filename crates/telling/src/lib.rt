// Passes an answer to a caller that has only numbers: the scope's number is returned, and the results go into lent numbers, which a refusal leaves
// unchanged. A support crate of the C library.
//
// Here: one number, or two. starts: where a window begins. `telling_steps` passes on a session's step, and `telling_strands` the lengths of a duplex
// answer.
#![tactic(auto)]

pub mod starts;

ghost use Rattle.std.specs.Prelude.{◌≡◌, ℕ};
ghost use Rattle.lent.specs.Outcome.{number_of};
ghost use Rattle.telling.specs.Told.{told};

use lent::Refusal;

// Passes on how many entries are filled.
pub fn written(answer: Result<usize, Refusal>, n: &mut usize) -> u8
    ensures { (result ≡ number_of answer) × (n.new ≡ told (λ (m : ℕ). m) answer n.old) }
{
    match answer {
        Ok(filled) => {
            *n = filled;
            0
        }
        Err(refusal) => refusal.number(),
    }
}

// Passes on two numbers: of groups and of calls, of values above and below, or of bytes of text and of values.
pub fn both(answer: Result<(usize, usize), Refusal>, first: &mut usize, second: &mut usize) -> u8
    ensures { (result ≡ number_of answer)
        × (first.new ≡ told (λ (s : ℕ × ℕ). s.0) answer first.old)
        × (second.new ≡ told (λ (s : ℕ × ℕ). s.1) answer second.old) }
{
    let (left, right) = match answer {
        Ok(numbers) => numbers,
        Err(refusal) => return refusal.number(),
    };
    *first = left;
    *second = right;
    0
}
