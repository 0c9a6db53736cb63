// What the three steps of an edit session share: how much of each lent row the session holds, and the tag edited in place. The
// steps are `masking`, `dropping` and `cutting`. A support crate: its functions may have a `requires`; the public calls are in `session`.
//
// order: whether a session's lengths are in order. tags: edits the tag at the front of its rows.
#![tactic(auto)]

pub mod order;
pub mod tags;

ghost use Rattle.std.specs.Prelude.{◌≡◌, cond};

use lent::Refusal;

// How much of each lent row a session holds. A step takes the lengths by value and answers the new ones.
#[derive(Clone, Copy)]
pub struct Lengths {
    pub seq: usize,
    pub mm: usize,
    pub ml: usize,
}

// The lengths after a step; `kept` values of ML are left. Without ML the ML length stays as given.
pub fn lengths_now(seq: usize, mm: usize, kept: usize, has_ml: bool, before: Lengths) -> Lengths
    ensures { (result.seq ≡ seq) × (result.mm ≡ mm) × (result.ml ≡ cond has_ml kept before.ml) }
{
    if has_ml {
        return Lengths { seq, mm, ml: kept };
    }
    Lengths {
        seq,
        mm,
        ml: before.ml,
    }
}
