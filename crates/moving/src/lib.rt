// Moves bytes of a row to the left within the row. A support crate: its functions may have a `requires`.
#![tactic(auto)]

ghost use Rattle.std.specs.Prelude.{◌≡◌, ◌+◌, ◌≤◌, length, take, drop};
ghost use Rattle.std.proofs.lemmas.List.Edits.{sets};

// Moves n bytes of a row to an index that is not after their own. It goes from the left, so that each byte is read before it is overwritten.
pub fn move_left(row: &mut [u8], from: usize, to: usize, n: usize)
    requires { (to ≤ from) × (from + n ≤ length row.old) }
    ensures { row.new ≡ sets row.old to (take n (drop from row.old)) }
{
    for i in 0..n {
        row[to + i] = row[from + i];
    }
}
