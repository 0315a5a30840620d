// Whether the keys of a table rise.
ghost use Rattle.std.specs.Prelude.{◌≡◌};
ghost use Rattle.tables.specs.Tables.{fall_of};

// The first row that is not above the one before it: the row that refusal 3 names. None if the keys rise.
#[tactic(auto, using(crate::proofs::Rising::searched_by_row))]
pub fn first_fall(keys: &[u64]) -> Option<usize>
    ensures { result ≡ fall_of keys.now }
{
    for i in 1..keys.len() {
        if keys[i] <= keys[i - 1] {
            return Some(i);
        }
    }
    None
}
