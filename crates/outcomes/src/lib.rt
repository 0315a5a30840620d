// The row in which a key is found, and what the byte of that row makes of it (document 01, "Call index", and request
// Eight): a planned row, a withdrawn row, or absent.
//
// Every function is proved and the crate assumes nothing. `compared` takes whatever it is handed; `mark` asks for a
// byte where it is handed a row.
#![tactic(auto)]

ghost use Rattle.std.specs.Prelude.{◌≡◌};
ghost use Rattle.outcomes.specs.Outcomes.{row_says, marked, told_by};
ghost use Rattle.outcomes.specs.Inner.{HasByte};

// What is answered of a key. A withdrawn run keeps its row.
#[derive(Clone, Copy)]
pub enum Outcome {
    Planned(usize),
    Withdrawn(usize),
    Absent,
}

// The row, if the key is found there: only where the table's key is the same, since a map says something of every key.
// No byte is asked for that.
pub fn compared(keys: &[u64], row: usize, x: u64) -> Option<usize>
    ensures { result ≡ row_says keys.now row x }
{
    if keys.get(row) == Some(&x) {
        return Some(row);
    }
    None
}

// Zero is planned, anything else withdrawn.
pub fn mark(bytes: &[u8], at: Option<usize>) -> Outcome
    requires { HasByte bytes.now at }
    ensures { told_by result ≡ marked bytes.now at }
{
    match at {
        None => Outcome::Absent,
        Some(row) if bytes[row] == 0 => Outcome::Planned(row),
        Some(row) => Outcome::Withdrawn(row),
    }
}
