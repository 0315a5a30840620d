// The answers to the asks (document 01, "`rowcheck`"), printed one after the other over stores that answer.
//
// Every function is proved and the crate assumes nothing.
#![tactic(auto)]

ghost use Rattle.std.specs.Prelude.{◌≡◌};
ghost use Rattle.digits.specs.Texts.{Writes};
ghost use Rattle.lines.specs.Lines.{texts};
ghost use Rattle.outcomes.specs.Outcomes.{told_by};
ghost use Rattle.asks.specs.Asks.{ask_lines};
ghost use Rattle.asks.specs.Inner.{called_of, Prints};

pub mod indexes;

use index::{Outcome, call_ask, neighbour_ask};
use indexes::Indexes;
use rowoutput::write_ask;

// `call` is the call index's row or none, and a withdrawn run keeps its row.
fn called(outcome: Outcome) -> Option<usize>
    ensures { result ≡ called_of (told_by outcome) }
{
    match outcome {
        Outcome::Planned(row) => Some(row),
        Outcome::Withdrawn(row) => Some(row),
        Outcome::Absent => None,
    }
}

impl Indexes<'_> {
    // The four lines of one ask, at position i.
    fn answer_ask(&self, x: u64, out: &mut [u8], i: usize) -> Option<usize>
        ensures { Writes (ask_lines self.now.keys.now x) out.old i out.new result }
    {
        let place = neighbour_ask(
            self.keys,
            self.seed,
            self.handles,
            self.left,
            self.right,
            self.lengths,
            x,
        )
        .ok()?;
        let outcome = call_ask(
            self.keys, self.bytes, self.b, self.seed, self.seed, self.cells, x,
        )
        .ok()?;
        write_ask(out, i, x, called(outcome), place.before, place.probes)
    }

    // The lines of all asks, from position i on.
    pub fn answer_asks(&self, asks: &[u64], out: &mut [u8], i: usize) -> Option<usize>
        ensures { Prints (texts (ask_lines self.now.keys.now) asks.now) out.old i out.new result }
    {
        if out.len() < i {
            return None;
        }
        let mut at = i;
        for x in asks {
            at = self.answer_ask(*x, out, at)?;
        }
        Some(at)
    }
}
