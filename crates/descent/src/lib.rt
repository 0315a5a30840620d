// The probes of the walk (document 01, "The walk", 3): from the root to the node where they end, over the delimiters
// of buckets of b rows; with b = 1 they are the table itself. The lengths of the splits are read from their store
// (request Six) and taken as they stand, so a probe reads a row of the table only to compare its first bits.
//
// Every function is proved and the crate assumes nothing. Its functions ask for a table and stores that were seen to
// fit.
#![tactic(auto)]

ghost use Rattle.std.specs.Prelude.{◌≡◌, ◌+◌, ◌<◌, ◌≤◌, length};
ghost use Rattle.words.specs.Fat.{Fattest};
ghost use Rattle.tables.specs.Inner.{listing};
ghost use Rattle.walks.specs.Walk.{agrees, accepted, stored_length};
ghost use Rattle.descent.specs.Inner.{handle_value, lens_in, Node, Stepped, Reached};

pub mod search;

use search::Search;
use tables::delimiters::Delimiters;
use tables::lengths::handle_count;
use words::fattest::fattest;
use words::prefix::{prefix_item, shared_bits};

// The node, its length, and document 01's upper less 1: the largest length that may still be probed.
#[derive(Clone, Copy)]
struct State {
    node: usize,
    lower: u32,
    last: u32,
}

// The node at which the probes end, its length, and how many they were.
#[derive(Clone, Copy)]
pub struct Descended {
    pub node: usize,
    pub lower: u32,
    pub probes: usize,
}

// The length that is probed: the 2-fattest number above lower and up to last.
fn probe_length(lower: u32, last: u32) -> u32
    requires { (lower < last) × (last ≤ 63) }
    ensures { Fattest lower last result }
{
    fattest(u64::from(lower), u64::from(last)) as u32
}

// Whether x has the first l bits of row m.
#[tactic(auto, using(crate::proofs::Steps::share_test))]
pub fn agrees(rows: &Delimiters, x: u64, m: usize, l: u32) -> bool
    requires { (m < length (listing rows.now)) × (l ≤ 64) }
    ensures { result ≡ agrees (listing rows.now) x m l }
{
    l <= shared_bits(x, rows.at(m))
}

impl Search<'_> {
    // Whether the walk goes to m, which map 3 gave for the first f bits of x.
    #[tactic(auto, unfolding(walks::specs::Walk::accepted))]
    fn accepts(&self, x: u64, f: u32, last: u32, m: usize) -> bool
        requires { (0 < self.now.rows.count) × (last ≤ 63) }
        ensures { result ≡ accepted (listing self.now.rows) (lens_in self.now) x f (last + 1) m }
    {
        // 1 <= m < count in one comparison: 0 wraps around to the largest number.
        if m.wrapping_sub(1) >= self.rows.count - 1 {
            return false;
        }
        let l = u32::from(self.lengths[m]);
        f <= l && l <= last && agrees(&self.rows, x, m, l)
    }

    // One probe, and where the walk goes on.
    #[tactic(auto, using(walks::proofs::Descending::accepted_means))]
    fn probe(&self, x: u64, at: State) -> State
        requires { Node (listing self.now.rows) (lens_in self.now) at.node at.lower × (at.lower < at.last) × (at.last ≤ 63) }
        ensures { Stepped (listing self.now.rows) (lens_in self.now) x (handle_value self.now x) at.node (at.last + 1) result }
    {
        let f = probe_length(at.lower, at.last);
        let t = handle_count(self.rows.count);
        let m = usize::from(cells::look_up(self.handles, t, self.seed, prefix_item(x, f)));
        if self.accepts(x, f, at.last, m) {
            return State {
                node: m,
                lower: u32::from(self.lengths[m]),
                ..at
            };
        }
        State { last: f - 1, ..at }
    }

    // The probes from the root on, and their count.
    #[tactic(auto, using(crate::proofs::Steps::going_start, crate::proofs::Steps::going_next))]
    pub fn descend(&self, x: u64, root: usize, l: u32) -> Descended
        requires { Node (listing self.now.rows) (lens_in self.now) root l }
        ensures { Reached (listing self.now.rows) (lens_in self.now) x (handle_value self.now x) root result }
    {
        let mut at = State {
            node: root,
            lower: l,
            last: 63,
        };
        let mut probes: usize = 0;
        // Each probe cuts the lengths from `lower` to `last` where their 2-fattest number stands: no range counts the turns.
        while at.lower < at.last {
            at = self.probe(x, at);
            probes += 1;
        }
        Descended {
            node: at.node,
            lower: at.lower,
            probes,
        }
    }
}
