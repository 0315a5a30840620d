// How the programs print what a build and an ask say.
ghost use Rattle.std.specs.Prelude.{Some};
ghost use Rattle.refusals.specs.Numbers.{said_by_build};
ghost use Rattle.samples.specs.Printed.{built_text, told_text};

use outcomes::Outcome;
use refusals::{Refusal, Reported, Unbuilt, Verdict};
use std::fmt;

// What a build says, with the size that it reports.
#[derive(Clone, Copy)]
pub struct Built(pub Verdict);

impl fmt::Display for Built {
    ghost output = { λ v. Some (built_text (said_by_build v.0)) };

    fn fmt<W: fmt::Write>(&self, f: &mut fmt::Formatter<W>) -> fmt::Result {
        match self.0 {
            Ok(()) => f.write_str("taken.0"),
            Err(Unbuilt::Refused(r)) => write!(f, "refused={}.{}.0", r.number(), r.named()),
            Err(Unbuilt::Jammed(jam)) => write!(f, "refused=5.{}.{}", self.0.named(), jam.size),
        }
    }
}

// What an ask says of a key.
#[derive(Clone, Copy)]
pub struct Told(pub Result<Outcome, Refusal>);

impl fmt::Display for Told {
    ghost output = { λ a. Some (told_text a.0) };

    fn fmt<W: fmt::Write>(&self, f: &mut fmt::Formatter<W>) -> fmt::Result {
        match self.0 {
            Ok(Outcome::Planned(row)) => write!(f, "planned.{row}"),
            Ok(Outcome::Withdrawn(row)) => write!(f, "withdrawn.{row}"),
            Ok(Outcome::Absent) => f.write_str("absent"),
            Err(r) => write!(f, "refused={}.{}", r.number(), r.named()),
        }
    }
}
