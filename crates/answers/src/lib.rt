// What a call answers of a choice. The numbers of document 01 are in specs/Answers.antt.
#![tactic(auto)]

ghost use Rattle.std.specs.Prelude.{◌≡◌};
ghost use Rattle.choice.specs.Short.{shore_of};
ghost use Rattle.answers.specs.Answers.{outcome_of, set_of, missing};

use junctions::{Junctions, Places};
use std::fmt;

// What a call found.
#[derive(Clone, Copy, PartialEq, Eq, Debug)]
pub enum Finding {
    Joins,
    Misses(Junctions),
    Around(Junctions),
}

impl Finding {
    // The number of what was found: C callers read a number.
    #[tactic(auto, unfolding(crate::specs::Answers::outcome_of))]
    pub fn outcome(self) -> u32
        ensures { result ≡ outcome_of self }
    {
        match self {
            Finding::Joins => 1,
            Finding::Misses(_) => 2,
            Finding::Around(_) => 3,
        }
    }

    // The shore or the neighbourhood, else 0: C callers read a number.
    #[tactic(auto, unfolding(crate::specs::Answers::set_of))]
    pub fn set(self) -> u64
        ensures { result ≡ set_of self }
    {
        match self {
            Finding::Joins => 0,
            Finding::Misses(shore) => shore.0,
            Finding::Around(set) => set.0,
        }
    }
}

// Joins for no shore, else misses with it.
impl From<Option<Junctions>> for Finding {
    ghost from_gives = { λ shore found. found ≡ missing (shore_of shore) };

    #[tactic(auto, unfolding(crate::specs::Answers::missing))]
    fn from(shore: Option<Junctions>) -> Finding {
        match shore {
            None => Finding::Joins,
            Some(shore) => Finding::Misses(shore),
        }
    }
}

// A word and the numbers of the junctions in a set, lowest first.
fn write_set<W: fmt::Write>(f: &mut fmt::Formatter<W>, word: &str, set: Junctions) -> fmt::Result {
    write!(f, "{word}")?;
    for place in Places::of(set.0) {
        write!(f, " {}", place + 1)?;
    }
    Ok(())
}

impl fmt::Display for Finding {
    fn fmt<W: fmt::Write>(&self, f: &mut fmt::Formatter<W>) -> fmt::Result {
        match self {
            Finding::Joins => write!(f, "JOINS"),
            Finding::Misses(shore) => write_set(f, "MISSES", *shore),
            Finding::Around(set) => write_set(f, "AROUND", *set),
        }
    }
}
