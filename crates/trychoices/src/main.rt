// Plans small halls and judges each plan: against every choice, and by its cuts and levels.
#![tactic(auto)]

mod comparing;

use comparing::Outcome;
use smallhalls::drawing::{Random, Size};
use std::{fmt, io};

// Halls whose plan is the first choice, halls rightly refused as unjoined or for a cut of fixed rows, and halls where planner and search differ.
// `tryroutes` counts other outcomes: a tally by name for both would be no plainer.
#[derive(Clone, Copy, Default)]
struct Tally {
    same: u64,
    unjoined: u64,
    fixed: u64,
    different: u64,
}

impl Tally {
    fn count(&mut self, outcome: Outcome) {
        let counter = match outcome {
            Outcome::Same => &mut self.same,
            Outcome::Unjoined => &mut self.unjoined,
            Outcome::Fixed => &mut self.fixed,
            Outcome::Different => &mut self.different,
        };
        *counter = counter.wrapping_add(1);
    }
}

impl fmt::Display for Tally {
    fn fmt<W: fmt::Write>(&self, f: &mut fmt::Formatter<W>) -> fmt::Result {
        let Tally {
            same,
            unjoined,
            fixed,
            different,
        } = *self;
        write!(
            f,
            "SAME {same} UNJOINED {unjoined} FIXED {fixed} DIFFERENT {different}"
        )
    }
}

// Every hall of a size.
fn count_size(tally: &mut Tally, size: Size) {
    for hall in (0..u64::MAX).map_while(|number| size.hall(number)) {
        tally.count(comparing::compared(&hall));
    }
}

// Every hall of a size, and of as many junctions with fewer rows.
fn try_all(rt: &impl Print, most: Size) -> io::Result<()> {
    let Size { n, rows, prices } = most;
    let mut tally = Tally::default();
    for rows in 0..rows + 1 {
        count_size(&mut tally, Size { n, rows, prices });
    }
    let dearest = prices - 1;
    println!(rt; "EVERY JUNCTIONS {n} ROWS 0 TO {rows} PRICES 0 TO {dearest} OR FIXED {tally}")
}

fn try_random(rt: &impl Print, halls: u64, seed: u64) -> io::Result<()> {
    let mut tally = Tally::default();
    let mut random = Random { seed };
    for _ in 0..halls {
        tally.count(comparing::compared(&random.hall()));
    }
    println!(rt; "RANDOM HALLS {halls} {tally}")
}

fn main(rt: HostRuntime) -> io::Result<()> {
    try_all(&rt, Size::of(1, 5, 3))?;
    try_all(&rt, Size::of(2, 5, 3))?;
    try_all(&rt, Size::of(3, 4, 3))?;
    try_all(&rt, Size::of(4, 4, 2))?;
    try_random(&rt, 200_000, 1)
}
