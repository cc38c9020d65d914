// Routes of small halls: every choice of every hall of a size, and choices of random halls, between every two junctions and beside them,
// each held to the first of the shortest sequences of steps.
#![tactic(auto)]

mod comparing;
mod walks;

use arrayvec::ArrayVec;
use comparing::Outcome;
use exhaustive::sets;
use smallhalls::drawing::{Random, Size};
use smallhalls::{Small, file};
use std::{fmt, io};
use walks::Asked;

// Halls and choices tried, and calls by what they rightly told; those whose reply or list is another. `trychoices` counts other outcomes.
#[derive(Clone, Copy, Default)]
struct Tally {
    halls: u64,
    choices: u64,
    routes: u64,
    misses: u64,
    refused: u64,
    different: u64,
}

impl Tally {
    fn count(&mut self, outcome: Outcome) {
        let counter = match outcome {
            Outcome::Route => &mut self.routes,
            Outcome::Misses => &mut self.misses,
            Outcome::Refused => &mut self.refused,
            Outcome::Different => &mut self.different,
        };
        *counter = counter.wrapping_add(1);
    }
}

impl fmt::Display for Tally {
    fn fmt<W: fmt::Write>(&self, f: &mut fmt::Formatter<W>) -> fmt::Result {
        let Tally {
            halls,
            choices,
            routes,
            misses,
            refused,
            different,
        } = *self;
        write!(
            f,
            "HALLS {halls} CHOICES {choices} ROUTES {routes} MISSES {misses} REFUSED {refused} DIFFERENT {different}"
        )
    }
}

fn rows_of(choice: u64) -> ArrayVec<u32, 10> {
    let mut rows = ArrayVec::new();
    for i in 0..10 {
        if choice >> i & 1 == 1 {
            rows.push(i + 1);
        }
    }
    rows
}

// One choice of a hall: calls between every two junctions from 0 to n + 1, and one with a list that is too short.
fn try_choice(tally: &mut Tally, hall: &Small, choice: u64) {
    let file = file::bytes_of(hall);
    let rows = rows_of(choice);
    let asked = Asked {
        hall,
        choice,
        missed: exhaustive::missed(hall, choice),
        from: 1,
        to: 1,
    };
    tally.choices = tally.choices.wrapping_add(1);
    tally.count(comparing::compared(file.as_slice(), rows.as_slice(), &asked, 62));
    let last = hall.n as u8 + 1;
    for from in 0..=last {
        for to in 0..=last {
            let pair = Asked { from, to, ..asked };
            tally.count(comparing::compared(file.as_slice(), rows.as_slice(), &pair, 63));
        }
    }
}

// Every choice of a hall.
fn try_choices(tally: &mut Tally, hall: &Small) {
    let unfixed = sets::unfixed(hall.rows.as_slice());
    tally.halls = tally.halls.wrapping_add(1);
    for choice in 0..sets::subsets(hall.rows.len()) {
        if choice & unfixed == choice {
            try_choice(tally, hall, choice);
        }
    }
}

// Every hall of a size that has a joining choice.
fn try_all(rt: &impl Print, size: Size) -> io::Result<()> {
    let mut tally = Tally::default();
    for hall in (0..u64::MAX).map_while(|number| size.hall(number)) {
        if exhaustive::unfixed_join(&hall) {
            try_choices(&mut tally, &hall);
        }
    }
    let Size { n, rows, .. } = size;
    println!(rt; "EVERY JUNCTIONS {n} ROWS {rows} {tally}")
}

// All unfixed rows, and a drawn part of them.
fn try_drawn(tally: &mut Tally, hall: &Small, draw: u64) {
    let unfixed = sets::unfixed(hall.rows.as_slice());
    tally.halls = tally.halls.wrapping_add(1);
    try_choice(tally, hall, unfixed);
    try_choice(tally, hall, unfixed & draw);
}

fn try_random(rt: &impl Print, halls: u64, seed: u64) -> io::Result<()> {
    let mut tally = Tally::default();
    let mut random = Random { seed };
    for _ in 0..halls {
        let hall = random.hall();
        if exhaustive::unfixed_join(&hall) {
            try_drawn(&mut tally, &hall, random.seed);
        }
    }
    println!(rt; "RANDOM OF {halls} {tally}")
}

fn main(rt: HostRuntime) -> io::Result<()> {
    try_all(&rt, Size::of(1, 3, 1))?;
    try_all(&rt, Size::of(2, 4, 1))?;
    try_all(&rt, Size::of(3, 3, 1))?;
    try_all(&rt, Size::of(4, 3, 1))?;
    try_random(&rt, 20_000, 1)
}
