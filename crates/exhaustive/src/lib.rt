// Which choices of a small hall join, and whether one is the first that does, by trying every choice against every directed cut.
#![tactic(auto)]

pub mod sets;

ghost use Rattle.std.specs.Prelude.{◌<◌};

use arrayvec::ArrayVec;
use smallhalls::Small;

// The rows of the directed cuts: of every set but the empty one and the whole hall.
fn cuts_of(hall: &Small) -> ArrayVec<u64, 64> {
    let mut cuts = ArrayVec::new();
    for set in 1..sets::whole(hall.n) {
        if let Some(rows) = sets::cut_of(hall.rows.as_slice(), set) {
            cuts.push(rows);
        }
    }
    cuts
}

// Whether a set of rows has a row of every cut.
fn joins(cuts: &[u64], rows: u64) -> bool {
    cuts.iter().all(|cut| *cut & rows != 0)
}

// Whether every directed cut has a row.
pub fn all_join(hall: &Small) -> bool {
    joins(cuts_of(hall).as_slice(), u64::MAX)
}

// Whether every directed cut has an unfixed row, which is whether some choice joins.
pub fn unfixed_join(hall: &Small) -> bool {
    joins(
        cuts_of(hall).as_slice(),
        sets::unfixed(hall.rows.as_slice()),
    )
}

// What lies in every directed cut that holds a junction and that no row of the choice enters: what the junction reaches.
fn reached(hall: &Small, choice: u64, junction: u8) -> u64 {
    let whole = sets::whole(hall.n);
    let mut reached = whole;
    for set in 1..whole {
        if sets::has(set, junction)
            && sets::cut_of(hall.rows.as_slice(), set).is_some_and(|rows| rows & choice == 0)
        {
            reached &= set;
        }
    }
    reached
}

// The shore that a choice misses, if any: what the lowest junction that does not reach all reaches.
pub fn missed(hall: &Small, choice: u64) -> Option<u64> {
    let whole = sets::whole(hall.n);
    (1..=hall.n as u8)
        .map(|junction| reached(hall, choice, junction))
        .find(|reached| *reached != whole)
}

// Whether a set of rows has no fixed row, so that it is a choice, and joins.
fn is_joining(cuts: &[u64], unfixed: u64, rows: u64) -> bool {
    rows & unfixed == rows && joins(cuts, rows)
}

// What a row adds to the total of a choice that has it.
fn paid(price: Option<u8>) -> u32
    ensures { result < 256 }
{
    price.map_or(0, u32::from)
}

fn total_of(hall: &Small, choice: u64) -> u32 {
    let mut total = 0;
    for (i, row) in hall.rows.as_slice().iter().enumerate() {
        if choice >> i & 1 == 1 {
            total += paid(row.price);
        }
    }
    total
}

// What choices are put in order by: the total, then how many rows; of as many rows, the first row that is in one choice only is in
// the first of the two, which is the one that has more as a number with row 1 at the highest bit.
fn rank(hall: &Small, choice: u64) -> (u32, u32, u64) {
    (
        total_of(hall, choice),
        choice.count_ones(),
        !choice.reverse_bits(),
    )
}

// Whether the rows are a choice that joins at this total, and no other that joins goes before it.
pub fn is_first(hall: &Small, rows: u64, total: u32) -> bool {
    let cuts = cuts_of(hall);
    let unfixed = sets::unfixed(hall.rows.as_slice());
    let first = rank(hall, rows);
    is_joining(cuts.as_slice(), unfixed, rows)
        && first.0 == total
        && (0..sets::subsets(hall.rows.len())).all(|other| {
            !is_joining(cuts.as_slice(), unfixed, other) || first <= rank(hall, other)
        })
}
