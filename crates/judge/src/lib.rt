// Whether a plan of a small hall is right: its choice the first of all that join, with cuts and levels that prove its total.
#![tactic(auto)]

mod listed;

use listed::Cuts;
use smallhalls::Small;

// A plan's rows, its cuts as shores and weights, in two lists as the call fills two, and its levels.
#[derive(Clone, Copy)]
pub struct Plan<'a> {
    pub rows: &'a [u32],
    pub total: u32,
    pub shores: &'a [u64],
    pub weights: &'a [u32],
    pub levels: &'a [i32],
}

// The set with a row, row j at bit j - 1; unchanged where there is no such row.
fn with_row(set: u64, row: u32) -> u64 {
    if (1..=10).contains(&row) {
        set | 1 << (row - 1)
    } else {
        set
    }
}

// Whether the numbers ascend, and are rows of the hall.
fn ascend(rows: &[u32], count: u32) -> bool {
    rows.is_sorted_by(|row, next| row < next) && rows.iter().all(|row| (1..=count).contains(row))
}

// Whether the rows are the first choice that joins, at the plan's total.
fn rows_right(hall: &Small, rows: &[u32], total: u32) -> bool {
    ascend(rows, hall.rows.len() as u32)
        && exhaustive::is_first(hall, rows.iter().copied().fold(0, with_row), total)
}

// Whether there are no cuts, or at most 2n - 3.
fn few(hall: &Small, cuts: usize) -> bool {
    cuts <= (2 * hall.n).saturating_sub(3)
}

pub fn is_right(hall: &Small, plan: Plan<'_>) -> bool {
    let Some(cuts) = Cuts::of(plan.shores, plan.weights) else {
        return false
    };
    rows_right(hall, plan.rows, plan.total)
        && few(hall, plan.shores.len())
        && cuts.are_cuts(hall)
        && cuts.loads_fit(hall)
        && cuts.sum() == u64::from(plan.total)
        && plan.levels.len() == hall.n
        && cuts.are_levels(plan.levels)
}
