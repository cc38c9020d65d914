// One small hall planned by both calls, and the plan that their replies make together judged.
use judge::Plan;
use planpairs::PlannedCuts;
use planrows::PlannedRows;
use refusals::Kind;
use smallhalls::{Small, file};
use tries::{Lists, Tried};

#[derive(Clone, Copy)]
pub enum Outcome {
    Same,
    Unjoined,
    Fixed,
    Different,
}

// Whether the plan is right, and nothing is written after it.
fn is_right(hall: &Small, first: PlannedRows, beside: PlannedCuts, lists: &Lists) -> bool {
    let chosen = first.chosen as usize;
    let cuts = beside.cuts as usize;
    let levelled = beside.levels as usize;
    let (Some(rows), Some(shores), Some(weights), Some(levels)) = (
        lists.rows.get(..chosen),
        lists.shores.get(..cuts),
        lists.weights.get(..cuts),
        lists.levels.get(..levelled),
    ) else {
        return false;
    };
    let plan = Plan {
        rows,
        total: first.total,
        shores,
        weights,
        levels,
    };
    judge::is_right(hall, plan) && lists.kept_after(chosen, cuts, levelled)
}

// Whether every directed cut has a row, and some one fixed rows only.
fn has_fixed_cut(hall: &Small) -> bool {
    exhaustive::all_join(hall) && !exhaustive::unfixed_join(hall)
}

// The replies beside the choices of their hall.
fn judged(hall: &Small, tried: &Tried) -> Outcome {
    let lists = &tried.lists;
    match (tried.rows, tried.cuts) {
        (Ok(first), Ok(beside)) if is_right(hall, first, beside, lists) => Outcome::Same,
        (Err(Kind::Unjoined), Err(Kind::Unjoined))
            if !exhaustive::all_join(hall) && lists.kept_after(0, 0, 0) => { Outcome::Unjoined }
        (Err(Kind::FixedCut), Err(Kind::FixedCut))
            if has_fixed_cut(hall) && lists.kept_after(0, 0, 0) => { Outcome::Fixed }
        _ => Outcome::Different,
    }
}

pub fn compared(hall: &Small) -> Outcome {
    judged(hall, &tries::plan(file::bytes_of(hall).as_slice()))
}
