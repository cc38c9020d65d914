// The rows' call of planning: the first joining choice and its total. The promise, `RowsSays`, is in `oneplan`.
#![tactic(auto)]

ghost use Rattle.std.specs.Prelude.{ℕ, ◌≤◌, length};
ghost use Rattle.hall.specs.Hall.{Hall};
ghost use Rattle.hall.specs.Plan.{First};
ghost use Rattle.dicuts.specs.Listed.{listed};
ghost use Rattle.columns.specs.Columns.{flagged};
ghost use Rattle.refusals.specs.Kinds.{answered, figure};
ghost use Rattle.oneplan.specs.Plan.{RowsAs, RowsSays};
ghost use Rattle.plan.specs.Ready.{Accepted};
ghost use Rattle.planrows.specs.declared.PlannedRows.{PlannedRows};

use hallfile::HallRecord;
use refusals::Kind;

// The reply: how many rows are listed in the lent list, and their total.
#[derive(Clone, Copy, PartialEq, Eq, Debug)]
pub struct PlannedRows {
    pub chosen: u32,
    pub total: u32,
}

// The first choice of an accepted hall into the first places of a list that is long enough, and its total.
pub fn list_first(hall: &HallRecord, first: &[bool; 256], rows: &mut [u32]) -> PlannedRows
    requires { 256 ≤ length rows.old }
    ensures { (h : Hall) → Accepted h hall.now → First h (listed h (flagged first.now)) →
        RowsAs 0 h result.chosen result.total rows.old rows.new }
{
    let count = ledger::listing::list_rows(hall.lanes.count, first, rows);
    let total = ledger::listing::total_of(hall.lanes.count, &hall.prices, first);
    PlannedRows {
        chosen: count as u32,
        total,
    }
}

// The first joining choice by total, row count and dictionary order into the first places of a list of at least 256, and its total:
// refusal 1, then 2 to 9 and 15.
pub fn plan_rows(file: &[u8], rows: &mut [u32]) -> Result<PlannedRows, Kind>
    ensures { RowsSays file.now (answered result) (figure (λ (p : PlannedRows). p.chosen) result) (figure (λ (p : PlannedRows). p.total) result)
        rows.old rows.new }
{
    let short = rows.len() < 256;
    if short {
        return Err(Kind::ListShort);
    }
    let hall = hallfile::read_hall(file)?;
    let costs = ledger::costs::ranked_costs(hall.lanes.count, &hall.prices, &hall.fixed);
    let unfixed = choice::unflagged(&hall.fixed);
    let first = plan::first_choice(&hall.lanes, &costs, unfixed);
    Ok(list_first(&hall, &first, rows))
}
