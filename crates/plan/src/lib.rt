// Planning over the lanes of a hall: a choice of least cost with its potential, then the first of all choices; and of a hall's record a choice
// of least total.
// It stands on the start, the neighbourhoods, repair and the dictionary step; its promises use `Repaired` and `First`.
#![tactic(auto)]

ghost use Rattle.std.specs.Prelude.{◌≡◌, ℕ, ◌≤◌};
ghost use Rattle.laws.specs.Lists.{at};
ghost use Rattle.hall.specs.Hall.{Hall};
ghost use Rattle.hall.specs.Plan.{First};
ghost use Rattle.dicuts.specs.Shores.{Ranged};
ghost use Rattle.dicuts.specs.Listed.{listed};
ghost use Rattle.potentials.specs.Repair.{Repairable};
ghost use Rattle.order.specs.Ranked.{ranked, Plannable};
ghost use Rattle.columns.specs.Columns.{flagged, Neighbourhoods};
ghost use Rattle.columns.specs.Lanes.{LanesOf};
ghost use Rattle.repair.specs.Repairs.{RepairStart};
ghost use Rattle.plan.specs.Ready.{Modest, Ready, Cheapest, Accepted, Least};

use columns::{Costs, Lanes};
use hallfile::HallRecord;
use repair::State;

// From rows that join to a choice of least cost, with its potential and its neighbourhoods.
pub fn cheapest(lanes: &Lanes, costs: &Costs, rows: [bool; 256]) -> State
    requires modest { Modest costs.now.rows }
    requires ready { (h : Hall) × Ready h lanes.now rows }
    ensures { (h : Hall) → Ready h lanes.now rows → Cheapest h costs.now.rows rows result }
{
    let chosen = pruning::start(lanes, &costs.rows, rows);
    let state = State::of(lanes, chosen, [0; 64]);
    repair::repair(lanes, costs, state)
}

// From rows that join, at the ranked costs, to the first choice: least total, fewest rows, then dictionary order.
pub fn first_choice(lanes: &Lanes, costs: &Costs, rows: [bool; 256]) -> [bool; 256]
    requires modest { Modest costs.now.rows }
    requires ready { (h : Hall) × Ready h lanes.now rows }
    ensures { (h : Hall) → Ready h lanes.now rows → Plannable h →
        ((i : ℕ) → 1 ≤ i → i ≤ lanes.now.count → at costs.now.rows i ≡ ranked h i) →
        First h (listed h (flagged result)) }
{
    let state = cheapest(lanes, costs, rows);
    first::decide_all(lanes, costs, state)
}

// A choice of least total of an accepted hall, with its potential and its neighbourhoods.
pub fn least(hall: &HallRecord) -> State
    requires { (h : Hall) × Accepted h hall.now }
    ensures { (h : Hall) → Accepted h hall.now → Least h result }
{
    let charged = ledger::costs::charges(hall.lanes.count, &hall.prices, &hall.fixed);
    let unfixed = choice::unflagged(&hall.fixed);
    cheapest(&hall.lanes, &charged, unfixed)
}
