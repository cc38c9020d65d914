// A choice of least cost taken on to one where a row costs otherwise: its potential is shut as far as the row asks, and repair goes on.
// The costs are those of `put` in `potentials`, and `shut` is that of `forcing`.
#![tactic(auto)]

ghost use Rattle.std.specs.Prelude.{◌≡◌, ℕ, suc, ◌≤◌, ◌<◌, get_or};
ghost use Rattle.laws.specs.Lists.{at};
ghost use Rattle.hall.specs.Hall.{Hall};
ghost use Rattle.potentials.specs.Flip.{put};
ghost use Rattle.potentials.specs.Repair.{Repaired};
ghost use Rattle.columns.specs.Columns.{flagged, Neighbourhoods};
ghost use Rattle.forcing.specs.Shut.{shut};
ghost use Rattle.reprice.specs.Reprice.{Repriceable};

use columns::{Costs, Lane, Lanes};
use repair::State;

// The potential shut between two levels.
fn shut(potential: &[u64; 64], low: u64, high: u64) -> [u64; 64]
    requires { low ≤ high }
    ensures { (k : ℕ) → get_or result k 0 ≡ shut low high (λ (j : ℕ). get_or potential.now j 0) k }
{
    let mut next = [0; 64];
    for k in 0..64 {
        let level = potential[k];
        next[k] = level - (level.saturating_sub(low) - level.saturating_sub(high));
    }
    next
}

// From a choice of least cost to one of least cost where the row at place k costs `cost`, with its neighbourhoods.
pub fn reprice(lanes: &Lanes, costs: &Costs, state: &State, k: usize, cost: u64) -> State
    requires { (k < lanes.now.count) × ((h : Hall) × Repriceable h lanes.now costs.now.rows state.now (suc k) cost) }
    ensures repaired { (h : Hall) → Repriceable h lanes.now costs.now.rows state.now (suc k) cost →
        Repaired h (put (suc k) cost (at costs.now.rows)) (at result.potential) (flagged result.chosen) }
    ensures around { (h : Hall) → Repriceable h lanes.now costs.now.rows state.now (suc k) cost →
        Neighbourhoods h (flagged result.chosen) result.around }
{
    let Lane { tail, head } = lanes.lane(k);
    let mut rows = costs.rows;
    rows[k] = cost;
    let low = state.potential[tail] + cost;
    let high = low.max(state.potential[head]);
    let start = State {
        potential: shut(&state.potential, low, high),
        ..*state
    };
    repair::repair(lanes, &Costs { rows }, start)
}
