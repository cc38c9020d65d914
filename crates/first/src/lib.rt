// The first choice of least ranked cost: row by row, each is decided for good.
// It stands on the zero graph, the flip and the raise; `First` is that of `hall`.
#![tactic(auto)]

ghost use Rattle.std.specs.Prelude.{◌≡◌, ℕ, suc, ◌+◌, ◌^◌, ◌≤◌, ◌<◌, get_or};
ghost use Rattle.laws.specs.Lists.{at};
ghost use Rattle.hall.specs.Hall.{Hall};
ghost use Rattle.hall.specs.Plan.{First};
ghost use Rattle.dicuts.specs.Shores.{Ranged};
ghost use Rattle.dicuts.specs.Listed.{listed};
ghost use Rattle.potentials.specs.Repair.{Repaired};
ghost use Rattle.order.specs.Ranked.{ranked, Plannable};
ghost use Rattle.columns.specs.Columns.{flagged, Neighbourhoods};
ghost use Rattle.columns.specs.Lanes.{LanesOf};
ghost use Rattle.first.specs.Standing.{Movable, Standing};

use columns::{Costs, Lane, Lanes};
use digraph::Search;
use flip::flip;
use junctions::has;
use raise::raise;
use repair::State;
use zerograph::{Network, zero_graph};

// A search and then a flip or a raise, as in `repair_step`; which way, how far and what is promised differ.
// Decides the row at place k that is not chosen and has no gap: where its tail reaches its head a route there is flipped and the
// row opened, else the potential is raised on what the tail reaches.
pub fn change(network: &Network<'_>, chosen: &[bool; 256], around: &[u64; 64], k: usize) -> State
    requires row { k < network.now.lanes.now.count }
    requires no_gap { at network.now.potential.now (get_or network.now.lanes.now.tails k 0) + get_or network.now.costs.now.rows k 0
        ≤ at network.now.potential.now (get_or network.now.lanes.now.heads k 0) }
    ensures standing { (h : Hall) → LanesOf h network.now.lanes.now → Ranged h → Movable k network.now.movable.now →
        Standing h network.now.costs.now.rows k network.now.potential.now chosen.now around.now →
        Standing h network.now.costs.now.rows (suc k) result.potential result.chosen result.around }
    ensures low { (j : ℕ) → get_or result.potential j 0 ≤ get_or network.now.potential.now j 0 + 1 }
{
    let Lane { tail, head } = network.lanes.lane(k);
    let (start, target) = (tail + 1, head + 1);
    let graph = zero_graph(network, chosen, around);
    let Search { set, distances } = digraph::reach(&graph, start);
    if has(set, head) {
        let next = flip(network, chosen, &graph, &distances, start, target, k, true);
        State::of(network.lanes, next, *network.potential)
    } else {
        State {
            chosen: *chosen,
            potential: raise(network.potential, set, 1),
            around: *around,
        }
    }
}

// The rows of the first choice, from a choice and a potential that meet P1, P2 and P3 for the ranked costs, and its neighbourhoods.
// A row that is chosen or has a gap stays as it is.
pub fn decide_all(lanes: &Lanes, costs: &Costs, mut state: State) -> [bool; 256]
    requires { (j : ℕ) → get_or state.potential j 0 < 2 ^ 61 }
    ensures { (h : Hall) → LanesOf h lanes.now → Ranged h → Plannable h →
        ((i : ℕ) → 1 ≤ i → i ≤ lanes.now.count → at costs.now.rows i ≡ ranked h i) →
        Repaired h (ranked h) (at state.potential) (flagged state.chosen) →
        Neighbourhoods h (flagged state.chosen) state.around →
        First h (listed h (flagged result)) }
{
    let mut movable = [true; 256];
    for k in 0..lanes.count {
        let network = Network {
            lanes,
            costs,
            movable: &movable,
            potential: &state.potential,
        };
        let lane = lanes.lane(k);
        let has_gap = network.gap(k, lane) > 0;
        if !state.chosen[k] && !has_gap {
            let next = change(&network, &state.chosen, &state.around, k);
            state = next;
        }
        movable[k] = false;
    }
    state.chosen
}
