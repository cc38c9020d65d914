// Repair: while a chosen row has a gap, search the zero graph and flip or raise, until P1, P2 and P3 hold.
// These are `Repaired` in `potentials`; the neighbourhoods of the choice are those of `tight`.
#![tactic(auto)]

ghost use Rattle.std.specs.Prelude.{◌≡◌, true, ℕ, suc, ◌<◌};
ghost use Rattle.laws.specs.Lists.{at};
ghost use Rattle.hall.specs.Hall.{Hall};
ghost use Rattle.dicuts.specs.Shores.{Ranged, once, Joining};
ghost use Rattle.potentials.specs.Repair.{Repairable};
ghost use Rattle.columns.specs.Columns.{flagged, Neighbourhoods};
ghost use Rattle.columns.specs.Lanes.{RowsOf, LanesOf};
ghost use Rattle.repair.specs.Repairs.{unpaid, FirstUnpaid, SomeUnpaid, Free, Stepped, RepairStart, RepairEnd};

use columns::{Costs, Lane, Lanes};
use digraph::Search;
use flip::flip;
use junctions::has;
use raise::raise_for;
use zerograph::{Network, zero_graph};

// A choice with its tight neighbourhoods, and a potential: rows at 256 places and junctions at 64, in arrays, as a call uses no heap.
#[derive(Clone, Copy)]
pub struct State {
    pub chosen: [bool; 256],
    pub potential: [u64; 64],
    pub around: [u64; 64],
}

impl State {
    // A choice at a potential, with its tight neighbourhoods where it joins.
    pub fn of(lanes: &Lanes, chosen: [bool; 256], potential: [u64; 64]) -> State
        ensures chosen { result.chosen ≡ chosen }
        ensures potential { result.potential ≡ potential }
        ensures around { (h : Hall) → LanesOf h lanes.now → Ranged h → Joining h (once (flagged chosen)) →
            Neighbourhoods h (flagged chosen) result.around }
    {
        State {
            chosen,
            potential,
            around: tight::neighbourhoods(lanes, &chosen),
        }
    }
}

// The place of the first chosen row with a gap, from a place on.
pub fn unpaid(network: &Network<'_>, chosen: &[bool; 256], from: usize) -> Option<usize>
    ensures { (h : Hall) (n : ℕ) → RowsOf h n network.now.lanes.now →
        FirstUnpaid h (at network.now.costs.now.rows) (at network.now.potential.now) (flagged chosen.now) from network.now.lanes.now.count result }
{
    for k in from..network.lanes.count {
        let lane = network.lanes.lane(k);
        if chosen[k] & (network.gap(k, lane) > 0) {
            return Some(k);
        }
    }
    None
}

// The place of a chosen row with a gap: from the last such row on, then from the start.
pub fn next_unpaid(network: &Network<'_>, chosen: &[bool; 256], last: usize) -> Option<usize>
    ensures { (h : Hall) (n : ℕ) → RowsOf h n network.now.lanes.now →
        SomeUnpaid h (at network.now.costs.now.rows) (at network.now.potential.now) (flagged chosen.now) network.now.lanes.now.count result }
{
    match unpaid(network, chosen, last) {
        None => unpaid(network, chosen, 0),
        found => found,
    }
}

// One step for the chosen row at a place, which has a gap: a flip that drops it, or a raise.
pub fn repair_step(
    network: &Network<'_>,
    chosen: &[bool; 256],
    around: &[u64; 64],
    row: usize,
) -> State
    requires { row < network.now.lanes.now.count }
    ensures { (h : Hall) → LanesOf h network.now.lanes.now → Ranged h → Free h (flagged network.now.movable.now) →
        Repairable h (at network.now.costs.now.rows) (at network.now.potential.now) (flagged chosen.now) →
        Neighbourhoods h (flagged chosen.now) around.now →
        unpaid h (at network.now.costs.now.rows) (at network.now.potential.now) (flagged chosen.now) (suc row) ≡ true →
        Stepped h (at network.now.costs.now.rows) (at network.now.potential.now) (flagged chosen.now) result }
{
    let Lane { tail, head } = network.lanes.lane(row);
    let (start, target) = (head + 1, tail + 1);
    let graph = zero_graph(network, chosen, around);
    let Search { set, distances } = digraph::reach(&graph, start);
    if has(set, tail) {
        let next = flip(
            network, chosen, &graph, &distances, start, target, row, false,
        );
        State::of(network.lanes, next, *network.potential)
    } else {
        State {
            chosen: *chosen,
            potential: raise_for(network, around, set, row),
            around: *around,
        }
    }
}

// Steps from a choice with its tight neighbourhoods until no chosen row has a gap: the choice that is left is one of the cheapest.
pub fn repair(lanes: &Lanes, costs: &Costs, mut state: State) -> State
    requires { RepairStart lanes.now costs.now.rows state }
    ensures { (h : Hall) → LanesOf h lanes.now → Ranged h →
        Repairable h (at costs.now.rows) (at state.potential) (flagged state.chosen) → Neighbourhoods h (flagged state.chosen) state.around →
        RepairEnd h (at costs.now.rows) state result }
{
    let movable = [true; 256];
    let mut last = 0;
    loop {
        let network = Network {
            lanes,
            costs,
            movable: &movable,
            potential: &state.potential,
        };
        match next_unpaid(&network, &state.chosen, last) {
            None => return state,
            Some(row) => {
                let next = repair_step(&network, &state.chosen, &state.around, row);
                state = next;
                last = row;
            }
        }
    }
}
