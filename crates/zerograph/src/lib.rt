// The zero graph of a choice and a potential as an adjacency: arcs of rows from their columns, and swaps within neighbourhoods.
// The arcs are those of `zero_arcs` in `potentials`.
#![tactic(auto)]

ghost use Rattle.std.specs.Prelude.{◌≡◌, false, ◌&&◌, ℕ, ◌+◌, ◌-◌, ◌<◌, eqb, get_or};
ghost use Rattle.laws.specs.Lists.{at};
ghost use Rattle.hall.specs.Hall.{Hall};
ghost use Rattle.columns.specs.Columns.{flagged, Neighbourhoods};
ghost use Rattle.columns.specs.Lanes.{RowsOf, LanesOf};
ghost use Rattle.columns.specs.Low.{Low};
ghost use Rattle.zerograph.specs.Zero.{RowArcs, ZeroGraph};

use columns::{Costs, Lane, Lanes};
use junctions::lone;
use leveltable::LevelTable;

// What a choice is repaired over: the lanes with their costs, the rows that may be opened and closed, and a potential.
#[derive(Clone, Copy)]
pub struct Network<'a> {
    pub lanes: &'a Lanes,
    pub costs: &'a Costs,
    pub movable: &'a [bool; 256],
    pub potential: &'a [u64; 64],
    ghost low: { Low potential.now },
}

impl<'a> Network<'a> {
    // The gap of the row at place k, whose lane is given: by how much the potential of its tail and its cost are over the potential of its head.
    pub fn gap(&self, k: usize, lane: Lane) -> u64
        requires { (k < 256) × (lane.tail < 64) × (lane.head < 64) }
        ensures { result ≡ get_or self.now.potential.now lane.tail 0 + get_or self.now.costs.now.rows k 0 - get_or self.now.potential.now lane.head 0 }
    {
        let paid = self.potential[lane.tail] + self.costs.rows[k];
        paid.saturating_sub(self.potential[lane.head])
    }

    // Whether the potential of the row's head is just that of its tail and its cost.
    pub fn no_gap(&self, k: usize, lane: Lane) -> bool
        requires { (k < 256) × (lane.tail < 64) × (lane.head < 64) }
        ensures { result ≡ eqb (get_or self.now.potential.now lane.head 0) (get_or self.now.potential.now lane.tail 0 + get_or self.now.costs.now.rows k 0) }
    {
        self.potential[lane.head] == self.potential[lane.tail] + self.costs.rows[k]
    }
}

// The arcs that rows make: a movable row without a gap from its head to its tail, a chosen movable one from its tail to its head.
pub fn row_arcs(network: &Network<'_>, chosen: &[bool; 256]) -> [u64; 64]
    ensures { (h : Hall) (n : ℕ) → RowsOf h n network.now.lanes.now →
        RowArcs h (flagged network.now.movable.now) (at network.now.costs.now.rows) (at network.now.potential.now)
        (flagged chosen.now) network.now.lanes.now.count result }
{
    let mut arcs = [0u64; 64];
    for k in 0..network.lanes.count {
        let lane = network.lanes.lane(k);
        let opens = network.movable[k] & network.no_gap(k, lane);
        arcs[lane.head] |= lone(opens, lane.tail);
        let closes = network.movable[k] & chosen[k];
        arcs[lane.tail] |= lone(closes, lane.head);
    }
    arcs
}

// The zero graph: the arcs of rows, and of swaps within tight neighbourhoods at the same potential.
pub fn zero_graph(network: &Network<'_>, chosen: &[bool; 256], around: &[u64; 64]) -> [u64; 64]
    ensures { (h : Hall) → LanesOf h network.now.lanes.now →
        Neighbourhoods h (flagged chosen.now) around.now →
        ZeroGraph h (flagged network.now.movable.now) (at network.now.costs.now.rows) (at network.now.potential.now)
        (flagged chosen.now) result }
{
    let mut arcs = row_arcs(network, chosen);
    let table = LevelTable::of(network.lanes.n, network.potential);
    for x in 0..network.lanes.n {
        arcs[x] |= table.same_level(around[x], network.potential, network.potential[x]);
    }
    arcs
}
