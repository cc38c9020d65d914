// The flip of a route in the zero graph: the rows of its arcs are looked up and opened or closed.
// It walks back along the distances of `digraph`; the legs and the flip are those of `potentials`.
#![tactic(auto)]

ghost use Rattle.std.specs.Prelude.{◌≡◌, ℕ, suc, ◌≤◌, ◌<◌, IfSome};
ghost use Rattle.laws.specs.Lists.{at};
ghost use Rattle.digraph.specs.Paths.{Distances};
ghost use Rattle.hall.specs.Hall.{Hall};
ghost use Rattle.potentials.specs.ZeroGraph.{opens, closes};
ghost use Rattle.columns.specs.Columns.{flagged};
ghost use Rattle.columns.specs.Lanes.{RowsOf};
ghost use Rattle.flip.specs.Flips.{FirstPlace, Made, Walked};
ghost use Rattle.zerograph.specs.Zero.{ZeroGraph};

use columns::Lanes;
use zerograph::Network;

// Whether the row at place k may be opened on the way from x to y.
fn may_open(network: &Network<'_>, k: usize, x: usize, y: usize) -> bool
    requires { k < network.now.lanes.now.count }
    ensures { (h : Hall) (n : ℕ) → RowsOf h n network.now.lanes.now →
        result ≡ opens h (flagged network.now.movable.now) (at network.now.costs.now.rows) (at network.now.potential.now) x y (suc k) }
{
    let lane = network.lanes.lane(k);
    x == lane.head + 1 && (network.movable[k] & network.no_gap(k, lane) & (y == lane.tail + 1))
}

// Whether the row at place k may be closed on the way from x to y.
fn may_close(
    lanes: &Lanes,
    movable: &[bool; 256],
    chosen: &[bool; 256],
    k: usize,
    x: usize,
    y: usize,
) -> bool
    requires { k < lanes.now.count }
    ensures { (h : Hall) (n : ℕ) → RowsOf h n lanes.now → result ≡ closes h (flagged movable.now) (flagged chosen.now) x y (suc k) }
{
    let lane = lanes.lane(k);
    x == lane.tail + 1 && (movable[k] & chosen[k] & (y == lane.head + 1))
}

// The place of the first row that may be opened on the way from x to y.
pub fn opening(network: &Network<'_>, x: usize, y: usize) -> Option<usize>
    ensures inside { IfSome result (λ k. k < network.now.lanes.now.count) }
    ensures first { (h : Hall) (n : ℕ) → RowsOf h n network.now.lanes.now →
        FirstPlace network.now.lanes.now.count
        (λ k. opens h (flagged network.now.movable.now) (at network.now.costs.now.rows) (at network.now.potential.now) x y (suc k)) result }
{
    (0..network.lanes.count).find(|&k| may_open(network, k, x, y))
}

// The place of the first row that may be closed on the way from x to y. Costs and a potential have no part in it, so it takes no network.
pub fn closing(
    lanes: &Lanes,
    movable: &[bool; 256],
    chosen: &[bool; 256],
    x: usize,
    y: usize,
) -> Option<usize>
    ensures inside { IfSome result (λ k. k < lanes.now.count) }
    ensures first { (h : Hall) (n : ℕ) → RowsOf h n lanes.now →
        FirstPlace lanes.now.count (λ k. closes h (flagged movable.now) (flagged chosen.now) x y (suc k)) result }
{
    (0..lanes.count).find(|&k| may_close(lanes, movable, chosen, k, x, y))
}

// The flags after the arc from x to y is made: a row opened or closed, or none where it is a swap.
pub fn make_arc(
    network: &Network<'_>,
    chosen: &[bool; 256],
    x: usize,
    y: usize,
    flags: [bool; 256],
) -> [bool; 256]
    ensures { (h : Hall) (n : ℕ) → RowsOf h n network.now.lanes.now →
        Made h (flagged network.now.movable.now) (at network.now.costs.now.rows) (at network.now.potential.now)
        (flagged chosen.now) x y (flagged flags) (flagged result) }
{
    let mut next = flags;
    if let Some(open) = opening(network, x, y) {
        next[open] = true;
    } else if let Some(close) = closing(network.lanes, network.movable, chosen, x, y) {
        next[close] = false;
    }
    next
}

// The flags after the route from the start to the target is made, its last arc first, and the row at a place opened or closed.
pub fn flip(
    network: &Network<'_>,
    chosen: &[bool; 256],
    adjacency: &[u64; 64],
    distances: &[u8; 64],
    start: usize,
    target: usize,
    row: usize,
    opened: bool,
) -> [bool; 256]
    requires { Distances 64 (at adjacency.now) start (at distances.now)
        × (1 ≤ target) × (target ≤ 64) × (at distances.now target < 64) × (row < 256) }
    ensures { (h : Hall) (n : ℕ) → RowsOf h n network.now.lanes.now →
        ZeroGraph h (flagged network.now.movable.now) (at network.now.costs.now.rows) (at network.now.potential.now)
        (flagged chosen.now) adjacency.now →
        target ≤ h.n →
        Walked h (flagged network.now.movable.now) (at network.now.costs.now.rows) (at network.now.potential.now) (flagged chosen.now)
        (at distances.now) start target (suc row) opened (flagged result) }
{
    let mut flags = *chosen;
    let mut y = target;
    while y != start {
        let x = digraph::before(adjacency, distances, y);
        flags = make_arc(network, chosen, x, y, flags);
        y = x;
    }
    flags[row] = opened;
    flags
}
