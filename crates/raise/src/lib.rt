// The raise of a potential on a set, as far as the rows that enter it and the neighbourhoods that leave it allow.
// `Raisable` and `raised` are those of `potentials`.
#![tactic(auto)]

ghost use Rattle.std.specs.Prelude.{◌≡◌, Bool, ℕ, suc, ◌+◌, ◌^◌, ◌≤◌, ◌<◌, get_or};
ghost use Rattle.laws.specs.Lists.{at};
ghost use Rattle.hall.specs.Hall.{Hall};
ghost use Rattle.potentials.specs.ZeroGraph.{raised};
ghost use Rattle.columns.specs.Columns.{flagged, Neighbourhoods};
ghost use Rattle.columns.specs.Lanes.{RowsOf};
ghost use Rattle.raise.specs.Rooms.{Most, RowsAllow, OverSet, NearAllow, Room, RaisedFor};

use junctions::{Places, has};
use zerograph::Network;

// The most, up to the start, by which the movable rows that enter the set allow a raise on it.
pub fn row_room(network: &Network<'_>, set: u64, start: u64) -> u64
    ensures low { result ≤ start }
    ensures most { (h : Hall) (n : ℕ) → RowsOf h n network.now.lanes.now →
        Most (λ e. (e ≤ start) × RowsAllow h (flagged network.now.movable.now) (at network.now.costs.now.rows)
        (at network.now.potential.now) set network.now.lanes.now.count e) result }
{
    let mut room = start;
    for k in 0..network.lanes.count {
        let lane = network.lanes.lane(k);
        if network.movable[k] & !has(set, lane.tail) & has(set, lane.head) {
            room = room.min(network.gap(k, lane));
        }
    }
    room
}

// The most, up to the start, by which a potential of `low` stays within those of the set's junctions.
pub fn set_room(set: u64, potential: &[u64; 64], low: u64, start: u64) -> u64
    ensures { Most (λ e. (e ≤ start) × OverSet (at potential.now) low set e) result }
{
    let mut room = start;
    for j in Places::of(set) {
        room = room.min(potential[j].saturating_sub(low));
    }
    room
}

// The most, up to the start, by which the neighbourhoods that leave the set allow a raise on it.
pub fn near_room(around: &[u64; 64], potential: &[u64; 64], set: u64, start: u64) -> u64
    ensures { Most (λ e. (e ≤ start) × NearAllow (at around.now) (at potential.now) set e) result }
{
    let mut room = start;
    for j in Places::of(set) {
        room = set_room(around[j] & !set, potential, potential[j], room);
    }
    room
}

// The most, up to the start, by which the potential can be raised on the set.
pub fn raise_room(network: &Network<'_>, around: &[u64; 64], set: u64, start: u64) -> u64
    ensures low { result ≤ start }
    ensures room { (h : Hall) (n : ℕ) (F : ℕ → Bool) → RowsOf h n network.now.lanes.now →
        Neighbourhoods h F around.now →
        Room h (flagged network.now.movable.now) (at network.now.costs.now.rows) (at network.now.potential.now) F set start result }
{
    let room = row_room(network, set, start);
    near_room(around, network.potential, set, room)
}

// The potential raised on the set.
pub fn raise(potential: &[u64; 64], set: u64, by: u64) -> [u64; 64]
    requires { (k : ℕ) → get_or potential.now k 0 + by < 2 ^ 64 }
    ensures { (j : ℕ) → 1 ≤ j → j ≤ 64 → at result j ≡ raised set by (at potential.now) j }
{
    let mut next = *potential;
    for j in Places::of(set) {
        next[j] += by;
    }
    next
}

// The potential raised on the set as far as it can be, up to the gap of the row at a place.
pub fn raise_for(network: &Network<'_>, around: &[u64; 64], set: u64, row: usize) -> [u64; 64]
    requires { row < network.now.lanes.now.count }
    ensures { (h : Hall) (n : ℕ) (F : ℕ → Bool) → RowsOf h n network.now.lanes.now → Neighbourhoods h F around.now →
        RaisedFor h (flagged network.now.movable.now) (at network.now.costs.now.rows) (at network.now.potential.now) F set (suc row) (at result) }
{
    let gap = network.gap(row, network.lanes.lane(row));
    let room = raise_room(network, around, set, gap);
    raise(network.potential, set, room)
}
