// Tight neighbourhoods of a joining choice: what a junction reaches even without any one frail arc.
#![tactic(auto)]

ghost use Rattle.std.specs.Prelude.{◌≡◌, ◌≤◌};
ghost use Rattle.hall.specs.Hall.{Hall};
ghost use Rattle.dicuts.specs.Shores.{around, Ranged, once, Joining};
ghost use Rattle.columns.specs.Columns.{Neighbourhoods, flagged};
ghost use Rattle.columns.specs.Lanes.{LanesOf};
ghost use Rattle.tight.specs.Solid.{SolidArcs};

use columns::Lanes;
use growth::neighbourhood;

// For each junction the junctions that solid arcs lead to: where a row runs, or a second flagged row runs the other way.
pub fn solid_arcs(lanes: &Lanes, flags: &[bool; 256]) -> [u64; 64]
    ensures { (h : Hall) → LanesOf h lanes.now → SolidArcs h (flagged flags.now) result }
{
    let mut once = [0u64; 64];
    let mut solid = [0u64; 64];
    for k in 0..lanes.count {
        let lane = lanes.lane(k);
        solid[lane.tail] |= 1 << lane.head;
        if flags[k] {
            solid[lane.head] |= once[lane.head] & (1 << lane.tail);
            once[lane.head] |= 1 << lane.tail;
        }
    }
    solid
}

// The tight neighbourhood of one junction, for flagged rows that join the hall.
pub fn neighbourhood_of(lanes: &Lanes, flags: &[bool; 256], v: usize) -> u64
    requires { (1 ≤ v) × (v ≤ lanes.now.n) }
    ensures { (h : Hall) → LanesOf h lanes.now → Ranged h → Joining h (once (flagged flags.now)) → result ≡ around h (once (flagged flags.now)) v }
{
    let arcs = adjacency::of_rows(lanes, flags);
    let solid = solid_arcs(lanes, flags);
    let known = [0u64; 64];
    neighbourhood(&arcs, &solid, &known, v)
}

// The tight neighbourhood of each junction, for flagged rows that join the hall: the last junction first, since rows tend to
// lead to later junctions, whose neighbourhoods are known by then.
pub fn neighbourhoods(lanes: &Lanes, flags: &[bool; 256]) -> [u64; 64]
    ensures { (h : Hall) → LanesOf h lanes.now → Ranged h → Joining h (once (flagged flags.now)) → Neighbourhoods h (flagged flags.now) result }
{
    let arcs = adjacency::of_rows(lanes, flags);
    let solid = solid_arcs(lanes, flags);
    let mut sets = [0u64; 64];
    for k in (0..lanes.n).rev() {
        sets[k] = neighbourhood(&arcs, &solid, &sets, k + 1);
    }
    sets
}
