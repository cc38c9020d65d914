// The adjacency of a set of rows: one pass over the columns of a hall.
#![tactic(auto)]

ghost use Rattle.hall.specs.Hall.{Hall};
ghost use Rattle.columns.specs.Columns.{Arcs, flagged};
ghost use Rattle.columns.specs.Lanes.{LanesOf};

use columns::Lanes;

// For each junction the junctions that arcs lead to: every row forward, the flagged ones backward too.
pub fn of_rows(lanes: &Lanes, flags: &[bool; 256]) -> [u64; 64]
    ensures { (h : Hall) → LanesOf h lanes.now → Arcs h (flagged flags.now) result }
{
    let mut sets = [0u64; 64];
    for k in 0..lanes.count {
        let lane = lanes.lane(k);
        sets[lane.tail] |= 1 << lane.head;
        if flags[k] {
            sets[lane.head] |= 1 << lane.tail;
        }
    }
    sets
}
