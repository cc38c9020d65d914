// A joining choice to start from: of rows that join each is dropped, dearest first, if the others still join.
// It stands on the order of the rows (`dearest`), their arcs (`adjacency`, `tight`) and what these reach (`digraph`); `Joining` is that of `dicuts`.
#![tactic(auto)]

ghost use Rattle.std.specs.Prelude.{◌≡◌, true, ℕ, suc, ◌≤◌, ◌<◌};
ghost use Rattle.laws.specs.Lists.{at};
ghost use Rattle.junctions.specs.Sets.{holds};
ghost use Rattle.digraph.specs.Reach.{Closed};
ghost use Rattle.hall.specs.Hall.{Hall};
ghost use Rattle.dicuts.specs.Shores.{Ranged, once, Joining};
ghost use Rattle.columns.specs.Columns.{flagged};
ghost use Rattle.columns.specs.Lanes.{LanesOf};
ghost use Rattle.pruning.specs.Backed.{Backed, Forward};
ghost use Rattle.pruning.specs.Start.{Among};

use columns::{Lane, Lanes};
use junctions::has;

// Whether the target is reached from the start.
fn leads(arcs: &[u64; 64], start: usize, target: usize) -> bool
    requires { (1 ≤ start) × (start ≤ 64) × (1 ≤ target) × (target ≤ 64) }
    ensures { result ≡ true → (t : ℕ) → holds t start ≡ true → Closed 64 (at arcs.now) t → holds t target ≡ true }
{
    let goal = 1 << (target - 1);
    digraph::reach_until(arcs, start, 0, goal).set & goal != 0
}

// Whether one of the rows runs from the tail of the row at place k to its head. All bytes, so that many rows are compared at once.
fn backed(lanes: &Lanes, rows: &[bool; 256], k: usize) -> bool
    requires { k < lanes.now.count }
    ensures { (h : Hall) → LanesOf h lanes.now → result ≡ true → Backed h (flagged rows.now) (suc k) }
{
    let tail = lanes.tails[k];
    let head = lanes.heads[k];
    let mut found = false;
    for i in 0..lanes.count {
        found |= rows[i] & ((lanes.heads[i] == head) & (lanes.tails[i] == tail));
    }
    found
}

// The set without the junction at a place.
fn without(set: u64, place: usize) -> u64
    requires { place < 64 }
    ensures { (y : ℕ) → 1 ≤ y → holds result y ≡ true → (holds set y ≡ true) × (y ≡ suc place → ⊥) }
{
    set & !(1 << place)
}

// What is known of arcs before any row is dropped: those of `forward` run from a row's tail to its head, and stay; only those of `twice`
// are made by two rows.
#[derive(Clone, Copy)]
struct Known<'a> {
    lanes: &'a Lanes,
    forward: [u64; 64],
    twice: [u64; 64],
    ghost forward_are: { Forward lanes.now forward },
}

impl Known<'_> {
    // Whether the arc from the head of the row at place k to its tail is there without that row: a row runs that way, or of the rows given
    // another makes it.
    fn stays(&self, rows: &[bool; 256], k: usize) -> bool
        requires { k < self.now.lanes.now.count }
        ensures { (h : Hall) → LanesOf h self.now.lanes.now → result ≡ true → Backed h (flagged rows.now) (suc k) }
    {
        let Lane { tail, head } = self.lanes.lane(k);
        has(self.forward[head], tail) || has(self.twice[head], tail) && backed(self.lanes, rows, k)
    }
}

// Of rows that join a hall some that still join it.
pub fn start(lanes: &Lanes, costs: &[u64; 256], rows: [bool; 256]) -> [bool; 256]
    ensures among { Among result rows }
    ensures joining { (h : Hall) → LanesOf h lanes.now → Ranged h → Joining h (once (flagged rows)) → Joining h (once (flagged result)) }
{
    let order = dearest::dearest_first(lanes.count, costs);
    let known = Known {
        lanes,
        forward: adjacency::of_rows(lanes, &[false; 256]),
        twice: tight::solid_arcs(lanes, &rows),
    };
    let mut arcs = adjacency::of_rows(lanes, &rows);
    let mut left = rows;
    for &place in &order[..lanes.count] {
        let k = usize::from(place);
        if !left[k] {
            continue;
        }
        let Lane { tail, head } = lanes.lane(k);
        let found = arcs[head];
        left[k] = false;
        arcs[head] = if known.stays(&left, k) {
            found
        } else {
            without(found, tail)
        };
        if !leads(&arcs, head + 1, tail + 1) {
            left[k] = true;
            arcs[head] = found;
        }
    }
    left
}
