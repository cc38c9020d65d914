// The first route with the fewest rows from a junction to another, over rows forward and chosen rows backward.
#![tactic(auto)]

ghost use Rattle.std.specs.Prelude.{◌≡◌, true, cond, List, ℕ, ◌≤◌, ◌<◌, length};
ghost use Rattle.std.proofs.Math.Option.{some};
ghost use Rattle.laws.specs.Lists.{at, in_front};
ghost use Rattle.hall.specs.Hall.{Hall, joins};
ghost use Rattle.routes.specs.Route.{Step, signed, all_signed, ShortestRoute};
ghost use Rattle.routes.specs.Reached.{FewestTo, ArcsOf};
ghost use Rattle.shortest.specs.Steps.{OpenedHall, Noted, RowsOver, Guided};

use columns::Lanes;

// Writes row k for the junction that it leads from, if it leads to one nearer the target, else again what stands there, which makes the loop faster.
fn note(first: &mut [usize; 64], distances: &[u8; 64], k: usize, from: usize, to: usize)
    requires { (length first.old ≡ 64) × (1 ≤ from) × (from ≤ 64) × (1 ≤ to) × (to ≤ 64) }
    ensures { Noted (at distances.now) k from to first.old first.new }
{
    let near = usize::from(digraph::distance(distances, to));
    let far = usize::from(digraph::distance(distances, from));
    let kept = first[from - 1];
    first[from - 1] = if near + 1 == far { k } else { kept };
}

// For each junction the lowest row that leads from it to one nearer the target: the rows are noted from the last to the first.
// Where none does, as at the target, the number is 1 and no route reads it: an Option would only be unwrapped at each step.
fn first_rows(lanes: &Lanes, chosen: &[bool; 256], distances: &[u8; 64]) -> [usize; 64]
    ensures { RowsOver 0 lanes.now chosen.now (at distances.now) result }
{
    let mut first = [1; 64];
    for k in (0..lanes.count).rev() {
        let lane = lanes.lane(k);
        note(&mut first, distances, k + 1, lane.tail + 1, lane.head + 1);
        if chosen[k] {
            note(&mut first, distances, k + 1, lane.head + 1, lane.tail + 1);
        }
    }
    first
}

// A row's number, with a minus where it is run backward.
fn with_sign(k: usize, back: bool) -> i32
    requires { (1 ≤ k) × (k ≤ 256) }
    ensures { result ≡ signed (record { number = k; back = back }) }
{
    if back { -(k as i32) } else { k as i32 }
}

// Fills the list with the rows from a junction on, each the first of its junction.
fn follow(lanes: &Lanes, first: &[usize; 64], from: usize, rows: &mut [i32])
    requires { (h : Hall) × (c : List ℕ) × (b : ℕ) × (D : ℕ → ℕ) × Guided h c b D lanes.now first.now
        × (1 ≤ from) × (from ≤ h.n) × (D from ≡ length rows.old) }
    ensures { (h : Hall) (c : List ℕ) (b : ℕ) (D : ℕ → ℕ) → Guided h c b D lanes.now first.now
        → 1 ≤ from → from ≤ h.n → D from ≡ length rows.old
        → (ss : List Step) × ShortestRoute h c from b ss × (rows.new ≡ all_signed ss) }
{
    let mut here = from - 1;
    for row in rows {
        let k = first[here];
        let lane = lanes.lane(k - 1);
        let back = lane.tail != here;
        *row = with_sign(k, back);
        here = if back { lane.tail } else { lane.head };
    }
}

// The fewest rows from each junction to the target: the reach step from there over the arcs turned round.
fn distances_to(arcs: &[u64; 64], to: usize) -> [u8; 64]
    requires { (1 ≤ to) × (to ≤ 64) }
    ensures { (h : Hall) (c : List ℕ) → ArcsOf h c (at arcs.now) → to ≤ h.n → joins h c ≡ true
        → (x : ℕ) → 1 ≤ x → x ≤ h.n → FewestTo h c x to (some (at result x)) × (at result x < 64) }
{
    digraph::reach(&digraph::turned_round(arcs), to).distances
}

// The route from a junction to another, into the first places of the list; how many rows it has.
pub fn route(
    lanes: &Lanes,
    chosen: &[bool; 256],
    arcs: &[u64; 64],
    from: usize,
    to: usize,
    rows: &mut [i32],
) -> usize
    requires { (1 ≤ from) × (1 ≤ to) × (63 ≤ length rows.old)
        × ((h : Hall) × (c : List ℕ) × OpenedHall h c lanes.now chosen.now arcs.now × (from ≤ h.n) × (to ≤ h.n) × (joins h c ≡ true)) }
    ensures { (h : Hall) (c : List ℕ) → OpenedHall h c lanes.now chosen.now arcs.now
        → from ≤ h.n → to ≤ h.n → joins h c ≡ true
        → (ss : List Step) × ShortestRoute h c from to ss × (result ≡ length ss) × (rows.new ≡ in_front (all_signed ss) rows.old) }
{
    let distances = distances_to(arcs, to);
    let first = first_rows(lanes, chosen, &distances);
    let distance = usize::from(digraph::distance(&distances, from));
    follow(lanes, &first, from, &mut rows[..distance]);
    distance
}
