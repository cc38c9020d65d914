// The shores of a set of junctions, listed: for each class, for each component of the hall without it, what lies outside
// the component. Pieces are found by `digraph` and listed by `shorelist`; what is added is `classes_weigh` of
// specs/Shores.antt, over the pieces of `certificates`.
#![tactic(auto)]

ghost use Rattle.std.specs.Prelude.{◌≡◌, ℕ, ◌^◌, ◌≤◌, ◌<◌, length};
ghost use Rattle.laws.specs.Lists.{at};
ghost use Rattle.certificates.specs.Pieces.{Mutual, inside};
ghost use Rattle.shorelist.specs.Listed.{Fits, Added};
ghost use Rattle.setshores.specs.Shores.{components_weigh, classes_weigh};

use junctions::Junctions;

// The arcs that end in the set.
pub fn within(adjacency: &[u64; 64], set: u64) -> [u64; 64]
    ensures { (length result ≡ 64) × ((j : ℕ) → 1 ≤ j → j ≤ 64 → at result j ≡ inside set (at adjacency.now) j) }
{
    let mut arcs = [0; 64];
    // By the place: with an array's `map` the proof did not close, as a clause knows each call and not that the closure stays the same.
    for k in 0..64 {
        arcs[k] = set & adjacency[k];
    }
    arcs
}

// Adds the weight to what lies outside each component of the hall without the class.
// The columns and the count are parameters as in `shorelist`, for the reason given there.
pub fn add_components(
    n: usize,
    links: &[u64; 64],
    class: u64,
    weight: u32,
    shores: &mut [u64],
    weights: &mut [u32],
    count: usize,
) -> usize
    requires { (n ≤ 64) × (0 < weight) × Mutual n (at links.now) × Fits count shores.old weights.old (components_weigh n (at links.now) class weight) }
    ensures { Added count shores.old weights.old (components_weigh n (at links.now) class weight) result shores.new weights.new }
{
    let all = Junctions::full(n).0;
    let free = all & !class;
    let inside = within(links, free);
    let mut left = free;
    let mut filled = count;
    while left != 0 {
        let component = digraph::reach(&inside, left.trailing_zeros() as usize + 1).set;
        filled = shorelist::add(shores, weights, filled, all & !component, weight);
        left &= !component;
    }
    filled
}

// The same for each class of the set. The walk over pieces is that of `add_components`; what is done with a piece, and what is promised of it, is another.
pub fn add_classes(
    n: usize,
    links: &[u64; 64],
    mates: &[u64; 64],
    set: u64,
    weight: u32,
    shores: &mut [u64],
    weights: &mut [u32],
    count: usize,
) -> usize
    requires { (n ≤ 64) × (0 < weight) × (set < 2 ^ n) × Mutual n (at links.now) × Mutual n (at mates.now) × Fits count shores.old weights.old (classes_weigh n (at links.now) (at mates.now) set weight) }
    ensures { Added count shores.old weights.old (classes_weigh n (at links.now) (at mates.now) set weight) result shores.new weights.new }
{
    let inside = within(mates, set);
    let mut left = set;
    let mut filled = count;
    while left != 0 {
        let class = digraph::reach(&inside, left.trailing_zeros() as usize + 1).set;
        filled = add_components(n, links, class, weight, shores, weights, filled);
        left &= !class;
    }
    filled
}
