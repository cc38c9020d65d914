// What is reached over an adjacency of up to 64 junction sets, and with how many arcs.
#![tactic(auto)]

ghost use Rattle.std.specs.Prelude.{◌≡◌, ℕ, ◌-◌, ◌^◌, ◌≤◌, length, replicate};
ghost use Rattle.std.specs.Int.Bits.{bit_or};
ghost use Rattle.laws.specs.Lists.{at};
ghost use Rattle.junctions.specs.Sets.{holds};
ghost use Rattle.digraph.specs.Closure.{arc_from};
ghost use Rattle.digraph.specs.Paths.{TurnedRound};
ghost use Rattle.digraph.specs.Layers.{Marked, Before, before_test};
ghost use Rattle.digraph.specs.Search.{Reached, Searched};

use junctions::Places;

// The junctions that the arcs of junction j lead to.
// This and `distance` differ in type alone: `at` speaks of lists of numbers, and a generic read would need a word of its own.
pub fn arcs(adjacency: &[u64; 64], j: usize) -> u64
    requires { (1 ≤ j) × (j ≤ 64) }
    ensures { result ≡ at adjacency.now j }
{
    adjacency[j - 1]
}

// Writes d for each junction of the set.
fn mark(distances: &mut [u8; 64], set: u64, d: u8)
    requires { length distances.old ≡ 64 }
    ensures { Marked distances.old distances.new set (λ (_ : ℕ). d) }
{
    for place in Places::of(set) {
        distances[place] = d;
    }
}

// Writes d for each junction of the layer, and gives the junctions that arcs from it lead to.
fn expand(adjacency: &[u64; 64], layer: u64, d: u8, distances: &mut [u8; 64]) -> u64
    requires { length distances.old ≡ 64 }
    ensures { Marked distances.old distances.new layer (λ (_ : ℕ). d) × ((y : ℕ) → holds result y ≡ arc_from 64 (at adjacency.now) layer y) }
{
    let mut found: u64 = 0;
    for place in Places::of(layer) {
        distances[place] = d;
        found |= adjacency[place];
    }
    found
}

// What a search holds, and the fewest arcs to each junction of that: 64 at the others.
// A distance of 64 where nothing is held: a place of a list, not an option, since callers walk it by numbers below 64.
#[derive(Clone, Copy)]
pub struct Search {
    pub set: u64,
    pub distances: [u8; 64],
}

// A search from the start that avoids a set, until it meets the goal: the junctions that it holds, each with the fewest arcs to it.
// These are all that are nearer than the goal, and those of the goal that are nearest.
pub fn reach_until(adjacency: &[u64; 64], start: usize, set: u64, goal: u64) -> Search
    requires { (1 ≤ start) × (start ≤ 64) }
    ensures { Searched 64 (at adjacency.now) start set goal result.set (replicate 64 64) result.distances }
{
    let mut distances = [64u8; 64];
    let mut layer: u64 = 1 << (start - 1);
    let mut done: u64 = 0;
    let mut d: u8 = 0;
    // No `for` over d: what ends the loop is the layer at hand.
    while (layer != 0) & (layer & goal == 0) {
        let found = expand(adjacency, layer, d, &mut distances);
        done |= layer;
        layer = found & !(set | done);
        d += 1;
    }
    let met = layer & goal;
    mark(&mut distances, met, d);
    Search {
        set: done | met,
        distances,
    }
}

// The junctions that arcs from the start lead to, each with the fewest arcs to it.
pub fn reach(adjacency: &[u64; 64], start: usize) -> Search
    requires { (1 ≤ start) × (start ≤ 64) }
    ensures { Reached 64 (at adjacency.now) start result.set (replicate 64 64) result.distances }
{
    reach_until(adjacency, start, 0, 0)
}

// Puts junction x into the set of each junction of `into`.
fn put_into(sets: &mut [u64; 64], into: u64, x: usize)
    requires { (length sets.old ≡ 64) × (1 ≤ x) × (x ≤ 64) }
    ensures { Marked sets.old sets.new into (λ (s : ℕ). bit_or s (2 ^ (x - 1))) }
{
    let own: u64 = 1 << (x - 1);
    for place in Places::of(into) {
        sets[place] |= own;
    }
}

// The arcs turned round: for each junction the junctions whose arcs lead to it.
pub fn turned_round(adjacency: &[u64; 64]) -> [u64; 64]
    ensures { TurnedRound 64 (at adjacency.now) (at result) }
{
    let mut back = [0u64; 64];
    for x in 1..=64 {
        let into = arcs(adjacency, x);
        put_into(&mut back, into, x);
    }
    back
}

// The distance of junction j: a twin of `arcs`, see there.
pub fn distance(distances: &[u8; 64], j: usize) -> u8
    requires { (1 ≤ j) × (j ≤ 64) }
    ensures { result ≡ at distances.now j }
{
    distances[j - 1]
}

// Whether junction x is one arc before y, and one less far.
pub fn is_before<'a>(adjacency: &'a [u64; 64], distances: &'a [u8; 64], y: usize, x: usize) -> bool
    requires { (1 ≤ y) × (y ≤ 64) × (1 ≤ x) × (x ≤ 64) }
    ensures { result ≡ before_test (at adjacency.now) (at distances.now) y x }
{
    let near = usize::from(distance(distances, x));
    let far = usize::from(distance(distances, y));
    near + 1 == far && junctions::has(arcs(adjacency, x), y - 1)
}

// A junction one arc before y, and one less far, where there is one. Arcs and distances stay two parameters: the one is of a graph, the other of a search.
pub fn before<'a>(adjacency: &'a [u64; 64], distances: &'a [u8; 64], y: usize) -> usize
    requires { (1 ≤ y) × (y ≤ 64) × ((x : ℕ) × Before 64 (at adjacency.now) (at distances.now) y x) }
    ensures { Before 64 (at adjacency.now) (at distances.now) y result }
{
    (1..65)
        .find(|x| is_before(adjacency, distances, y, *x))
        .unwrap()
}
