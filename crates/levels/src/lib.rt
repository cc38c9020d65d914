// The levels of listed cuts: for each junction the weights of the shores that hold it, less those of the shores that
// hold junction 1. Sums and differences are those of `hall`; `Levelled` of specs/Levels.antt says every place.
#![tactic(auto)]

ghost use Rattle.std.specs.Prelude.{◌≡◌, cond, ◌+◌, ◌^◌, ◌≤◌, ◌<◌, length};
ghost use Rattle.junctions.specs.Sets.{holds};
ghost use Rattle.hall.specs.Plan.{level_sum, difference};
ghost use Rattle.shorelist.specs.Listed.{place_of};
ghost use Rattle.levels.specs.Levels.{cuts_in, Near, Levelled};

use junctions::Junctions;

// The weight of a shore that holds the junction, else 0.
pub fn share(shore: u64, weight: u32, j: usize) -> u64
    requires { (1 ≤ j) × (j ≤ 64) }
    ensures { (result ≡ cond (holds shore j) weight 0) × (result < 2 ^ 32) }
{
    if Junctions(shore).holds(j) {
        u64::from(weight)
    } else {
        0
    }
}

// The weights of the shores that hold the junction, together.
pub fn level_sum(shores: &[u64], weights: &[u32], j: usize) -> u64
    requires pairs { length shores.now ≡ length weights.now }
    requires few { length shores.now ≤ 125 }
    requires junction { (1 ≤ j) × (j ≤ 64) }
    ensures { result ≡ level_sum j (cuts_in (length shores.now) 0 (place_of shores.now) (place_of weights.now)) }
{
    let mut sum = 0;
    for (shore, weight) in shores.iter().zip(weights) {
        sum += share(*shore, *weight, j);
    }
    sum
}

// One number less another, signed.
pub fn less(a: u64, b: u64) -> i32
    requires { (a < b + 2 ^ 31) × (b < a + 2 ^ 31) }
    ensures { result ≡ difference a b }
{
    if b <= a {
        (a - b) as i32
    } else {
        -((b - a) as i32)
    }
}

// The levels of junctions 1 to n into the first n places.
pub fn fill(n: usize, shores: &[u64], weights: &[u32], levels: &mut [i32])
    requires pairs { length shores.now ≡ length weights.now }
    requires few { length shores.now ≤ 125 }
    requires room { (n ≤ 64) × (n ≤ length levels.old) }
    requires near { Near n (cuts_in (length shores.now) 0 (place_of shores.now) (place_of weights.now)) }
    ensures { Levelled (cuts_in (length shores.now) 0 (place_of shores.now) (place_of weights.now)) n levels.old levels.new }
{
    let base = level_sum(shores, weights, 1);
    for k in 0..n {
        levels[k] = less(level_sum(shores, weights, k + 1), base);
    }
}
