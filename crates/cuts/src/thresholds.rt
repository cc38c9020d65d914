// The cuts of a potential: the shores of its upper sets, equal ones at once.
ghost use Rattle.std.specs.Prelude.{Bool, ℕ, ◌^◌, ◌≤◌, ◌<◌, length};
ghost use Rattle.laws.specs.Lists.{at};
ghost use Rattle.hall.specs.Hall.{Hall};
ghost use Rattle.dicuts.specs.Shores.{once};
ghost use Rattle.certificates.specs.Pieces.{Mutual};
ghost use Rattle.certificates.specs.Cuts.{cuts};
ghost use Rattle.shorelist.specs.Listed.{Fits, Added};
ghost use Rattle.cuts.specs.Beside.{BesideRows};
ghost use Rattle.cuts.specs.Filled.{FilledWith};
ghost use Rattle.cuts.specs.Thresholds.{levels_weigh, UnderTop};

use crate::sets;
use setshores::add_classes;

// Adds the shores of every threshold, each with its weight. Returns how many places are filled.
// The lent columns are parameters as in `shorelist`, for the reason given there.
pub fn add_thresholds(
    n: usize,
    links: &[u64; 64],
    mates: &[u64; 64],
    potential: &[u64; 64],
    shores: &mut [u64],
    weights: &mut [u32],
) -> usize
    requires { (n ≤ 64) × Mutual n (at links.now) × Mutual n (at mates.now)
        × ((top : ℕ) × (top < 2 ^ 32) × UnderTop n (at potential.now) top × Fits 0 shores.old weights.old (levels_weigh n (at links.now) (at mates.now) (at potential.now) top)) }
    ensures { (top : ℕ) → UnderTop n (at potential.now) top →
        Added 0 shores.old weights.old (levels_weigh n (at links.now) (at mates.now) (at potential.now) top) result shores.new weights.new }
{
    let mut low = 0;
    let mut filled = 0;
    while let Some(next) = sets::next_value(potential, n, low) {
        let set = sets::upper_set(potential, n, next);
        filled = add_classes(
            n,
            links,
            mates,
            set,
            (next - low) as u32,
            shores,
            weights,
            filled,
        );
        low = next;
    }
    filled
}

// The cuts of the potential, by shore, into the first places. Returns how many there are.
pub fn fill(
    n: usize,
    links: &[u64; 64],
    around: &[u64; 64],
    potential: &[u64; 64],
    shores: &mut [u64],
    weights: &mut [u32],
) -> usize
    requires { (n ≤ 64) × (125 ≤ length shores.old) × (125 ≤ length weights.old) × ((h : Hall) × (F : ℕ → Bool) × BesideRows h F n links.now around.now potential.now) }
    ensures { (h : Hall) (F : ℕ → Bool) → BesideRows h F n links.now around.now potential.now → (top : ℕ) → UnderTop n (at potential.now) top →
        FilledWith (cuts h (once F) (at potential.now) top) shores.old weights.old result shores.new weights.new }
{
    let mates = sets::mates(around, n);
    add_thresholds(n, links, &mates, potential, shores, weights)
}
