// The cuts that a joining choice and its potential give, with their weights, and the levels. They are listed by
// `setshores`, threshold by threshold, and levelled by `levels`; `fill` gives exactly the `cuts` of `certificates`.
#![tactic(auto)]

pub mod sets;
pub mod thresholds;

ghost use Rattle.std.specs.Prelude.{Bool, ℕ, ◌≤◌, length};
ghost use Rattle.laws.specs.Lists.{at};
ghost use Rattle.hall.specs.Hall.{Hall};
ghost use Rattle.dicuts.specs.Shores.{once};
ghost use Rattle.certificates.specs.Cuts.{cuts};
ghost use Rattle.levels.specs.Levels.{Levelled};
ghost use Rattle.cuts.specs.Beside.{BesideRows};
ghost use Rattle.cuts.specs.Thresholds.{UnderTop};
ghost use Rattle.cuts.specs.Filled.{FilledWith};

// The cuts of the potential and the levels of the junctions. Returns how many cuts there are.
// The three lent lists are parameters, as the calls of the C interface have them.
pub fn fill(
    n: usize,
    links: &[u64; 64],
    around: &[u64; 64],
    potential: &[u64; 64],
    shores: &mut [u64],
    weights: &mut [u32],
    levels: &mut [i32],
) -> usize
    requires { (n ≤ 64) × (125 ≤ length shores.old) × (125 ≤ length weights.old) × (n ≤ length levels.old)
        × ((h : Hall) × (F : ℕ → Bool) × BesideRows h F n links.now around.now potential.now) }
    ensures { (h : Hall) (F : ℕ → Bool) → BesideRows h F n links.now around.now potential.now → (top : ℕ) → UnderTop n (at potential.now) top →
        FilledWith (cuts h (once F) (at potential.now) top) shores.old weights.old result shores.new weights.new
        × Levelled (cuts h (once F) (at potential.now) top) n levels.old levels.new }
{
    let count = thresholds::fill(n, links, around, potential, shores, weights);
    levels::fill(n, &shores[..count], &weights[..count], levels);
    count
}
