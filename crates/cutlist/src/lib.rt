// Cuts in a lent list: a junction set and a weight together.
#![tactic(auto)]

ghost use Rattle.std.specs.Prelude.{◌≡◌, ◌≤◌, length};
ghost use Rattle.laws.specs.Lists.{in_front};
ghost use Rattle.cutlist.specs.Cuts.{lent_cuts};

use junctions::Junctions;

#[derive(Clone, Copy, PartialEq, Eq, Debug)]
pub struct Cut {
    pub shore: Junctions,
    pub weight: u32,
}

// The cuts of a list of shores and a list of weights fill the first places; the others are as they were.
pub fn write_cuts(cuts: &mut [Cut], shores: &[u64], weights: &[u32])
    requires pairs { length shores.now ≡ length weights.now }
    requires room { length shores.now ≤ length cuts.old }
    ensures { cuts.new ≡ in_front (lent_cuts shores.now weights.now) cuts.old }
{
    // By the place: with `iter_mut` in a zip the proof did not close, as nothing is known of the slice after it.
    for k in 0..shores.len() {
        cuts[k] = Cut {
            shore: Junctions(shores[k]),
            weight: weights[k],
        };
    }
}
