// What a junction reaches even without any one frail arc, as a set that grows: by solid arcs, by second arcs, by sets that
// are known, and by junctions in which two searches from it meet.
#![tactic(auto)]

ghost use Rattle.std.specs.Prelude.{◌≡◌, true, false, ℕ, ◌≤◌};
ghost use Rattle.std.specs.Int.Bits.{bit_or};
ghost use Rattle.laws.specs.Lists.{at};
ghost use Rattle.junctions.specs.Sets.{holds, Within};
ghost use Rattle.growth.specs.Robust.{RobustSet};
ghost use Rattle.growth.specs.Growth.{Known, Growing, Meeting};

use junctions::Places;

// A set, and the junctions that arcs from it lead to.
#[derive(Clone, Copy)]
struct Grown {
    set: u64,
    once: u64,
}

impl Grown {
    // The set with more junctions, and with all that solid arcs, second arcs and known sets then add.
    // The three arrays are no struct: only `neighbourhood` hands them on, and its callers have them one by one.
    fn grow(self, arcs: &[u64; 64], solid: &[u64; 64], known: &[u64; 64], more: u64) -> Grown
        ensures { Within (bit_or self.set more) result.set × ((v : ℕ) → Known (at arcs.now) (at solid.now) (at known.now) →
            Growing (at arcs.now) (at solid.now) v (bit_or self.set more) more self.once →
            Growing (at arcs.now) (at solid.now) v result.set 0 result.once) }
    {
        let mut set = self.set | more;
        let mut once = self.once;
        let mut todo = Places::of(more);
        while let Some(x) = todo.next() {
            let sure = (arcs[x] & (solid[x] | once)) | known[x];
            todo.add(sure & !set);
            set |= sure;
            once |= arcs[x];
        }
        Grown { set, once }
    }
}

// Junctions in which the searches from two heads meet; none where these searches keep apart.
// A set, not an option: 0 is the empty set.
fn meeting(arcs: &[u64; 64], set: u64, heads: u64) -> u64
    requires { (y : ℕ) → 1 ≤ y → holds heads y ≡ true → holds set y ≡ false }
    ensures { Meeting (at arcs.now) set heads result }
{
    let mut other: u64 = 0;
    for place in Places::of(heads) {
        let held = digraph::reach_until(arcs, place + 1, set, other).set;
        let met = held & other;
        if met != 0 {
            return met;
        }
        other |= held;
    }
    0
}

// The junctions that v reaches even without any one arc that is not solid, where the known sets hold such junctions only.
pub fn neighbourhood(arcs: &[u64; 64], solid: &[u64; 64], known: &[u64; 64], v: usize) -> u64
    requires { (1 ≤ v) × (v ≤ 64) }
    ensures { Known (at arcs.now) (at solid.now) (at known.now) →
        RobustSet (at arcs.now) (at solid.now) v result }
{
    let mut grown = Grown { set: 0, once: 0 };
    let mut met: u64 = 1 << (v - 1);
    while met != 0 {
        grown = grown.grow(arcs, solid, known, met);
        met = meeting(arcs, grown.set, grown.once & !grown.set);
    }
    grown.set
}
