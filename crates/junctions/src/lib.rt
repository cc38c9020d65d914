// Sets of junctions 1 to 64, as the bits of a word: junction j is bit j - 1.
#![tactic(auto)]

ghost use Rattle.std.specs.Prelude.{◌≡◌, ◌&&◌, ℕ, suc, ◌≤◌, ◌<◌, eqb};
ghost use Rattle.std.specs.Int.Bits.{bit_or};
ghost use Rattle.std.specs.Int.Count.{count_trailing_zeros};
ghost use Rattle.std.specs.Iterator.{at_most};
ghost use Rattle.junctions.specs.Sets.{holds, full};
ghost use Rattle.junctions.specs.Taking.{TakesLowest};

#[derive(Clone, Copy, PartialEq, Eq, Debug)]
pub struct Junctions(pub u64);

impl Junctions {
    pub const EMPTY: Junctions = Junctions(0);

    // The junctions 1 to n.
    pub fn full(n: usize) -> Junctions
        requires { n ≤ 64 }
        ensures { result.0 ≡ full n }
    {
        if n == 64 {
            Junctions(u64::MAX)
        } else {
            Junctions((1 << n) - 1)
        }
    }

    // A junction is a plain number from 1, here and above: a type for it would be made anew of a loop's index at each call, where the check finds the bounds alone.
    pub fn holds(self, j: usize) -> bool
        requires { (1 ≤ j) × (j ≤ 64) }
        ensures { result ≡ holds self.0 j }
    {
        has(self.0, j - 1)
    }
}

// The place of the set's lowest junction.
fn lowest(set: u64) -> usize
    requires { 0 < set }
    ensures { (result ≡ count_trailing_zeros 64 set) × (result < 64) }
{
    set.trailing_zeros() as usize
}

// The set of the junction at a place where it is there, else the empty set.
// A flag beside a place: as a bit that is moved, since every row of a zero graph makes two such sets.
pub fn lone(there: bool, place: usize) -> u64
    requires { place < 64 }
    ensures { (i : ℕ) → 1 ≤ i → holds result i ≡ (there && eqb i (suc place)) }
{
    u64::from(there) << place
}

// The set holds the junction at a place.
pub fn has(set: u64, place: usize) -> bool
    requires { place < 64 }
    ensures { result ≡ holds set (suc place) }
{
    (set >> place) % 2 == 1
}

// The places of a set's junctions, from 0, the lowest first.
#[derive(Clone, Copy)]
pub struct Places {
    left: u64,
}

impl Places {
    pub fn of(set: u64) -> Places
        ensures { result.left ≡ set }
    {
        Places { left: set }
    }

    // The places of more junctions too.
    pub fn add(&mut self, more: u64)
        ensures { self.new.left ≡ bit_or self.old.left more }
    {
        self.left |= more;
    }
}

impl Iterator for Places {
    type Item = usize;

    ghost next_gives = { TakesLowest };

    ghost remaining = { λ s. at_most s.left };

    fn next(&mut self) -> Option<usize> {
        if self.left == 0 {
            return None;
        }
        let place = lowest(self.left);
        self.left &= self.left - 1;
        Some(place)
    }
}
