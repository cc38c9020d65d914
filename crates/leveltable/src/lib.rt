// Junctions by their potentials in a table: those of a set at one potential are read off it, or sought one by one.
#![tactic(auto)]

ghost use Rattle.std.specs.Prelude.{◌≡◌, ◌&&◌, cond, ℕ, ◌%◌, ◌^◌, ◌≤◌, ◌<◌, eqb};
ghost use Rattle.laws.specs.Lists.{at};
ghost use Rattle.junctions.specs.Sets.{holds};
ghost use Rattle.leveltable.specs.Levels.{Levels};

use junctions::{Places, lone};

// The junctions of the set whose potential is the value.
fn level(set: u64, potential: &[u64; 64], value: u64) -> u64
    ensures { (y : ℕ) → 1 ≤ y → holds result y ≡ (holds set y && eqb value (at potential.now y)) }
{
    let mut found: u64 = 0;
    for place in Places::of(set) {
        found |= lone(value == potential[place], place);
    }
    found
}

// The key of a potential in a table of 128.
fn key_of(value: u64) -> usize
    ensures { (result ≡ value % 128) × (result < 128) }
{
    (value % 128) as usize
}

// The value of a key from now on: the new one where the key has no junctions yet.
// No option of a value: an empty set marks a free key.
fn settled(set: u64, old: u64, new: u64) -> u64
    ensures { result ≡ cond (eqb set 0) new old }
{
    if set == 0 { new } else { old }
}

// The junctions of each key: the potential that these have, and the set of them.
// Two arrays, and not one of pairs: `Levels` speaks of the two lists, and a write to a field of an element is no plainer.
#[derive(Clone, Copy)]
pub struct LevelTable {
    values: [u64; 128],
    sets: [u64; 128],
}

impl LevelTable {
    // The first n junctions by the keys of their potentials: of potentials with one key the first to come gets it.
    pub fn of(n: usize, potential: &[u64; 64]) -> LevelTable
        requires { n ≤ 64 }
        ensures { Levels n potential.now result.values result.sets }
    {
        let mut table = LevelTable {
            values: [0; 128],
            sets: [0; 128],
        };
        for k in 0..n {
            let value = potential[k];
            let key = key_of(value);
            let kept = settled(table.sets[key], table.values[key], value);
            table.values[key] = kept;
            table.sets[key] |= lone(kept == value, k);
        }
        table
    }

    // The junctions of the set whose potential is the value: by the table where the value has its key, else one by one.
    pub fn same_level(&self, set: u64, potential: &[u64; 64], value: u64) -> u64
        ensures { (n : ℕ) → Levels n potential.now self.now.values self.now.sets → set < 2 ^ n →
            (y : ℕ) → 1 ≤ y → holds result y ≡ (holds set y && eqb value (at potential.now y)) }
    {
        let key = key_of(value);
        if self.values[key] == value {
            set & self.sets[key]
        } else {
            level(set, potential, value)
        }
    }
}
