// Sets of junctions that the cuts are made from, and the values of a potential.
ghost use Rattle.std.specs.Prelude.{◌≡◌, Bool, ℕ, suc, ◌+◌, ◌≤◌, ◌<◌, length};
ghost use Rattle.laws.specs.Lists.{at};
ghost use Rattle.junctions.specs.Sets.{holds, gather};
ghost use Rattle.certificates.specs.Cuts.{upper};
ghost use Rattle.cuts.specs.Thresholds.{mates_by, NextFound};

use junctions::Junctions;

// The junctions whose potential is at least the threshold.
pub fn upper_set(potential: &[u64; 64], n: usize, threshold: u64) -> u64
    requires { n ≤ 64 }
    ensures { result ≡ upper n (at potential.now) threshold }
{
    let mut set = 0;
    for k in 0..n {
        if threshold <= potential[k] {
            set |= 1 << k;
        }
    }
    set
}

// The junctions of 1 to n whose set holds junction a: a column of bits, with no branch.
fn holders(around: &[u64; 64], n: usize, a: usize) -> u64
    requires { (n ≤ 64) × (1 ≤ a) × (a ≤ 64) }
    ensures { result ≡ gather n (λ (b : ℕ). holds (at around.now b) a) }
{
    let place = a - 1;
    let mut set = 0;
    for k in 0..n {
        set |= ((around[k] >> place) % 2) << k;
    }
    set
}

// The mates of junction a.
pub fn mates_of(around: &[u64; 64], n: usize, a: usize) -> u64
    requires { (n ≤ 64) × (1 ≤ a) × (a ≤ 64) }
    ensures { result ≡ mates_by n (at around.now) a }
{
    let own = Junctions::full(n).0 & around[a - 1];
    own | holders(around, n, a)
}

// The mates of each junction.
pub fn mates(around: &[u64; 64], n: usize) -> [u64; 64]
    requires { n ≤ 64 }
    ensures { (length result ≡ 64) × ((a : ℕ) → 1 ≤ a → a ≤ n → at result a ≡ mates_by n (at around.now) a) }
{
    let mut sets = [0; 64];
    for k in 0..n {
        sets[k] = mates_of(around, n, k + 1);
    }
    sets
}

// The better of the next value so far and one more value.
pub fn nearer(low: u64, best: Option<u64>, value: u64) -> Option<u64>
    ensures { (p : ℕ → ℕ) (k : ℕ) → value ≡ p (suc k) → NextFound k p low best → NextFound (k + 1) p low result }
{
    if value <= low {
        return best;
    }
    match best {
        Some(near) if near <= value => best,
        _ => Some(value),
    }
}

// The next value over `low` that the potential takes, if there is one.
pub fn next_value(potential: &[u64; 64], n: usize, low: u64) -> Option<u64>
    requires { n ≤ 64 }
    ensures { NextFound n (at potential.now) low result }
{
    let mut best = None;
    for k in 0..n {
        best = nearer(low, best, potential[k]);
    }
    best
}
