// Choices of rows: whether a list of numbers is one, rows as flags, and which junctions do not reach all.
#![tactic(auto)]

ghost use Rattle.std.specs.Prelude.{◌≡◌, true, false, not, List, ℕ, suc, ◌-◌, ◌^◌, ◌≤◌, ◌<◌, length, get_or};
ghost use Rattle.laws.specs.Finite.{any_below};
ghost use Rattle.laws.specs.Lists.{all_in, at};
ghost use Rattle.junctions.specs.Sets.{full};
ghost use Rattle.digraph.specs.Closure.{closure};
ghost use Rattle.hall.specs.Hall.{Hall, count, ascends_from, is_choice, member, missed};
ghost use Rattle.dicuts.specs.Shores.{Ranged};
ghost use Rattle.columns.specs.Columns.{Marks, flagged};
ghost use Rattle.columns.specs.Lanes.{LanesOf};
ghost use Rattle.choice.specs.Short.{ArcsInside, short_from, shore_of};

use columns::Lanes;
use junctions::Junctions;

// The numbers ascend strictly from 1 up to the limit.
pub fn ascends(numbers: &[u32], limit: u32) -> bool
    requires { limit ≤ 256 }
    ensures { result ≡ ascends_from 1 limit numbers.now }
{
    let mut least = 1;
    for &number in numbers {
        if number < least || limit < number {
            return false;
        }
        least = number + 1;
    }
    true
}

// The flag of each row, row i at place i - 1.
pub fn flags(numbers: &[u32]) -> [bool; 256]
    requires { ascends_from 1 256 numbers.now ≡ true }
    ensures { (length result ≡ 256) × ((k : ℕ) → k < 256 → get_or result k false ≡ member (suc k) numbers.now) }
{
    let mut chosen = [false; 256];
    for &number in numbers {
        chosen[number as usize - 1] = true;
    }
    chosen
}

// No listed row is flagged.
fn none_flagged(numbers: &[u32], flags: &[bool; 256]) -> bool
    requires { ascends_from 1 256 numbers.now ≡ true }
    ensures { result ≡ all_in (λ (i : ℕ). not (flagged flags.now i)) numbers.now }
{
    for &number in numbers {
        if flags[number as usize - 1] {
            return false;
        }
    }
    true
}

// The numbers are a choice of a hall's rows: they ascend, and no row of them is fixed.
pub fn is_choice(numbers: &[u32], rows: u32, fixed: &[bool; 256]) -> bool
    requires { rows ≤ 256 }
    ensures { (h : Hall) → count h ≡ rows → Marks h fixed.now → result ≡ is_choice h numbers.now }
{
    ascends(numbers, rows) && none_flagged(numbers, fixed)
}

// Some row is flagged. It looks at every place, with no way out at the first: so the compiler joins many in a step.
pub fn any_flagged(flags: &[bool; 256]) -> bool
    ensures { result ≡ any_below 256 (λ (k : ℕ). get_or flags.now k false) }
{
    let mut any = false;
    for k in 0..256 {
        any |= flags[k];
    }
    any
}

// The rows that are not flagged, flagged.
pub fn unflagged(flags: &[bool; 256]) -> [bool; 256]
    ensures { (length result ≡ 256) × ((k : ℕ) → k < 256 → get_or result k false ≡ not (get_or flags.now k false)) }
{
    let mut others = [false; 256];
    for k in 0..256 {
        others[k] = !flags[k];
    }
    others
}

// What the lowest of the junctions 1 to n that does not reach all reaches; none where each reaches all.
// The junctions before one are known to reach all: a search that meets one of them need not go on.
pub fn shortfall(adjacency: &[u64; 64], n: usize) -> Option<Junctions>
    requires { (n ≤ 64) × ArcsInside n (at adjacency.now) }
    ensures { shore_of result ≡ short_from n 1 (full n) (λ (j : ℕ). closure n (at adjacency.now) (2 ^ (j - 1))) }
{
    let all = Junctions::full(n).0;
    for j in 0..n {
        let here: u64 = 1 << j;
        let known = here - 1;
        let reached = digraph::reach_until(adjacency, j + 1, 0, known).set;
        if reached & known == 0 && reached != all {
            return Some(Junctions(reached));
        }
    }
    None
}

// The shore that a choice of a hall's rows misses; none where it joins.
pub fn missed_shore(lanes: &Lanes, chosen: &[bool; 256]) -> Option<Junctions>
    requires { (h : Hall) × LanesOf h lanes.now }
    ensures { (h : Hall) (c : List ℕ) → LanesOf h lanes.now → Ranged h
        → ((i : ℕ) → 1 ≤ i → i ≤ lanes.now.count → flagged chosen.now i ≡ member i c) → shore_of result ≡ missed h c }
{
    let arcs = adjacency::of_rows(lanes, chosen);
    shortfall(&arcs, lanes.n)
}
