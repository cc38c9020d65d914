// Sets of junctions and of rows as numbers, junction j and row j at bit j - 1; the unfixed rows, and the rows that enter a set.
ghost use Rattle.std.specs.Prelude.{◌≤◌, ◌<◌, length};

use smallhalls::Row;

// Two to the power k: how many sets k things have.
#[tactic(auto, using(crate::proofs::Powers::sets_of_few))]
pub fn subsets(k: usize) -> u64
    requires { k ≤ 10 }
    ensures { (1 ≤ result) × (result ≤ 1024) × (k ≤ 6 → result ≤ 64) }
{
    1 << k
}

// The set of all junctions.
pub fn whole(n: usize) -> u64
    requires { n ≤ 6 }
    ensures { result < 64 }
{
    subsets(n) - 1
}

// The set of one junction alone.
fn single(j: u8) -> u64 {
    match j {
        1 => 1,
        2 => 2,
        3 => 4,
        4 => 8,
        5 => 16,
        6 => 32,
        _ => 0,
    }
}

// Not `junctions::has`: what judges the library calls nothing of it.
pub fn has(set: u64, j: u8) -> bool {
    set & single(j) != 0
}

pub fn enters(set: u64, from: u8, to: u8) -> bool {
    has(set, to) && !has(set, from)
}

// The rows that may be opened: all but the fixed ones.
pub fn unfixed(rows: &[Row]) -> u64
    requires { length rows.now ≤ 64 }
{
    let mut unfixed = 0;
    for (i, row) in rows.iter().enumerate() {
        if row.price.is_some() {
            unfixed |= 1 << i;
        }
    }
    unfixed
}

// The rows that enter a set; none of them where a row leaves it, for then it is no directed cut.
pub fn cut_of(rows: &[Row], set: u64) -> Option<u64>
    requires { length rows.now ≤ 64 }
{
    let mut entering = 0;
    for (i, row) in rows.iter().enumerate() {
        if enters(set, row.to, row.from) {
            return None;
        }
        if enters(set, row.from, row.to) {
            entering |= 1 << i;
        }
    }
    Some(entering)
}
