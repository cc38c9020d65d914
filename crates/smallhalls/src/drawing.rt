// Small halls: every one of a size, by its number, and random ones.
ghost use Rattle.std.specs.Prelude.{◌≡◌, ◌≤◌, IfSome};

use crate::{Row, Rows, Small};

// The next of a sequence of numbers, by three shifts: the same in every run.
fn next_of(x: u64) -> u64 {
    let a = x ^ (x << 13);
    let b = a ^ (a >> 7);
    b ^ (b << 17)
}

// Two junctions of the first n, by a code; the same one twice for a loop.
fn ends_of(n: u64, code: u64) -> (u8, u8)
    requires { (1 ≤ n) × (n ≤ 6) }
{
    ((code % n + 1) as u8, (code / n % n + 1) as u8)
}

// Halls of so many junctions and rows, each row fixed or of a price below a bound.
#[derive(Clone, Copy)]
pub struct Size {
    pub n: usize,
    pub rows: usize,
    pub prices: u64,
    ghost small: { (1 ≤ n) × (n ≤ 6) × (rows ≤ 10) × (1 ≤ prices) × (prices ≤ 255) },
}

impl Size {
    pub fn of(n: usize, rows: usize, prices: u64) -> Size
        requires { (1 ≤ n) × (n ≤ 6) × (rows ≤ 10) × (1 ≤ prices) × (prices ≤ 255) }
        ensures { (result.n ≡ n) × (result.rows ≡ rows) × (result.prices ≡ prices) }
    {
        Size { n, rows, prices }
    }

    // The hall of a number: its digits, in the base of how many rows can be drawn, are the rows.
    // There is none of a number that has more digits than the hall has rows.
    pub fn hall(self, number: u64) -> Option<Small>
        ensures { IfSome result (λ hall. (hall.n ≡ self.n) × (hall.rows.count ≡ self.rows)) }
    {
        let Size {
            n,
            rows: count,
            prices,
        } = self;
        let junctions = n as u64;
        let mut rows = Rows::new();
        let mut left = number;
        for _ in 0..count {
            let (from, to) = ends_of(junctions, left);
            let rest = left / junctions / junctions;
            let digit = rest % (prices + 1);
            let price = if digit == prices {
                None
            } else {
                Some(digit as u8)
            };
            rows.push(Row { from, to, price });
            left = rest / (prices + 1);
        }
        if left == 0 {
            Some(Small { n, rows })
        } else {
            None
        }
    }
}

// A bound on prices: all 0, many ties, or few.
fn price_bound(x: u64) -> u64
    ensures { (1 ≤ result) × (result ≤ 256) }
{
    match x % 5 {
        0 => 1,
        1 => 2,
        2 => 3,
        3 => 6,
        _ => 256,
    }
}

// How many rows in eight are fixed: none, one or half of them.
fn fixed_share(x: u64) -> u64 {
    match x % 3 {
        0 => 0,
        1 => 1,
        _ => 4,
    }
}

// The ends of a row: any, for a third of the halls; upward or a loop, for a third; so but for one in eight, for the others.
fn random_ends(n: u64, kind: u64, x: u64) -> (u8, u8)
    requires { (1 ≤ n) × (n ≤ 6) }
{
    let (from, to) = ends_of(n, x / 8);
    if kind % 3 == 0 || kind % 3 == 1 && x % 8 == 0 {
        return (from, to);
    }
    (from.min(to), from.max(to))
}

fn random_price(prices: u64, share: u64, x: u64) -> Option<u8>
    requires { (1 ≤ prices) × (prices ≤ 256) }
{
    if x / 16_777_216 % 8 < share {
        return None;
    }
    Some((x / 65_536 % prices) as u8)
}

// Random halls of 1 to 6 junctions and up to 10 rows, enough for a tree; by the number that the next one comes from.
#[derive(Clone, Copy)]
pub struct Random {
    pub seed: u64,
}

impl Random {
    pub fn hall(&mut self) -> Small {
        let kind = next_of(self.seed);
        let n = 1 + kind / 16 % 6;
        let count = n - 1 + kind / 128 % (12 - n);
        let prices = price_bound(kind / 4096);
        let share = fixed_share(kind / 1_048_576);
        let mut rows = Rows::new();
        let mut seed = kind;
        for _ in 0..count {
            seed = next_of(seed);
            let (from, to) = random_ends(n, kind, seed);
            let price = random_price(prices, share, seed);
            rows.push(Row { from, to, price });
        }
        self.seed = seed;
        Small {
            n: n as usize,
            rows,
        }
    }
}
