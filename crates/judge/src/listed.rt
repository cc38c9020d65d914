// A list of cuts beside the rows of a small hall, by the definitions alone.
ghost use Rattle.std.specs.Prelude.{◌≡◌, ◌≤◌, length};

use exhaustive::sets;
use smallhalls::Small;

// Cuts as shores and weights, a shore and its weight at one place of both.
#[derive(Clone, Copy)]
pub struct Cuts<'a> {
    shores: &'a [u64],
    weights: &'a [u32],
    ghost paired: { length shores.now ≡ length weights.now },
    ghost few: { length weights.now ≤ 9 },
}

// Some junction lies in both sets, one in each only, and one in neither.
fn cross(whole: u64, a: u64, b: u64) -> bool {
    let both = a & b;
    both != 0 && both != a && both != b && a | b != whole
}

// Whether no two of the sets cross.
fn none_cross(whole: u64, sets: &[u64]) -> bool {
    sets.iter()
        .all(|a| sets.iter().all(|b| !cross(whole, *a, *b)))
}

// Whether the set is some junctions of the hall, not all, that no row leaves.
fn is_shore(hall: &Small, set: u64) -> bool {
    set != 0 && set < sets::whole(hall.n) && sets::cut_of(hall.rows.as_slice(), set).is_some()
}

// Whether the level is one sum less the other.
fn is_level(level: i32, sum: u64, base: u64) -> bool {
    i128::from(level) == i128::from(sum) - i128::from(base)
}

impl<'a> Cuts<'a> {
    // None where the lists are not of one length, or longer than those of a small hall.
    pub fn of(shores: &'a [u64], weights: &'a [u32]) -> Option<Cuts<'a>> {
        if shores.len() == weights.len() && weights.len() <= 9 {
            Some(Cuts { shores, weights })
        } else {
            None
        }
    }

    // Whether these are directed cuts of positive weight, their shores ascending, and no two cross.
    pub fn are_cuts(&self, hall: &Small) -> bool {
        self.weights.iter().all(|weight| *weight != 0)
            && self.shores.iter().all(|shore| is_shore(hall, *shore))
            && self.shores.is_sorted_by(|shore, next| shore < next)
            && none_cross(sets::whole(hall.n), self.shores)
    }

    // The weights of the shores that count.
    fn weight<F: Fn(u64) -> bool>(&self, counts: F) -> u64
        requires { F.IsAlwaysCallable counts }
    {
        let mut sum = 0;
        for (shore, weight) in self.shores.iter().zip(self.weights) {
            if counts(*shore) {
                sum += u64::from(*weight);
            }
        }
        sum
    }

    // The weights together.
    pub fn sum(&self) -> u64 {
        self.weight(|_| true)
    }

    // The weights of the shores that a row between two junctions enters.
    fn load(&self, from: u8, to: u8) -> u64 {
        self.weight(|shore| sets::enters(shore, from, to))
    }

    // Whether every row may carry its load: a fixed one any, another one up to its price.
    pub fn loads_fit(&self, hall: &Small) -> bool {
        hall.rows.as_slice().iter().all(|row| {
            row.price
                .is_none_or(|price| self.load(row.from, row.to) <= u64::from(price))
        })
    }

    // Whether each junction's level is the weights of the shores that hold it less those of junction 1; no shore holds 0.
    pub fn are_levels(&self, levels: &[i32]) -> bool {
        let base = self.load(0, 1);
        (1..)
            .zip(levels)
            .all(|(j, level)| is_level(*level, self.load(0, j), base))
    }
}
