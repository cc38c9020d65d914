// Sequences of steps, all of a length in dictionary order, and the first of the shortest that leads from one junction to another.
// Step 2i is row i + 1 run forward, step 2i + 1 the same run backward. A sequence is a number: its digits are its steps, the last one lowest.
ghost use Rattle.std.specs.Prelude.{◌≤◌};

use smallhalls::Small;

// A choice of a hall's rows, the shore that it misses, if any, and two junctions.
#[derive(Clone, Copy)]
pub struct Asked<'a> {
    pub hall: &'a Small,
    pub choice: u64,
    pub missed: Option<u64>,
    pub from: u8,
    pub to: u8,
}

// A row, below 0 where it is run backward, and the junctions between which it is run.
#[derive(Clone, Copy)]
struct Step {
    row: i32,
    start: u8,
    end: u8,
}

#[derive(Clone, Copy)]
pub struct Sequence {
    pub length: usize,
    pub number: u64,
    ghost short: { length ≤ 6 },
}

impl Asked<'_> {
    // How many steps there are, twice as many as rows; 1, which leads nowhere, where there are no rows.
    fn base(&self) -> u64
        ensures { (1 ≤ result) × (result ≤ 20) }
    {
        (2 * self.hall.rows.len() as u64).max(1)
    }

    // A row forward, or backward where it is chosen; none where it is not, or where there is no such row.
    fn step(&self, digit: u64) -> Option<Step> {
        let i = (digit / 2) as usize;
        let row = self.hall.rows.as_slice().get(i)?;
        let number = i as i32 + 1;
        if digit % 2 == 0 {
            return Some(Step {
                row: number,
                start: row.from,
                end: row.to,
            });
        }
        if self.choice >> i & 1 == 0 {
            return None;
        }
        Some(Step {
            row: -number,
            start: row.to,
            end: row.from,
        })
    }

    // Whether the steps lead from the one junction to the other: gone back over, the last step first.
    fn leads(&self, length: usize, number: u64) -> bool {
        let base = self.base();
        let mut at = self.to;
        let mut left = number;
        for _ in 0..length {
            match self.step(left % base) {
                Some(step) if step.end == at => at = step.start,
                _ => return false,
            }
            left /= base;
        }
        at == self.from
    }

    // The first of the shortest sequences that lead there: a joining choice has one of fewer steps than there are junctions.
    pub fn first(&self) -> Option<Sequence> {
        let base = self.base();
        let mut sequences: u64 = 1;
        for length in 0..self.hall.n {
            if let Some(number) = (0..sequences).find(|number| self.leads(length, *number)) {
                return Some(Sequence { length, number });
            }
            sequences *= base;
        }
        None
    }

    // Whether a list begins with the steps of a sequence, each as its row.
    pub fn begins(&self, sequence: Sequence, rows: &[i32; 64]) -> bool {
        let base = self.base();
        let mut left = sequence.number;
        for k in (0..sequence.length).rev() {
            if self
                .step(left % base)
                .is_none_or(|step| step.row != rows[k])
            {
                return false;
            }
            left /= base;
        }
        true
    }
}
