// What arrays say of a hall: columns of row ends, flags as sets of rows, numbers at junctions and rows.
#![tactic(auto)]

ghost use Rattle.std.specs.Prelude.{◌≡◌, suc, ◌<◌, get_or};
ghost use Rattle.columns.specs.Columns.{Ends};
ghost use Rattle.columns.specs.Low.{Low};

// The ends of a hall's rows, junctions 1 to n: row i stands at place i - 1.
// Arrays and a count, not a list of lanes: a rule of the project keeps a hall's record in arrays of 256 places, unused ones 0.
#[derive(Clone, Copy)]
pub struct Lanes {
    pub n: usize,
    pub count: usize,
    pub tails: [u8; 256],
    pub heads: [u8; 256],
    ghost ends: { Ends n count tails heads },
}

// The places of a row's ends.
#[derive(Clone, Copy)]
pub struct Lane {
    pub tail: usize,
    pub head: usize,
}

// What each row costs, row i at place i - 1.
#[derive(Clone, Copy)]
pub struct Costs {
    pub rows: [u64; 256],
    ghost low: { Low rows },
}

impl Lanes {
    // The places of the ends of the row at place k.
    pub fn lane(&self, k: usize) -> Lane
        requires { k < self.now.count }
        ensures tail { suc result.tail ≡ get_or self.now.tails k 0 }
        ensures head { suc result.head ≡ get_or self.now.heads k 0 }
        ensures tail_inside { result.tail < self.now.n }
        ensures head_inside { result.head < self.now.n }
    {
        Lane {
            tail: usize::from(self.tails[k]) - 1,
            head: usize::from(self.heads[k]) - 1,
        }
    }
}
