// Lists that have a mark in every place: the calls of planning into them, and whether the marks still stand.
#![tactic(auto)]

ghost use Rattle.std.specs.Prelude.{◌≤◌};

use planpairs::PlannedCuts;
use planrows::PlannedRows;
use refusals::Kind;

// Marks that no plan writes, and no route.
pub const NUMBER: u32 = 4_000_000_007;

pub const SHORE: u64 = 9_000_000_000_000_000_011;

pub const SIGNED: i32 = 2_000_000_011;

// Shores and weights are two lists, as the cuts' call fills two and C lends them.
#[derive(Clone, Copy, PartialEq, Eq)]
pub struct Lists {
    pub rows: [u32; 256],
    pub shores: [u64; 126],
    pub weights: [u32; 126],
    pub levels: [i32; 64],
}

// How many of the first places of each list are lent to the cuts' call.
#[derive(Clone, Copy)]
pub struct Room {
    pub shores: usize,
    pub weights: usize,
    pub levels: usize,
    ghost within: { (shores ≤ 126) × (weights ≤ 126) × (levels ≤ 64) },
}

// The replies of both calls and the lists after them.
#[derive(Clone, Copy)]
pub struct Tried {
    pub rows: Result<PlannedRows, Kind>,
    pub cuts: Result<PlannedCuts, Kind>,
    pub lists: Lists,
}

impl Lists {
    // The lists with a mark in every place.
    pub fn marked() -> Lists {
        Lists {
            rows: [NUMBER; 256],
            shores: [SHORE; 126],
            weights: [NUMBER; 126],
            levels: [SIGNED; 64],
        }
    }

    // Whether only marks stand after so many rows, cuts and levels.
    pub fn kept_after(&self, rows: usize, cuts: usize, levels: usize) -> bool {
        kept_after(&self.rows, rows, NUMBER)
            && kept_after(&self.shores, cuts, SHORE)
            && kept_after(&self.weights, cuts, NUMBER)
            && kept_after(&self.levels, levels, SIGNED)
    }

    // The rows' call with so many places lent.
    pub fn plan_rows(&mut self, file: &[u8], room: usize) -> Result<PlannedRows, Kind>
        requires { room ≤ 256 }
    {
        planrows::plan_rows(file, &mut self.rows[..room])
    }

    // The cuts' call with the first places of each list lent.
    pub fn plan_pairs(&mut self, file: &[u8], room: Room) -> Result<PlannedCuts, Kind> {
        // over a copy: of lists behind a reference no two can be lent
        let mut lists = *self;
        let reply = planpairs::plan_pairs(
            file,
            &mut lists.shores[..room.shores],
            &mut lists.weights[..room.weights],
            &mut lists.levels[..room.levels],
        );
        *self = lists;
        reply
    }
}

// Whether only marks stand in a list after so many.
pub fn kept_after<T: PartialEq + Copy>(list: &[T], filled: usize, mark: T) -> bool {
    list.iter().skip(filled).all(|item| *item == mark)
}

// Both calls with as many places lent as they ask for.
pub fn plan(file: &[u8]) -> Tried {
    let room = Room {
        shores: 125,
        weights: 125,
        levels: 64,
    };
    let mut lists = Lists::marked();
    let rows = lists.plan_rows(file, 256);
    let cuts = lists.plan_pairs(file, room);
    Tried { rows, cuts, lists }
}
