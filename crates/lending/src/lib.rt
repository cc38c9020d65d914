// The calls of planning over lists with a mark in every place: cuts as structs beside cuts in two number lists, and lists that are too short.
#![tactic(auto)]

ghost use Rattle.std.specs.Prelude.{◌≤◌};

use cutlist::Cut;
use junctions::Junctions;
use planpairs::PlannedCuts;
use refusals::Kind;
use std::array;
use tries::{Lists, Room};

// What is found of a call, in a word, and its reply in another.
#[derive(Clone, Copy)]
pub struct Tried {
    pub told: &'static str,
    pub reply: Result<&'static str, Kind>,
}

impl Tried {
    // A word, and of a reply whether it was refused, and how.
    fn of<T: Copy>(told: &'static str, reply: Result<T, Kind>) -> Tried {
        Tried {
            told,
            reply: reply.map(|_| "PLANNED"),
        }
    }
}

// The cuts' call with so many places lent for cuts as structs, and so many for levels. Each cut is made of a shore and a weight before it,
// and they of the cut after it.
fn plan_cuts(
    file: &[u8],
    lists: &mut Lists,
    room: usize,
    levels: usize,
) -> Result<PlannedCuts, Kind>
    requires { (room ≤ 126) × (levels ≤ 64) }
{
    let mut cuts: [Cut; 126] = array::from_fn(|k| Cut {
        shore: Junctions(lists.shores[k]),
        weight: lists.weights[k],
    });
    let reply = plancuts::plan_cuts(file, &mut cuts[..room], &mut lists.levels[..levels]);
    lists.shores = cuts.map(|cut| cut.shore.0);
    lists.weights = cuts.map(|cut| cut.weight);
    reply
}

// Whether a call has left every list as it was.
fn short<T: Copy>(lists: &Lists, reply: Result<T, Kind>) -> Tried {
    let told = if lists.kept_after(0, 0, 0) {
        "UNTOUCHED"
    } else {
        "TOUCHED"
    };
    Tried::of(told, reply)
}

// Whether the cuts' call says and writes the same with so many cuts as structs and in two number lists.
pub fn both(file: &[u8], cuts: usize) -> Tried
    requires { cuts ≤ 126 }
{
    let room = Room {
        shores: cuts,
        weights: cuts,
        levels: 64,
    };
    let mut structs = Lists::marked();
    let mut pairs = Lists::marked();
    let reply = plan_cuts(file, &mut structs, cuts, 64);
    let told = if reply == pairs.plan_pairs(file, room) && structs == pairs {
        "SAME"
    } else {
        "DIFFERENT"
    };
    Tried::of(told, reply)
}

// The rows' call with so many places.
pub fn rows(file: &[u8], room: usize) -> Tried
    requires { room ≤ 256 }
{
    let mut lists = Lists::marked();
    let reply = lists.plan_rows(file, room);
    short(&lists, reply)
}

// The cuts' call over number lists of so many places.
pub fn pairs(file: &[u8], shores: usize, weights: usize, levels: usize) -> Tried
    requires { (shores ≤ 126) × (weights ≤ 126) × (levels ≤ 64) }
{
    let room = Room {
        shores,
        weights,
        levels,
    };
    let mut lists = Lists::marked();
    let reply = lists.plan_pairs(file, room);
    short(&lists, reply)
}

// The cuts' call with cuts as structs and so many places for cuts and for levels.
pub fn structs(file: &[u8], cuts: usize, levels: usize) -> Tried
    requires { (cuts ≤ 126) × (levels ≤ 64) }
{
    let mut lists = Lists::marked();
    let reply = plan_cuts(file, &mut lists, cuts, levels);
    short(&lists, reply)
}
