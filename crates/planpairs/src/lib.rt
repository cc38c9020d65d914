// The cuts' call of planning over two number lists: cuts beside the first joining choice, and the levels. The promise, `PairSays`, is
// in `oneplan`.
#![tactic(auto)]

ghost use Rattle.std.specs.Prelude.{ℕ, ◌≤◌, length};
ghost use Rattle.hall.specs.Hall.{Hall};
ghost use Rattle.refusals.specs.Kinds.{answered, figure};
ghost use Rattle.oneplan.specs.Plan.{PairAs, PairSays};
ghost use Rattle.plan.specs.Ready.{Accepted, Least};
ghost use Rattle.planpairs.specs.declared.PlannedCuts.{PlannedCuts};

use hallfile::HallRecord;
use refusals::Kind;
use repair::State;

// The reply: how many cuts and levels are listed. The lists are lent, as those of C callers are.
#[derive(Clone, Copy, PartialEq, Eq, Debug)]
pub struct PlannedCuts {
    pub cuts: u32,
    pub levels: u32,
}

// The cuts of a choice of least total, which stand beside the first choice too, and the levels, from the front of lists that are long
// enough. Returns how many cuts there are.
pub fn list_cuts(
    hall: &HallRecord,
    least: &State,
    shores: &mut [u64],
    weights: &mut [u32],
    levels: &mut [i32],
) -> usize
    requires { (125 ≤ length shores.old) × (125 ≤ length weights.old) × (64 ≤ length levels.old)
        × ((h : Hall) × Accepted h hall.now × Least h least.now) }
    ensures { (result ≤ 125) × ((h : Hall) → Accepted h hall.now → Least h least.now →
        PairAs 0 h result hall.now.lanes.n shores.old shores.new weights.old weights.new levels.old levels.new) }
{
    let every = [true; 256];
    let links = adjacency::of_rows(&hall.lanes, &every);
    cuts::fill(
        hall.lanes.n,
        &links,
        &least.around,
        &least.potential,
        shores,
        weights,
        levels,
    )
}

// Cuts beside the first joining choice and the levels of the junctions, from the front of the lent lists: refusal 1 where one is too
// short (125, 125 and 64 places), then 2 to 9 and 15.
pub fn plan_pairs(
    file: &[u8],
    shores: &mut [u64],
    weights: &mut [u32],
    levels: &mut [i32],
) -> Result<PlannedCuts, Kind>
    ensures { PairSays file.now (answered result) (figure (λ (p : PlannedCuts). p.cuts) result) (figure (λ (p : PlannedCuts). p.levels) result)
        shores.old shores.new weights.old weights.new levels.old levels.new }
{
    if shores.len() < 125 || weights.len() < 125 || levels.len() < 64 {
        return Err(Kind::ListShort);
    }
    let hall = hallfile::read_hall(file)?;
    let least = plan::least(&hall);
    let cuts = list_cuts(&hall, &least, shores, weights, levels);
    Ok(PlannedCuts {
        cuts: cuts as u32,
        levels: hall.lanes.n as u32,
    })
}
