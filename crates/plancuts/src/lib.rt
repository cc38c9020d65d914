// The cuts' call of planning: cuts as structs beside the first joining choice, and the levels. The promise, `CutsSays`, is in `oneplan`.
#![tactic(auto)]

ghost use Rattle.refusals.specs.Kinds.{answered, figure};
ghost use Rattle.cutlist.specs.Cuts.{lent};
ghost use Rattle.oneplan.specs.Plan.{CutsSays};
ghost use Rattle.planpairs.specs.declared.PlannedCuts.{PlannedCuts};

use cutlist::Cut;
use planpairs::PlannedCuts;
use refusals::Kind;

// Cuts beside the first joining choice and the levels of the junctions, from the front of the lent lists: refusal 1 where one is too
// short (125 and 64 places), then 2 to 9 and 15.
pub fn plan_cuts(file: &[u8], cuts: &mut [Cut], levels: &mut [i32]) -> Result<PlannedCuts, Kind>
    ensures { CutsSays lent file.now (answered result) (figure (λ (p : PlannedCuts). p.cuts) result) (figure (λ (p : PlannedCuts). p.levels) result)
        cuts.old cuts.new levels.old levels.new }
{
    let short = cuts.len() < 125;
    if short {
        return Err(Kind::ListShort);
    }
    // two arrays, as `plan_pairs` fills two lists
    let mut shores = [0u64; 125];
    let mut weights = [0u32; 125];
    let planned = planpairs::plan_pairs(file, &mut shores, &mut weights, levels)?;
    let count = planned.cuts as usize;
    cutlist::write_cuts(cuts, &shores[..count], &weights[..count]);
    Ok(planned)
}
