// The tight neighbourhood of a junction, by specs/Tight.antt.
#![tactic(auto)]

ghost use Rattle.neighbourhood.specs.Tight.{TightSays};

use answers::Finding;
use junctions::Junctions;
use refusals::Kind;

// The junctions that lie in every tight shore that holds the junction: refusals 2 to 9, 15 and 10, the empty set for a junction
// that the hall does not have, or the check's reply for a choice that misses a cut.
pub fn tight_neighbourhood(file: &[u8], choice: &[u32], junction: u32) -> Result<Finding, Kind>
    ensures { TightSays file.now choice.now junction result }
{
    let opened = opening::open_choice(file, choice)?;
    let lanes = &opened.hall.lanes;
    let v = junction as usize;
    if v == 0 || lanes.n < v {
        return Ok(Finding::Around(Junctions::EMPTY));
    }
    if let Some(shore) = choice::missed_shore(lanes, &opened.chosen) {
        return Ok(Finding::Misses(shore));
    }
    let set = tight::neighbourhood_of(lanes, &opened.chosen, v);
    Ok(Finding::Around(Junctions(set)))
}
