// The check: whether a choice joins, by specs/Check.antt.
#![tactic(auto)]

ghost use Rattle.checking.specs.Check.{CheckSays};

use answers::Finding;
use refusals::Kind;

// Whether a choice joins: refusals 2 to 9, 15 and 10 in their order, "joins", or "misses" with the set that the lowest
// junction that does not reach all reaches.
pub fn check_choice(file: &[u8], choice: &[u32]) -> Result<Finding, Kind>
    ensures { CheckSays file.now choice.now result }
{
    let opened = opening::open_choice(file, choice)?;
    let shore = choice::missed_shore(&opened.hall.lanes, &opened.chosen);
    Ok(Finding::from(shore))
}
