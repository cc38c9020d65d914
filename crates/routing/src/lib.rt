// The route from a junction to another after a choice is opened, by specs/Route.antt.
#![tactic(auto)]

ghost use Rattle.std.specs.Prelude.{◌≡◌};
ghost use Rattle.routing.specs.Route.{way_outcome, way_set, way_filled, RouteSays};

use junctions::Junctions;
use refusals::Kind;

// What was found of the way.
#[derive(Clone, Copy, PartialEq, Eq, Debug)]
pub enum Way {
    Misses(Junctions),
    Route(usize),
}

// The same names as those of `answers::Finding`: a trait for both would take more lines than these matches.
impl Way {
    // The number of what was found: C callers read a number.
    #[tactic(auto, unfolding(crate::specs::Route::way_outcome))]
    pub fn outcome(self) -> u32
        ensures { result ≡ way_outcome self }
    {
        match self {
            Way::Misses(_) => 2,
            Way::Route(_) => 4,
        }
    }

    // The shore that is missed, else 0: C callers read a number.
    #[tactic(auto, unfolding(crate::specs::Route::way_set))]
    pub fn set(self) -> u64
        ensures { result ≡ way_set self }
    {
        match self {
            Way::Misses(shore) => shore.0,
            Way::Route(_) => 0,
        }
    }

    // How many places the route fills, else 0: C callers read a number.
    #[tactic(auto, unfolding(crate::specs::Route::way_filled))]
    pub fn filled(self) -> u64
        ensures { result ≡ way_filled self }
    {
        match self {
            Way::Misses(_) => 0,
            Way::Route(filled) => filled as u64,
        }
    }
}

// The route into the first places of a list of at least 63, with a minus where a row is run backward: 1, refusals 2 to 9, 15, 10 and 11,
// or the check's reply for a choice that misses a cut.
pub fn route(file: &[u8], choice: &[u32], from: u32, to: u32, rows: &mut [i32]) -> Result<Way, Kind>
    ensures { RouteSays file.now choice.now from to result rows.old rows.new }
{
    if rows.len() < 63 {
        return Err(Kind::ListShort);
    }
    let opened = opening::open_choice(file, choice)?;
    let lanes = &opened.hall.lanes;
    let chosen = &opened.chosen;
    let (from, to) = (from as usize, to as usize);
    let arcs = adjacency::of_rows(lanes, chosen);
    let shore = choice::shortfall(&arcs, lanes.n);
    if from == 0 || lanes.n < from || to == 0 || lanes.n < to {
        return Err(Kind::RouteEnd);
    }
    if let Some(shore) = shore {
        return Ok(Way::Misses(shore));
    }
    let filled = shortest::route(lanes, chosen, &arcs, from, to, rows);
    Ok(Way::Route(filled))
}
