// One call of the route, held to the sequences of steps.
ghost use Rattle.std.specs.Prelude.{◌≤◌};

use crate::walks::Asked;
use refusals::Kind;
use routing::Way;

#[derive(Clone, Copy)]
pub enum Outcome {
    Route,
    Misses,
    Refused,
    Different,
}

// The refusal that is due with so many places lent, if any.
fn due(asked: &Asked<'_>, room: usize) -> Option<Kind> {
    let junctions = 1..=asked.hall.n;
    if room < 63 {
        return Some(Kind::ListShort);
    }
    if !junctions.contains(&usize::from(asked.from))
        || !junctions.contains(&usize::from(asked.to))
    {
        return Some(Kind::RouteEnd);
    }
    None
}

// Whether the list begins with the first of the shortest sequences, of so many steps, and the other places are as they were.
fn is_route(asked: &Asked<'_>, rows: &[i32; 64], steps: usize) -> bool {
    asked.first().is_some_and(|first| {
        first.length == steps
            && asked.begins(first, rows)
            && tries::kept_after(rows, steps, tries::SIGNED)
    })
}

// A reply beside what is due, and the list after it.
fn judged(
    asked: &Asked<'_>,
    due: Option<Kind>,
    reply: Result<Way, Kind>,
    rows: &[i32; 64],
) -> Outcome {
    let untouched = tries::kept_after(rows, 0, tries::SIGNED);
    match (reply, due, asked.missed) {
        (Err(refusal), Some(due), _) if refusal == due && untouched => Outcome::Refused,
        (Ok(Way::Misses(shore)), None, Some(missed)) if shore.0 == missed && untouched => {
            Outcome::Misses
        }
        (Ok(Way::Route(steps)), None, None) if is_route(asked, rows, steps) => Outcome::Route,
        _ => Outcome::Different,
    }
}

// The call with so many places lent of a list that has a mark in every place.
pub fn compared(file: &[u8], choice: &[u32], asked: &Asked<'_>, room: usize) -> Outcome
    requires { room ≤ 64 }
{
    let mut rows = [tries::SIGNED; 64];
    let reply = routing::route(
        file,
        choice,
        u32::from(asked.from),
        u32::from(asked.to),
        &mut rows[..room],
    );
    judged(asked, due(asked, room), reply, &rows)
}
