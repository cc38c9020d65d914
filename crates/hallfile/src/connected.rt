// Whether, directions ignored, every junction is reached from junction 1.
ghost use Rattle.std.specs.Prelude.{◌≡◌, ◌≤◌};
ghost use Rattle.hall.specs.Hall.{Hall};
ghost use Rattle.hall.specs.File.{connected};
ghost use Rattle.columns.specs.Lanes.{LanesOf};

use columns::Lanes;
use junctions::Junctions;

pub fn is_connected(lanes: &Lanes) -> bool
    requires { 1 ≤ lanes.now.n }
    ensures { (h : Hall) → LanesOf h lanes.now → result ≡ connected h }
{
    let sets = adjacency::of_rows(lanes, &[true; 256]);
    let search = digraph::reach(&sets, 1);
    search.set == Junctions::full(lanes.n).0
}
