// Whether every directed cut has a row that is not fixed: whether the rows that are not fixed join.
ghost use Rattle.std.specs.Prelude.{◌≡◌};
ghost use Rattle.hall.specs.Hall.{Hall};
ghost use Rattle.hall.specs.File.{openable};
ghost use Rattle.dicuts.specs.Shores.{Ranged, Linked};
ghost use Rattle.columns.specs.Columns.{Marks};
ghost use Rattle.columns.specs.Lanes.{LanesOf};

use columns::Lanes;

// Of a hall that does not fall apart all rows together join.
pub fn is_openable(lanes: &Lanes, fixed: &[bool; 256]) -> bool
    requires { (h : Hall) × LanesOf h lanes.now }
    ensures { (h : Hall) → LanesOf h lanes.now → Ranged h → Linked h → Marks h fixed.now → result ≡ openable h }
{
    if !choice::any_flagged(fixed) {
        return true;
    }
    choice::missed_shore(lanes, &choice::unflagged(fixed)).is_none()
}
