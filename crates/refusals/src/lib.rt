// Why a call is turned back: the kinds of documents 01 and 02, each with the number and the row that the papers give it.
#![tactic(auto)]

ghost use Rattle.std.specs.Prelude.{◌≡◌, Some, ◌++◌, codes};
ghost use Rattle.std.specs.Fmt.{decimal};
ghost use Rattle.refusals.specs.Kinds.{refusal_of};

use std::fmt;

// What turns a call back; the kinds of a row carry its number, from 1.
#[derive(Clone, Copy, PartialEq, Eq, Debug)]
pub enum Kind {
    ListShort,
    FileLength,
    JunctionCount,
    Blocks,
    RowCount,
    RowEnds(u32),
    RowPrice(u32),
    Unjoined,
    Choice,
    RouteEnd,
    Site,
    HallCount,
    KitStock,
    FixedCut,
    LoadWidth,
    SitePlace,
    Bridge,
    FixedRow,
    LoneRow,
}

#[tactic(auto, unfolding(crate::specs::Kinds::refusal_of, hall::specs::File::refusal))]
impl Kind {
    // The number of a refusal, which callers from C read; a kind carries its row, so `as` cannot give it.
    pub fn number(self) -> u32
        ensures { result ≡ (refusal_of self).number }
    {
        match self {
            Kind::ListShort => 1,
            Kind::FileLength => 2,
            Kind::JunctionCount => 3,
            Kind::Blocks => 4,
            Kind::RowCount => 5,
            Kind::RowEnds(_) => 6,
            Kind::RowPrice(_) => 8,
            Kind::Unjoined => 9,
            Kind::Choice => 10,
            Kind::RouteEnd => 11,
            Kind::Site => 12,
            Kind::HallCount => 13,
            Kind::KitStock => 14,
            Kind::FixedCut => 15,
            Kind::LoadWidth => 16,
            Kind::SitePlace => 17,
            Kind::Bridge => 18,
            Kind::FixedRow => 19,
            Kind::LoneRow => 20,
        }
    }

    // The row of a refusal, 0 where it carries none: callers from C read a row or 0.
    pub fn row(self) -> u32
        ensures { result ≡ (refusal_of self).place }
    {
        match self {
            Kind::RowEnds(row) | Kind::RowPrice(row) => row,
            Kind::ListShort
            | Kind::FileLength
            | Kind::JunctionCount
            | Kind::Blocks
            | Kind::RowCount
            | Kind::Unjoined
            | Kind::Choice
            | Kind::RouteEnd
            | Kind::Site
            | Kind::HallCount
            | Kind::KitStock
            | Kind::FixedCut
            | Kind::LoadWidth
            | Kind::SitePlace
            | Kind::Bridge
            | Kind::FixedRow
            | Kind::LoneRow => 0,
        }
    }
}

// The line of a refusal: its number and its row.
impl fmt::Display for Kind {
    ghost output = { λ k. Some (codes "REFUSED " ++ decimal (refusal_of k).number ++ codes " " ++ decimal (refusal_of k).place) };

    fn fmt<W: fmt::Write>(&self, f: &mut fmt::Formatter<W>) -> fmt::Result {
        let number = self.number();
        let row = self.row();
        write!(f, "REFUSED {number} {row}")
    }
}
