// A view of the rows of a lent file, row by row. It holds the file and the place of the next row, and is thin: a row is read at its place.
ghost use Rattle.std.specs.Prelude.{◌≡◌, [], MatchOption};
ghost use Rattle.std.specs.Iterator.{YieldsFirstBy, item_count};
ghost use Rattle.hall.specs.File.{all_rows};
ghost use Rattle.filerows.specs.Places.{Table, Stands, Ahead, rest_at};
ghost use Rattle.filerows.specs.Lanes.{lane_row};

use crate::places;
use crate::places::{Lane, Place};

// The rows that are left of a file with so many blocks.
#[derive(Clone, Copy)]
pub struct Rows<'a> {
    pub file: &'a [u8],
    pub block_count: usize,
    pub place: Place,
    pub ghost table: { Table file.now block_count },
    pub ghost stands: { Stands file.now block_count place },
}

impl<'a> Rows<'a> {
    // All rows of the file.
    #[tactic(auto, unfolding(crate::specs::Places::rest_at, hall::specs::File::rows_at))]
    pub fn of(file: &'a [u8], blocks: usize) -> Rows<'a>
        requires { Table file.now blocks }
        ensures { (result.file ≡ file.entry) × (result.block_count ≡ blocks) × (rest_at result.file.now result.block_count result.place ≡ all_rows blocks 0 file.entry.now) }
    {
        Rows {
            file,
            block_count: blocks,
            place: Place {
                at: 0,
                left: 0,
                block: 0,
            },
        }
    }

    // The place of the next row: where a block is used up, the next block's first.
    fn ahead(&self) -> Option<Place>
        ensures { MatchOption result (rest_at self.now.file.now self.now.block_count self.now.place ≡ []) (Ahead self.now.file.now self.now.block_count self.now.place) }
    {
        if 0 < self.place.left {
            return Some(self.place);
        }
        if self.place.block == self.block_count {
            return None;
        }
        Some(places::first_of(self.file, self.place.block))
    }
}

impl<'a> Iterator for Rows<'a> {
    type Item = Lane;

    ghost next_gives = { YieldsFirstBy lane_row (λ s. rest_at s.file.now s.block_count s.place) };

    ghost remaining = { item_count (λ s. rest_at s.file.now s.block_count s.place) };

    fn next(&mut self) -> Option<Lane> {
        let here = self.ahead()?;
        let lane = places::lane_at(self.file, here.at);
        self.place = Place {
            at: here.at + 8,
            left: here.left - 1,
            block: here.block,
        };
        Some(lane)
    }
}
