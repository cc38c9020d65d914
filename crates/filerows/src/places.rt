// Places between the rows of a file, and the row at a place.
ghost use Rattle.std.specs.Prelude.{◌≡◌, ◌+◌, ◌*◌, ◌/◌, ◌≤◌, ◌<◌, length};
ghost use Rattle.hall.specs.File.{field, offset, long_of, row_in};
ghost use Rattle.filerows.specs.Lanes.{lane_row};

use crate::blocks::Block;
use crate::little;

// Where the next row stands, how many rows its block has left, and the block after it.
#[derive(Clone, Copy)]
pub struct Place {
    pub at: usize,
    pub left: usize,
    pub block: usize,
}

// A row as the file has it; a fixed one has no price.
#[derive(Clone, Copy)]
pub struct Lane {
    pub from: u64,
    pub to: u64,
    pub price: Option<u64>,
}

impl Lane {
    // The price field of a fixed row.
    pub const FIXED: u64 = 4_294_967_295;
}

// The place of block k's first row.
pub fn first_of(file: &[u8], k: usize) -> Place
    requires { (k < 16) × (12 + 8 * k ≤ length file.now) }
    ensures { (result.at ≡ offset file.now k) × (result.left ≡ long_of file.now k / 8) × (result.block ≡ k + 1) }
{
    let block = Block::of(file, k);
    Place {
        at: block.start as usize,
        left: block.rows(),
        block: k + 1,
    }
}

// A row from its three fields.
#[tactic(auto, unfolding(crate::specs::Lanes::lane_row, hall::specs::File::row_in, hall::specs::Hall::row_of, hall::specs::Hall::fixed_row))]
fn lane_of(from: u64, to: u64, field: u64) -> Lane
    ensures { lane_row result ≡ row_in from to field }
{
    let price = if field == Lane::FIXED {
        None
    } else {
        Some(field)
    };
    Lane { from, to, price }
}

// The row in the eight bytes from place `at` on.
pub fn lane_at(file: &[u8], at: usize) -> Lane
    requires { at + 8 ≤ length file.now }
    ensures { lane_row result ≡ row_in (field at 2 file.now) (field (at + 2) 2 file.now) (field (at + 4) 4 file.now) }
{
    let from = little::number(file, at, 2);
    let to = little::number(file, at + 2, 2);
    let price = little::number(file, at + 4, 4);
    lane_of(from, to, price)
}
