// The table of blocks: pairs of offset and length, each number four bytes.
ghost use Rattle.std.specs.Prelude.{◌≡◌, ◌&&◌, ◌+◌, ◌*◌, ◌/◌, ◌%◌, ◌≤◌, ◌<◌, eqb, leb, ltb, length};
ghost use Rattle.hall.specs.File.{pairs_good, all_rows, offset, long_of};

use crate::little;

// Where a block starts, and how many bytes it has.
#[derive(Clone, Copy)]
pub struct Block {
    pub start: u32,
    pub size: u32,
}

impl Block {
    // Block k of the file's table.
    #[tactic(auto, unfolding(hall::specs::File::offset, hall::specs::File::long_of))]
    pub fn of(file: &[u8], k: usize) -> Block
        requires { (k < 16) × (12 + 8 * k ≤ length file.now) }
        ensures { (result.start ≡ offset file.now k) × (result.size ≡ long_of file.now k) }
    {
        Block {
            start: little::number(file, 4 + 8 * k, 4) as u32,
            size: little::number(file, 8 + 8 * k, 4) as u32,
        }
    }

    // The place after its last byte.
    fn end(self) -> u64
        ensures { result ≡ self.start + self.size }
    {
        u64::from(self.start) + u64::from(self.size)
    }

    // It has rows of eight bytes, starts at `least` or later, and is over at `most`.
    fn fits(self, least: u64, most: u64) -> bool
        ensures { result ≡ ((ltb 0 self.size && eqb (self.size % 8) 0) && (leb least self.start && leb (self.start + self.size) most)) }
    {
        0 < self.size && self.size % 8 == 0 && least <= u64::from(self.start) && self.end() <= most
    }

    // How many rows it has.
    pub fn rows(self) -> usize
        ensures { result ≡ self.size / 8 }
    {
        (self.size / 8) as usize
    }
}

// Every pair keeps the rules.
pub fn pairs_fit(file: &[u8], blocks: usize) -> bool
    requires { (blocks ≤ 16) × (4 + 8 * blocks ≤ length file.now) }
    ensures { result ≡ pairs_good blocks 0 (4 + 8 * blocks) file.now }
{
    let mut least = (4 + 8 * blocks) as u64;
    for k in 0..blocks {
        let block = Block::of(file, k);
        if !block.fits(least, file.len() as u64) {
            return false;
        }
        least = block.end();
    }
    true
}

// How many rows the blocks have.
pub fn row_count(file: &[u8], blocks: usize) -> usize
    requires { (blocks ≤ 16) × (4 + 8 * blocks ≤ length file.now) }
    ensures { result ≡ length (all_rows blocks 0 file.now) }
{
    let mut rows = 0;
    for k in 0..blocks {
        rows += Block::of(file, k).rows();
    }
    rows
}
