// A hall as columns, and the limits of a hall file.
ghost use Rattle.columns.specs.Prices.{PricesLow};

use columns::Lanes;

// A hall as columns: row i stands at place i - 1, unused places are zero, and not marked as fixed.
// Parallel arrays by a rule of the project: a hall's record is arrays of 256 places, unused ones 0, and needs no heap.
#[derive(Clone, Copy)]
pub struct HallRecord {
    pub lanes: Lanes,
    pub prices: [u32; 256],
    pub fixed: [bool; 256],
    pub ghost prices_low: { PricesLow lanes.count prices },
}

impl HallRecord {
    pub const JUNCTIONS: usize = 64;

    pub const BLOCKS: usize = 16;

    pub const ROWS: usize = 256;

    pub const PRICE: u64 = 1_000_000;

    pub const LEAST_FILE: usize = 4;

    pub const LARGEST_FILE: usize = 65_536;
}
