// The rows, read in place, block after block: each is checked, and stored in the columns.
ghost use Rattle.std.specs.Prelude.{◌≡◌, ◌&&◌, ◌≤◌, leb, length};
ghost use Rattle.hall.specs.Hall.{hall};
ghost use Rattle.hall.specs.File.{rows_refusal, all_rows};
ghost use Rattle.refusals.specs.Kinds.{answered};
ghost use Rattle.filerows.specs.Places.{Table};
ghost use Rattle.filerows.specs.Lanes.{lane_row};
ghost use Rattle.hallfile.specs.Record.{Replies};
ghost use Rattle.hallfile.specs.Shape.{row_refusal};

use crate::record::HallRecord;
use columns::Lanes;
use filerows::places::Lane;
use filerows::view::Rows;
use refusals::Kind;

// Both ends of the row are junctions 1 to n.
fn ends_inside(n: usize, lane: Lane) -> bool
    ensures { result ≡ ((leb 1 lane.from && leb lane.from n) && (leb 1 lane.to && leb lane.to n)) }
{
    let junctions = 1..=n as u64;
    junctions.contains(&lane.from) && junctions.contains(&lane.to)
}

// 6 or 8 for row i of a hall of n junctions.
#[tactic(auto, unfolding(refusals::specs::Kinds::answered, refusals::specs::Kinds::refusal_of, filerows::specs::Lanes::lane_row, crate::specs::Shape::row_refusal, hall::specs::File::row_number))]
fn lane_refusal(n: usize, lane: Lane, i: u32) -> Result<(), Kind>
    ensures { answered result ≡ row_refusal i n (lane_row lane) }
{
    if !ends_inside(n, lane) {
        return Err(Kind::RowEnds(i));
    }
    if HallRecord::PRICE < lane.price.unwrap_or(0) {
        return Err(Kind::RowPrice(i));
    }
    Ok(())
}

// Every row checked and stored, or the refusal of the first that is turned back.
pub fn read_rows(file: &[u8], n: usize, blocks: usize, count: usize) -> Result<HallRecord, Kind>
    requires { Table file.now blocks × (length (all_rows blocks 0 file.now) ≡ count) × (count ≤ 256) × (n ≤ 64) }
    ensures { Replies (rows_refusal 1 n (all_rows blocks 0 file.now)) (hall n (all_rows blocks 0 file.now)) result }
{
    let mut tails = [0u8; 256];
    let mut heads = [0u8; 256];
    let mut prices = [0u32; 256];
    let mut fixed = [false; 256];
    for (k, lane) in Rows::of(file, blocks).enumerate() {
        lane_refusal(n, lane, k as u32 + 1)?;
        tails[k] = lane.from as u8;
        heads[k] = lane.to as u8;
        prices[k] = lane.price.unwrap_or(0) as u32;
        fixed[k] = lane.price.is_none();
    }
    Ok(HallRecord {
        lanes: Lanes {
            n,
            count,
            tails,
            heads,
        },
        prices,
        fixed,
    })
}
