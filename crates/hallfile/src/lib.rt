// Reading a hall from the bytes of its file: refusals 2 to 9 and 15 in their fixed order, and the hall as columns.
// It stands on the rows of `filerows`, what a hall's rows reach (`adjacency`, `digraph`, `choice`) and the kinds of `refusals`.
#![tactic(auto)]

ghost use Rattle.std.specs.Prelude.{◌≡◌, ◌&&◌, cond, ◌+◌, ◌*◌, leb, length};
ghost use Rattle.hall.specs.File.{pairs_good, hall_in, refusal, hall_refusal};
ghost use Rattle.refusals.specs.Kinds.{answered};
ghost use Rattle.hallfile.specs.Record.{Replies};
ghost use Rattle.hallfile.specs.Shape.{shape_refusal};

use filerows::{blocks, little};
use refusals::Kind;

mod connected;
mod openable;
mod record;
mod rows;

pub use record::HallRecord;

// The number is one of those from `least` to `most`.
fn within(n: usize, least: usize, most: usize) -> bool
    ensures { result ≡ (leb least n && leb n most) }
{
    (least..=most).contains(&n)
}

// There are few enough blocks, the table lies in the file and keeps the rules.
fn table_fits(file: &[u8], blocks: usize) -> bool
    ensures { result ≡ (leb blocks 16 && (leb (4 + 8 * blocks) (length file.now) && pairs_good blocks 0 (4 + 8 * blocks) file.now)) }
{
    blocks <= HallRecord::BLOCKS && 4 + 8 * blocks <= file.len() && blocks::pairs_fit(file, blocks)
}

// The hall, or the first of refusals 2 to 8.
fn read_shape(file: &[u8]) -> Result<HallRecord, Kind>
    ensures { Replies (shape_refusal file.now) (hall_in file.now) result }
{
    if !within(file.len(), HallRecord::LEAST_FILE, HallRecord::LARGEST_FILE) {
        return Err(Kind::FileLength);
    }
    let n = little::number(file, 0, 2) as usize;
    if !within(n, 1, HallRecord::JUNCTIONS) {
        return Err(Kind::JunctionCount);
    }
    let blocks = little::number(file, 2, 2) as usize;
    if !table_fits(file, blocks) {
        return Err(Kind::Blocks);
    }
    let count = blocks::row_count(file, blocks);
    if HallRecord::ROWS < count {
        return Err(Kind::RowCount);
    }
    rows::read_rows(file, n, blocks, count)
}

// 9 for a hall that falls apart, then 15 for one with a directed cut of fixed rows only.
#[tactic(auto, unfolding(refusals::specs::Kinds::answered, refusals::specs::Kinds::refusal_of))]
fn walk_refusal(joined: bool, opens: bool) -> Result<(), Kind>
    ensures { answered result ≡ cond joined (cond opens (refusal 0 0) (refusal 15 0)) (refusal 9 0) }
{
    if !joined {
        return Err(Kind::Unjoined);
    }
    if !opens {
        return Err(Kind::FixedCut);
    }
    Ok(())
}

// The hall, or the first refusal of 2 to 9 and 15 that the file meets. What is read is handed on as it is: to take it out and put it back copies it twice.
pub fn read_hall(file: &[u8]) -> Result<HallRecord, Kind>
    ensures { Replies (hall_refusal file.now) (hall_in file.now) result }
{
    let read = read_shape(file);
    if let Ok(hall) = &read {
        let joined = connected::is_connected(&hall.lanes);
        let opens = openable::is_openable(&hall.lanes, &hall.fixed);
        walk_refusal(joined, opens)?;
    }
    read
}
