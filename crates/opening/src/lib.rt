// A hall and a choice of its rows, opened: refusals 2 to 9, 15 and 10 in their order, or the hall's record and the flags of the choice.
#![tactic(auto)]

ghost use Rattle.opening.specs.Opening.{Opening};

use hallfile::HallRecord;
use refusals::Kind;

// A hall and the flags of a choice of its rows, 256 as the record has places: a call of the library needs no heap.
#[derive(Clone, Copy)]
pub struct Opened {
    pub hall: HallRecord,
    pub chosen: [bool; 256],
}

// The hall and the flags of a choice, or the first of refusals 2 to 9, 15 and 10.
pub fn open_choice(file: &[u8], choice: &[u32]) -> Result<Opened, Kind>
    ensures { Opening file.now choice.now result }
{
    let hall = hallfile::read_hall(file)?;
    if !choice::is_choice(choice, hall.lanes.count as u32, &hall.fixed) {
        return Err(Kind::Choice);
    }
    Ok(Opened {
        hall,
        chosen: choice::flags(choice),
    })
}
