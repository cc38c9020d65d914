// Whether a listed choice costs more than a figure, by specs/Figure.antt.
#![tactic(auto)]

ghost use Rattle.std.specs.Prelude.{◌≡◌, true};
ghost use Rattle.hall.specs.Hall.{Hall, ascends_from, is_choice};
ghost use Rattle.hallfile.specs.Record.{RecordOf};
ghost use Rattle.screening.specs.Figure.{Screens, FigureSays};

use hallfile::HallRecord;
use refusals::Kind;
use std::fmt;

// Whether the choice costs more than the figure, and how many of its rows were read to tell.
#[derive(Clone, Copy, PartialEq, Eq, Debug)]
pub struct Screened {
    pub over: bool,
    pub read: usize,
}

impl fmt::Display for Screened {
    fn fmt<W: fmt::Write>(&self, f: &mut fmt::Formatter<W>) -> fmt::Result {
        let word = if self.over { "OVER" } else { "WITHIN" };
        write!(f, "{word} {}", self.read)
    }
}

// Takes the prices of rows off the figure, and stops at one that is more than what is left: no sum is held, and none can wrap.
fn screen(hall: &HallRecord, choice: &[u32], figure: u32) -> Screened
    requires { ascends_from 1 256 choice.now ≡ true }
    ensures { (h : Hall) → RecordOf h hall.now → is_choice h choice.now ≡ true → Screens h figure choice.now result }
{
    let mut left = figure;
    for (k, &row) in choice.iter().enumerate() {
        let price = hall.prices[row as usize - 1];
        if left < price {
            return Screened {
                over: true,
                read: k + 1,
            };
        }
        left -= price;
    }
    Screened {
        over: false,
        read: choice.len(),
    }
}

// Whether a choice, joining or not, costs more than the figure, and how many first rows it takes to tell: refusals 2 to 9, 15 and 10
// in their order.
pub fn over_figure(file: &[u8], choice: &[u32], figure: u32) -> Result<Screened, Kind>
    ensures { FigureSays file.now choice.now figure result }
{
    let opened = opening::open_choice(file, choice)?;
    Ok(screen(&opened.hall, choice, figure))
}
