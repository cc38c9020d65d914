// The printed list of a hall file: its plan, or the line of its refusal, as specs/Report.antt says.
#![tactic(auto)]

ghost use Rattle.report.specs.Report.{ListSays, ReportSays};

use cutlist::Cut;
use junctions::Junctions;
use planrows::PlannedRows;
use printing::{Drawn, List};
use refusals::Kind;
use std::io;

// The list of a file's hall into the text: its rows and their total by the rows' call, the cuts and levels by the cuts' call.
fn plan_list(file: &[u8], text: &mut List) -> Result<(), Kind>
    ensures { ListSays file.now result text.new }
{
    let mut rows = [0; 256];
    let PlannedRows { chosen, total } = planrows::plan_rows(file, &mut rows)?;
    let none = Cut {
        shore: Junctions::EMPTY,
        weight: 0,
    };
    let mut cuts = [none; 125];
    let mut levels = [0; 64];
    let planned = plancuts::plan_cuts(file, &mut cuts, &mut levels)?;
    let hall = hallfile::read_hall(file)?;
    printing::print_plan(
        text,
        &Drawn::of(&hall),
        &rows[..chosen as usize],
        total,
        &cuts[..planned.cuts as usize],
        &levels[..planned.levels as usize],
    );
    Ok(())
}

// The list, or the line of the refusal, in place of what the text held.
pub fn report(file: &[u8], text: &mut List)
    ensures { ReportSays file.now text.new }
{
    match plan_list(file, text) {
        Ok(()) => {}
        Err(kind) => printing::print_kind(text, kind),
    }
}

// The list to standard output.
pub fn print_list(rt: &impl Print, file: &[u8]) -> io::Result<()> {
    let mut text = List::new();
    report(file, &mut text);
    rt.write_all(text.as_bytes())
}
