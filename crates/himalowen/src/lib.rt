// The calls of the C library, as include/himalowen.h declares them: a reply is an array of numbers, in the order of its fields. `himalowen_c` exports them.
#![tactic(auto)]

ghost use Rattle.std.specs.Prelude.{◌≡◌, [], ◌∷◌, ◌-◌, ◌≤◌, replicate};
ghost use Rattle.refusals.specs.Kinds.{refusal_of, answered, figure};
ghost use Rattle.planrows.specs.declared.PlannedRows.{PlannedRows};
ghost use Rattle.planpairs.specs.declared.PlannedCuts.{PlannedCuts};
ghost use Rattle.withwithout.specs.declared.Filled.{Filled};
ghost use Rattle.himalowen.specs.Replies.{CheckLeaves, TightLeaves, RouteLeaves, FigureLeaves, RowsLeaves, PairLeaves, FiguresLeaves, SiteStartLeaves, SiteAdmitLeaves, told_places, routed_places, screened_places};

use answers::Finding;
use planpairs::PlannedCuts;
use planrows::PlannedRows;
use refusals::Kind;
use routing::Way;
use screening::Screened;
use site::Site;
use withwithout::Filled;

// The number of a reply's refusal, 0 for none: C callers read a number.
#[tactic(auto, unfolding(refusals::specs::Kinds::answered, hall::specs::File::refusal))]
fn number_of<T: Copy>(reply: Result<T, Kind>) -> u32
    ensures { result ≡ (answered reply).number }
{
    match reply {
        Ok(_) => 0,
        Err(kind) => kind.number(),
    }
}

// The places of a refusal: its number, its row, and zeros.
fn refused<const N: usize>(kind: Kind) -> [u64; N]
    requires { 2 ≤ N }
    ensures { result ≡ (refusal_of kind).number ∷ (refusal_of kind).place ∷ replicate (N - 2) 0 }
{
    let mut places = [0; N];
    places[0] = u64::from(kind.number());
    places[1] = u64::from(kind.row());
    places
}

// Each of the replies has figures of its own; number, row and zeros of a refusal are written in `refused` alone.
#[tactic(auto, unfolding(crate::specs::Replies::told_places, refusals::specs::Kinds::answered, refusals::specs::Kinds::figure, hall::specs::File::refusal))]
fn told_places(told: Result<Finding, Kind>) -> [u64; 4]
    ensures { result ≡ told_places told }
{
    match told {
        Ok(found) => [0, 0, u64::from(found.outcome()), found.set()],
        Err(kind) => refused(kind),
    }
}

#[tactic(auto, unfolding(crate::specs::Replies::routed_places, refusals::specs::Kinds::answered, refusals::specs::Kinds::figure, hall::specs::File::refusal))]
fn routed_places(routed: Result<Way, Kind>) -> [u64; 5]
    ensures { result ≡ routed_places routed }
{
    match routed {
        Ok(way) => [0, 0, u64::from(way.outcome()), way.set(), way.filled()],
        Err(kind) => refused(kind),
    }
}

#[tactic(auto, unfolding(crate::specs::Replies::screened_places, refusals::specs::Kinds::answered, refusals::specs::Kinds::figure, hall::specs::File::refusal))]
fn screened_places(screened: Result<Screened, Kind>) -> [u64; 4]
    ensures { result ≡ screened_places screened }
{
    match screened {
        Ok(found) => [0, 0, u64::from(found.over), found.read as u64],
        Err(kind) => refused(kind),
    }
}

#[tactic(auto, unfolding(refusals::specs::Kinds::answered, refusals::specs::Kinds::figure, hall::specs::File::refusal))]
fn rows_places(planned: Result<PlannedRows, Kind>) -> [u64; 4]
    ensures { result ≡ (answered planned).number ∷ (answered planned).place
        ∷ figure (λ (p : PlannedRows). p.chosen) planned ∷ figure (λ (p : PlannedRows). p.total) planned ∷ [] }
{
    match planned {
        Ok(rows) => [0, 0, u64::from(rows.chosen), u64::from(rows.total)],
        Err(kind) => refused(kind),
    }
}

#[tactic(auto, unfolding(refusals::specs::Kinds::answered, refusals::specs::Kinds::figure, hall::specs::File::refusal))]
fn cuts_places(planned: Result<PlannedCuts, Kind>) -> [u64; 4]
    ensures { result ≡ (answered planned).number ∷ (answered planned).place
        ∷ figure (λ (p : PlannedCuts). p.cuts) planned ∷ figure (λ (p : PlannedCuts). p.levels) planned ∷ [] }
{
    match planned {
        Ok(cuts) => [0, 0, u64::from(cuts.cuts), u64::from(cuts.levels)],
        Err(kind) => refused(kind),
    }
}

#[tactic(auto, unfolding(refusals::specs::Kinds::answered, refusals::specs::Kinds::figure, hall::specs::File::refusal))]
fn figures_places(filled: Result<Filled, Kind>) -> [u64; 3]
    ensures { result ≡ (answered filled).number ∷ (answered filled).place ∷ figure (λ (p : Filled). p.rows) filled ∷ [] }
{
    match filled {
        Ok(filled) => [0, 0, filled.rows as u64],
        Err(kind) => refused(kind),
    }
}

#[tactic(auto, unfolding(refusals::specs::Kinds::answered, hall::specs::File::refusal))]
fn answer_places(answer: Result<(), Kind>) -> [u64; 2]
    ensures { result ≡ (answered answer).number ∷ (answered answer).place ∷ [] }
{
    match answer {
        Ok(()) => [0, 0],
        Err(kind) => refused(kind),
    }
}

#[tactic(auto, unfolding(crate::specs::Replies::CheckLeaves))]
pub fn himalowen_check(file: &[u8], choice: &[u32], reply: &mut [u64; 4]) -> u32
    ensures { CheckLeaves file.now choice.now result reply.new }
{
    let told = checking::check_choice(file, choice);
    *reply = told_places(told);
    number_of(told)
}

#[tactic(auto, unfolding(crate::specs::Replies::TightLeaves))]
pub fn himalowen_tight(file: &[u8], choice: &[u32], junction: u32, reply: &mut [u64; 4]) -> u32
    ensures { TightLeaves file.now choice.now junction result reply.new }
{
    let told = neighbourhood::tight_neighbourhood(file, choice, junction);
    *reply = told_places(told);
    number_of(told)
}

#[tactic(auto, unfolding(crate::specs::Replies::RouteLeaves))]
pub fn himalowen_route(
    file: &[u8],
    choice: &[u32],
    from: u32,
    to: u32,
    rows: &mut [i32],
    reply: &mut [u64; 5],
) -> u32
    ensures { RouteLeaves file.now choice.now from to result reply.new rows.old rows.new }
{
    let routed = routing::route(file, choice, from, to, rows);
    *reply = routed_places(routed);
    number_of(routed)
}

#[tactic(auto, unfolding(crate::specs::Replies::FigureLeaves))]
pub fn himalowen_over_figure(file: &[u8], choice: &[u32], figure: u32, reply: &mut [u64; 4]) -> u32
    ensures { FigureLeaves file.now choice.now figure result reply.new }
{
    let screened = screening::over_figure(file, choice, figure);
    *reply = screened_places(screened);
    number_of(screened)
}

#[tactic(auto, unfolding(crate::specs::Replies::RowsLeaves))]
pub fn himalowen_plan_rows(file: &[u8], rows: &mut [u32], reply: &mut [u64; 4]) -> u32
    ensures { RowsLeaves file.now result reply.new rows.old rows.new }
{
    let planned = planrows::plan_rows(file, rows);
    *reply = rows_places(planned);
    number_of(planned)
}

#[tactic(auto, unfolding(crate::specs::Replies::PairLeaves))]
pub fn himalowen_plan_cuts(
    file: &[u8],
    shores: &mut [u64],
    weights: &mut [u32],
    levels: &mut [i32],
    reply: &mut [u64; 4],
) -> u32
    ensures { PairLeaves file.now result reply.new shores.old shores.new
        weights.old weights.new levels.old levels.new }
{
    let planned = planpairs::plan_pairs(file, shores, weights, levels);
    *reply = cuts_places(planned);
    number_of(planned)
}

#[tactic(auto, unfolding(crate::specs::Replies::FiguresLeaves))]
pub fn himalowen_with_without(
    file: &[u8],
    with: &mut [u32],
    without: &mut [u32],
    reply: &mut [u64; 3],
) -> u32
    ensures { FiguresLeaves file.now result reply.new with.old with.new without.old without.new }
{
    let filled = withwithout::with_without(file, with, without);
    *reply = figures_places(filled);
    number_of(filled)
}

#[tactic(auto, unfolding(crate::specs::Replies::SiteStartLeaves))]
pub fn himalowen_site_start(stock: u32, site: &mut [u32; 2059], reply: &mut [u64; 2]) -> u32
    ensures { SiteStartLeaves stock result reply.new site.new }
{
    let started = admitting::start(stock);
    *site = started.site.places();
    *reply = answer_places(started.answer);
    number_of(started.answer)
}

#[tactic(auto, unfolding(crate::specs::Replies::SiteAdmitLeaves))]
pub fn himalowen_site_admit(file: &[u8], site: &mut [u32; 2059], reply: &mut [u64; 2]) -> u32
    ensures { SiteAdmitLeaves file.now result reply.new site.old site.new }
{
    let admitted = admitting::admit(Site::of_places(site), file);
    *site = admitted.site.places();
    *reply = answer_places(admitted.answer);
    number_of(admitted.answer)
}
