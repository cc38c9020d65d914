// With and without each lane: the least totals of the joining choices that have a row and of those that have it not, row by row, by
// specs/Figures.antt.
#![tactic(auto)]

ghost use Rattle.std.specs.Prelude.{◌≡◌, true, false, ℕ, suc, ◌≤◌, ◌<◌, length, Some};
ghost use Rattle.laws.specs.Finite.{any_below};
ghost use Rattle.hall.specs.Hall.{Hall, row};
ghost use Rattle.potentials.specs.Flip.{put};
ghost use Rattle.potentials.specs.Repair.{Repaired};
ghost use Rattle.order.specs.Ranked.{charge};
ghost use Rattle.columns.specs.Columns.{flagged};
ghost use Rattle.refusals.specs.Kinds.{answered, figure};
ghost use Rattle.forcing.specs.Figures.{LeastTotal, FiguresOf};
ghost use Rattle.plan.specs.Ready.{Accepted};
ghost use Rattle.withwithout.specs.Figures.{with_number, without_number, FiguresAs, FiguresSays};
ghost use Rattle.withwithout.specs.declared.Filled.{Filled};
ghost use Rattle.withwithout.specs.Least.{LeastPlanOf, figures_of, barred};

use columns::Costs;
use hallfile::HallRecord;
use ledger::costs;
use ledger::listing::total_of;
use refusals::Kind;
use repair::State;
use std::fmt;

// What stands in both lists for a fixed row.
pub const FIXED_ROW: u32 = 0xFFFF_FFFE;

// What stands in the second list for a row that every joining choice has.
pub const NO_TOTAL: u32 = 0xFFFF_FFFF;

// A row's figures: it is fixed, or the least total with it, and that without it where there is one.
#[derive(Clone, Copy)]
pub enum Figures {
    Fixed,
    Totals { with: u32, without: Option<u32> },
}

impl Figures {
    // The figures that stand so in the two lists.
    #[tactic(auto, unfolding(crate::specs::Least::figures_of, crate::specs::Figures::with_number, crate::specs::Figures::without_number))]
    pub fn of_numbers(with: u32, without: u32) -> Figures
        ensures with { with_number (figures_of result) ≡ with }
        ensures without { without_number (figures_of result) ≡ without }
    {
        match (with, without) {
            (FIXED_ROW, FIXED_ROW) => Figures::Fixed,
            (_, NO_TOTAL) => Figures::Totals {
                with,
                without: None,
            },
            (_, total) => Figures::Totals {
                with,
                without: Some(total),
            },
        }
    }

    // What stands in the first list: C callers read a number.
    #[tactic(auto, unfolding(crate::specs::Least::figures_of, crate::specs::Figures::with_number))]
    pub fn with(self) -> u32
        ensures { result ≡ with_number (figures_of self) }
    {
        match self {
            Figures::Fixed => FIXED_ROW,
            Figures::Totals { with, .. } => with,
        }
    }

    // What stands in the second list: C callers read a number.
    #[tactic(auto, unfolding(crate::specs::Least::figures_of, crate::specs::Figures::without_number))]
    pub fn without(self) -> u32
        ensures { result ≡ without_number (figures_of self) }
    {
        match self {
            Figures::Fixed => FIXED_ROW,
            Figures::Totals { without: None, .. } => NO_TOTAL,
            Figures::Totals {
                without: Some(total),
                ..
            } => total,
        }
    }
}

impl fmt::Display for Figures {
    fn fmt<W: fmt::Write>(&self, f: &mut fmt::Formatter<W>) -> fmt::Result {
        match self {
            Figures::Fixed => write!(f, "FIXED"),
            Figures::Totals {
                with,
                without: None,
            } => write!(f, "{with} NONE"),
            Figures::Totals {
                with,
                without: Some(total),
            } => write!(f, "{with} {total}"),
        }
    }
}

// The reply: how many rows have their figures in the two lists.
#[derive(Clone, Copy)]
pub struct Filled {
    pub rows: usize,
}

impl fmt::Display for Filled {
    fn fmt<W: fmt::Write>(&self, f: &mut fmt::Formatter<W>) -> fmt::Result {
        write!(f, "ROWS {}", self.rows)
    }
}

// What the figures of a hall's rows start from: what the rows are charged, a choice of least total, and that total.
#[derive(Clone, Copy)]
pub struct LeastPlan<'a> {
    pub hall: &'a HallRecord,
    pub charges: Costs,
    pub state: State,
    pub total: u32,
}

impl<'a> LeastPlan<'a> {
    // Of an accepted hall.
    fn of(hall: &'a HallRecord) -> LeastPlan<'a>
        requires { (h : Hall) × Accepted h hall.now }
        ensures { (h : Hall) → Accepted h hall.now → LeastPlanOf h result }
    {
        let count = hall.lanes.count;
        let charges = costs::charges(count, &hall.prices, &hall.fixed);
        let state = plan::least(hall);
        let total = total_of(count, &hall.prices, &state.chosen);
        LeastPlan {
            hall,
            charges,
            state,
            total,
        }
    }

    // A choice of least cost where the row at place k costs so much.
    fn repriced(&self, k: usize, cost: u64) -> [bool; 256]
        requires { (k < self.now.hall.now.lanes.count) × (cost ≤ 256000001) × ((h : Hall) × LeastPlanOf h self.now) }
        ensures { (h : Hall) → LeastPlanOf h self.now → (p : ℕ → ℕ) × Repaired h (put (suc k) cost (charge h)) p (flagged result) }
    {
        reprice::reprice(&self.hall.lanes, &self.charges, &self.state, k, cost).chosen
    }

    // The least total with the row at place k: at no cost the row is free to be put in.
    fn with(&self, k: usize) -> u32
        requires { (k < self.now.hall.now.lanes.count) × ((h : Hall) × LeastPlanOf h self.now) }
        ensures { (h : Hall) → LeastPlanOf h self.now → (row h (suc k)).fixed ≡ false → LeastTotal h (suc k) true (Some result) }
    {
        let mut chosen = self.repriced(k, 0);
        chosen[k] = true;
        total_of(self.hall.lanes.count, &self.hall.prices, &chosen)
    }

    // Whether the row at place k, or a fixed one, is chosen.
    fn has_barred(&self, chosen: &[bool; 256], k: usize) -> bool
        ensures { result ≡ any_below self.now.hall.now.lanes.count (barred chosen.now self.now.hall.now.fixed k) }
    {
        for i in 0..self.hall.lanes.count {
            if chosen[i] & (self.hall.fixed[i] | (i == k)) {
                return true;
            }
        }
        false
    }

    // The least total without the row at place k, which costs as much as a fixed one; none where each joining choice has it.
    fn without(&self, k: usize) -> Option<u32>
        requires { (k < self.now.hall.now.lanes.count) × ((h : Hall) × LeastPlanOf h self.now) }
        ensures { (h : Hall) → LeastPlanOf h self.now → LeastTotal h (suc k) false result }
    {
        let chosen = self.repriced(k, costs::FIXED);
        if self.has_barred(&chosen, k) {
            return None;
        }
        Some(total_of(self.hall.lanes.count, &self.hall.prices, &chosen))
    }

    // The figures of the row at place k. One of them is the least total.
    fn figures(&self, k: usize) -> Figures
        requires { (k < self.now.hall.now.lanes.count) × ((h : Hall) × LeastPlanOf h self.now) }
        ensures { (h : Hall) → LeastPlanOf h self.now → FiguresOf h (suc k) (figures_of result) }
    {
        if self.hall.fixed[k] {
            Figures::Fixed
        } else if self.state.chosen[k] {
            Figures::Totals {
                with: self.total,
                without: self.without(k),
            }
        } else {
            Figures::Totals {
                with: self.with(k),
                without: Some(self.total),
            }
        }
    }
}

// The figures of every row into the first places of two lists that are long enough.
fn list_figures(plan: &LeastPlan<'_>, with: &mut [u32], without: &mut [u32])
    requires { (256 ≤ length with.old) × (256 ≤ length without.old) × ((h : Hall) × LeastPlanOf h plan.now) }
    ensures { (h : Hall) → LeastPlanOf h plan.now →
        FiguresAs 0 h plan.now.hall.now.lanes.count with.old with.new without.old without.new }
{
    for k in 0..plan.hall.lanes.count {
        let figures = plan.figures(k);
        with[k] = figures.with();
        without[k] = figures.without();
    }
}

// For each row the least totals of a joining choice with it and of one without it, into its places of two lists of at least 256, and how
// many rows there are: refusal 1, then 2 to 9 and 15.
pub fn with_without(file: &[u8], with: &mut [u32], without: &mut [u32]) -> Result<Filled, Kind>
    ensures { FiguresSays file.now (answered result) (figure (λ (p : Filled). p.rows) result) with.old with.new without.old without.new }
{
    if with.len() < 256 || without.len() < 256 {
        return Err(Kind::ListShort);
    }
    let hall = hallfile::read_hall(file)?;
    let plan = LeastPlan::of(&hall);
    list_figures(&plan, with, without);
    Ok(Filled {
        rows: plan.hall.lanes.count,
    })
}
