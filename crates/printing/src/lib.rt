// The printed list of a plan, or the line of a refusal, into a lent text: specs/Printed.antt says its bytes.
// It stands on the lines of `lines`, the record of `hallfile`, the cuts of `cutlist` and the kinds of `refusals`.
#![tactic(auto)]

ghost use Rattle.std.specs.Prelude.{◌≡◌, true, ◌++◌, ◌+◌, ◌*◌, ◌≤◌, length};
ghost use Rattle.cutlist.specs.Cuts.{cuts_of};
ghost use Rattle.hall.specs.Hall.{is_choice};
ghost use Rattle.hall.specs.File.{refusal};
ghost use Rattle.printing.specs.Printed.{choice_lines, cut_lines, levels_line, printed_plan, printed_refusal};
ghost use Rattle.printing.specs.Recorded.{hall_of, hall_drawn, Printable};
ghost use Rattle.refusals.specs.Kinds.{refusal_of};

use cutlist::Cut;
use hallfile::HallRecord;
use lines::Text;
use refusals::Kind;

/// A list or a line of at most 65,536 bytes: the longest list has some 34,000. It is lent, since a move copies all of it.
pub type List = Text<65_536>;

/// A hall as the columns of its rows, row i at place i - 1. Any ends and prices can be printed: nothing is asked of them.
#[derive(Clone, Copy)]
pub struct Drawn<'a> {
    pub n: usize,
    pub count: usize,
    pub tails: &'a [u8; 256],
    pub heads: &'a [u8; 256],
    pub prices: &'a [u32; 256],
    pub fixed: &'a [bool; 256],
}

impl<'a> Drawn<'a> {
    /// The hall of the reader's record.
    #[tactic(auto, unfolding(crate::specs::Recorded::hall_of, crate::specs::Recorded::hall_drawn))]
    pub fn of(hall: &'a HallRecord) -> Drawn<'a>
        ensures { hall_drawn result ≡ hall_of hall.now }
    {
        Drawn {
            n: hall.lanes.n,
            count: hall.lanes.count,
            tails: &hall.lanes.tails,
            heads: &hall.lanes.heads,
            prices: &hall.prices,
            fixed: &hall.fixed,
        }
    }
}

// The lines of a choice: how many rows are opened, then each row's line.
#[tactic(auto, unfolding(lines::specs::Lines::text, crate::specs::Printed::choice_lines, crate::specs::Printed::open_word))]
fn push_choice(text: &mut List, hall: &Drawn<'_>, rows: &[u32])
    requires few { hall.now.count ≤ 256 }
    requires choice { is_choice (hall_drawn hall.now) rows.now ≡ true }
    requires room { length text.old + 26 + 30 * length rows.now ≤ 65536 }
    ensures appended { text.new ≡ text.old ++ choice_lines (hall_drawn hall.now) rows.now }
    ensures short { length text.new ≤ length text.old + 26 + 30 * length rows.now }
{
    text.push_number_line(b"OPEN ", rows.len() as u64);
    for row in rows {
        let place = *row as usize - 1;
        text.push_row_line(
            *row,
            hall.tails[place],
            hall.heads[place],
            hall.prices[place],
        );
    }
}

// The lines of the cuts: how many there are, then each cut's line.
#[tactic(auto, unfolding(lines::specs::Lines::text, crate::specs::Printed::cut_lines, crate::specs::Printed::cuts_word))]
fn push_cuts(text: &mut List, n: usize, cuts: &[Cut])
    requires n_bound { n ≤ 64 }
    requires room { length text.old + 26 + 203 * length cuts.now ≤ 65536 }
    ensures appended { text.new ≡ text.old ++ cut_lines n (cuts_of cuts.now) }
    ensures short { length text.new ≤ length text.old + 26 + 203 * length cuts.now }
{
    text.push_number_line(b"CUTS ", cuts.len() as u64);
    for cut in cuts {
        text.push_cut_line(n, cut.shore.0, cut.weight);
    }
}

// The line of the levels, a space before each.
#[tactic(auto, unfolding(lines::specs::Lines::text, crate::specs::Printed::levels_line, crate::specs::Printed::levels_word))]
fn push_levels(text: &mut List, levels: &[i32])
    requires { length text.old + 7 + 12 * length levels.now ≤ 65536 }
    ensures { text.new ≡ text.old ++ levels_line levels.now }
{
    text.push_bytes(b"LEVELS");
    for level in levels {
        text.push_level(*level);
    }
    text.push(b'\n');
}

// The printed list of a plan, in place of what the text held.
#[tactic(auto, unfolding(lines::specs::Lines::text, crate::specs::Printed::printed_plan, crate::specs::Printed::hall_word, crate::specs::Printed::total_word))]
pub fn print_plan(
    text: &mut List,
    hall: &Drawn<'_>,
    rows: &[u32],
    total: u32,
    cuts: &[Cut],
    levels: &[i32],
)
    requires { Printable hall.now rows.now cuts.now levels.now }
    ensures { text.new ≡ printed_plan (hall_drawn hall.now) rows.now total (cuts_of cuts.now) levels.now }
{
    text.clear();
    text.push_pair_line(b"HALL ", hall.n as u64, hall.count as u64);
    push_choice(text, hall, rows);
    text.push_number_line(b"TOTAL ", u64::from(total));
    push_cuts(text, hall.n, cuts);
    push_levels(text, levels);
}

// The printed refusal, by its number and row, in place of what the text held.
#[tactic(auto, unfolding(lines::specs::Lines::text, crate::specs::Printed::printed_refusal, crate::specs::Printed::refused_word, hall::specs::File::refusal))]
pub fn print_refusal(text: &mut List, number: u64, row: u64)
    ensures { text.new ≡ printed_refusal (refusal number row) }
{
    text.clear();
    text.push_pair_line(b"REFUSED ", number, row);
}

// The printed refusal of a kind, in place of what the text held.
pub fn print_kind(text: &mut List, kind: Kind)
    ensures { text.new ≡ printed_refusal (refusal_of kind) }
{
    print_refusal(text, u64::from(kind.number()), u64::from(kind.row()));
}
