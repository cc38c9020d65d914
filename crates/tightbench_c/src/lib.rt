// The exports of libtightbench.a: each is the call of that name in `tightbench`, with its promise.
#![tactic(auto)]

ghost use Rattle.std.specs.Prelude.{◌≡◌, Result};
ghost use Rattle.hall.specs.Hall.{Hall};
ghost use Rattle.dicuts.specs.Shores.{Ranged, Joining, once};
ghost use Rattle.columns.specs.Columns.{Ends, Columns, Neighbourhoods, flagged};
ghost use Rattle.refusals.specs.declared.Kind.{Kind};
ghost use Rattle.refusals.specs.Kinds.{figure};
ghost use Rattle.answers.specs.declared.Finding.{Finding};
ghost use Rattle.answers.specs.Answers.{set_of};
ghost use Rattle.neighbourhood.specs.Tight.{TightSays};

#[unsafe(no_mangle)]
pub extern "C" fn tightbench_all(
    n: usize,
    m: usize,
    tails: &[u8; 256],
    heads: &[u8; 256],
    flags: &[bool; 256],
    sets: &mut [u64; 64],
)
    requires { Ends n m tails.now heads.now }
    ensures { (h : Hall) → Columns h n m tails.now heads.now → Ranged h → Joining h (once (flagged flags.now)) → Neighbourhoods h (flagged flags.now) sets.new }
{
    tightbench::tightbench_all(n, m, tails, heads, flags, sets);
}

#[unsafe(no_mangle)]
pub extern "C" fn tightbench_one(file: &[u8], choice: &[u32], junction: u32) -> u64
    ensures { (t : Result Finding Kind) × TightSays file.now choice.now junction t × (result ≡ figure set_of t) }
{
    tightbench::tightbench_one(file, choice, junction)
}
