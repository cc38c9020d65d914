// A choice by its flags: its rows as a list, and its total.
ghost use Rattle.std.specs.Prelude.{◌≡◌, false, cond, ◌++◌, ℕ, ◌≤◌, length, get_or, drop};
ghost use Rattle.laws.specs.Finite.{sum_below};
ghost use Rattle.hall.specs.Hall.{Hall, count};
ghost use Rattle.dicuts.specs.Listed.{listed};
ghost use Rattle.columns.specs.Columns.{flagged};
ghost use Rattle.columns.specs.Prices.{PricesLow};

// The numbers of the flagged rows, ascending, into the first places. Returns how many there are.
// The list is lent by the caller, from C too, so it is a slice and `filled` counts its places: no heap, and no Vec.
pub fn list_rows(m: usize, flags: &[bool; 256], rows: &mut [u32]) -> usize
    requires { (m ≤ 256) × (m ≤ length rows.old) }
    ensures { (result ≤ m) × ((h : Hall) → count h ≡ m →
        (rows.new ≡ listed h (flagged flags.now) ++ drop (length (listed h (flagged flags.now))) rows.old)
        × (result ≡ length (listed h (flagged flags.now)))) }
{
    let mut filled = 0;
    for k in 0..m {
        if flags[k] {
            rows[filled] = k as u32 + 1;
            filled += 1;
        }
    }
    filled
}

// The prices of the flagged rows, together.
pub fn total_of(m: usize, prices: &[u32; 256], flags: &[bool; 256]) -> u32
    requires { (m ≤ 256) × PricesLow m prices.now }
    ensures { result ≡ sum_below m (λ (k : ℕ). cond (get_or flags.now k false) (get_or prices.now k 0) 0) }
{
    let mut total = 0;
    for k in 0..m {
        if flags[k] {
            total += prices[k];
        }
    }
    total
}
