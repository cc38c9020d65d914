// Costs from prices and marks.
ghost use Rattle.std.specs.Prelude.{◌≡◌, ℕ, ◌+◌, ◌*◌, ◌^◌, ◌≤◌, ◌<◌, get_or};
ghost use Rattle.order.specs.Ranked.{charge_of};
ghost use Rattle.columns.specs.Prices.{PricesLow};
ghost use Rattle.ledger.specs.Padded.{Padded, charged};

use columns::Costs;

// More than 256 prices together: what no choice costs.
pub const FIXED: u64 = 256_000_001;

// The charge of a row: its price, or more than any choice costs.
#[tactic(auto, unfolding(order::specs::Ranked::charge_of))]
fn charge(price: u32, fixed: bool) -> u64
    ensures { result ≡ charge_of fixed price }
{
    if fixed { FIXED } else { u64::from(price) }
}

// The costs of the first m rows, `by` times the charge and `extra` each. A hall's record in place of m and the columns would ask more of callers.
fn costs(m: usize, prices: &[u32; 256], fixed: &[bool; 256], by: u64, extra: u64) -> Costs
    requires { (m ≤ 256) × (by ≤ 257) × (extra ≤ 1) }
    ensures { Padded 256 (λ (k : ℕ). by * charged prices.now fixed.now k + extra) m result.rows }
{
    let mut rows = [0u64; 256];
    for k in 0..m {
        rows[k] = by * charge(prices[k], fixed[k]) + extra;
    }
    Costs { rows }
}

// The charges of the first m rows.
pub fn charges(m: usize, prices: &[u32; 256], fixed: &[bool; 256]) -> Costs
    requires { m ≤ 256 }
    ensures { Padded 256 (charged prices.now fixed.now) m result.rows }
{
    costs(m, prices, fixed, 1, 0)
}

// The ranked costs of the first m rows: they decide by total, then by row count.
pub fn ranked_costs(m: usize, prices: &[u32; 256], fixed: &[bool; 256]) -> Costs
    requires { (m ≤ 256) × PricesLow m prices.now }
    ensures { Padded 256 (λ (k : ℕ). 257 * charged prices.now fixed.now k + 1) m result.rows }
{
    costs(m, prices, fixed, 257, 1)
}
