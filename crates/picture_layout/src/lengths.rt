//! Numbers of units, which stop at 0 and at the greatest.
ghost use Rattle.std.specs.Prelude.{◌≡◌, ◌-◌};
ghost use Rattle.picture_layout.specs.Lengths.{capped_product, capped_sum};

/// The sum, or the greatest number. The numbers of a picture stay far below it. Costs O(1).
pub fn plus(a: u64, b: u64) -> u64
    ensures { result ≡ capped_sum a b }
{
    a.saturating_add(b)
}

/// The difference, or 0. Costs O(1).
pub fn minus(a: u64, b: u64) -> u64
    ensures { result ≡ a - b }
{
    a.saturating_sub(b)
}

/// The product, or the greatest number. Costs O(1).
pub fn times(a: u64, b: u64) -> u64
    ensures { result ≡ capped_product a b }
{
    a.saturating_mul(b)
}
