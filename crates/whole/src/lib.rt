// Whole numbers: ranges, division of a signed number that rounds down, and powers of ten.
#![tactic(auto)]

ghost use Rattle.std.specs.Prelude.{◌≡◌};
ghost use Rattle.whole.specs.Compare.{outside};
ghost use Rattle.whole.specs.Floor.{fold, floor_div, floor_mod};
ghost use Rattle.whole.specs.Powers.{power_of_ten};

// Whether a number is not one of low..high, both ends in.
#[tactic(auto, unfolding(crate::specs::Compare::outside))]
pub fn is_outside(low: i64, high: i64, z: i64) -> bool
    ensures { result ≡ outside low high z }
{
    z < low || high < z
}

// A negative v as -v-1, any other as it is: how rows and bands are mirrored, and how the division
// below gets by with unsigned numbers.
pub fn fold_of(v: i64) -> u64
    ensures { result ≡ fold v }
{
    if v < 0 { (-1 - v) as u64 } else { v as u64 }
}

// x divided by d, rounded down; 0 where d is 0. Kept: 0 and not None, here and below, as specs/Floor and specs/Powers have it;
// and not `div_euclid`, whose divisor is signed.
#[tactic(auto, using(crate::proofs::Floor::by_zero, crate::proofs::Floor::below, crate::proofs::Floor::above))]
pub fn floor_div(x: i64, d: u64) -> i64
    ensures { result ≡ floor_div x d }
{
    if d == 0 {
        return 0;
    }
    let q = (fold_of(x) / d) as i64;
    if x < 0 { -1 - q } else { q }
}

// What floor_div leaves of x: 0 up to d-1; 0 where d is 0.
#[tactic(auto, unfolding(crate::specs::Floor::floor_mod))]
pub fn floor_mod(x: i64, d: u64) -> u64
    ensures { result ≡ floor_mod x d }
{
    if d == 0 {
        return 0;
    }
    let m = fold_of(x) % d;
    if x < 0 { d - 1 - m } else { m }
}

// 10 to the k-th for k up to 11; 0 above, which is no power of ten. Kept: with the library's `pow` writing takes 11 % more instructions,
// and it is at its goal.
#[tactic(auto, unfolding(crate::specs::Powers::power_of_ten))]
pub fn power_of_ten(k: usize) -> u64
    ensures { result ≡ power_of_ten k }
{
    match k {
        0 => 1,
        1 => 10,
        2 => 100,
        3 => 1_000,
        4 => 10_000,
        5 => 100_000,
        6 => 1_000_000,
        7 => 10_000_000,
        8 => 100_000_000,
        9 => 1_000_000_000,
        10 => 10_000_000_000,
        11 => 100_000_000_000,
        _ => 0,
    }
}
