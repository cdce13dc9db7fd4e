// Positions: what a reference stands for, its parts, and the square of p digits around it.
#![tactic(auto)]

ghost use Rattle.std.specs.Prelude.{◌≡◌};
ghost use Rattle.position.specs.Squares.{half_of, side_length, corner_of, south_west};

// What a reference stands for. Zone 0 is UPS; p is the digits of each axis, -1 for a bare zone. In this order of the fields an answer
// is copied in the pieces in which it was stored, and no copy waits.
#[derive(Clone, Copy)]
pub struct Position {
    pub p: i64,
    pub zone: i64,
    pub northing: i64,
    pub north: bool,
    pub easting: i64,
    pub band: u8,
}

// What a full reference is made of: the letters are capitals, the numbers are those of the digits.
#[derive(Clone, Copy)]
pub struct Parts {
    pub zone: i64,
    pub band: u8,
    pub column: u8,
    pub row: u8,
    pub p: i64,
    pub easting: u64,
    pub northing: u64,
}

// Half the side of a square of p digits; 0 for a bare zone and any other p.
// Kept: no Option here, since the definition `half_of` has 0 for such a p.
#[tactic(auto, using(crate::proofs::Squares::half_tests))]
pub fn half_of(p: i64) -> u64
    ensures { result ≡ half_of p }
{
    match p {
        0..=11 => whole::power_of_ten(11 - p as usize),
        _ => 0,
    }
}

// The side of a square of p digits.
#[tactic(auto, unfolding(crate::specs::Squares::side_length), using(crate::proofs::Squares::half_le))]
pub fn side_length(p: i64) -> u64
    ensures { result ≡ side_length p }
{
    2 * half_of(p)
}

// The west or south edge of the square around a centre; 0 where the centre is not half a side from 0.
// Kept: the `if` is no longer than `centre.saturating_sub(half).max(0)`, and reads as document 01 does.
#[tactic(auto, unfolding(crate::specs::Squares::corner_of), using(crate::proofs::Squares::half_le))]
pub fn corner_of(p: i64, centre: i64) -> i64
    ensures { result ≡ corner_of p centre }
{
    let half = half_of(p) as i64;
    if centre < half { 0 } else { centre - half }
}

// A read position at the south-west corner of its square; a bare zone's point stays.
pub fn south_west(q: Position) -> Position
    ensures { result ≡ south_west q }
{
    Position {
        easting: corner_of(q.p, q.easting),
        northing: corner_of(q.p, q.northing),
        ..q
    }
}

// A point in metres.
#[derive(Clone, Copy)]
pub struct Metres {
    pub easting: f64,
    pub northing: f64,
}
