// A position to the parts of its reference, or the rule that forbids writing it.
#![tactic(auto)]

ghost use Rattle.std.specs.Prelude.{◌≡◌, ◌-◌, ◌≤◌, ◌<◌, pos, negsuc, ◌-ℤ◌, ◌≤ℤ◌, Some};
ghost use Rattle.position.specs.Squares.{side_length};
ghost use Rattle.position.specs.Units.{tile_at};
ghost use Rattle.letters.specs.Letters.{place_of};
ghost use Rattle.bands.specs.Bands.{bands_of};
ghost use Rattle.columns.specs.Columns.{columns_of};
ghost use Rattle.row_letters.specs.RowLetters.{rows_of};
ghost use Rattle.rows.specs.Allowed.{allowed};
ghost use Rattle.composer.specs.Compose.{row_of_tile, letter_of_tile, ups_fits, fits, row_letter, cut_of, parts_at, made_of, composed_at, composed};

use position::{Parts, Position};
use ranges::Point;
use rules::Refusal;

// ---- a point's tiles, their letters and the bands that fit

const TILE: u64 = 200_000_000_000;

// The tile that a count of units lies in.
fn tile_of(units: u64) -> u32
    ensures { result ≡ tile_at units }
{
    (units / TILE) as u32
}

// The signed row of a tile: southern ones are negative.
#[tactic(auto, unfolding(crate::specs::Compose::row_of_tile))]
fn row_of(north: bool, tile: u32) -> i64
    ensures { result ≡ row_of_tile north tile }
{
    if north {
        tile as i64
    } else {
        tile as i64 - 100
    }
}

// The letter of a column's tile; 0, which is no letter, where there is none. Kept: 0 and not None, here and below, as `letter_of_tile` of
// specs/Compose has it.
#[tactic(auto, unfolding(crate::specs::Compose::letter_of_tile))]
fn column_letter(zone: i64, band: u8, tile: u32) -> u8
    ensures { result ≡ letter_of_tile (columns_of zone band) tile }
{
    (tile as usize)
        .checked_sub(columns::first_column(zone, band))
        .map_or(0, |place| columns::column_letter(zone, band, place))
}

fn utm_fits(k: usize, column: u32, row: i64) -> bool
    requires { (k < 24) × (1 ≤ column) }
    ensures { result ≡ allowed (pos k -ℤ pos 10) (column - 1) row }
{
    rows::is_allowed(k as i64 - 10, column as usize - 1, row)
}

// Hemisphere and side: the east begins at tile 20.
#[tactic(auto, unfolding(crate::specs::Compose::ups_fits))]
fn ups_fits(band: u8, north: bool, column: u32) -> bool
    ensures { result ≡ ups_fits band north column }
{
    letters::is_north(band) == north && letters::is_east(band) == (20 <= column)
}

// The same of a row's tile, where rows count tiles. Kept: two functions, as `map_or` is all that they share; a function of both would
// be given the first tile and a closure, and its calls would be as long.
#[tactic(auto, unfolding(crate::specs::Compose::letter_of_tile))]
fn ups_row_letter(zone: i64, north: bool, tile: u32) -> u8
    ensures { result ≡ letter_of_tile (rows_of zone north) tile }
{
    (tile as usize)
        .checked_sub(row_letters::first_row(zone, north))
        .map_or(0, |place| row_letters::row_letter(zone, north, place))
}

#[tactic(auto, unfolding(crate::specs::Compose::row_letter))]
fn row_letter(zone: i64, north: bool, tile: u32) -> u8
    ensures { result ≡ row_letter zone north tile }
{
    if zone < 1 {
        ups_row_letter(zone, north, tile)
    } else {
        row_letters::row_letter(
            zone,
            north,
            rows::letter_of(rows::shift_of(zone), row_of(north, tile)),
        )
    }
}

// ---- 14 to 19: a point's parts

// A bare zone: nothing of a point is in it.
#[derive(Clone, Copy)]
pub struct BareZone {
    pub zone: i64,
    pub band: u8,
}

// What there is to write.
#[derive(Clone, Copy)]
pub enum Reference {
    Full(Parts),
    Bare(BareZone),
}

// A point after the edge rules, which leave no coordinate below 0, and what it is to be written with.
#[derive(Clone, Copy)]
struct Landed {
    zone: i64,
    band: u8,
    north: bool,
    p: i64,
    easting: u64,
    northing: u64,
    ghost from_tile_1: { 200000000000 ≤ easting },
    ghost at_most_11: { p ≤ℤ pos 11 },
}

// The band's place in its set is handed over: it is not looked up again.
#[tactic(auto, unfolding(crate::specs::Compose::fits, crate::specs::Compose::utm_fits), using(letters::proofs::Places::place_lt))]
fn is_fitting(q: Landed, k: usize) -> bool
    requires { place_of (bands_of q.zone) q.band ≡ Some k }
    ensures { result ≡ fits q.zone q.band q.north (tile_at q.easting) (tile_at q.northing) }
{
    let column = tile_of(q.easting);
    if q.zone < 1 {
        ups_fits(q.band, q.north, column)
    } else {
        let row = row_of(q.north, tile_of(q.northing));
        utm_fits(k, column, row)
    }
}

// The digits of one axis, cut: what is left of a tile, by the side of a square. Both are made greater by the power of ten that
// makes the side a constant: a division by a number that is not known beforehand is no multiplication.
#[tactic(auto, using(crate::proofs::Sides::sided, crate::proofs::Sides::fits))]
fn cut_of(p: i64, x: u64) -> u64
    requires { 0 < side_length p }
    ensures { result ≡ cut_of p x }
{
    let digits = whole::fold_of(p) as usize;
    if digits < 8 {
        return x % TILE * whole::power_of_ten(digits) / TILE;
    }
    x % TILE * whole::power_of_ten(digits - 8) / 2_000
}

#[tactic(auto, unfolding(crate::specs::Compose::parts_at))]
fn parts_at(q: Landed) -> Parts
    requires { 0 < side_length q.p }
    ensures { result ≡ parts_at q.zone q.band q.north q.p q.easting q.northing }
{
    Parts {
        zone: q.zone,
        band: q.band,
        column: column_letter(q.zone, q.band, tile_of(q.easting)),
        row: row_letter(q.zone, q.north, tile_of(q.northing)),
        p: q.p,
        easting: cut_of(q.p, q.easting),
        northing: cut_of(q.p, q.northing),
    }
}

#[tactic(auto, unfolding(crate::specs::Compose::made_of), using(crate::proofs::Sides::some_side))]
fn made_of(q: Landed) -> Reference
    ensures { result ≡ made_of q.zone q.band q.north q.p q.easting q.northing }
{
    if q.p < 0 {
        Reference::Bare(BareZone {
            zone: q.zone,
            band: q.band,
        })
    } else {
        Reference::Full(parts_at(q))
    }
}

// 18 and 19, of a point after the edge rules.
#[tactic(auto, unfolding(crate::specs::Compose::composed_at))]
fn compose_at(q: Landed) -> Result<Reference, Refusal>
    ensures { result ≡ composed_at q.zone q.band q.north q.p q.easting q.northing }
{
    let Some(k) = bands::band_place(q.zone, q.band) else {
        return Err(Refusal::NoSuchBand);
    };
    if is_fitting(q, k) {
        Ok(made_of(q))
    } else {
        Err(Refusal::BandMisfits)
    }
}

// The parts of a point's reference: 14 and 15, then the range test and the edge rules with 16 and 17, then the rest.
#[tactic(auto, unfolding(crate::specs::Compose::composed))]
pub fn compose(q: Position) -> Result<Reference, Refusal>
    ensures { result ≡ composed q.zone q.north q.band q.p q.easting q.northing }
{
    if whole::is_outside(0, 60, q.zone) {
        return Err(Refusal::NoSuchZone);
    }
    if whole::is_outside(-1, 11, q.p) {
        return Err(Refusal::WrongPrecision);
    }
    let point = Point {
        north: q.north,
        easting: q.easting,
        northing: q.northing,
    };
    let moved = ranges::mgrs_check_coords(q.zone, point)?;
    let easting = whole::fold_of(moved.easting);
    let northing = whole::fold_of(moved.northing);
    compose_at(Landed {
        zone: q.zone,
        band: q.band,
        north: moved.north,
        p: q.p,
        easting,
        northing,
    })
}
