// The block of 100 km that a band, a column and a row letter name, or the rule, of 8 to 10, by which they name none; and
// the point of a bare zone. Every call takes any zone and any letters.
#![tactic(auto)]

ghost use Rattle.std.specs.Prelude.{◌≡◌, cond, ◌+◌, ◌≤◌, ◌<◌, pos, negsuc, ◌≤ℤ◌};
ghost use Rattle.letters.specs.Letters.{north_band};
ghost use Rattle.bands.specs.declared.Grid.TheVariants.{Utm};
ghost use Rattle.bands.specs.Bands.{grid_of};
ghost use Rattle.block.specs.Bare.{bare_tile, bare_easting, bare_northing, bare_of};
ghost use Rattle.block.specs.Block.{tile_of, utm_block, block_of};

use bands::Grid;
use position::Position;
use rules::Refusal;

// ---- a bare zone

const METRE: i64 = 2_000_000;

const TILE: i64 = 200_000_000_000;

// The tile of the k-th band's middle row, floor((160k - 1511)/18): 85 tiles more are divided, so that no number is negative.
#[tactic(auto, using(crate::proofs::Bounds::tile_divided))]
fn bare_tile(k: usize) -> i64
    requires { k < 24 }
    ensures { result ≡ bare_tile k }
{
    ((160 * k + 19) / 18) as i64 - 85
}

#[tactic(auto, unfolding(crate::specs::Bare::bare_easting, whole::specs::Compare::is_number))]
fn bare_easting(zone: i64, band: u8) -> i64
    ensures { result ≡ bare_easting zone band }
{
    if zone < 1 && letters::is_east(band) {
        2_400_000 * METRE
    } else if zone < 1 {
        1_600_000 * METRE
    } else if zone == 31 && band == b'V' {
        400_000 * METRE
    } else {
        500_000 * METRE
    }
}

// Southern tiles count from 100 tiles below the equator.
fn tiles_more(band: u8) -> i64
    ensures { result ≡ cond (north_band band) (pos 0) (pos 100) }
{
    if letters::is_north(band) { 0 } else { 100 }
}

fn bare_northing(zone: i64, band: u8) -> i64
    ensures { result ≡ bare_northing zone band }
{
    if zone < 1 {
        return 2_000_000 * METRE;
    }
    (bare_tile(bands::band_index(band)) + tiles_more(band)) * TILE
}

// The point of a bare zone: supplied, not recorded, and so of p -1.
#[tactic(auto, unfolding(crate::specs::Bare::bare_of))]
pub fn bare_of(zone: i64, band: u8) -> Position
    ensures { result ≡ bare_of zone band }
{
    let north = letters::is_north(band);
    let easting = bare_easting(zone, band);
    let northing = bare_northing(zone, band);
    Position {
        zone,
        north,
        band,
        p: -1,
        easting,
        northing,
    }
}

// ---- 8, 9, 10: the block of 100 km

// The tiles of a column and a row letter.
#[derive(Clone, Copy)]
pub struct Tiles {
    pub easting: u8,
    pub northing: u8,
}

// The tile of a place, by the first letter's.
fn tile_at(first: usize, place: usize) -> u8
    requires { (first ≤ 20) × (place < 24) }
    ensures { result ≡ first + place }
{
    (first + place) as u8
}

// The tile of a signed row: southern rows are negative.
fn tile_of(row: i64) -> u8
    requires { (negsuc 89 ≤ℤ row) × (row ≤ℤ pos 94) }
    ensures { result ≡ tile_of row }
{
    if row < 0 {
        (row + 100) as u8
    } else {
        row as u8
    }
}

// The block of a UTM zone, with the row that the letter means. A letter that is no band allows no row; told at once, the row does not
// wait for the table to confirm the band.
#[tactic(auto, using(bands::proofs::Index::index_is, bands::proofs::Index::index_le))]
fn utm_block(
    zone: i64,
    band: u8,
    column: usize,
    letter: usize,
    easting: u8,
) -> Result<Tiles, Refusal>
    ensures { result ≡ utm_block zone band column letter easting }
{
    let Some(k) = bands::utm_place(band) else {
        return Err(Refusal::NoAllowedRow);
    };
    let number = k as i64 - 10;
    let Some(found) = rows::utm_row_at(rows::shift_of(zone), number, column, letter) else {
        return Err(Refusal::NoAllowedRow);
    };
    let northing = tile_of(found);
    Ok(Tiles { easting, northing })
}

// Of capitals in a UTM zone: the column and the row of a band. Kept: zone, band and letters one by one, here and below, as the public
// `block_of` takes them.
#[tactic(auto, using(letters::proofs::Places::place_lt, crate::proofs::Grids::in_utm))]
fn block_in_utm(zone: i64, band: u8, column: u8, row: u8) -> Result<Tiles, Refusal>
    requires { grid_of zone ≡ Utm }
    ensures { result ≡ block_of zone band column row }
{
    let Some(c) = columns::utm_place(zone, column) else {
        return Err(Refusal::WrongColumn);
    };
    let Some(l) = row_letters::utm_place(row) else {
        return Err(Refusal::WrongRow);
    };
    utm_block(zone, band, c, l, tile_at(1, c))
}

// The same in UPS, where the letters are tiles.
#[tactic(auto, using(letters::proofs::Places::tile_lt, crate::proofs::Grids::in_ups))]
fn block_in_ups(band: u8, column: u8, row: u8) -> Result<Tiles, Refusal>
    ensures { result ≡ block_of (pos 0) band column row }
{
    let Some(c) = columns::ups_tile(band, column) else {
        return Err(Refusal::WrongColumn);
    };
    let Some(l) = row_letters::ups_tile(letters::is_north(band), row) else {
        return Err(Refusal::WrongRow);
    };
    let easting = c as u8;
    let northing = l as u8;
    Ok(Tiles { easting, northing })
}

// The same in any zone.
#[tactic(auto, unfolding(bands::specs::Bands::grid_of), using(crate::proofs::Grids::in_none))]
pub fn block_of(zone: i64, band: u8, column: u8, row: u8) -> Result<Tiles, Refusal>
    ensures { result ≡ block_of zone band column row }
{
    match bands::grid_of(zone) {
        Grid::Utm => block_in_utm(zone, band, column, row),
        Grid::Ups => block_in_ups(band, column, row),
        Grid::NoZone => Err(Refusal::WrongColumn),
    }
}
