// Reads a reference: bytes to parts, parts to a position, or the rule by which the text is turned away. The head, the
// block and the digits are calls of their own; here they come together. Kept: zone, band and the rest one by one, as the public `tail_of`
// takes them.
#![tactic(auto)]

ghost use Rattle.std.specs.Prelude.{◌≡◌, true, ◌+◌, ◌*◌, ◌^◌, ◌≤◌, ◌<◌, pos, length};
ghost use Rattle.reader.specs.Read.{square_of, full_of, tail_of, read_of};
ghost use Rattle.position.specs.inner.Counts.{count_of, exact};
ghost use Rattle.position.specs.Squares.{half_of};
ghost use Rattle.reader.specs.Metres.{metres_at, metres_read};

use block::Tiles;
use position::{Metres, Parts, Position};
use rules::Refusal;

// ---- parts to position

const TILE_UNITS: u64 = 200_000_000_000;

// The centre on one axis, of a square with half a side of so many units.
fn centre_at(half: u64, tile: u8, digits: u64) -> i64
    requires { (digits < 100000000000) × ((2 * digits + 1) * half < 200000000000) }
    ensures { result ≡ pos (tile * 200000000000 + (2 * digits + 1) * half) }
{
    (tile as u64 * TILE_UNITS + (2 * digits + 1) * half) as i64
}

// The centre of the square that the parts name in their tiles. Half its side is handed over, for both axes, and the digits are p:
// neither is looked at again.
#[tactic(auto, unfolding(crate::specs::Read::square_of), using(whole::proofs::Signed::back, whole::proofs::Powers::ten_le, position::proofs::Squares::centred))]
fn square_of(half: u64, parts: Parts, tiles: Tiles) -> Position
    requires { (half ≡ half_of parts.p) × (count_of parts.p ≤ 11) × (parts.easting < 10 ^ count_of parts.p) × (parts.northing < 10 ^ count_of parts.p) }
    ensures { result ≡ square_of parts tiles }
{
    let north = letters::is_north(parts.band);
    let easting = centre_at(half, tiles.easting, parts.easting);
    let northing = centre_at(half, tiles.northing, parts.northing);
    Position {
        zone: parts.zone,
        north,
        band: parts.band,
        p: parts.p,
        easting,
        northing,
    }
}

// What a text means, in units or in metres: a square, or a bare zone that is never taken for one.
#[derive(Clone, Copy)]
pub enum Reading<T> {
    Square(T),
    Bare(T),
}

// From the column letter on. Half a side is looked up by the length, before the digits are: behind their loop it would be a jump.
#[tactic(auto, unfolding(crate::specs::Read::full_of))]
fn full_of(zone: i64, band: u8, rest: &[u8]) -> Result<Reading<Position>, Refusal>
    requires { 2 ≤ length rest.now }
    ensures { result ≡ full_of zone band rest.now }
{
    let column = letters::capital(rest[0]);
    let row = letters::capital(rest[1]);
    let half = position::half_of(((rest.len() - 2) / 2) as i64);
    let tiles = block::block_of(zone, band, column, row)?;
    let digits = runs::digits_of(&rest[2..])?;
    let parts = Parts {
        zone,
        band,
        column,
        row,
        p: digits.p,
        easting: digits.easting,
        northing: digits.northing,
    };
    Ok(Reading::Square(square_of(half, parts, tiles)))
}

// From the byte after the band on: a bare zone, 7 to 13 or a square.
#[tactic(auto, unfolding(crate::specs::Read::tail_of))]
pub fn tail_of(zone: i64, band: u8, rest: &[u8]) -> Result<Reading<Position>, Refusal>
    ensures { result ≡ tail_of zone band rest.now }
{
    match rest.len() {
        0 => Ok(Reading::Bare(block::bare_of(zone, band))),
        1 => Err(Refusal::LoneLetter),
        _ => full_of(zone, band, rest),
    }
}

// Reads any bytes.
#[tactic(auto, unfolding(crate::specs::Read::read_of))]
pub fn read(text: &[u8]) -> Result<Reading<Position>, Refusal>
    ensures { result ≡ read_of text.now }
{
    let head = head::head_of(text)?;
    let next = head.next;
    tail_of(head.zone, head.band, &text[next..])
}

// ---- metres

const METRE_UNITS: f64 = 2_000_000.0;

// The metres of a position that was read: none is too far to be exact. Each is one exact cast and one rounded division.
fn metres_at(q: Position) -> Metres
    requires { (exact q.easting ≡ true) × (exact q.northing ≡ true) }
    ensures { result ≡ metres_at q }
{
    let easting = q.easting as f64 / METRE_UNITS;
    let northing = q.northing as f64 / METRE_UNITS;
    Metres { easting, northing }
}

// Reads any bytes, and answers in metres.
#[tactic(auto, unfolding(crate::specs::Metres::metres_read))]
pub fn read_metres(text: &[u8]) -> Result<Reading<Metres>, Refusal>
    ensures { result ≡ metres_read text.now }
{
    Ok(match read(text)? {
        Reading::Square(q) => Reading::Square(metres_at(q)),
        Reading::Bare(q) => Reading::Bare(metres_at(q)),
    })
}
