// Each answer as one i64: 0 or more is the answer, below 0 is minus the refusal's number. A refusal alters no lent byte. Rows,
// which are below 0 in the south, are never refused. Kept: a point and a position as arguments one by one, here and in `arrays`, as C
// hands them over.
#![tactic(auto)]

ghost use Rattle.std.specs.Prelude.{◌≡◌, length};
ghost use Rattle.zones.specs.Zones.{zone_of};
ghost use Rattle.ranges.specs.Ranges.{utm_check};
ghost use Rattle.writer.specs.Write.{write_of, write_leaves};
ghost use Rattle.squares.specs.Shorten.{short_of, short_leaves};
ghost use Rattle.squares.specs.Covers.{covers_of};
ghost use Rattle.rules.specs.Rules.{number_of};
ghost use Rattle.numbers.specs.Numbers.{minus, length_number, covers_number, utm_number, zone_number, row_of};

use position::Position;
use ranges::Point;
use rules::Refusal;

// What the range test answers where it does not refuse. Kept as a number, and so is the next: C has these.
const IN_RANGE: i64 = 0;

// No row has the letter; every row is below it.
const NO_ROW: i64 = 100;

// Minus a refusal's number, which is a byte: those of the calls are 1 to 22.
#[tactic(auto, unfolding(crate::specs::Numbers::minus))]
pub fn refused(n: u8) -> i64
    ensures { result ≡ minus n }
{
    -i64::from(n)
}

// The same of a rule by its name.
pub fn number_of(refusal: Refusal) -> i64
    ensures { result ≡ minus (number_of refusal) }
{
    refused(refusal.number())
}

// ---- writing

// Writes a point's reference at the buffer's front: its length.
pub fn write(
    zone: i64,
    north: bool,
    band: u8,
    p: i64,
    easting: i64,
    northing: i64,
    out: &mut [u8],
) -> i64
    ensures { (result ≡ length_number (write_of zone north band p easting northing (length out.old))) × (out.new ≡ write_leaves zone north band p easting northing out.old) }
{
    let q = Position {
        p,
        zone,
        northing,
        north,
        easting,
        band,
    };
    match writer::write(q, out) {
        Ok(length) => length as i64,
        Err(refusal) => number_of(refusal),
    }
}

// Writes a reference at q digits: its length.
#[tactic(auto, using(refusals::proofs::Room::short_room))]
pub fn shorten(text: &[u8], q: i64, out: &mut [u8]) -> i64
    ensures { (result ≡ length_number (short_of text.now q (length out.old))) × (out.new ≡ short_leaves text.now q out.old) }
{
    match squares::shorten(text, q, out) {
        Ok(length) => length as i64,
        Err(refusal) => number_of(refusal),
    }
}

// ---- squares, ranges, zones and rows

// Whether the reference a covers the reference b.
pub fn covers(a: &[u8], b: &[u8]) -> i64
    ensures { result ≡ covers_number (covers_of a.now b.now) }
{
    match squares::covers(a, b) {
        Ok(covers) => i64::from(covers),
        Err(refusal) => number_of(refusal),
    }
}

// The UTM range test.
pub fn utm_check_coords(zone: i64, north: bool, easting: i64, northing: i64) -> i64
    ensures { result ≡ utm_number (utm_check zone north easting northing) }
{
    let point = Point {
        north,
        easting,
        northing,
    };
    match ranges::utm_check_coords(zone, point) {
        Ok(()) => IN_RANGE,
        Err(refusal) => number_of(refusal),
    }
}

// The zone of a latitude and a longitude, 0 for UPS.
pub fn standard_zone(latitude: i64, longitude: i64) -> i64
    ensures { result ≡ zone_number (zone_of latitude longitude) }
{
    match zones::standard_zone(latitude, longitude) {
        Ok(zone) => zone,
        Err(refusal) => number_of(refusal),
    }
}

// The row that a letter of an odd zone means for a band and a column; a row of the south is below 0, and nothing is refused.
pub fn utm_row(band: i64, column: i64, letter: i64) -> i64
    ensures { result ≡ row_of band column letter }
{
    if column < 0 || letter < 0 {
        return NO_ROW;
    }
    rows::utm_row(band, column as usize, letter as usize).unwrap_or(NO_ROW)
}
