// What is read, and a point after the edge rules, in a lent array. Each call answers a number as those of `numbers` do, and a
// refusal leaves every lent element as it was.
#![tactic(auto)]

ghost use Rattle.std.specs.Prelude.{◌≡◌};
ghost use Rattle.ranges.specs.Edges.{mgrs_check};
ghost use Rattle.reader.specs.Read.{read_of};
ghost use Rattle.reader.specs.Metres.{metres_read};
ghost use Rattle.numbers.specs.Numbers.{read_number, metres_number, mgrs_number};
ghost use Rattle.arrays.specs.Lent.{flag, fields_of, read_leaves, metres_leaves, moved_leaves};

use position::Position;
use ranges::Point;
use reader::Reading;

// What a call answers where it does not refuse. Kept as numbers: C has these.
const SQUARE: i64 = 0;

const BARE: i64 = 1;

const IN_RANGE: i64 = 0;

// A position in the order in which it is handed over. Kept: no `From`, which a crate can give only to a type of its own.
fn fields_of(q: Position) -> [i64; 6]
    ensures { result ≡ fields_of q }
{
    let north = i64::from(q.north);
    let band = i64::from(q.band);
    [q.zone, north, band, q.p, q.easting, q.northing]
}

// Reads any bytes: zone, north or not, band, p, easting and northing, of a square or of a bare zone.
pub fn read(text: &[u8], position: &mut [i64; 6]) -> i64
    ensures { (result ≡ read_number (read_of text.now)) × (position.new ≡ read_leaves (read_of text.now) position.old) }
{
    match reader::read(text) {
        Ok(Reading::Square(square)) => {
            *position = fields_of(square);
            SQUARE
        }
        Ok(Reading::Bare(bare)) => {
            *position = fields_of(bare);
            BARE
        }
        Err(refusal) => numbers::number_of(refusal),
    }
}

// The same in metres: easting and northing.
pub fn read_metres(text: &[u8], metres: &mut [f64; 2]) -> i64
    ensures { (result ≡ metres_number (metres_read text.now)) × (metres.new ≡ metres_leaves (metres_read text.now) metres.old) }
{
    match reader::read_metres(text) {
        Ok(Reading::Square(square)) => {
            *metres = [square.easting, square.northing];
            SQUARE
        }
        Ok(Reading::Bare(bare)) => {
            *metres = [bare.easting, bare.northing];
            BARE
        }
        Err(refusal) => numbers::number_of(refusal),
    }
}

// The MGRS range test: north or not, easting and northing after the edge rules. Kept: its numbers one by one, as C hands them over.
pub fn mgrs_check_coords(
    zone: i64,
    north: bool,
    easting: i64,
    northing: i64,
    moved: &mut [i64; 3],
) -> i64
    ensures { (result ≡ mgrs_number (mgrs_check zone north easting northing)) × (moved.new ≡ moved_leaves (mgrs_check zone north easting northing) moved.old) }
{
    let given = Point {
        north,
        easting,
        northing,
    };
    match ranges::mgrs_check_coords(zone, given) {
        Ok(point) => {
            *moved = [i64::from(point.north), point.easting, point.northing];
            IN_RANGE
        }
        Err(refusal) => numbers::number_of(refusal),
    }
}
