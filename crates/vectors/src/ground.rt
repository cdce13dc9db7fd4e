// The calls below those for C and Rust, and the caller that writes and reads. Each answer is printed at once, with a space in front.
use crate::fields::{after, byte_of, first_number, head, is_north, size_of};
use bands::Grid;
use position::Position;
use reader::Reading;
use std::io;

// ---- of one number

// A power of ten.
pub(crate) fn ten(rt: &impl Print, k: i64) -> io::Result<()> {
    let power = whole::power_of_ten(whole::fold_of(k) as usize);
    print!(rt; " {power}")
}

// The lowest and the highest row of a band.
pub(crate) fn limits(rt: &impl Print, band: i64) -> io::Result<()> {
    let l = rows::limits_of(band);
    let low = l.low;
    let high = l.high;
    print!(rt; " {low} {high}")
}

pub(crate) fn grid(rt: &impl Print, zone: i64) -> io::Result<()> {
    match bands::grid_of(zone) {
        Grid::Utm => print!(rt; " utm"),
        Grid::Ups => print!(rt; " ups"),
        Grid::NoZone => print!(rt; " none"),
    }
}

// The shift of a zone's row letters.
pub(crate) fn shift(rt: &impl Print, zone: i64) -> io::Result<()> {
    let shift = rows::shift_of(zone);
    print!(rt; " {shift}")
}

pub(crate) fn capital(rt: &impl Print, byte: u8) -> io::Result<()> {
    let capital = letters::capital(byte);
    print!(rt; " {capital}")
}

fn side_of(north: bool) -> char {
    if north { 'N' } else { 'S' }
}

// The hemisphere of a band, and whether it is a UPS band of the east.
pub(crate) fn side(rt: &impl Print, band: u8) -> io::Result<()> {
    let side = side_of(letters::is_north(band));
    print!(rt; " {side}")?;
    if letters::is_east(band) {
        print!(rt; " E")?;
    }
    Ok(())
}

// ---- of more

// Whether a band and a column allow a row.
pub(crate) fn allowed(rt: &impl Print, band: i64, column: i64, row: i64) -> io::Result<()> {
    if rows::is_allowed(band, whole::fold_of(column) as usize, row) {
        print!(rt; " yes")
    } else {
        print!(rt; " no")
    }
}

// The half of a square's side, the corner of the square around a centre, and the side.
pub(crate) fn corner(rt: &impl Print, p: i64, centre: i64) -> io::Result<()> {
    let half = position::half_of(p);
    let corner = position::corner_of(p, centre);
    let side = position::side_length(p);
    print!(rt; " {half} {corner} {side}")
}

// The bands by the places of their letters.
const BANDS: [i64; 20] = [
    -10, -9, -8, -7, -6, -5, -4, -3, -2, -1, 0, 1, 2, 3, 4, 5, 6, 7, 8, 9,
];

// The row of a 100 km square of UTM; none where a letter is not in its set.
fn row_of(zone: i64, band: i64, column: u8, row: u8) -> Option<i64> {
    let c = columns::utm_place(zone, letters::capital(column))?;
    let r = row_letters::utm_place(letters::capital(row))?;
    rows::utm_row_at(rows::shift_of(zone), band, c, r)
}

pub(crate) fn square(rt: &impl Print, zone: i64, band: u8, column: u8, row: u8) -> io::Result<()> {
    let place = bands::band_place(zone, letters::capital(band));
    let Some(band) = place.and_then(|b| BANDS.get(b).copied()) else {
        return print!(rt; " no band");
    };
    match row_of(zone, band, column, row) {
        Some(found) => print!(rt; " {found}"),
        None => print!(rt; " none"),
    }
}

// ---- of a position

// Zone, hemisphere, band, p and the point. The band is written as the byte that it is.
fn point(rt: &impl Print, q: Position) -> io::Result<()> {
    let zone = q.zone;
    let side = side_of(q.north);
    print!(rt; " {zone} {side} ")?;
    rt.write_all(&[q.band])?;
    let p = q.p;
    let easting = q.easting;
    let northing = q.northing;
    print!(rt; " {p} {easting} {northing}")
}

fn position_of(q: [i64; 6]) -> Position {
    let [zone, side, band, p, easting, northing] = q;
    Position {
        zone,
        north: is_north(side),
        band: byte_of(band),
        p,
        easting,
        northing,
    }
}

pub(crate) fn south_west(rt: &impl Print, q: [i64; 6]) -> io::Result<()> {
    point(rt, position::south_west(position_of(q)))
}

// What is written and read again.
pub(crate) fn back(rt: &impl Print, q: [i64; 6]) -> io::Result<()> {
    match trip::read_back(position_of(q)) {
        Ok(Reading::Square(x)) => {
            print!(rt; " square")?;
            point(rt, x)
        }
        Ok(Reading::Bare(x)) => {
            print!(rt; " bare")?;
            point(rt, x)
        }
        Err(refusal) => print!(rt; " refused {}", refusal.number()),
    }
}

// ---- of a number beyond those with a sign

// A number folded, and its quotient and remainder, rounded down.
pub(crate) fn floor(rt: &impl Print, s: &[u8]) -> io::Result<()> {
    let x = first_number(s);
    let d = size_of(head(after(s, 1)));
    let folded = whole::fold_of(x);
    let quotient = whole::floor_div(x, d);
    let rest = whole::floor_mod(x, d);
    print!(rt; " {folded} {quotient} {rest}")
}

// The place of a row's letter at a shift.
pub(crate) fn letter(rt: &impl Print, s: &[u8]) -> io::Result<()> {
    let place = rows::letter_of(size_of(head(s)), first_number(after(s, 1)));
    print!(rt; " {place}")
}
