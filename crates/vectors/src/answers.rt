// What the calls for C and Rust answer, as a line has it.
use crate::fields::{byte_of, is_north};
use crate::said::Said;
use say::front;

// What lent numbers hold before a call, and those of metres: 7 m.
const HELD: i64 = 14_000_000;

const HELD_METRES: f64 = 7.0;

fn refusal(code: i64) -> Said {
    Said::of(b"refused").count(code.unsigned_abs())
}

fn number(z: i64) -> Said {
    Said::of(b"is").number(z)
}

// With a refusal what was lent has to stay. No recorded answer is the other.
fn not_found(code: i64, stays: bool) -> Said {
    if stays {
        refusal(code)
    } else {
        Said::of(b"altered")
    }
}

// ---- reading

// The cast is exact for every position, and the division rounds once.
fn f64_of(units: i64) -> f64 {
    std::num::nearest_u64_to_f64(whole::fold_of(units)) / 2_000_000.0
}

// Whether reading in metres answers the same, and with the f64 nearest to the units, bit for bit.
fn is_in_metres(text: &[u8], code: i64, easting: i64, northing: i64) -> bool {
    let mut metres = [HELD_METRES; 2];
    export::mgrs_read_metres(text, &mut metres) == code
        && metres[0] == f64_of(easting)
        && metres[1] == f64_of(northing)
}

// Of a square and of a bare zone alike, with no band. The decimal of a point is that of its units: below 16 digits it is the
// shortest one of the nearest f64. That a refusal leaves easting and northing as they were is seen by the metres.
fn found(code: i64, q: [i64; 6]) -> Said {
    let [zone, north, band, p, easting, northing] = q;
    if code < 0 {
        return not_found(code, [zone, band, p] == [HELD; 3]);
    }
    let kind = if code == 0 {
        Said::of(b"square")
    } else {
        Said::of(b"bare")
    };
    kind.number(zone)
        .side(north == 1)
        .number(p)
        .metres(easting)
        .metres(northing)
}

// No recorded answer has other metres.
pub(crate) fn read(text: &[u8]) -> Said {
    let mut q = [HELD; 6];
    let code = export::mgrs_read(text, &mut q);
    if is_in_metres(text, code, q[4], q[5]) {
        found(code, q)
    } else {
        Said::of(b"other metres")
    }
}

// ---- writing

// What a buffer is filled with before writing: no reference has this byte.
pub(crate) const FILLER: u8 = b'.';

// The first n bytes, to be written into; all where there are fewer.
pub(crate) fn front_of(s: &mut [u8], n: usize) -> &mut [u8] {
    let end = n.min(s.len());
    &mut s[..end]
}

// A call's number, as C takes it: an answer, or below 0 minus a refusal's number.
pub(crate) fn answer_of(code: i64) -> Result<usize, u64> {
    let size = code.unsigned_abs();
    if code < 0 {
        Err(size)
    } else {
        Ok(size as usize)
    }
}

// A text of some length at the start of a buffer that was filled, or the refusal. What lies beyond the text has to be as it was, and
// with a refusal all of it: no recorded answer says otherwise.
pub(crate) fn written(length: Result<usize, u64>, buffer: &[u8]) -> Said {
    let beyond = buffer.get(length.unwrap_or(0)..).unwrap_or(&[]);
    if !beyond.iter().all(|b| *b == FILLER) {
        return Said::of(b"altered more");
    }
    match length {
        Ok(n) => Said::of(b"text ").text(front(buffer, n)),
        Err(number) => Said::of(b"refused").count(number),
    }
}

pub(crate) fn write(q: [i64; 6], room: usize) -> Said {
    let [zone, side, band, p, easting, northing] = q;
    let mut space = [FILLER; 64];
    let code = export::mgrs_write(
        zone,
        is_north(side),
        byte_of(band),
        p,
        easting,
        northing,
        front_of(&mut space, room),
    );
    written(answer_of(code), &space)
}

// ---- ranges

fn moved(code: i64, point: [i64; 3]) -> Said {
    if code != 0 {
        return not_found(code, point == [HELD; 3]);
    }
    let [north, easting, northing] = point;
    Said::of(b"moved")
        .side(north == 1)
        .number(easting)
        .number(northing)
}

pub(crate) fn mgrs(zone: i64, north: bool, easting: i64, northing: i64) -> Said {
    let mut point = [HELD; 3];
    let code = export::mgrs_check_coords(zone, north, easting, northing, &mut point);
    moved(code, point)
}

pub(crate) fn utm(zone: i64, north: bool, easting: i64, northing: i64) -> Said {
    match export::utm_check_coords(zone, north, easting, northing) {
        0 => Said::of(b"within"),
        code => refusal(code),
    }
}

// ---- bands, zones, rows

pub(crate) fn band(latitude: i64) -> Said {
    number(export::mgrs_latitude_band(latitude))
}

pub(crate) fn zone(latitude: i64, longitude: i64) -> Said {
    let code = export::mgrs_standard_zone(latitude, longitude);
    if code < 0 {
        refusal(code)
    } else {
        number(code)
    }
}

pub(crate) fn row(band: i64, column: i64, letter: i64) -> Said {
    match export::mgrs_utm_row(band, column, letter) {
        100 => Said::of(b"is none"),
        row => number(row),
    }
}
