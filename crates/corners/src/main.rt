// Writes references and reads each back: every bare zone, and the four corners of every tile, for every band. The gate holds
// what is printed to the file stdout, which was made from document 01.
#![tactic(auto)]

use position::Position;
use reader::Reading;
use rules::Refusal;
use say::front;
use std::ops::Range;
use std::{fmt, io};

const TILE: i64 = 200_000_000_000;

// The last unit of a tile, on one axis.
const LAST: i64 = 199_999_999_999;

// The bands of UTM and of UPS.
const UTM: [u8; 20] = *b"CDEFGHJKLMNPQRSTUVWX";

const UPS: [u8; 4] = *b"ABYZ";

// Check sums are taken below this.
const SUMS: u64 = 4_294_967_296;

// ---- one reference, written and read back

// Whether a square holds a point, on one axis: its lower edge is in, its upper one is not.
fn is_held(p: i64, centre: i64, x: i64) -> bool {
    let corner = position::corner_of(p, centre);
    corner <= x && corner.abs_diff(x) < position::side_length(p)
}

// Zone, hemisphere, band and p. Only a bare zone has -1 for p, so the two kinds of a reading cannot be mixed up.
fn is_same(x: Position, q: Position) -> bool {
    (x.zone, x.north, x.band, x.p) == (q.zone, q.north, q.band, q.p)
}

// Whether a text reads as what was to be written.
fn is_back(text: &[u8], q: Position) -> bool {
    match reader::read(text) {
        Ok(Reading::Square(x)) => {
            is_same(x, q)
                && is_held(x.p, x.easting, q.easting)
                && is_held(x.p, x.northing, q.northing)
        }
        Ok(Reading::Bare(x)) => is_same(x, q),
        Err(_) => false,
    }
}

// How many references were tried, written and read back, and a sum over all bytes written, in their order. No run counts so far
// that a number comes round to 0.
#[derive(Clone, Copy, Default)]
struct Count {
    tried: u64,
    written: u64,
    back: u64,
    sum: u64,
}

impl Count {
    fn missed(&mut self) {
        self.tried = self.tried.wrapping_add(1);
    }

    // A byte's place counts in the sum as well as the byte.
    fn taken(&mut self, text: &[u8], q: Position) {
        self.tried = self.tried.wrapping_add(1);
        self.written = self.written.wrapping_add(1);
        if is_back(text, q) {
            self.back = self.back.wrapping_add(1);
        }
        for byte in text {
            self.sum = (self.sum % SUMS * 31 + u64::from(*byte)) % SUMS;
        }
    }

    // Each reference gets a buffer of its own, so that nothing of an earlier one can help it.
    fn add(&mut self, q: Position) {
        let mut out = [b'.'; 32];
        match writer::write(q, &mut out) {
            Ok(n) => self.taken(front(&out, n), q),
            Err(_) => self.missed(),
        }
    }

    // What is read as a bare zone is written, at the point that reading supplied.
    fn add_bare(&mut self, text: &[u8]) {
        match reader::read(text) {
            Ok(Reading::Bare(x)) => self.add(x),
            _ => self.missed(),
        }
    }
}

impl fmt::Display for Count {
    fn fmt<W: fmt::Write>(&self, f: &mut fmt::Formatter<W>) -> fmt::Result {
        let Count {
            tried,
            written,
            back,
            sum,
        } = *self;
        write!(f, "tried {tried} written {written} back {back} sum {sum}")
    }
}

// ---- bare zones

fn utm_bare() -> Count {
    let mut count = Count::default();
    for zone in 1..61 {
        for band in UTM {
            count.add_bare(&[b'0' + zone / 10, b'0' + zone % 10, band]);
        }
    }
    count
}

// UPS is zone 0, which has no digits.
fn ups_bare() -> Count {
    let mut count = Count::default();
    for band in UPS {
        count.add_bare(&[band]);
    }
    count
}

// ---- the corners of tiles

#[derive(Clone, Copy)]
struct Tile {
    zone: i64,
    north: bool,
    column: i64,
    row: i64,
}

impl Tile {
    // The point at so many units from the tile's own corner. No tile lies so far out that this wraps.
    fn at(self, band: u8, p: i64, east: i64, north: i64) -> Position {
        Position {
            zone: self.zone,
            north: self.north,
            band,
            p,
            easting: self.column.wrapping_mul(TILE).wrapping_add(east),
            northing: self.row.wrapping_mul(TILE).wrapping_add(north),
        }
    }

    fn corners(self, band: u8, p: i64) -> [Position; 4] {
        [(0, 0), (LAST, 0), (0, LAST), (LAST, LAST)].map(|(east, north)| self.at(
            band, p, east, north,
        ))
    }
}

// How many bands fit, are refused by 19 and are refused by anything else, and what was written of those that fit, by how many digits
// each axis has.
#[derive(Clone, Copy)]
struct Tally {
    fitting: u64,
    misfits: u64,
    others: u64,
    by_digits: [(i64, Count); 5],
}

impl Tally {
    fn new() -> Tally {
        Tally {
            fitting: 0,
            misfits: 0,
            others: 0,
            by_digits: [0, 1, 5, 10, 11].map(|p| (p, Count::default())),
        }
    }

    fn fit(&mut self, tile: Tile, band: u8) {
        self.fitting = self.fitting.wrapping_add(1);
        for (p, count) in self.by_digits.iter_mut() {
            for q in tile.corners(band, *p) {
                count.add(q);
            }
        }
    }

    // One try tells whether a band fits: the row and the column are those of the whole tile.
    fn add_band(&mut self, tile: Tile, band: u8) {
        let mut out = [b'.'; 32];
        match writer::write(tile.at(band, 0, 0, 0), &mut out) {
            Ok(_) => self.fit(tile, band),
            Err(Refusal::BandMisfits) => self.misfits = self.misfits.wrapping_add(1),
            Err(_) => self.others = self.others.wrapping_add(1),
        }
    }

    fn add_tile(&mut self, tile: Tile, bands: &[u8]) {
        for band in bands {
            self.add_band(tile, *band);
        }
    }

    // The tiles of a column.
    fn add_column(&mut self, zone: i64, north: bool, column: i64, rows: Range<i64>, bands: &[u8]) {
        for row in rows {
            self.add_tile(
                Tile {
                    zone,
                    north,
                    column,
                    row,
                },
                bands,
            );
        }
    }

    // UTM has columns 1 to 8, and rows 10 to 99 in the south and 0 to 94 in the north.
    fn add_zone(&mut self, zone: i64) {
        for column in 1..9 {
            self.add_column(zone, false, column, 10..100, &UTM);
            self.add_column(zone, true, column, 0..95, &UTM);
        }
    }

    // The rows of UPS are its columns again.
    fn add_pole(&mut self, north: bool, first: i64, end: i64) {
        for column in first..end {
            self.add_column(0, north, column, first..end, &UPS);
        }
    }
}

fn zones() -> Tally {
    let mut tally = Tally::new();
    for zone in 1..61 {
        tally.add_zone(zone);
    }
    tally
}

fn poles() -> Tally {
    let mut tally = Tally::new();
    tally.add_pole(false, 8, 32);
    tally.add_pole(true, 13, 27);
    tally
}

// ---- what is printed

fn tell(rt: &impl Print, kind: &str, tally: &Tally) -> io::Result<()> {
    let fitting = tally.fitting;
    let misfits = tally.misfits;
    let others = tally.others;
    println!(rt; "{kind} bands fitting {fitting} R 19 {misfits} other {others}")?;
    for (p, count) in tally.by_digits {
        println!(rt; "{kind} p {p} {count}")?;
    }
    Ok(())
}

fn main(rt: HostRuntime) -> io::Result<()> {
    println!(&rt; "utm bare {}", utm_bare())?;
    println!(&rt; "ups bare {}", ups_bare())?;
    tell(&rt, "utm", &zones())?;
    tell(&rt, "ups", &poles())
}
