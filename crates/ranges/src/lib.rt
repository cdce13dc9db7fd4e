// The ranges of eastings and northings, of UTM and of UPS, and the edge rules. Every call takes any numbers.
#![tactic(auto)]

ghost use Rattle.std.specs.Prelude.{◌≡◌, Ok, pos, negsuc, ◌≤ℤ◌};
ghost use Rattle.std.specs.Int.{w64};
ghost use Rattle.std.proofs.Common.{SFits};
ghost use Rattle.position.specs.Units.{tiles};
ghost use Rattle.ranges.specs.Ranges.{eastings, northings, moved, outside_of, judged, verdict, utm_check};
ghost use Rattle.ranges.specs.Edges.{lowered, side_of, edge, mgrs_check};

use bands::Grid;
use rules::Refusal;

// Half micrometres in a tile of 100 km.
const TILE: i64 = 200_000_000_000;

// The northing at which the south ends, and by which the hemispheres are shifted: 100 tiles.
const SHIFT: i64 = 20_000_000_000_000;

// A point of UTM or UPS.
#[derive(Clone, Copy)]
pub struct Point {
    pub north: bool,
    pub easting: i64,
    pub northing: i64,
}

// The lower and the upper end of a range, in units.
#[derive(Clone, Copy)]
struct Ends {
    pub low: i64,
    pub high: i64,
}

// The eastings of UTM or of a UPS hemisphere.
fn eastings_of(utm: bool, north: bool) -> Ends
    ensures { result ≡ eastings utm north }
{
    match (utm, north) {
        (true, _) => Ends {
            low: TILE,
            high: 9 * TILE,
        },
        (false, true) => Ends {
            low: 13 * TILE,
            high: 27 * TILE,
        },
        (false, false) => Ends {
            low: 8 * TILE,
            high: 32 * TILE,
        },
    }
}

// The northings; those of UPS are its eastings again.
fn northings_of(utm: bool, north: bool) -> Ends
    ensures { result ≡ northings utm north }
{
    match (utm, north) {
        (true, true) => Ends {
            low: -90 * TILE,
            high: 95 * TILE,
        },
        (true, false) => Ends {
            low: 10 * TILE,
            high: 195 * TILE,
        },
        (false, _) => eastings_of(false, north),
    }
}

// Below the lower end or above the upper one, both moved outward by a margin.
fn is_out(x: i64, ends: Ends, margin: i64) -> bool
    requires { SFits w64 (moved margin ends).low × SFits w64 (moved margin ends).high }
    ensures { result ≡ outside_of (moved margin ends) x }
{
    whole::is_outside(ends.low - margin, ends.high + margin, x)
}

// The rules of eastings and northings, in that order: whether a point inside is one of UTM. The margin is a tile at most.
#[tactic(auto, unfolding(crate::specs::Ranges::judged))]
fn judged_of(margin: i64, utm: bool, point: Point) -> Result<bool, Refusal>
    requires { (pos 0 ≤ℤ margin) × (margin ≤ℤ tiles (pos 1)) }
    ensures { result ≡ judged margin utm point.north point.easting point.northing }
{
    if is_out(point.easting, eastings_of(utm, point.north), margin) {
        return Err(Refusal::EastingOut);
    }
    if is_out(point.northing, northings_of(utm, point.north), margin) {
        return Err(Refusal::NorthingOut);
    }
    Ok(utm)
}

// The rule of zones first.
#[tactic(auto, unfolding(crate::specs::Ranges::verdict))]
fn verdict_of(margin: i64, zone: i64, point: Point) -> Result<bool, Refusal>
    requires { (pos 0 ≤ℤ margin) × (margin ≤ℤ tiles (pos 1)) }
    ensures { result ≡ verdict margin zone point.north point.easting point.northing }
{
    match bands::grid_of(zone) {
        Grid::Utm => judged_of(margin, true, point),
        Grid::Ups => judged_of(margin, false, point),
        Grid::NoZone => Err(Refusal::NoSuchZone),
    }
}

// The UTM range test: the ends are a tile outward.
#[tactic(auto, unfolding(crate::specs::Ranges::utm_check))]
pub fn utm_check_coords(zone: i64, point: Point) -> Result<(), Refusal>
    ensures { result ≡ utm_check zone point.north point.easting point.northing }
{
    verdict_of(TILE, zone, point)?;
    Ok(())
}

// A value exactly on the upper end is lowered by one unit.
#[tactic(auto, unfolding(crate::specs::Edges::lowered))]
fn lowered_of(x: i64, ends: Ends) -> i64
    requires { pos 0 ≤ℤ ends.high }
    ensures { result ≡ lowered ends x }
{
    if x == ends.high { x - 1 } else { x }
}

// A northing of UTM on its side of the equator: in the north below 0 it lies in the south; in the south from 100 tiles up it lies at
// the equator or in the north.
#[tactic(auto, unfolding(crate::specs::Edges::side_of))]
fn side_of(p: Point) -> Point
    requires { (tiles (negsuc 89) ≤ℤ p.northing) × (p.northing ≤ℤ tiles (pos 195)) }
    ensures { result ≡ side_of p.north p.easting p.northing }
{
    if p.north {
        if p.northing < 0 {
            let northing = p.northing + SHIFT;
            return Point {
                north: false,
                northing,
                ..p
            };
        }
        return p;
    }
    if p.northing < SHIFT {
        return p;
    }
    if p.northing == SHIFT {
        let northing = p.northing - 1;
        return Point { northing, ..p };
    }
    let northing = p.northing - SHIFT;
    Point {
        north: true,
        northing,
        ..p
    }
}

// The edge rules, of a point in range.
#[tactic(auto, unfolding(crate::specs::Edges::edge))]
fn edge_of(utm: bool, point: Point) -> Point
    requires { judged (pos 0) utm point.north point.easting point.northing ≡ Ok utm }
    ensures { result ≡ edge utm point.north point.easting point.northing }
{
    let point = Point {
        easting: lowered_of(point.easting, eastings_of(utm, point.north)),
        northing: lowered_of(point.northing, northings_of(utm, point.north)),
        ..point
    };
    if utm { side_of(point) } else { point }
}

// The MGRS range test and the edge rules: the point after them.
#[tactic(auto, unfolding(crate::specs::Edges::mgrs_check))]
// As a call of its own it costs writing a fifth more instructions.
#[inline(always)]
pub fn mgrs_check_coords(zone: i64, point: Point) -> Result<Point, Refusal>
    ensures { result ≡ mgrs_check zone point.north point.easting point.northing }
{
    let utm = verdict_of(0, zone, point)?;
    Ok(edge_of(utm, point))
}
