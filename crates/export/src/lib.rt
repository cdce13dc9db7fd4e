// The calls for C and for Rust. Each hands its arguments on to the call that says what is answered: 0 or more is the answer,
// below 0 is minus the refusal's number, and a refusal leaves every lent element as it was. Kept twice, here and
// in `export_c`: a crate is a library or a static library, and C needs its names in the second.
#![tactic(auto)]

ghost use Rattle.std.specs.Prelude.{◌≡◌, length};
ghost use Rattle.zones.specs.Zones.{band_of, zone_of};
ghost use Rattle.ranges.specs.Ranges.{utm_check};
ghost use Rattle.ranges.specs.Edges.{mgrs_check};
ghost use Rattle.reader.specs.Read.{read_of};
ghost use Rattle.reader.specs.Metres.{metres_read};
ghost use Rattle.writer.specs.Write.{write_of, write_leaves};
ghost use Rattle.squares.specs.Shorten.{short_of, short_leaves};
ghost use Rattle.squares.specs.Covers.{covers_of};
ghost use Rattle.numbers.specs.Numbers.{read_number, metres_number, length_number, covers_number, mgrs_number, utm_number, zone_number, row_of};
ghost use Rattle.arrays.specs.Lent.{read_leaves, metres_leaves, moved_leaves};

// ---- reading

pub fn mgrs_read(text: &[u8], position: &mut [i64; 6]) -> i64
    ensures { (result ≡ read_number (read_of text.now)) × (position.new ≡ read_leaves (read_of text.now) position.old) }
{
    arrays::read(text, position)
}

pub fn mgrs_read_metres(text: &[u8], metres: &mut [f64; 2]) -> i64
    ensures { (result ≡ metres_number (metres_read text.now)) × (metres.new ≡ metres_leaves (metres_read text.now) metres.old) }
{
    arrays::read_metres(text, metres)
}

// ---- writing

pub fn mgrs_write(
    zone: i64,
    north: bool,
    band: u8,
    p: i64,
    easting: i64,
    northing: i64,
    out: &mut [u8],
) -> i64
    ensures { (result ≡ length_number (write_of zone north band p easting northing (length out.old))) × (out.new ≡ write_leaves zone north band p easting northing out.old) }
{
    numbers::write(zone, north, band, p, easting, northing, out)
}

pub fn mgrs_shorten(text: &[u8], q: i64, out: &mut [u8]) -> i64
    ensures { (result ≡ length_number (short_of text.now q (length out.old))) × (out.new ≡ short_leaves text.now q out.old) }
{
    numbers::shorten(text, q, out)
}

// ---- squares and ranges

pub fn mgrs_covers(a: &[u8], b: &[u8]) -> i64
    ensures { result ≡ covers_number (covers_of a.now b.now) }
{
    numbers::covers(a, b)
}

pub fn mgrs_check_coords(
    zone: i64,
    north: bool,
    easting: i64,
    northing: i64,
    moved: &mut [i64; 3],
) -> i64
    ensures { (result ≡ mgrs_number (mgrs_check zone north easting northing)) × (moved.new ≡ moved_leaves (mgrs_check zone north easting northing) moved.old) }
{
    arrays::mgrs_check_coords(zone, north, easting, northing, moved)
}

pub fn utm_check_coords(zone: i64, north: bool, easting: i64, northing: i64) -> i64
    ensures { result ≡ utm_number (utm_check zone north easting northing) }
{
    numbers::utm_check_coords(zone, north, easting, northing)
}

// ---- bands, zones and rows

// Nothing is refused: a band of the south is below 0, and so is a row.
pub fn mgrs_latitude_band(latitude: i64) -> i64
    ensures { result ≡ band_of latitude }
{
    zones::to_latitude_band(latitude)
}

pub fn mgrs_standard_zone(latitude: i64, longitude: i64) -> i64
    ensures { result ≡ zone_number (zone_of latitude longitude) }
{
    numbers::standard_zone(latitude, longitude)
}

pub fn mgrs_utm_row(band: i64, column: i64, letter: i64) -> i64
    ensures { result ≡ row_of band column letter }
{
    numbers::utm_row(band, column, letter)
}
