// The latitude band and the standard zone of a latitude and a longitude, both in billionths of a degree.
#![tactic(auto)]

ghost use Rattle.std.specs.Prelude.{◌≡◌, pos, negsuc, ◌≤ℤ◌};
ghost use Rattle.zones.specs.Zones.{degrees, band_of, turned, plain, norway, arctic, svalbard, zone_at, zone_of};

use rules::Refusal;

// Whole degrees, rounded down.
#[tactic(auto, unfolding(crate::specs::Zones::degrees))]
fn degrees_of(billionths: i64) -> i64
    ensures { result ≡ degrees billionths }
{
    whole::floor_div(billionths, 1_000_000_000)
}

// The band of a latitude, -10 to 9 for C to X.
#[tactic(auto, unfolding(crate::specs::Zones::band_of, crate::specs::Zones::band_at))]
pub fn to_latitude_band(latitude: i64) -> i64
    ensures { result ≡ band_of latitude }
{
    let d = degrees_of(latitude);
    if d < -72 {
        -10
    } else if 72 <= d {
        9
    } else {
        whole::floor_div(d, 8)
    }
}

// Whole degrees of longitude, brought to -180..179.
#[derive(Clone, Copy)]
struct Meridian {
    degrees: i64,
    ghost in_range: { (negsuc 179 ≤ℤ degrees) × (degrees ≤ℤ pos 179) },
}

fn meridian_of(longitude: i64) -> Meridian
    ensures { result.degrees ≡ turned (degrees longitude) }
{
    let d = degrees_of(longitude);
    Meridian {
        degrees: whole::floor_mod(d + 180, 360) as i64 - 180,
    }
}

// Six degrees a zone, zone 1 from -180.
#[tactic(auto, unfolding(crate::specs::Zones::plain))]
fn plain_zone(m: Meridian) -> i64
    ensures { result ≡ plain m.degrees }
{
    whole::floor_div(m.degrees + 186, 6)
}

// Twelve degrees a zone around Svalbard, odd zones only.
#[tactic(auto, unfolding(crate::specs::Zones::svalbard, whole::specs::Floor::floor_div), using(whole::proofs::Signed::back))]
fn svalbard_zone(m: Meridian) -> i64
    ensures { result ≡ svalbard m.degrees }
{
    whole::floor_div(m.degrees + 183, 12) * 2 + 1
}

// South-west Norway, where zone 32 reaches west to 3 degrees.
fn is_norway(band: i64, zone: i64, m: Meridian) -> bool
    ensures { result ≡ norway band zone m.degrees }
{
    band == 7 && zone == 31 && 3 <= m.degrees
}

// Around Svalbard, where zones 32, 34 and 36 have no ground.
fn is_arctic(band: i64, m: Meridian) -> bool
    ensures { result ≡ arctic band m.degrees }
{
    band == 9 && 0 <= m.degrees && m.degrees <= 41
}

// The zone by band and turned degrees, with the two exceptions.
#[tactic(auto, unfolding(crate::specs::Zones::zone_at))]
fn zone_at(band: i64, m: Meridian) -> i64
    ensures { result ≡ zone_at band m.degrees }
{
    let zone = plain_zone(m);
    if is_norway(band, zone, m) {
        32
    } else if is_arctic(band, m) {
        svalbard_zone(m)
    } else {
        zone
    }
}

// The zone of a point: UTM from -80 to below 84 degrees, zone 0 for UPS beyond.
#[tactic(auto, unfolding(crate::specs::Zones::zone_of))]
pub fn standard_zone(latitude: i64, longitude: i64) -> Result<i64, Refusal>
    ensures { result ≡ zone_of latitude longitude }
{
    // Kept: not the last arm of the `match`, where it took twice the time to refuse.
    if latitude < -90_000_000_000 || 90_000_000_000 < latitude {
        return Err(Refusal::LatitudeOut);
    }
    match latitude {
        -80_000_000_000..84_000_000_000 => {
            Ok(zone_at(to_latitude_band(latitude), meridian_of(longitude)))
        }
        _ => Ok(0),
    }
}
