// The bands of UTM and of UPS, as tables, and which of them a zone uses.
#![tactic(auto)]

ghost use Rattle.std.specs.Prelude.{◌≡◌};
ghost use Rattle.letters.specs.Letters.{UtmBands, UpsBands, place_of, is_in};
ghost use Rattle.bands.specs.Bands.{grid_of, bands_of, band_index};

const UTM_BANDS: [u8; 20] = *b"CDEFGHJKLMNPQRSTUVWX";

const UPS_BANDS: [u8; 4] = *b"ABYZ";

// The grid of a zone number. Kept: with no zone as a case of its own, and not as None, one `match` covers all three.
#[derive(Clone, Copy)]
pub enum Grid {
    Utm,
    Ups,
    NoZone,
}

// UTM from 1 to 60, UPS at 0.
#[tactic(auto, unfolding(crate::specs::Bands::grid_of))]
pub fn grid_of(zone: i64) -> Grid
    ensures { result ≡ grid_of zone }
{
    match zone {
        0 => Grid::Ups,
        1..=60 => Grid::Utm,
        _ => Grid::NoZone,
    }
}

// ---- the place of a band's letter

// Among those of UTM. Kept beside the next: all that they share is `confirmed`, and the guesses differ.
pub fn utm_place(letter: u8) -> Option<usize>
    ensures { result ≡ place_of UtmBands letter }
{
    letters::confirmed(
        &UTM_BANDS,
        letters::behind(letter, letters::skipped(letter), 2),
        letter,
    )
}

// Among those of UPS.
#[tactic(auto, using(crate::proofs::Guesses::ups_bands))]
pub fn ups_place(letter: u8) -> Option<usize>
    ensures { result ≡ place_of UpsBands letter }
{
    letters::confirmed(
        &UPS_BANDS,
        letters::behind(letter, letters::skipped_in_bands(letter), 0),
        letter,
    )
}

// Among those of a zone.
#[tactic(auto, unfolding(crate::specs::Bands::bands_of, letters::specs::Letters::place_of, letters::specs::Letters::place_from))]
pub fn band_place(zone: i64, letter: u8) -> Option<usize>
    ensures { result ≡ place_of (bands_of zone) letter }
{
    match grid_of(zone) {
        Grid::Utm => utm_place(letter),
        Grid::Ups => ups_place(letter),
        Grid::NoZone => None,
    }
}

// Which UTM band a letter is, 0 for C to 19 for X; 20 for any other. Kept: 20 and not None, as `band_index` of specs/Bands has it.
#[tactic(auto, unfolding(crate::specs::Bands::band_index))]
pub fn band_index(band: u8) -> usize
    ensures { result ≡ band_index band }
{
    utm_place(band).unwrap_or(20)
}

#[tactic(auto, unfolding(letters::specs::Letters::is_in))]
fn is_ups_band(letter: u8) -> bool
    ensures { result ≡ is_in UpsBands letter }
{
    ups_place(letter).is_some()
}

// Whether a zone has a band. Reading asks no more than this, and an answer of one bit costs it less than a place.
#[tactic(auto, unfolding(letters::specs::Letters::place_of, letters::specs::Letters::place_from, letters::specs::Letters::is_in, crate::specs::Bands::grid_of, crate::specs::Bands::bands_of), using(crate::proofs::Index::index_in))]
pub fn is_band(zone: i64, letter: u8) -> bool
    ensures { result ≡ is_in (bands_of zone) letter }
{
    match grid_of(zone) {
        Grid::Utm => band_index(letter) < 20,
        Grid::Ups => is_ups_band(letter),
        Grid::NoZone => false,
    }
}
