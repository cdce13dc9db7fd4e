// The sets of column letters, as tables, and which of them a zone or a UPS band uses.
#![tactic(auto)]

ghost use Rattle.std.specs.Prelude.{◌≡◌, ◌<◌, pos, ◌-ℤ◌};
ghost use Rattle.whole.specs.Floor.{floor_mod};
ghost use Rattle.bands.specs.declared.Grid.TheVariants.{Utm};
ghost use Rattle.bands.specs.Bands.{grid_of};
ghost use Rattle.letters.specs.Letters.{place_of, letter_at, first_tile, tile_in};
ghost use Rattle.columns.specs.Columns.{ups_columns, utm_columns_of, columns_of};
ghost use Rattle.columns.specs.inner.Stretches.{column_stretch};

use bands::Grid;
use letters::Stretch;

// A table lent as `&TABLE` is built at the start of the function, so where only one arm of a `match` needs it, it is a local of that
// arm.

// Every three zones, from zone 1 on.
const UTM_COLUMNS: [[u8; 8]; 3] = [*b"ABCDEFGH", *b"JKLMNPQR", *b"STUVWXYZ"];

// The sets of UPS stand in one table, one after the other, so that which of them is meant costs no branch.
// A from 0 on: JKLPQRSTUXYZ. B from 12: ABCFGHJKLPQR. Y from 24: RSTUXYZ. Z from 31: ABCFGHJ.
const UPS_COLUMNS: [u8; 38] = *b"JKLPQRSTUXYZABCFGHJKLPQRRSTUXYZABCFGHJ";

// Of the columns of A, B, Y and Z.
const STRETCHES: [Stretch; 4] = [
    Stretch {
        start: 0,
        end: 12,
        first: 6,
        tile: 8,
    },
    Stretch {
        start: 12,
        end: 24,
        first: 0,
        tile: 20,
    },
    Stretch {
        start: 24,
        end: 31,
        first: 11,
        tile: 13,
    },
    Stretch {
        start: 31,
        end: 38,
        first: 0,
        tile: 20,
    },
];

// The columns of a UPS band: of any other byte, none.
#[tactic(auto, using(crate::proofs::Guesses::stretch_of, letters::proofs::Laws::place_below))]
fn ups_columns(band: u8) -> Stretch
    ensures { result ≡ column_stretch band }
{
    match bands::ups_place(band) {
        Some(k) => STRETCHES[k],
        None => Stretch {
            start: 0,
            end: 0,
            first: 0,
            tile: 0,
        },
    }
}

// Which of the three sets a UTM zone uses.
#[tactic(auto, using(bands::proofs::ZoneNumber::zone_less_fits))]
fn third_of(zone: i64) -> usize
    requires { grid_of zone ≡ Utm }
    ensures { (result ≡ floor_mod (zone -ℤ pos 1) 3) × (result < 3) }
{
    whole::floor_mod(zone - 1, 3) as usize
}

// The place of a column's letter in a UTM zone.
#[tactic(auto, unfolding(letters::specs::Letters::place_of, letters::specs::Letters::place_from, bands::specs::Bands::grid_of, crate::specs::Columns::utm_columns_of), using(crate::proofs::Guesses::utm_columns_lem, crate::proofs::Guesses::utm_letters))]
pub fn utm_place(zone: i64, letter: u8) -> Option<usize>
    ensures { result ≡ place_of (utm_columns_of zone) letter }
{
    match bands::grid_of(zone) {
        Grid::Utm => {
            let third = third_of(zone);
            let sets = UTM_COLUMNS;
            letters::confirmed(
                &sets[third],
                letters::behind(letter, letters::skipped(letter), (8 * third) as u8),
                letter,
            )
        }
        Grid::Ups => None,
        Grid::NoZone => None,
    }
}

// The tile of a column's letter in a UPS band.
#[tactic(auto, using(crate::proofs::Guesses::in_table))]
pub fn ups_tile(band: u8, letter: u8) -> Option<usize>
    ensures { result ≡ tile_in (ups_columns band) letter }
{
    let s = ups_columns(band);
    let start = s.start as usize;
    let end = s.end as usize;
    let table = UPS_COLUMNS;
    letters::tile_of(
        &table[start..end],
        letters::behind(letter, letters::skipped_in_columns(letter), s.first),
        letter,
        s.tile,
    )
}

// The column's letter at a place, 0 past the last, as `letter_at` of letters/specs/Letters has it. Kept beside its like of `row_letters`:
// a function of both, being public, could not ask that a stretch lies in its table, and would have to test it.
pub fn column_letter(zone: i64, band: u8, place: usize) -> u8
    ensures { result ≡ letter_at (columns_of zone band) place }
{
    match bands::grid_of(zone) {
        Grid::Utm => {
            let third = third_of(zone);
            let sets = UTM_COLUMNS;
            letters::letter_at(&sets[third], place)
        }
        Grid::Ups => {
            let s = ups_columns(band);
            let start = s.start as usize;
            let end = s.end as usize;
            let table = UPS_COLUMNS;
            letters::letter_at(&table[start..end], place)
        }
        Grid::NoZone => 0,
    }
}

// The tile of the first column. Kept beside its like of `row_letters`, as above.
#[tactic(auto, unfolding(crate::specs::Columns::columns_of, letters::specs::Letters::first_tile), using(crate::proofs::Guesses::columns_are, crate::proofs::Guesses::utm_tile))]
pub fn first_column(zone: i64, band: u8) -> usize
    ensures { result ≡ first_tile (columns_of zone band) }
{
    match bands::grid_of(zone) {
        Grid::Utm => 1,
        Grid::Ups => ups_columns(band).tile as usize,
        Grid::NoZone => 0,
    }
}
