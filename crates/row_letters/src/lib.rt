// The sets of row letters, as tables, and which of them a zone or a UPS hemisphere uses.
#![tactic(auto)]

ghost use Rattle.std.specs.Prelude.{◌≡◌};
ghost use Rattle.letters.specs.Letters.{UtmRows, place_of, letter_at, first_tile, tile_in};
ghost use Rattle.row_letters.specs.RowLetters.{ups_rows, rows_of};
ghost use Rattle.row_letters.specs.inner.Halves.{row_stretch};

use bands::Grid;
use letters::Stretch;

const UTM_ROWS: [u8; 20] = *b"ABCDEFGHJKLMNPQRSTUV";

// The two sets of UPS stand in one table. South from 0 on: ABCDEFGHJKLMNPQRSTUVWXYZ. North from 24: ABCDEFGHJKLMNP.
const UPS_ROWS: [u8; 38] = *b"ABCDEFGHJKLMNPQRSTUVWXYZABCDEFGHJKLMNP";

// The rows of a UPS hemisphere.
#[tactic(auto, unfolding(crate::specs::inner::Halves::row_stretch))]
fn ups_rows(north: bool) -> Stretch
    ensures { result ≡ row_stretch north }
{
    if north {
        return Stretch {
            start: 24,
            end: 38,
            first: 0,
            tile: 13,
        };
    }
    Stretch {
        start: 0,
        end: 24,
        first: 0,
        tile: 8,
    }
}

// The place of a row's letter in UTM.
pub fn utm_place(letter: u8) -> Option<usize>
    ensures { result ≡ place_of UtmRows letter }
{
    let set = UTM_ROWS;
    letters::confirmed(
        &set,
        letters::behind(letter, letters::skipped(letter), 0),
        letter,
    )
}

// The tile of a row's letter in a UPS hemisphere.
#[tactic(auto, using(crate::proofs::Guesses::in_table))]
pub fn ups_tile(north: bool, letter: u8) -> Option<usize>
    ensures { result ≡ tile_in (ups_rows north) letter }
{
    let s = ups_rows(north);
    let start = s.start as usize;
    let end = s.end as usize;
    let table = UPS_ROWS;
    letters::tile_of(
        &table[start..end],
        letters::behind(letter, letters::skipped(letter), s.first),
        letter,
        s.tile,
    )
}

// The row's letter at a place, 0 past the last. Kept, like the next, as its like of `columns` is.
#[tactic(auto, unfolding(crate::specs::RowLetters::rows_of, letters::specs::Letters::letter_at), using(crate::proofs::Guesses::in_table))]
pub fn row_letter(zone: i64, north: bool, place: usize) -> u8
    ensures { result ≡ letter_at (rows_of zone north) place }
{
    match bands::grid_of(zone) {
        Grid::Utm => {
            let set = UTM_ROWS;
            letters::letter_at(&set, place)
        }
        Grid::Ups => {
            let s = ups_rows(north);
            let start = s.start as usize;
            let end = s.end as usize;
            let table = UPS_ROWS;
            letters::letter_at(&table[start..end], place)
        }
        Grid::NoZone => 0,
    }
}

// The tile of the first row; UTM rows count none.
#[tactic(auto, unfolding(crate::specs::RowLetters::rows_of, letters::specs::Letters::first_tile), using(crate::proofs::Guesses::rows_are))]
pub fn first_row(zone: i64, north: bool) -> usize
    ensures { result ≡ first_tile (rows_of zone north) }
{
    match bands::grid_of(zone) {
        Grid::Utm => 0,
        Grid::Ups => ups_rows(north).tile as usize,
        Grid::NoZone => 0,
    }
}
