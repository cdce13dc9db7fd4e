// The letter sets of a zone: its letters in their order, how many they are, and the tile of the first.
use bands::Grid;
use std::io;

// A tile as a place, by the first tile.
fn from_first(tile: Option<usize>, first: usize) -> Option<usize> {
    tile.map(|t| t.wrapping_sub(first))
}

fn column_place(zone: i64, band: u8, letter: u8) -> Option<usize> {
    match bands::grid_of(zone) {
        Grid::Ups => from_first(
            columns::ups_tile(band, letter),
            columns::first_column(zone, band),
        ),
        _ => columns::utm_place(zone, letter),
    }
}

fn row_place(zone: i64, north: bool, letter: u8) -> Option<usize> {
    match bands::grid_of(zone) {
        Grid::Utm => row_letters::utm_place(letter),
        Grid::Ups => from_first(
            row_letters::ups_tile(north, letter),
            row_letters::first_row(zone, north),
        ),
        Grid::NoZone => None,
    }
}

// A set as it is asked for.
#[derive(Clone, Copy)]
pub(crate) enum Set {
    Bands { zone: i64 },
    Columns { zone: i64, band: u8 },
    Rows { zone: i64, north: bool },
}

impl Set {
    fn place(self, letter: u8) -> Option<usize> {
        match self {
            Set::Bands { zone } => bands::band_place(zone, letter),
            Set::Columns { zone, band } => column_place(zone, band, letter),
            Set::Rows { zone, north } => row_place(zone, north, letter),
        }
    }

    // The letter at a place, 0 for none, as the calls answer. No call tells a band's letter: it is the one that is asked for, if the zone has it.
    fn letter(self, place: usize, asked: u8) -> u8 {
        match self {
            Set::Bands { zone } => {
                if bands::is_band(zone, asked) {
                    asked
                } else {
                    0
                }
            }
            Set::Columns { zone, band } => columns::column_letter(zone, band, place),
            Set::Rows { zone, north } => row_letters::row_letter(zone, north, place),
        }
    }

    fn first_tile(self) -> usize {
        match self {
            Set::Bands { .. } => 0,
            Set::Columns { zone, band } => columns::first_column(zone, band),
            Set::Rows { zone, north } => row_letters::first_row(zone, north),
        }
    }

    // Whether a letter is found at a place, and that place holds it.
    fn is_found(self, letter: u8, place: usize) -> bool {
        self.place(letter) == Some(place) && self.letter(place, letter) == letter
    }

    // Of all bytes, those that are found one behind the other.
    fn spell(self, rt: &impl Print) -> io::Result<usize> {
        let mut n: usize = 0;
        for byte in 0..=u8::MAX {
            if self.is_found(byte, n) {
                rt.write_all(&[byte])?;
                n = n.wrapping_add(1);
            }
        }
        Ok(n)
    }

    pub(crate) fn tell(self, rt: &impl Print) -> io::Result<()> {
        print!(rt; " ")?;
        let n = self.spell(rt)?;
        if self.letter(n, 0) != 0 {
            print!(rt; " and more")?;
        }
        let first = self.first_tile();
        print!(rt; " {n} {first}")
    }
}
