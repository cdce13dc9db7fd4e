// The letters of document 01, and how one is looked up in a set of them: `bands`, `columns` and `row_letters` have the sets' tables.
#![tactic(auto)]

ghost use Rattle.std.specs.Prelude.{◌≡◌, ◌+◌, get_or, option_map};
ghost use Rattle.letters.specs.Letters.{capital_of, north_band, east_band};
ghost use Rattle.letters.specs.Search.{confirm, skipped_of, skipped_low, skipped_high, skipped_in_columns, skipped_in_bands, behind_of};

// A set that is a part of a table: from a place up to another, how many letters come before its first, those left out aside, and the
// tile of its first.
#[derive(Clone, Copy)]
pub struct Stretch {
    pub start: u8,
    pub end: u8,
    pub first: u8,
    pub tile: u8,
}

// a-z count as A-Z.
#[tactic(auto, unfolding(crate::specs::Letters::capital_of))]
pub fn capital(b: u8) -> u8
    ensures { result ≡ capital_of b }
{
    b.to_ascii_uppercase()
}

// Whether a band's letter, of UTM or of UPS, is of the northern hemisphere: N to X, Y and Z.
pub fn is_north(band: u8) -> bool
    ensures { result ≡ north_band band }
{
    b'N' <= band
}

// Whether a UPS band is the eastern one of its hemisphere: B or Z.
#[tactic(auto, unfolding(crate::specs::Letters::east_band))]
pub fn is_east(band: u8) -> bool
    ensures { result ≡ east_band band }
{
    matches!(band, b'B' | b'Z')
}

// ---- a set is a part of a table: the letter at a place, 0 past the last
// Kept: 0 and not None, here and in `columns`, `row_letters` and `composer`, as `letter_at` of specs/Letters has it; and a test with an
// index, here and below, as `get` with what it needs behind it is no plainer.

pub fn letter_at(set: &[u8], place: usize) -> u8
    ensures { result ≡ get_or set.now place 0 }
{
    if place < set.len() { set[place] } else { 0 }
}

// ---- and the place of a letter: it is guessed, and the set itself is asked whether the letter stands there

#[tactic(auto, unfolding(crate::specs::Search::confirm))]
pub fn confirmed(set: &[u8], place: usize, letter: u8) -> Option<usize>
    ensures { result ≡ confirm set.now place letter }
{
    if place < set.len() && set[place] == letter {
        return Some(place);
    }
    None
}

// The same as a tile, by that of the set's first letter.
#[tactic(auto, using(crate::proofs::Confirm::confirm_small))]
pub fn tile_of(set: &[u8], place: usize, letter: u8, first: u8) -> Option<usize>
    ensures { result ≡ option_map (λ k. first + k) (confirm set.now place letter) }
{
    let k = confirmed(set, place, letter)?;
    Some(first as usize + k)
}

// The guess: how far a letter is from A, less the letters before it that are left out, less those before the set's first. What
// comes before that one is turned to the end of the byte.
#[tactic(auto, unfolding(crate::specs::Search::behind_of))]
pub fn behind(letter: u8, skip: u8, first: u8) -> usize
    ensures { result ≡ behind_of letter skip first }
{
    usize::from(
        letter
            .wrapping_sub(b'A')
            .wrapping_sub(skip)
            .wrapping_sub(first),
    )
}

// How many letters are left out before this one: of I and O; kept as three tests, here and below, as specs/Search has one for each.
#[tactic(auto, unfolding(crate::specs::Search::skipped_of))]
pub fn skipped(letter: u8) -> u8
    ensures { result ≡ skipped_of letter }
{
    match letter {
        ..b'I' => 0,
        ..b'O' => 1,
        _ => 2,
    }
}

// of D and E and I;
#[tactic(auto, unfolding(crate::specs::Search::skipped_low))]
fn skipped_low(letter: u8) -> u8
    ensures { result ≡ skipped_low letter }
{
    match letter {
        ..b'D' => 0,
        ..b'I' => 2,
        _ => 3,
    }
}

// of M to O, V and W;
#[tactic(auto, unfolding(crate::specs::Search::skipped_high))]
fn skipped_high(letter: u8) -> u8
    ensures { result ≡ skipped_high letter }
{
    match letter {
        ..b'M' => 0,
        ..b'V' => 3,
        _ => 5,
    }
}

// of all these, among the columns of UPS. The sum of two costs no branch, one function of five answers does;
#[tactic(auto, unfolding(crate::specs::Search::skipped_in_columns, crate::specs::Search::skipped_low, crate::specs::Search::skipped_high))]
pub fn skipped_in_columns(letter: u8) -> u8
    ensures { result ≡ skipped_in_columns letter }
{
    skipped_low(letter) + skipped_high(letter)
}

// of C to X, among the bands of UPS.
#[tactic(auto, unfolding(crate::specs::Search::skipped_in_bands))]
pub fn skipped_in_bands(letter: u8) -> u8
    ensures { result ≡ skipped_in_bands letter }
{
    if letter < b'N' { 0 } else { 22 }
}
