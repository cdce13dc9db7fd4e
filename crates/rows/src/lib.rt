// The 100 km rows that a latitude band and a column allow, and the row that a row letter means.
#![tactic(auto)]

ghost use Rattle.std.specs.Prelude.{◌≡◌, ◌<◌, ◌%◌, pos, negsuc, ◌-ℤ◌, ◌≤ℤ◌};
ghost use Rattle.rows.specs.inner.Direct.{pair_of, allowed_by, candidate_from};
ghost use Rattle.rows.specs.Limits.{limits_of};
ghost use Rattle.rows.specs.Allowed.{fold_column, same_sign, folded_case, between, folded, allowed};
ghost use Rattle.rows.specs.Letters.{shift_of, letter_of};
ghost use Rattle.rows.specs.Resolve.{resolve};

// The lowest and the highest row of a band.
#[derive(Clone, Copy)]
pub struct Limits {
    pub low: i64,
    pub high: i64,
}

// Bands -10 to 9, C to X: the lowest and the highest row. The table is built where it is read, so a row is a byte here.
const LIMITS: [(i8, i8); 20] = [
    (-90, -81),
    (-80, -72),
    (-71, -63),
    (-63, -54),
    (-54, -45),
    (-45, -36),
    (-36, -27),
    (-27, -18),
    (-18, -9),
    (-9, -1),
    (0, 8),
    (8, 17),
    (17, 26),
    (26, 35),
    (35, 44),
    (44, 53),
    (53, 62),
    (62, 70),
    (71, 79),
    (80, 94),
];

// The k-th band's limits.
fn pair_at(k: usize) -> (i8, i8)
    requires { k < 20 }
    ensures { result ≡ pair_of (limits_of (pos k -ℤ pos 10)) }
{
    LIMITS[k]
}

// The limits of a band; 0 to -1, which hold no row, for a band that does not exist.
// Kept: no Option here, since the definition `limits_of` has these limits for such a band.
pub fn limits_of(band: i64) -> Limits
    ensures { result ≡ limits_of band }
{
    if band < -10 || 9 < band {
        return Limits { low: 0, high: -1 };
    }
    let (low, high) = pair_at((band + 10) as usize);
    Limits {
        low: i64::from(low),
        high: i64::from(high),
    }
}

fn is_between(l: Limits, row: i64) -> bool
    ensures { result ≡ between l row }
{
    l.low <= row && row <= l.high
}

fn fold_column(c: usize) -> usize
    requires { c < 8 }
    ensures { result ≡ fold_column c }
{
    if c <= 3 { c } else { 7 - c }
}

fn same_sign(a: i64, b: i64) -> bool
    ensures { result ≡ same_sign a b }
{
    (a < 0) == (b < 0)
}

// The four cases, of row, band and column, each folded.
fn is_case(r: u64, b: u64, c: usize) -> bool
    ensures { result ≡ folded_case r b c }
{
    match (r, b) {
        (70, 8) => 2 <= c,
        (71, 7) => c <= 2,
        (79, 9) => 1 <= c,
        (80, 8) => c <= 1,
        _ => false,
    }
}

// Kept: band, column and row apart, here and below, as the public `is_allowed` takes them.
fn is_folded(band: i64, column: usize, row: i64) -> bool
    requires { column < 8 }
    ensures { result ≡ folded band column row }
{
    same_sign(band, row)
        && is_case(
            whole::fold_of(row),
            whole::fold_of(band),
            fold_column(column),
        )
}

// Within a band's limits, or one of the cases.
fn is_allowed_by(l: Limits, band: i64, column: usize, row: i64) -> bool
    ensures { result ≡ allowed_by l band column row }
{
    column <= 7 && (is_between(l, row) || is_folded(band, column, row))
}

// Whether a band and a column index allow a row.
#[tactic(auto, unfolding(crate::specs::Allowed::allowed))]
pub fn is_allowed(band: i64, column: usize, row: i64) -> bool
    ensures { result ≡ allowed band column row }
{
    is_allowed_by(limits_of(band), band, column, row)
}

// How many places further on the letters of even zones stand.
#[tactic(auto, unfolding(crate::specs::Letters::shift_of))]
pub fn shift_of(zone: i64) -> u64
    ensures { result ≡ shift_of zone }
{
    match whole::floor_mod(zone, 2) {
        0 => 5,
        _ => 0,
    }
}

// The place of a row's letter, at a shift.
#[tactic(auto, using(crate::proofs::Period::letter_is, whole::proofs::Floor::floor_mod_lt))]
pub fn letter_of(shift: u64, row: i64) -> usize
    ensures { result ≡ letter_of shift row }
{
    let r = whole::floor_mod(row, 20);
    ((r + shift % 20) % 20) as usize
}

// The only row with the letter among the twenty from one below the lowest. The letter's place may be one round too far on, so
// that one division serves both; a hundred more is five rounds more.
fn candidate_of(lowest: i64, place: usize) -> i64
    requires { (negsuc 89 ≤ℤ lowest) × (lowest ≤ℤ pos 90) × (place < 40) }
    ensures { result ≡ candidate_from lowest (place % 20) }
{
    let base = lowest - 1;
    let gap = (place + 100) as i64 - base;
    base + (gap as u64 % 20) as i64
}

// The row of a letter in an odd zone, its place at most one round too far on. The limits are looked up once.
#[tactic(auto, unfolding(crate::specs::Limits::limits_of))]
fn row_from(band: i64, column: usize, place: usize) -> Option<i64>
    requires { place < 40 }
    ensures { result ≡ resolve 0 band column (place % 20) }
{
    let l = limits_of(band);
    let row = candidate_of(l.low, place);
    is_allowed_by(l, band, column, row).then_some(row)
}

// The row of a letter in an odd zone, if an allowed one has it.
pub fn utm_row(band: i64, column: usize, letter: usize) -> Option<i64>
    ensures { result ≡ resolve 0 band column letter }
{
    utm_row_at(0, band, column, letter)
}

// The row of a letter at any shift: 0 in odd zones, 5 in even ones.
#[tactic(auto, using(crate::proofs::Theorems::no_letter))]
pub fn utm_row_at(shift: u64, band: i64, column: usize, letter: usize) -> Option<i64>
    ensures { result ≡ resolve shift band column letter }
{
    if letter < 20 {
        row_from(band, column, letter + 20 - (shift % 20) as usize)
    } else {
        None
    }
}
