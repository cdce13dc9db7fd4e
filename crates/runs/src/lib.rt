// The numbers in a text: the digits that lead, and the two numbers that the digits after the row letter halve into. Every call takes
// any slice. That all are digits is seen before their numbers are worked out; of the digits that lead none past 60 is looked at.
#![tactic(auto)]

ghost use Rattle.std.specs.Prelude.{◌≡◌, true, ◌+◌, ◌-◌, ◌*◌, ◌≤◌, ◌<◌, pos, length, take, drop};
ghost use Rattle.words.specs.Bytes.{is_digit, all_digits};
ghost use Rattle.runs.specs.Runs.{value_of, zone_lead};
ghost use Rattle.runs.specs.inner.Eight.{eight_of};
ghost use Rattle.runs.specs.Digits.{digits_of};

use rules::Refusal;

// The number v followed by a digit. Eleven digits never wrap. Kept: the library's parse takes text that is proved to be UTF-8, and tests
// each digit again.
#[tactic(auto, using(words::proofs::Laws::digit_range))]
fn then_digit(v: u64, digit: u8) -> u64
    requires { (v < 100000000000) × (is_digit digit ≡ true) }
    ensures { result ≡ v * 10 + (digit - 48) }
{
    v * 10 + digit as u64 - 48
}

// How many digits lead, and their value.
#[derive(Clone, Copy)]
pub struct Lead {
    pub count: usize,
    pub value: u64,
}

// The digits that lead; none where their value is more than 60, which is past every zone: no further digit mends that, so the pass
// stops there.
#[tactic(auto, using(crate::proofs::Laws::leads), unfolding(crate::specs::Runs::value_from, crate::specs::Runs::lead_of, crate::specs::Runs::zone_lead))]
pub fn zone_lead(s: &[u8]) -> Option<Lead>
    ensures { result ≡ zone_lead s.now }
{
    let mut value: u64 = 0;
    for (count, b) in s.iter().enumerate() {
        if !words::is_digit(*b) {
            return Some(Lead { count, value });
        }
        let next = then_digit(value, *b);
        let past = 60 < next;
        if past {
            return None;
        }
        value = next;
    }
    let count = s.len();
    Some(Lead { count, value })
}

// ---- 11, 12, 13: the digits of both axes

// Digits of each axis, and the two numbers that they spell.
#[derive(Clone, Copy)]
pub struct Digits {
    pub p: i64,
    pub easting: u64,
    pub northing: u64,
}

// A text of digits alone.
#[derive(Clone, Copy)]
struct Run<'a> {
    bytes: &'a [u8],
    ghost digits: { all_digits bytes.now ≡ true },
}

impl<'a> Run<'a> {
    // So many of them, from a place on.
    #[tactic(auto, using(words::proofs::Laws::all_part))]
    fn part(self, from: usize, count: usize) -> Run<'a>
        requires { from + count ≤ length self.bytes.now }
        ensures { result.bytes.now ≡ take count (drop from self.entry.bytes.now) }
    {
        let end = from + count;
        Run {
            bytes: &self.bytes[from..end],
        }
    }
}

// Eight digits as one number, 48 off each byte: neighbours are joined by twos, fours and eights, each step for all of them. The library's
// parse takes them one by one.
#[tactic(auto, using(std::proofs::lemmas::Nat::and_le_r), unfolding(crate::specs::inner::Eight::eight_of))]
fn eight_value(w: u64) -> u64
    requires { w ≤ 0x0909090909090909 }
    ensures { result ≡ eight_of w }
{
    let twos = (w * 10 + w / 0x100) & 0x00ff00ff00ff00ff;
    let fours = (twos * 100 + twos / 0x10000) & 0x0000ffff0000ffff;
    (fours & 0xffff) * 10_000 + fours / 0x100000000
}

// Eight zeros.
const ZEROS: u64 = 0x3030303030303030;

// The number of some of eight digits, from a place on: the others are shifted out, and zeros come in front.
#[tactic(auto, using(crate::proofs::Eights::parts))]
fn part_value(eight: Run<'_>, from: usize, count: usize) -> u64
    requires { (length eight.bytes.now ≡ 8) × (from + count ≤ 8) × (1 ≤ count) }
    ensures { result ≡ value_of (take count (drop from eight.entry.bytes.now)) }
{
    let w = words::word(eight.bytes) - ZEROS;
    eight_value((w >> (8 * from)) << (64 - 8 * count))
}

// The number of up to three digits, one after the other.
#[tactic(auto, using(crate::proofs::Laws::steps, words::proofs::Laws::digit_at), unfolding(crate::specs::Runs::value_from))]
fn short_value(s: Run<'_>) -> u64
    requires { length s.bytes.now ≤ 3 }
    ensures { result ≡ value_of s.entry.bytes.now }
{
    let mut value = 0;
    for digit in s.bytes {
        value = then_digit(value, *digit);
    }
    value
}

// The number of one to three digits and eight more.
#[tactic(auto, using(crate::proofs::Eights::longs))]
fn long_value(s: Run<'_>) -> u64
    requires { (8 < length s.bytes.now) × (length s.bytes.now ≤ 11) }
    ensures { result ≡ value_of s.entry.bytes.now }
{
    let more = s.bytes.len() - 8;
    let front = part_value(s.part(0, 8), 0, more);
    let back = part_value(s.part(more, 8), 0, 8);
    front * 100_000_000 + back
}

// The two halves of digits, eight at a time but where there are fewer in all.
#[tactic(auto, using(crate::proofs::Eights::halves))]
fn two_halves(s: Run<'_>, half: usize) -> Digits
    requires { (length s.bytes.now ≡ half + half) × (half ≤ 11) }
    ensures p { result.p ≡ pos half }
    ensures easting { result.easting ≡ value_of (take half s.entry.bytes.now) }
    ensures northing { result.northing ≡ value_of (drop half s.entry.bytes.now) }
{
    let (easting, northing) = match half {
        0..=3 => (
            short_value(s.part(0, half)),
            short_value(s.part(half, half)),
        ),
        4..=8 => (
            part_value(s.part(0, 8), 0, half),
            part_value(s.part(half + half - 8, 8), 8 - half, half),
        ),
        _ => (long_value(s.part(0, half)), long_value(s.part(half, half))),
    };
    let p = half as i64;
    Digits {
        p,
        easting,
        northing,
    }
}

// What follows the row letter: digits that halve, or the rule by which they do not. That all are digits is seen first, many at
// a time, so that no number is worked out of a text that is refused.
#[tactic(auto, unfolding(crate::specs::Digits::digits_of))]
pub fn digits_of(s: &[u8]) -> Result<Digits, Refusal>
    ensures { result ≡ digits_of s.now }
{
    if !words::all_digits(s) {
        return Err(Refusal::NoDigit);
    }
    let n = s.len();
    if n % 2 == 1 {
        return Err(Refusal::OddDigits);
    }
    if 22 < n {
        return Err(Refusal::ManyDigits);
    }
    Ok(two_halves(Run { bytes: s }, n / 2))
}
