// Bytes of a text, many at a time: whether one of 128 or more stands anywhere, whether all are digits, eight as one number.
// Every call takes any slice and looks at each of its bytes once; some bytes of 8 to 32 stand in two steps of eight or sixteen.
#![tactic(auto)]

ghost use Rattle.std.specs.Prelude.{◌≡◌, ◌≤◌, ℕ, Bool, true, length};
ghost use Rattle.std.specs.List.{list_any};
ghost use Rattle.words.specs.Bytes.{high, is_digit, all_digits, has_high};
ghost use Rattle.words.specs.Words.{word_of, first_word};
ghost use Rattle.words.specs.inner.Flags.{others_of, no_digit, Tells};
ghost use Rattle.words.specs.inner.Kinds.{high_told, no_digit_told};

// 0 to 9.
#[tactic(auto, unfolding(crate::specs::Bytes::is_digit))]
pub fn is_digit(b: u8) -> bool
    ensures { result ≡ is_digit b }
{
    b.is_ascii_digit()
}

// ---- eight bytes as one number

// The first eight bytes as one number, the first the lowest, and 0 of fewer, as `first_word` of specs/Words has it. The compiler makes
// one read of it, and of a part that has eight the test costs nothing.
#[tactic(auto, using(crate::proofs::Words::word_is), unfolding(crate::specs::Words::first_word))]
pub fn word(s: &[u8]) -> u64
    ensures { result ≡ first_word s.now }
{
    match s.first_chunk::<8>() {
        Some(eight) => u64::from_le_bytes(*eight),
        None => 0,
    }
}

// ---- whether a byte of a kind stands anywhere

// A kind of bytes, told by the bit of 128: of one byte, and of each of eight as one number.
trait Kind {
    ghost is_of: { ℕ → Bool };

    ghost flags: { ℕ → ℕ };

    fn flag(b: u8) -> u8
        ensures { high result ≡ is_of b };

    fn flag_eight(w: u64) -> u64
        ensures { result ≡ flags w };

    ghost told: { Tells flags is_of };
}

// 128 or more.
struct High;

impl Kind for High {
    ghost is_of = { high };

    ghost flags = { λ w. w };

    ghost told = { high_told };

    fn flag(b: u8) -> u8 {
        b
    }

    fn flag_eight(w: u64) -> u64 {
        w
    }
}

// No digit.
struct NoDigit;

impl Kind for NoDigit {
    ghost is_of = { no_digit };

    ghost flags = { others_of 8 };

    ghost told = { no_digit_told };

    fn flag(b: u8) -> u8 {
        if is_digit(b) { 0 } else { 255 }
    }

    // Where bytes differ from 48, bit by bit, digits are 0 to 9, so 118 more is below 128; the bit of 128 is left out of that sum, so
    // that no byte reaches into the next, and put back after it.
    #[tactic(auto, unfolding(crate::specs::inner::Flags::others_of))]
    fn flag_eight(w: u64) -> u64 {
        let t = w ^ 0x3030303030303030;
        ((t & 0x7f7f7f7f7f7f7f7f) + 0x7676767676767676) | t
    }
}

// The bit of 128 of each of eight bytes.
const HIGH_BITS: u64 = 0x8080808080808080;

// Whether one of eight bytes is of the kind.
#[tactic(auto, using(crate::proofs::Words::word_is))]
fn in_eight<K: Kind>(bytes: &[u8; 8]) -> bool
    ensures { result ≡ list_any K.is_of bytes.now }
{
    K::flag_eight(u64::from_le_bytes(*bytes)) & HIGH_BITS != 0
}

// Of at least eight bytes and at most sixteen, the first eight and the last eight are all.
fn in_two_eights<K: Kind>(s: &[u8]) -> bool
    requires { (8 ≤ length s.now) × (length s.now ≤ 16) }
    ensures { result ≡ list_any K.is_of s.now }
{
    let first = s.first_chunk().unwrap();
    let last = s.last_chunk().unwrap();
    in_eight::<K>(first) | in_eight::<K>(last)
}

// Of any bytes: all flags together, bit by bit, have the bit of 128 exactly if one of them has. The pass goes to the end in any case:
// one with no exit is compiled into wide steps.
#[tactic(auto, using(crate::proofs::Words::together, std::proofs::lemmas::List::Folds::list_any_more))]
fn in_each<K: Kind>(s: &[u8]) -> bool
    ensures { result ≡ list_any K.is_of s.now }
{
    let mut all = 0;
    for b in s {
        all |= K::flag(*b);
    }
    128 <= all
}

// Most references have 8 to 16 bytes, and none has more than 27. Fewer than eight have an arm of their own, whose loop is unrolled.
fn has<K: Kind>(s: &[u8]) -> bool
    ensures { result ≡ list_any K.is_of s.now }
{
    let n = s.len();
    match n {
        0..=7 => in_each::<K>(s),
        8..=16 => in_two_eights::<K>(s),
        17..=32 => in_two_eights::<K>(&s[..16]) | in_two_eights::<K>(&s[n - 16..]),
        _ => in_each::<K>(s),
    }
}

// Whether a byte of 128 or more stands anywhere.
#[tactic(auto, using(crate::proofs::Words::high_is))]
pub fn has_high(s: &[u8]) -> bool
    ensures { result ≡ has_high s.now }
{
    has::<High>(s)
}

// Whether every byte is a digit.
#[tactic(auto, using(crate::proofs::Words::digits_are))]
pub fn all_digits(s: &[u8]) -> bool
    ensures { result ≡ all_digits s.now }
{
    !has::<NoDigit>(s)
}
