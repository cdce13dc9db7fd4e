// The fields of a line, parted by single spaces, and what they spell. Every call takes any bytes; what is missing is empty.
use std::str;
use std::str::FromStr;

// Up to the first space, and what is behind it; nothing is where there is none.
fn cut(s: &[u8]) -> (&[u8], &[u8]) {
    match s.iter().position(|b| *b == b' ') {
        Some(k) => (&s[..k], &s[k + 1..]),
        None => (s, &[]),
    }
}

// Up to the first space.
pub(crate) fn head(s: &[u8]) -> &[u8] {
    cut(s).0
}

// Behind the k-th space; empty where there are fewer.
pub(crate) fn after(s: &[u8], k: usize) -> &[u8] {
    let mut rest = s;
    for _ in 0..k {
        rest = cut(rest).1;
    }
    rest
}

// ---- numbers

// As `parse` has it, but for the plus that it takes.
fn parsed<T: FromStr>(s: &[u8]) -> Option<T>
where
    T::Err: Drop,
{
    if s.first() == Some(&b'+') {
        return None;
    }
    str::from_utf8(s).ok()?.parse().ok()
}

// Digits, perhaps behind a minus, of a number that i64 has. A byte by itself that is no digit, as a letter, counts as its own
// number.
pub(crate) fn number_of(s: &[u8]) -> Option<i64> {
    match s {
        [byte] if !byte.is_ascii_digit() => Some(i64::from(*byte)),
        _ => parsed(s),
    }
}

// Digits alone; the largest number where they are none, or a number from 10^19 on, which no i64 reaches.
pub(crate) fn size_of(s: &[u8]) -> u64 {
    match parsed(s) {
        Some(n) if n < 10_000_000_000_000_000_000 => n,
        _ => u64::MAX,
    }
}

// The number with which a line begins, 0 where it is none. Kept, like the largest number above, and not as None: a field
// that spells no number counts so.
pub(crate) fn first_number(s: &[u8]) -> i64 {
    number_of(head(s)).unwrap_or(0)
}

// The numbers with which a line begins, six at most.
pub(crate) fn numbers<'a>(s: &[u8], space: &'a mut [i64; 6]) -> &'a [i64] {
    let mut rest = s;
    for (k, place) in space.iter_mut().enumerate() {
        let (field, others) = cut(rest);
        let Some(z) = number_of(field) else {
            return &space[..k];
        };
        *place = z;
        rest = others;
    }
    space
}

// The byte that a number counts as.
pub(crate) fn byte_of(z: i64) -> u8 {
    (whole::fold_of(z) % 256) as u8
}

// Whether a number stands for N.
pub(crate) fn is_north(z: i64) -> bool {
    byte_of(z) == b'N'
}
