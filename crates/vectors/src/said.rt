// An answer in words and numbers, put together piece by piece. A number has a space in front.
use say::{front, put, put_count};

// No answer has more than 128 bytes: what has no room is left out.
#[derive(Clone, Copy)]
pub(crate) struct Said {
    bytes: [u8; 128],
    used: usize,
}

impl Said {
    pub(crate) fn of(words: &[u8]) -> Said {
        let said = Said {
            bytes: [0; 128],
            used: 0,
        };
        said.text(words)
    }

    pub(crate) fn as_bytes(&self) -> &[u8] {
        front(&self.bytes, self.used)
    }

    pub(crate) fn text(mut self, words: &[u8]) -> Said {
        let at = self.used;
        self.used = put(&mut self.bytes, at, words);
        self
    }

    pub(crate) fn count(mut self, n: u64) -> Said {
        let at = self.used;
        self.used = put_count(&mut self.bytes, at, n);
        self
    }

    // A minus takes the place of the space that its count has.
    pub(crate) fn number(self, z: i64) -> Said {
        if 0 <= z {
            return self.count(z.unsigned_abs());
        }
        let spaced = self.text(b" ");
        let sign = spaced.used;
        let mut said = spaced.count(z.unsigned_abs());
        put(&mut said.bytes, sign, b"-");
        said
    }

    pub(crate) fn side(self, north: bool) -> Said {
        self.text(if north { b" N" } else { b" S" })
    }

    // A point and the seven digits behind it, the last zeros left out.
    fn fraction(self, fraction: u64) -> Said {
        let mut word = [0u8; 8];
        let mut used = put(&mut word, 0, b".");
        let mut rest = fraction % 10_000_000;
        for _ in 0..7 {
            if rest == 0 {
                break;
            }
            used = put(&mut word, used, &[b'0' + (rest / 1_000_000 % 10) as u8]);
            rest = rest % 1_000_000 * 10;
        }
        self.text(front(&word, used))
    }

    // Units as metres, exactly: a unit is 5 of the seventh place.
    pub(crate) fn metres(self, units: i64) -> Said {
        let n = whole::fold_of(units);
        let said = self.count(n / 2_000_000);
        let fraction = n % 2_000_000 * 5;
        if fraction == 0 {
            said
        } else {
            said.fraction(fraction)
        }
    }
}
