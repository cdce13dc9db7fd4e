// The questions that a recorded answer may follow, asked of the calls for C and Rust. Each call here takes the line behind its
// first word.
use crate::answers;
use crate::fields::{after, byte_of, head, is_north, numbers};
use crate::said::Said;
use crate::texts::text_of;
use say::front;

#[derive(Clone, Copy)]
pub(crate) enum Question {
    Read,
    Write,
    Mgrs,
    Utm,
    Band,
    Zone,
    Row,
}

// TEXT
fn read(s: &[u8]) -> Option<Said> {
    let mut space = [0u8; 64];
    let n = text_of(head(s), &mut space)?;
    Some(answers::read(front(&space, n)))
}

// Whether a number stands for N or S.
fn is_side(z: i64) -> bool {
    is_north(z) || byte_of(z) == b'S'
}

impl Question {
    // In the order in which they are counted.
    pub(crate) const ALL: [Question; 7] = [
        Question::Read,
        Question::Write,
        Question::Mgrs,
        Question::Utm,
        Question::Band,
        Question::Zone,
        Question::Row,
    ];

    // The question that a first word asks.
    pub(crate) fn of(word: &[u8]) -> Option<Question> {
        Question::ALL
            .iter()
            .copied()
            .find(|q| q.word().as_bytes() == word)
    }

    pub(crate) fn word(self) -> &'static str {
        match self {
            Question::Read => "read",
            Question::Write => "write",
            Question::Mgrs => "mgrs",
            Question::Utm => "utm",
            Question::Band => "band",
            Question::Zone => "zone",
            Question::Row => "row",
        }
    }

    // How many fields it has.
    fn fields(self) -> usize {
        match self {
            Question::Read | Question::Band => 1,
            Question::Zone => 2,
            Question::Row => 3,
            Question::Mgrs | Question::Utm => 4,
            Question::Write => 6,
        }
    }

    // What is behind the question.
    pub(crate) fn recorded(self, s: &[u8]) -> &[u8] {
        after(s, self.fields())
    }

    // Our answer, none where the question is not understood. What is written has so much room.
    pub(crate) fn ours(self, s: &[u8], room: usize) -> Option<Said> {
        if let Question::Read = self {
            return read(s);
        }
        let mut space = [0i64; 6];
        match (self, numbers(s, &mut space)) {
            (Question::Write, [zone, side, band, p, easting, northing]) if is_side(*side) => {
                Some(answers::write([*zone, *side, *band, *p, *easting, *northing], room))
            }
            (Question::Mgrs, [zone, side, easting, northing]) if is_side(*side) => {
                Some(answers::mgrs(*zone, is_north(*side), *easting, *northing))
            }
            (Question::Utm, [zone, side, easting, northing]) if is_side(*side) => {
                Some(answers::utm(*zone, is_north(*side), *easting, *northing))
            }
            (Question::Band, [latitude]) => Some(answers::band(*latitude)),
            (Question::Zone, [latitude, longitude]) => Some(answers::zone(*latitude, *longitude)),
            (Question::Row, [band, column, letter]) => {
                Some(answers::row(*band, *column, *letter))
            }
            _ => None,
        }
    }
}
