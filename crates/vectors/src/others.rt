// The questions of which no answer is recorded. Each is told with a space in front, whatever its fields are: one that is missing or
// spells no number counts as 0, or as the largest number where it can have no sign.
use crate::fields::{byte_of, is_north, numbers};
use crate::letter_sets::Set;
use crate::{calls, ground};
use std::io;

#[derive(Clone, Copy)]
pub(crate) enum Other {
    Shorten,
    Covers,
    List,
    Fields,
    Floor,
    Letter,
    Ten,
    Limits,
    Grid,
    Shift,
    Capital,
    Side,
    Bands,
    Columns,
    Rows,
    Allowed,
    Corner,
    Square,
    SouthWest,
    Back,
}

impl Other {
    pub(crate) fn of(word: &[u8]) -> Option<Other> {
        Some(match word {
            b"shorten" => Other::Shorten,
            b"covers" => Other::Covers,
            b"list" => Other::List,
            b"fields" => Other::Fields,
            b"floor" => Other::Floor,
            b"letter" => Other::Letter,
            b"ten" => Other::Ten,
            b"limits" => Other::Limits,
            b"grid" => Other::Grid,
            b"shift" => Other::Shift,
            b"capital" => Other::Capital,
            b"side" => Other::Side,
            b"bands" => Other::Bands,
            b"columns" => Other::Columns,
            b"rows" => Other::Rows,
            b"allowed" => Other::Allowed,
            b"corner" => Other::Corner,
            b"square" => Other::Square,
            b"south-west" => Other::SouthWest,
            b"back" => Other::Back,
            _ => return None,
        })
    }

    pub(crate) fn tell(self, rt: &impl Print, s: &[u8], room: usize) -> io::Result<()> {
        let mut q = [0i64; 6];
        numbers(s, &mut q);
        match self {
            Other::Shorten => calls::shorten(rt, s, room),
            Other::Covers => calls::covers(rt, s),
            Other::List => calls::list(rt, s, room),
            Other::Fields => calls::fields(rt, s),
            Other::Floor => ground::floor(rt, s),
            Other::Letter => ground::letter(rt, s),
            Other::Ten => ground::ten(rt, q[0]),
            Other::Limits => ground::limits(rt, q[0]),
            Other::Grid => ground::grid(rt, q[0]),
            Other::Shift => ground::shift(rt, q[0]),
            Other::Capital => ground::capital(rt, byte_of(q[0])),
            Other::Side => ground::side(rt, byte_of(q[0])),
            Other::Bands => Set::Bands { zone: q[0] }.tell(rt),
            Other::Columns => Set::Columns {
                zone: q[0],
                band: byte_of(q[1]),
            }
            .tell(rt),
            Other::Rows => Set::Rows {
                zone: q[0],
                north: is_north(q[1]),
            }
            .tell(rt),
            Other::Allowed => ground::allowed(rt, q[0], q[1], q[2]),
            Other::Corner => ground::corner(rt, q[0], q[1]),
            Other::Square => ground::square(rt, q[0], byte_of(q[1]), byte_of(q[2]), byte_of(q[3])),
            Other::SouthWest => ground::south_west(rt, q),
            Other::Back => ground::back(rt, q),
        }
    }
}
