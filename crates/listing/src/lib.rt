// One line of the listing: a text as it was read, under its line number.
#![tactic(auto)]

ghost use Rattle.std.specs.Prelude.{◌≡◌, [], ◌∷◌, ◌++◌, ◌<◌, ◌≤◌, length};
ghost use Rattle.runs.specs.Runs.{last_digits};
ghost use Rattle.listing.specs.Numerals.{decimal, signed};
ghost use Rattle.reader.specs.Read.{read_of};
ghost use Rattle.listing.specs.Listing.{side_letter, field, letter, read_by, answer_of, zone_text, units_text, refusal_text, text_of, line_of};
ghost use Rattle.writer.specs.Write.{fit_of, leaves_of};

use position::Position;
use reader::Reading;
use rules::Refusal;
use std::marker::Model;

// What the text of a line is written in, which tells how it is read.
#[derive(Clone, Copy)]
pub enum Form {
    Plain,
}

// A line is made from its end to its start, so that no number has to be counted before it is written: bytes[at..] is its text
// so far. 128 bytes hold the longest, five numbers of 20 bytes, two letters, six blanks and the line feed, and eight bytes more,
// which a number's first digits may take before it is known how many they are. Kept by hand are the digits: Display, or itoa of
// the library, would write them elsewhere first, which is a copy more.
#[derive(Drop)]
struct Line {
    bytes: [u8; 128],
    at: usize,
}

// A clause sees the text alone. Kept: each method asks for the room that it needs, or for an empty line; no invariant can, since the
// text grows from call to call.
impl Model for Line {
    ghost use Rattle.std.specs.Prelude.{List, ℕ, ◌≤◌, drop};

    ghost Value = { List ℕ };

    ghost view = { λ a. drop a.at a.bytes };

    ghost invariant = { λ a. a.at ≤ 128 };
}

#[tactic(auto, using(crate::proofs::Fit::text_rules), unfolding(crate::specs::Listing::zone_text, crate::specs::Listing::units_text, crate::specs::Listing::refusal_text))]
impl Line {
    fn new() -> Line
        ensures { result ≡ [] }
    {
        Line {
            bytes: [0; 128],
            at: 128,
        }
    }

    fn text(&self) -> &[u8]
        ensures { result.now ≡ self.now }
    {
        &self.bytes[self.at..]
    }

    // One byte more in front.
    fn put(&mut self, b: u8)
        requires { length self.old < 128 }
        ensures { self.new ≡ b ∷ self.old }
    {
        self.at -= 1;
        self.bytes[self.at] = b;
    }

    // The last eight digits of a number in front, in one step.
    #[tactic(auto, using(crate::proofs::Bytes::eight_bytes, crate::proofs::Bytes::eight_before))]
    fn put_eight(&mut self, n: u64)
        requires { length self.old ≤ 120 }
        ensures { self.new ≡ last_digits 8 n ++ self.old }
    {
        let end = self.at;
        self.at -= 8;
        self.bytes[self.at..end].copy_from_slice(&spelling::spelled(n).to_le_bytes());
    }

    // A number of at most eight digits in front: all eight, and then the zeros before it are let go. One or two, as a zone has,
    // take less by themselves.
    #[tactic(auto, using(crate::proofs::Numerals::one_is, crate::proofs::Numerals::two_is))]
    fn put_short(&mut self, n: u64)
        requires { (n < 100000000) × (length self.old ≤ 120) }
        ensures { self.new ≡ decimal n ++ self.old }
    {
        if n < 10 {
            self.put(b'0' + n as u8);
        } else if n < 100 {
            self.put(b'0' + (n % 10) as u8);
            self.put(b'0' + (n / 10) as u8);
        } else {
            self.put_eight(n);
            self.at += 7 - n.ilog10() as usize;
        }
    }

    // A number in front, eight digits at a time.
    #[tactic(auto, using(crate::proofs::Numerals::eight_more))]
    fn put_number(&mut self, n: u64)
        requires { length self.old ≤ 100 }
        ensures { self.new ≡ decimal n ++ self.old }
    {
        let mut rest = n;
        while 100_000_000 <= rest {
            self.put_eight(rest);
            rest /= 100_000_000;
        }
        self.put_short(rest);
    }

    // A blank and a signed number in front.
    fn put_field(&mut self, z: i64)
        requires { length self.old ≤ 100 }
        ensures { self.new ≡ field (signed z) ++ self.old }
    {
        self.put_number(z.unsigned_abs());
        if z < 0 {
            self.put(b'-');
        }
        self.put(b' ');
    }

    // A blank and a letter in front.
    fn put_letter(&mut self, b: u8)
        requires { length self.old ≤ 120 }
        ensures { self.new ≡ letter b ++ self.old }
    {
        self.put(b);
        self.put(b' ');
    }

    // The end of a position's line: p, the units and the line feed.
    fn put_units(&mut self, q: Position)
        requires { self.old ≡ [] }
        ensures { self.new ≡ units_text q }
    {
        self.put(b'\n');
        self.put_field(q.northing);
        self.put_field(q.easting);
        self.put_field(q.p);
    }

    // Its start: the number, the zone, the hemisphere and the band.
    fn put_zone(&mut self, number: u64, q: Position)
        requires { length self.old ≤ 74 }
        ensures { self.new ≡ zone_text number q ++ self.old }
    {
        self.put_letter(q.band);
        self.put_letter(if q.north { b'N' } else { b'S' });
        self.put_field(q.zone);
        self.put_number(number);
    }

    // The line of a position.
    fn put_position(&mut self, number: u64, q: Position)
        requires { self.old ≡ [] }
        ensures { self.new ≡ zone_text number q ++ units_text q }
    {
        self.put_units(q);
        self.put_zone(number, q);
    }

    // The line of a refusal.
    fn put_refusal(&mut self, number: u64, k: u64)
        requires { self.old ≡ [] }
        ensures { self.new ≡ refusal_text number k }
    {
        self.put(b'\n');
        self.put_number(k);
        self.put(b' ');
        self.put_letter(b'R');
        self.put_number(number);
    }

    // The line of an answer.
    fn put_answer(&mut self, number: u64, answer: Result<Reading<Position>, Refusal>)
        requires { self.old ≡ [] }
        ensures { self.new ≡ text_of number answer }
    {
        match answer {
            Ok(Reading::Square(q)) => self.put_position(number, q),
            Ok(Reading::Bare(q)) => self.put_position(number, q),
            Err(refusal) => self.put_refusal(number, u64::from(refusal.number())),
        }
    }
}

// A line over 64 bytes is not read.
#[tactic(auto, unfolding(crate::specs::Listing::answer_of, crate::specs::Listing::read_by))]
fn answer_of(form: Form, text: &[u8]) -> Result<Reading<Position>, Refusal>
    ensures { result ≡ answer_of (read_by form) text.now }
{
    if 64 < text.len() {
        return Err(Refusal::LongLine);
    }
    match form {
        Form::Plain => reader::read(text),
    }
}

// Puts the line of a plain text, under its number, at the buffer's start: its length, or `ShortOutput` where it does not fit.
#[tactic(auto, unfolding(crate::specs::Listing::read_by))]
pub fn list_line(text: &[u8], number: u64, out: &mut [u8]) -> Result<usize, Refusal>
    ensures { (result ≡ fit_of (line_of read_of number text.now) (length out.old)) × (out.new ≡ leaves_of (line_of read_of number text.now) out.old) }
{
    list_line_by(Form::Plain, text, number, out)
}

// The same of a text of any form.
#[tactic(auto, using(crate::proofs::Fit::copy_rules), unfolding(crate::specs::Listing::line_of))]
pub fn list_line_by(form: Form, text: &[u8], number: u64, out: &mut [u8]) -> Result<usize, Refusal>
    ensures { (result ≡ fit_of (line_of (read_by form) number text.now) (length out.old)) × (out.new ≡ leaves_of (line_of (read_by form) number text.now) out.old) }
{
    let mut line = Line::new();
    line.put_answer(number, answer_of(form, text));
    let made = line.text();
    let n = made.len();
    if out.len() < n {
        return Err(Refusal::ShortOutput);
    }
    out[..n].copy_from_slice(made);
    Ok(n)
}
