// References and their squares: a reference at fewer digits, and whether one reference covers another.
#![tactic(auto)]

ghost use Rattle.std.specs.Prelude.{◌≡◌, true, ◌&&◌, length, Ok};
ghost use Rattle.position.specs.inner.Counts.{exact};
ghost use Rattle.reader.specs.declared.Reading.TheVariants.{Square};
ghost use Rattle.squares.specs.Shorten.{shortened, short_left, short_of, short_leaves};
ghost use Rattle.squares.specs.Covers.{same_area, axis_within, square_within, covers_of};

use position::Position;
use reader::Reading;
use rules::Refusal;

// ---- shortening

// The corner of a square that was read, at q digits.
#[tactic(auto, unfolding(crate::specs::Shorten::corner_written, crate::specs::Shorten::corner_leaves, position::specs::Squares::south_west))]
fn shorten_square(x: Position, q: i64, out: &mut [u8]) -> Result<usize, Refusal>
    ensures { (result ≡ shortened (Ok (Square x)) q (length out.old)) × (out.new ≡ short_left (Ok (Square x)) q out.old) }
{
    if whole::is_outside(0, x.p, q) {
        return Err(Refusal::NotShortened);
    }
    let corner = position::south_west(x);
    writer::write(Position { p: q, ..corner }, out)
}

// Writes a reference at q digits, at the buffer's front.
#[tactic(auto, unfolding(crate::specs::Shorten::short_of, crate::specs::Shorten::short_leaves))]
pub fn shorten(text: &[u8], q: i64, out: &mut [u8]) -> Result<usize, Refusal>
    ensures { (result ≡ short_of text.now q (length out.old)) × (out.new ≡ short_leaves text.now q out.old) }
{
    match reader::read(text)? {
        Reading::Bare(_) => Err(Refusal::NotShortened),
        Reading::Square(x) => shorten_square(x, q, out),
    }
}

// ---- covering

// A square that was read: its centre is near enough that no edge is beyond the ends of 64 bits.
#[derive(Clone, Copy)]
struct NearSquare {
    position: Position,
    ghost east_exact: { exact position.easting ≡ true },
    ghost north_exact: { exact position.northing ≡ true },
}

#[tactic(auto, unfolding(crate::specs::Covers::same_area, whole::specs::Compare::same))]
fn is_same_area(a: Position, b: Position) -> bool
    ensures { result ≡ same_area a b }
{
    a.zone == b.zone && a.band == b.band
}

// On one axis. Kept: a p and a centre as two numbers, as `position::corner_of` takes them.
#[tactic(auto, unfolding(crate::specs::Covers::axis_within), using(crate::proofs::Sizes::side_le))]
fn is_axis_within(p: i64, c: i64, r: i64, d: i64) -> bool
    requires { (exact c ≡ true) × (exact d ≡ true) }
    ensures { result ≡ axis_within p c r d }
{
    let outer = position::corner_of(p, c);
    let inner = position::corner_of(r, d);
    outer <= inner
        && inner + position::side_length(r) as i64 <= outer + position::side_length(p) as i64
}

#[tactic(auto, unfolding(crate::specs::Covers::square_within))]
fn is_square_within(a: NearSquare, b: NearSquare) -> bool
    ensures { result ≡ square_within a.position b.position }
{
    let (x, y) = (a.position, b.position);
    is_axis_within(x.p, x.easting, y.p, y.easting)
        && is_axis_within(x.p, x.northing, y.p, y.northing)
}

fn is_covering(a: NearSquare, b: NearSquare) -> bool
    ensures { result ≡ (same_area a.position b.position && square_within a.position b.position) }
{
    is_same_area(a.position, b.position) && is_square_within(a, b)
}

// Whether the reference a covers the reference b. The first is read first.
#[tactic(auto, unfolding(crate::specs::Covers::covers_of))]
pub fn covers(a: &[u8], b: &[u8]) -> Result<bool, Refusal>
    ensures { result ≡ covers_of a.now b.now }
{
    let outer = reader::read(a)?;
    let inner = reader::read(b)?;
    Ok(match (outer, inner) {
        (Reading::Bare(x), Reading::Bare(y)) => is_same_area(x, y),
        (Reading::Bare(x), Reading::Square(y)) => is_same_area(x, y),
        (Reading::Square(_), Reading::Bare(_)) => false,
        (Reading::Square(x), Reading::Square(y)) => {
            is_covering(NearSquare { position: x }, NearSquare { position: y })
        }
    })
}
