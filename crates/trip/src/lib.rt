// Writing and then reading, through the calls themselves.
#![tactic(auto)]

ghost use Rattle.std.specs.Prelude.{◌≡◌};
ghost use Rattle.laws.specs.Trips.{back_of};

use position::Position;
use reader::Reading;
use rules::Refusal;

// Writes a point's reference and reads it again: its square or its bare zone, or the rule that forbids writing. 27 bytes
// hold every reference.
#[tactic(auto, using(laws::proofs::Length::length_rule))]
pub fn read_back(q: Position) -> Result<Reading<Position>, Refusal>
    ensures { result ≡ back_of q.zone q.north q.band q.p q.easting q.northing }
{
    let mut out = [0u8; 27];
    // Kept: no `?`, so that an edit can change what a refusal gives, and nothing else.
    match writer::write(q, &mut out) {
        Ok(n) => reader::read(&out[..n]),
        Err(refusal) => Err(refusal),
    }
}
