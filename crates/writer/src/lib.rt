// Writes a reference: the parts of a point to bytes in a lent buffer, or the rule that forbids it.
#![tactic(auto)]

ghost use Rattle.std.specs.Prelude.{◌≡◌, ◌+◌, ◌≤◌, length};
ghost use Rattle.whole.specs.Floor.{fold};
ghost use Rattle.runs.specs.Runs.{last_digits};
ghost use Rattle.writer.specs.Text.{head_text, block_text, full_text};
ghost use Rattle.writer.specs.inner.Lengths.{head_length};
ghost use Rattle.writer.specs.Write.{fit_of, leaves_of, write_of, write_leaves};

use composer::{BareZone, Reference};
use position::{Parts, Position};
use rules::Refusal;

// A number's last digits, as many as there is room for: the last two first, and the first one by itself where their count is odd.
// Kept: a range of the pairs, since no contract says what the chunks of `rchunks_exact_mut` leave in the slice; and pairs, since one
// digit a step costs more instructions.
#[tactic(auto, unfolding(runs::specs::Runs::last_digits), using(crate::proofs::Stores::digit_step))]
fn put_digits(out: &mut [u8], number: u64)
    ensures { out.new ≡ last_digits (length out.old) number }
{
    let odd = out.len() % 2;
    let mut rest = number;
    for k in (0..out.len() / 2).rev() {
        let at = odd + 2 * k;
        let two = rest % 100;
        out[at + 1] = b'0' + (two % 10) as u8;
        out[at] = b'0' + (two / 10) as u8;
        rest /= 100;
    }
    if 0 < odd {
        out[0] = b'0' + (rest % 10) as u8;
    }
}

// How long a zone and its band are.
#[tactic(auto, unfolding(crate::specs::inner::Lengths::head_length))]
fn head_length(zone: i64) -> usize
    ensures { result ≡ head_length zone }
{
    if zone < 1 { 1 } else { 3 }
}

// The zone and its band.
#[tactic(auto, using(crate::proofs::Stores::ups_length, crate::proofs::Stores::utm_length, crate::proofs::Stores::ups_stored, crate::proofs::Stores::utm_stored))]
fn put_head(out: &mut [u8], zone: i64, band: u8)
    requires { length out.old ≡ head_length zone }
    ensures { out.new ≡ head_text zone band }
{
    if zone < 1 {
        out[0] = band;
    } else {
        put_digits(&mut out[..2], whole::fold_of(zone));
        out[2] = band;
    }
}

// Nothing is written where the buffer is too short.
#[tactic(auto, unfolding(crate::specs::Write::leaves_of), using(crate::proofs::Stores::head_length_lem, crate::proofs::Stores::short, crate::proofs::Stores::long))]
fn put_bare(bare: BareZone, out: &mut [u8]) -> Result<usize, Refusal>
    ensures { (result ≡ fit_of (head_text bare.zone bare.band) (length out.old)) × (out.new ≡ leaves_of (head_text bare.zone bare.band) out.old) }
{
    let size = head_length(bare.zone);
    let short = out.len() < size;
    if short {
        return Err(Refusal::ShortOutput);
    }
    put_head(&mut out[..size], bare.zone, bare.band);
    Ok(size)
}

// The letters and digits of a reference after its band.
#[tactic(auto, using(crate::proofs::Stores::block_stored))]
fn put_block(out: &mut [u8], parts: Parts)
    requires { length out.old ≡ 2 + fold parts.p + fold parts.p }
    ensures { out.new ≡ block_text parts }
{
    let middle = 2 + whole::fold_of(parts.p) as usize;
    out[0] = parts.column;
    out[1] = parts.row;
    put_digits(&mut out[2..middle], parts.easting);
    put_digits(&mut out[middle..], parts.northing);
}

#[tactic(auto, using(crate::proofs::Stores::length_le))]
fn put_full(parts: Parts, out: &mut [u8]) -> Result<usize, Refusal>
    requires { fold parts.p ≤ 11 }
    ensures { (result ≡ fit_of (full_text parts) (length out.old)) × (out.new ≡ leaves_of (full_text parts) out.old) }
{
    let head = head_length(parts.zone);
    let p = whole::fold_of(parts.p) as usize;
    let n = head + 2 + p + p;
    let fits = n <= out.len();
    if fits {
        put_head(&mut out[..head], parts.zone, parts.band);
        put_block(&mut out[head..n], parts);
        return Ok(n);
    }
    Err(Refusal::ShortOutput)
}

// Writes a point's reference at the buffer's front: its length, or the rule that forbids it, and then nothing is written.
#[tactic(auto, unfolding(crate::specs::Write::write_of, crate::specs::Write::write_leaves), using(composer::proofs::Stages::few))]
pub fn write(q: Position, out: &mut [u8]) -> Result<usize, Refusal>
    ensures { (result ≡ write_of q.zone q.north q.band q.p q.easting q.northing (length out.old)) × (out.new ≡ write_leaves q.zone q.north q.band q.p q.easting q.northing out.old) }
{
    match composer::compose(q)? {
        Reference::Full(parts) => put_full(parts, out),
        Reference::Bare(bare) => put_bare(bare, out),
    }
}
