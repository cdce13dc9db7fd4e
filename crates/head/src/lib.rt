// The head of a text: its zone and its band letter, or the rule, of 1 to 6, by which it is turned away.
#![tactic(auto)]

ghost use Rattle.std.specs.Prelude.{◌≡◌, ◌≤◌, eqb};
ghost use Rattle.letters.specs.Letters.{capital_of};
ghost use Rattle.head.specs.Head.{is_inv, zone_wrong, head_of};

use rules::Refusal;
use runs::Lead;

// The zone, 0 for UPS, the band as a capital, and where the text goes on after it.
#[derive(Clone, Copy)]
pub struct Head {
    pub zone: i64,
    pub band: u8,
    pub next: usize,
}

// The first letter alone tells nearly every text apart.
#[tactic(auto, unfolding(crate::specs::Head::is_inv, crate::specs::Head::inv_letters))]
fn is_inv(s: &[u8]) -> bool
    ensures { result ≡ is_inv s.now }
{
    3 <= s.len()
        && letters::capital(s[0]) == b'I'
        && letters::capital(s[1]) == b'N'
        && letters::capital(s[2]) == b'V'
}

// Of a value up to 60 only 0 is wrong. No digits are no wrong zone, but UPS: their value is 0 too, so that the value alone tells nearly
// every text apart.
#[tactic(auto, unfolding(crate::specs::Head::zone_wrong))]
fn is_zone_wrong(lead: Lead) -> bool
    requires { lead.value ≤ 60 }
    ensures { result ≡ zone_wrong lead }
{
    lead.value == 0 && lead.count != 0
}

#[tactic(auto, unfolding(letters::specs::Letters::is_in, runs::specs::Runs::value_from, runs::specs::Runs::lead_of, runs::specs::Runs::zone_lead, crate::specs::Head::zone_wrong, crate::specs::Head::head_of))]
pub fn head_of(s: &[u8]) -> Result<Head, Refusal>
    ensures { result ≡ head_of s.now }
{
    if words::has_high(s) {
        return Err(Refusal::HighByte);
    }
    if is_inv(s) {
        return Err(Refusal::Inv);
    }
    let Some(lead) = runs::zone_lead(s) else {
        return Err(Refusal::WrongZone);
    };
    if is_zone_wrong(lead) {
        return Err(Refusal::WrongZone);
    }
    let count = lead.count;
    let many = 2 < count;
    if many {
        return Err(Refusal::LongZone);
    }
    let ended = s.len() <= count;
    if ended {
        return Err(Refusal::NoBand);
    }
    let zone = lead.value as i64;
    let band = letters::capital(s[count]);
    if !bands::is_band(zone, band) {
        return Err(Refusal::WrongBand);
    }
    let next = count + 1;
    Ok(Head { zone, band, next })
}
