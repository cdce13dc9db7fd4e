// The rules by which texts and points are turned away, each with its number in document 01.
#![tactic(auto)]

ghost use Rattle.std.specs.Prelude.{◌≡◌};
ghost use Rattle.rules.specs.Rules.{number_of};

#[derive(Clone, Copy, PartialEq, Eq)]
pub enum Refusal {
    HighByte = 1,
    Inv,
    WrongZone,
    LongZone,
    NoBand,
    WrongBand,
    LoneLetter,
    WrongColumn,
    WrongRow,
    NoAllowedRow,
    NoDigit,
    OddDigits,
    ManyDigits,
    NoSuchZone,
    WrongPrecision,
    EastingOut,
    NorthingOut,
    NoSuchBand,
    BandMisfits,
    ShortOutput,
    NotShortened,
    LatitudeOut,
    LongLine,
}

impl Refusal {
    // The number by which documents and callers in C name the rule.
    pub fn number(self) -> u8
        ensures { result ≡ number_of self }
    {
        self as u8
    }
}
