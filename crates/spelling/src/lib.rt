// Digits to be written, eight at a time. Kept: the library prints a number by a writer, digit by digit, and with no zeros in front.
#![tactic(auto)]

ghost use Rattle.std.specs.Prelude.{◌≡◌};
ghost use Rattle.runs.specs.Runs.{last_digits};
ghost use Rattle.words.specs.Words.{word_of};

// The last eight digits of a number, zeros in front, as one number of eight bytes, the first the lowest: parted by fours, twos and
// ones, each step for all of them. A product by 10,486 and a shift is a division by 100 below 10,000; by 103, one by 10 below 100.
#[tactic(auto, using(crate::proofs::Ones::steps))]
pub fn spelled(x: u64) -> u64
    ensures { result ≡ word_of (last_digits 8 x) }
{
    let eight = x % 100_000_000;
    let fours = eight / 10_000 + eight % 10_000 * 0x100000000;
    let high = (fours * 10_486 / 0x100000) & 0x0000007f0000007f;
    let twos = high + (fours - high * 100) * 0x10000;
    let tens = (twos * 103 / 0x400) & 0x000f000f000f000f;
    tens + (twos - tens * 10) * 0x100 + 0x3030303030303030
}
