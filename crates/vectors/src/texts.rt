// A text as a line has it: bytes `!` to `~` but `\` stand for themselves, any other byte is `\` and two small hex digits.
ghost use Rattle.std.specs.Prelude.{◌<◌, IfSome};

fn is_plain(byte: u8) -> bool {
    byte.is_ascii_graphic() && byte != b'\\'
}

// What a small hex digit is worth.
fn hex_of(byte: u8) -> Option<u8>
    ensures { IfSome result (λ d. d < 16) }
{
    match byte {
        b'0'..=b'9' => Some(byte - b'0'),
        b'a'..=b'f' => Some(byte - b'a' + 10),
        _ => None,
    }
}

// The byte of an escape's two digits. A byte that stands for itself has none.
fn escaped(high: u8, low: u8) -> Option<u8> {
    let byte = hex_of(high)? * 16 + hex_of(low)?;
    if is_plain(byte) { None } else { Some(byte) }
}

// The first byte of a text, by itself or escaped, and what is behind it.
fn first_byte(s: &[u8]) -> Option<(u8, &[u8])> {
    match s {
        [b'\\', high, low, rest @ ..] => Some((escaped(*high, *low)?, rest)),
        [byte, rest @ ..] if is_plain(*byte) => Some((*byte, rest)),
        _ => None,
    }
}

// The length of the text, which is put into the buffer; none where it does not fit or is no text.
pub(crate) fn text_of(s: &[u8], out: &mut [u8]) -> Option<usize> {
    let mut rest = s;
    for (k, place) in out.iter_mut().enumerate() {
        if rest.is_empty() {
            return Some(k);
        }
        let (byte, others) = first_byte(rest)?;
        *place = byte;
        rest = others;
    }
    if rest.is_empty() {
        Some(out.len())
    } else {
        None
    }
}
