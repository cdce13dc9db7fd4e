// Words and numbers put together in a buffer, for the programs to write out. Each call that puts something answers where the next
// byte goes; what has no room is not put at all.
// Kept: a place stands beside the buffer, since the clauses of `put` and `put_count`, which are public (docs/PROMISES.md), speak of it.
#![tactic(auto)]

ghost use Rattle.std.specs.Prelude.{◌≡◌, take};
ghost use Rattle.say.specs.Put.{put_end, put_leaves, count_text};

// The first n bytes; all where there are fewer.
pub fn front(s: &[u8], n: usize) -> &[u8]
    ensures { result.now ≡ take n s.now }
{
    s.get(..n).unwrap_or(s)
}

// The whole text at a place.
pub fn put(out: &mut [u8], at: usize, text: &[u8]) -> usize
    ensures { (result ≡ put_end at text.now out.old) × (out.new ≡ put_leaves at text.now out.old) }
{
    if at <= out.len() && text.len() <= out.len() - at {
        let end = at + text.len();
        out[at..end].copy_from_slice(text);
        return end;
    }
    at
}

// A space and a number.
#[tactic(auto, using(crate::proofs::Counts::text_is))]
pub fn put_count(out: &mut [u8], at: usize, n: u64) -> usize
    ensures { (result ≡ put_end at (count_text n) out.old) × (out.new ≡ put_leaves at (count_text n) out.old) }
{
    let mut digits = [0u8; 20];
    let k = io::decimal(n, &mut digits);
    let mut text = [b' '; 21];
    text[1..k + 1].copy_from_slice(&digits[..k]);
    put(out, at, &text[..k + 1])
}
