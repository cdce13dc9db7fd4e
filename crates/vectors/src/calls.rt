// Shortening, covering, listing and reading by the calls themselves. Each takes the line behind its first word, and prints the
// answer.
use crate::answers;
use crate::answers::{FILLER, answer_of, front_of};
use crate::fields::{after, first_number, head, size_of};
use crate::texts::text_of;
use say::front;
use std::io;

// The text that a field spells. Where it spells none, or the buffer does not hold it, all that the buffer then has is the text.
fn given<'a>(field: &[u8], space: &'a mut [u8; 64]) -> &'a [u8] {
    let n = text_of(field, space).unwrap_or(space.len());
    front(space, n)
}

fn tell_written(rt: &impl Print, length: Result<usize, u64>, buffer: &[u8]) -> io::Result<()> {
    print!(rt; " ")?;
    rt.write_all(answers::written(length, buffer).as_bytes())
}

// TEXT Q
pub(crate) fn shorten(rt: &impl Print, s: &[u8], room: usize) -> io::Result<()> {
    let mut text = [0u8; 64];
    let mut space = [FILLER; 64];
    let code = export::mgrs_shorten(
        given(head(s), &mut text),
        first_number(after(s, 1)),
        front_of(&mut space, room),
    );
    tell_written(rt, answer_of(code), &space)
}

// NUMBER TEXT
pub(crate) fn list(rt: &impl Print, s: &[u8], room: usize) -> io::Result<()> {
    let mut text = [0u8; 64];
    let mut space = [FILLER; 64];
    let length = listing::list_line(
        given(head(after(s, 1)), &mut text),
        size_of(head(s)),
        front_of(&mut space, room),
    );
    tell_written(
        rt,
        length.map_err(|refusal| u64::from(refusal.number())),
        &space,
    )
}

// TEXT TEXT
pub(crate) fn covers(rt: &impl Print, s: &[u8]) -> io::Result<()> {
    let mut outer = [0u8; 64];
    let mut inner = [0u8; 64];
    let code = export::mgrs_covers(
        given(head(s), &mut outer),
        given(head(after(s, 1)), &mut inner),
    );
    match answer_of(code) {
        Ok(0) => print!(rt; " no"),
        Ok(_) => print!(rt; " yes"),
        Err(number) => print!(rt; " refused {number}"),
    }
}

// TEXT: what the call for C and Rust answers, and the numbers that it was lent, which were 7.
pub(crate) fn fields(rt: &impl Print, s: &[u8]) -> io::Result<()> {
    let mut text = [0u8; 64];
    let mut q = [7i64; 6];
    let code = export::mgrs_read(given(head(s), &mut text), &mut q);
    print!(rt; " {code}:")?;
    for z in q {
        print!(rt; " {z}")?;
    }
    Ok(())
}
