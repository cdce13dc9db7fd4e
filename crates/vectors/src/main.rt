// Answers questions, each a line of standard input; docs/COMPARISON.md has the form of a line.
// - A question with a recorded answer behind it, which geoconvert gave, is asked of the calls for C and Rust and compared. The
//   first lines whose answers differ are printed with ours, and counts of all at the end.
// - A question with nothing behind it is printed with our answer, a remark as it is.
// - A line that is not understood is printed and counted.
// The gate holds what is printed to the file stdout, which was made from document 01 and not from this program
// (model/examples.py).
#![tactic(auto)]

mod answers;
mod calls;
mod counts;
mod fields;
mod ground;
mod letter_sets;
mod lines;
mod others;
mod questions;
mod said;
mod texts;

use counts::Counts;
use fields::{after, head, size_of};
use lines::{Line, Lines};
use others::Other;
use questions::Question;
use std::io;
use std::io::Read;

// One byte more than the longest reference has.
const ROOM: usize = 28;

// A line that is printed with our answer. The question is the line, or the part of it behind the room that what it writes has.
fn answer(
    rt: &impl Print,
    counts: &mut Counts,
    line: &[u8],
    question: &[u8],
    room: usize,
) -> io::Result<()> {
    let word = head(question);
    let s = after(question, 1);
    if let Some(ours) = Question::of(word).and_then(|q| q.ours(s, room)) {
        rt.write_all(line)?;
        print!(rt; " ")?;
        rt.write_all(ours.as_bytes())?;
    } else if let Some(other) = Other::of(word) {
        rt.write_all(line)?;
        other.tell(rt, s, room)?;
    } else {
        return counts.not_understood(rt, line);
    }
    println!(rt; "")
}

// A question may begin with the room that what it writes has, as in `in 14 write ..`.
fn take_question(rt: &impl Print, counts: &mut Counts, line: &[u8]) -> io::Result<()> {
    let word = head(line);
    if word == b"in".as_slice() {
        let room = size_of(head(after(line, 1))) as usize;
        return answer(rt, counts, line, after(line, 2), room);
    }
    let s = after(line, 1);
    match Question::of(word) {
        Some(question) if !question.recorded(s).is_empty() => match question.ours(s, ROOM) {
            Some(ours) => counts.compared(rt, line, question, ours, question.recorded(s)),
            None => counts.not_understood(rt, line),
        },
        _ => answer(rt, counts, line, line, ROOM),
    }
}

// A line too long to be kept is not understood, whatever stands in front.
fn take_line(rt: &impl Print, counts: &mut Counts, line: &Line) -> io::Result<()> {
    let kept = line.kept();
    if !line.is_whole() {
        return counts.not_understood(rt, kept);
    }
    if kept.first() == Some(&b'#') {
        rt.write_all(kept)?;
        return println!(rt; "");
    }
    take_question(rt, counts, kept)
}

// A proved loop has to end, and nothing says that the input does: it has more turns than any run uses up.
fn take_all<R: Read + Drop>(rt: &impl Print, lines: &mut Lines<R>) -> io::Result<Counts> {
    let mut counts = Counts::default();
    for _ in 0..u64::MAX {
        let Some(line) = lines.next()? else {
            break;
        };
        counts.next_line();
        take_line(rt, &mut counts, &line)?;
    }
    Ok(counts)
}

fn main(rt: HostRuntime) -> io::Result<()> {
    let mut lines = Lines::new(rt.stdin());
    let counts = take_all(&rt, &mut lines)?;
    counts.tell(&rt)
}
