// What is counted, and the lines that are told: those whose answers differ, and those that are not understood.
use crate::questions::Question;
use crate::said::Said;
use std::io;

// So many of the lines that are not equal are printed.
const MOST_TOLD: u64 = 50;

// Lines of one question that were compared, and those of them that differ.
#[derive(Clone, Copy, Default)]
struct Compared {
    lines: u64,
    differ: u64,
}

// By question, in the order of `Question::ALL`; then lines that are not understood, all lines that were compared or not understood, those
// of them that are not equal, and every line of the input, by which a line is told. A remark, or a question that is only printed, is in
// the last alone. No run counts so far that one comes round to 0.
#[derive(Clone, Copy, Default)]
pub(crate) struct Counts {
    compared: [Compared; 7],
    not_understood: u64,
    lines: u64,
    unequal: u64,
    place: u64,
}

impl Counts {
    pub(crate) fn next_line(&mut self) {
        self.place = self.place.wrapping_add(1);
    }

    // The line as far as it was kept, and our answer where there is one.
    fn tell_line(&self, rt: &impl Print, line: &[u8], ours: Option<Said>) -> io::Result<()> {
        let place = self.place;
        print!(rt; "line {place}: ")?;
        rt.write_all(line)?;
        if let Some(said) = ours {
            print!(rt; "\n  here: ")?;
            rt.write_all(said.as_bytes())?;
        }
        println!(rt; "")
    }

    fn unequal(&mut self, rt: &impl Print, line: &[u8], ours: Option<Said>) -> io::Result<()> {
        self.unequal = self.unequal.wrapping_add(1);
        if self.unequal <= MOST_TOLD {
            self.tell_line(rt, line, ours)?;
        }
        Ok(())
    }

    // Such a line is never taken for equal.
    pub(crate) fn not_understood(&mut self, rt: &impl Print, line: &[u8]) -> io::Result<()> {
        self.lines = self.lines.wrapping_add(1);
        self.not_understood = self.not_understood.wrapping_add(1);
        self.unequal(rt, line, None)
    }

    // Our answer against the recorded one.
    pub(crate) fn compared(
        &mut self,
        rt: &impl Print,
        line: &[u8],
        question: Question,
        ours: Said,
        recorded: &[u8],
    ) -> io::Result<()> {
        let differs = ours.as_bytes() != recorded;
        self.lines = self.lines.wrapping_add(1);
        if let Some(count) = self.compared.get_mut(question as usize) {
            count.lines = count.lines.wrapping_add(1);
            count.differ = count.differ.wrapping_add(u64::from(differs));
        }
        if differs {
            self.unequal(rt, line, Some(ours))?;
        }
        Ok(())
    }

    pub(crate) fn tell(&self, rt: &impl Print) -> io::Result<()> {
        for (question, count) in Question::ALL.iter().zip(self.compared.iter()) {
            let word = question.word();
            let lines = count.lines;
            let differ = count.differ;
            println!(rt; "{word} {lines}, differ {differ}")?;
        }
        let lines = self.lines;
        let not_understood = self.not_understood;
        println!(rt; "lines {lines}, not understood {not_understood}")
    }
}
