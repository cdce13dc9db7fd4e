// The lines of an input that comes in blocks, each answered once and in order, in fixed memory.
#![tactic(auto)]

ghost use Rattle.std.specs.Prelude.{◌≡◌, ◌≤◌, length};
ghost use Rattle.listing.specs.Listing.{line_of};
ghost use Rattle.lines.specs.inner.Steps.{Within, PutAt, reader_of, within_run, listed_run, step_run, step_buf, step_out, finish_run, finish_out, start_run, received_run, written_run};

use listing::Form;

// Between two calls: how a line is read, and the next one's number; the bytes that wait to be listed, buf[from..end]; those
// that wait to be written, out[sent..used]; and whether lines may be left to list. Kept as they are: the theorems of `courses`
// and the program `list` read these fields, and each call is lent the buffers anew.
#[derive(Clone, Copy)]
pub struct Run {
    pub form: Form,
    pub number: u64,
    pub from: usize,
    pub end: usize,
    pub sent: usize,
    pub used: usize,
    pub more: bool,
}

// A line over 64 bytes is answered by that alone, so of an open line 65 bytes say enough.
const KEPT: usize = 65;

impl Run {
    // The same run; where its places lie past a buffer's end, that end.
    fn within(self, size: usize, room: usize) -> Run
        ensures { result ≡ within_run size room self }
    {
        let end = self.end.min(size);
        Run {
            from: self.from.min(end),
            end,
            used: self.used.min(room),
            ..self
        }
    }

    // Puts the next line's answer behind those that wait, where it has room: where the output then ends.
    #[tactic(auto, using(crate::proofs::Steps::put_fits, crate::proofs::Steps::put_full))]
    fn put_line(self, line: &[u8], out: &mut [u8]) -> Option<usize>
        requires { self.used ≤ length out.old }
        ensures { PutAt (line_of (reader_of self) self.number line.now) out.old self.used result out.new }
    {
        match listing::list_line_by(self.form, line, self.number, &mut out[self.used..]) {
            Ok(n) => Some(self.used + n),
            Err(_) => None,
        }
    }

    // Lists the lines that end in buf[from..end], as far as there is room. At the top the number stays, so that no sum wraps.
    fn list_lines(self, buf: &[u8], out: &mut [u8]) -> Run
        requires { Within buf.now out.old self }
        ensures { (result ≡ listed_run buf.now out.old self)
            × (out.new ≡ step_out buf.now out.old self)
            × Within buf.now out.new result }
    {
        let mut run = self;
        while let Some(k) = memchr::memchr(b'\n', &buf[run.from..run.end]) {
            let feed = run.from + k;
            let Some(used) = run.put_line(&buf[run.from..feed], out) else {
                return Run { more: true, ..run };
            };
            run = Run {
                number: run.number.saturating_add(1),
                from: feed + 1,
                used,
                ..run
            };
        }
        Run { more: false, ..run }
    }
}

// Lists lines of the bytes that wait, as far as the output has room. Where none is left, the open line goes to the front.
pub fn step(buf: &mut [u8], out: &mut [u8], run: Run) -> Run
    ensures { (result ≡ step_run buf.old out.old run)
        × (buf.new ≡ step_buf buf.old out.old run)
        × (out.new ≡ step_out buf.old out.old run) }
{
    let at = run.within(buf.len(), out.len());
    let listed = at.list_lines(buf, out);
    if listed.more {
        return listed;
    }
    let held = KEPT.min(listed.end - listed.from);
    buf.copy_within(listed.from..listed.from + held, 0);
    Run {
        from: 0,
        end: held,
        ..listed
    }
}

// Lists the last line, where the input did not end it: to be called when the input has ended. Where lines are left, they
// come first, and nothing is done.
pub fn finish(buf: &[u8], out: &mut [u8], run: Run) -> Run
    ensures { (result ≡ finish_run buf.now out.old run)
        × (out.new ≡ finish_out buf.now out.old run) }
{
    if run.more {
        return run;
    }
    let at = run.within(buf.len(), out.len());
    let empty = at.from == at.end;
    if empty {
        return at;
    }
    match at.put_line(&buf[at.from..at.end], out) {
        Some(used) => Run {
            number: at.number.saturating_add(1),
            from: at.end,
            used,
            ..at
        },
        None => Run { more: true, ..at },
    }
}

// Where n bytes more were read behind those that wait. Where there is none, all is as it was.
#[tactic(auto, unfolding(crate::specs::inner::Steps::received_run))]
pub fn received(buf: &[u8], run: Run, n: usize) -> Run
    ensures { result ≡ received_run (length buf.now) run n }
{
    if n == 0 {
        return run;
    }
    Run {
        end: run.end.saturating_add(n).min(buf.len()),
        more: true,
        ..run
    }
}

// Where the first n bytes of those that waited were written.
#[tactic(auto, unfolding(crate::specs::inner::Steps::written_run))]
pub fn written(run: Run, n: usize) -> Run
    ensures { result ≡ written_run run n }
{
    if n < run.used.saturating_sub(run.sent) {
        Run {
            sent: run.sent + n,
            ..run
        }
    } else {
        Run {
            sent: 0,
            used: 0,
            ..run
        }
    }
}

// Before the first block.
#[tactic(auto, unfolding(crate::specs::inner::Steps::start_run))]
pub fn start(form: Form) -> Run
    ensures { result ≡ start_run form }
{
    Run {
        form,
        number: 1,
        from: 0,
        end: 0,
        sent: 0,
        used: 0,
        more: false,
    }
}
