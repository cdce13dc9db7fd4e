// One answer for each line of standard input, lines of any length, in fixed memory. All that is done to the bytes is done by
// `lines`; here they are only read, in `fill`, and written, in `send`.
// Kept: the buffers and the run go from call to call as arguments. As the fields of a struct they would be no plainer: each clause
// would have to say which of them stay, and no invariant holds in `send`, which serves a run's course and its ending alike.
#![tactic(auto)]

ghost use Rattle.std.specs.Prelude.{◌≡◌, ◌≢◌, ◌<◌, ◌≤◌, false, length, is_ok, if◌then◌else◌, IfOk, OnOk, IsOkUnless, Err};
ghost use Rattle.std.specs.Process.{exit_status};
ghost use Rattle.listing.specs.declared.Form.TheVariants.{Plain};
ghost use Rattle.lines.specs.inner.Steps.{start_run};
ghost use Rattle.courses.specs.declared.Failure.TheVariants.{Unwritten};
ghost use Rattle.courses.specs.inner.Programs.{Reached, Stops, ReadsNoMore, Delivered, Sent, Waits};

use courses::Failure;
use lines::Run;
use listing::Form;
use std::io;
use std::io::{ErrorKind, Read, Write};
use std::process::ExitCode;

// Whether more may come after a read that answered `got`. One that a signal interrupted brought nothing, and is no end.
fn after_read(rt: &impl Eprint, got: &io::Result<usize>) -> Result<bool, Failure>
    ensures { ReadsNoMore result → IfOk got.now (λ n. n ≡ 0) }
{
    match got {
        Ok(0) => Ok(false),
        Ok(_) => Ok(true),
        Err(e) if e.kind() == ErrorKind::Interrupted => Ok(true),
        Err(e) => {
            let _ = eprintln!(rt; "read: {e}");
            Err(Failure::Unread)
        }
    }
}

// One read, behind the bytes that wait; whether more may come. There is room, so that an empty read means the end.
fn fill<R: Read>(
    rt: &impl Eprint,
    input: &mut R,
    buf: &mut [u8],
    run: &mut Run,
) -> Result<bool, Failure>
    requires { run.old.end < length buf.old }
    ensures delivered { Delivered buf.old buf.new run.old run.new }
    ensures last { ReadsNoMore result → run.new.more ≡ run.old.more }
{
    let at = run.end;
    let got = input.read(&mut buf[at..]);
    let more = after_read(rt, &got);
    let n = got.unwrap_or(0);
    *run = lines::received(buf, *run, n);
    more
}

// After a write of some bytes that answered `got`. One that a signal interrupted took none, and the next may take them.
fn after_write(rt: &impl Eprint, got: &io::Result<usize>) -> Result<(), Failure>
    ensures { IsOkUnless result Unwritten }
{
    match got {
        Ok(0) => {
            let _ = eprintln!(rt; "write: nothing was taken");
            Err(Failure::Unwritten)
        }
        Ok(_) => Ok(()),
        Err(e) if e.kind() == ErrorKind::Interrupted => Ok(()),
        Err(e) => {
            let _ = eprintln!(rt; "write: {e}");
            Err(Failure::Unwritten)
        }
    }
}

// One write, of the bytes that wait.
#[tactic(auto, using(courses::proofs::Programs::written_sent))]
fn send<W: Write>(
    rt: &impl Eprint,
    output: &mut W,
    out: &[u8],
    run: &mut Run,
) -> Result<(), Failure>
    requires { Waits out.now run.old }
    ensures sent { Sent run.old run.new }
    ensures waits { Waits out.now run.new }
    ensures err { IsOkUnless result Unwritten }
{
    let from = run.sent;
    let to = run.used;
    let got = output.write(&out[from..to]);
    let told = after_write(rt, &got);
    let n = got.unwrap_or(0);
    *run = lines::written(*run, n);
    told
}

// Writes all that waits, in as many pieces as the system takes. A proved loop has to end, and nothing says that the writes
// do: this one and that of `read_all` have more turns than any run uses up.
#[tactic(auto, using(courses::proofs::Programs::sent_on, courses::specs::inner::Programs::none))]
fn send_all<W: Write>(
    rt: &impl Eprint,
    output: &mut W,
    out: &[u8],
    run: &mut Run,
) -> Result<(), Failure>
    requires { Waits out.now run.old }
    ensures sent { Sent run.old run.new }
    ensures waits { Waits out.now run.new }
    ensures err { IsOkUnless result Unwritten }
    ensures ok { OnOk result (run.new.used ≡ 0) }
{
    for _ in 0..u64::MAX {
        if run.used == 0 {
            return Ok(());
        }
        send(rt, output, out, run)?;
    }
    Err(Failure::Unwritten)
}

// Lists what waits. Where the output is full, it is written.
#[tactic(auto, using(courses::proofs::Programs::stepped_reached))]
fn list<W: Write>(
    rt: &impl Eprint,
    output: &mut W,
    buf: &mut [u8],
    out: &mut [u8],
    run: &mut Run,
) -> Result<(), Failure>
    requires { Reached buf.old out.old run.old }
    ensures reached { Reached buf.new out.new run.new }
    ensures err { IsOkUnless result Unwritten }
{
    *run = lines::step(buf, out, *run);
    if run.more {
        return send_all(rt, output, out, run);
    }
    Ok(())
}

// Lists the lines that are left; where none is, one read. Whether more may come.
#[tactic(auto, using(courses::proofs::Programs::delivered_reached))]
fn turn<R: Read, W: Write>(
    rt: &impl Eprint,
    input: &mut R,
    output: &mut W,
    buf: &mut [u8],
    out: &mut [u8],
    run: &mut Run,
) -> Result<bool, Failure>
    requires in_bounds { 65 < length buf.old }
    requires reached { Reached buf.old out.old run.old }
    ensures reached { Reached buf.new out.new run.new }
    ensures last { ReadsNoMore result → run.new.more ≡ false }
{
    if run.more {
        list(rt, output, buf, out, run)?;
        return Ok(true);
    }
    fill(rt, input, buf, run)
}

// All turns, until the input ends or a read or a write fails.
fn read_all<R: Read, W: Write>(
    rt: &impl Eprint,
    input: &mut R,
    output: &mut W,
    buf: &mut [u8],
    out: &mut [u8],
    run: &mut Run,
) -> Result<(), Failure>
    requires in_bounds { 65 < length buf.old }
    requires reached { Reached buf.old out.old run.old }
    ensures reached { Reached buf.new out.new run.new }
    ensures last { result ≢ Err Unwritten → run.new.more ≡ false }
{
    for _ in 0..u64::MAX {
        if !turn(rt, input, output, buf, out, run)? {
            return Ok(());
        }
    }
    Err(Failure::Unwritten)
}

// After the end of the input: what waits, and the last line where there is one.
#[tactic(auto, using(courses::proofs::Programs::stops_unwritten))]
fn close<W: Write>(
    rt: &impl Eprint,
    output: &mut W,
    buf: &[u8],
    out: &mut [u8],
    run: &mut Run,
) -> Result<(), Failure>
    requires in_bounds { (128 ≤ length out.old) × (run.old.more ≡ false) }
    requires reached { Reached buf.now out.old run.old }
    ensures { Stops buf.now out.new run.new result }
{
    send_all(rt, output, out, run)?;
    *run = lines::finish(buf, out, *run);
    send_all(rt, output, out, run)
}

// The whole run. Where a read failed, what is answered is written all the same; where a write failed, nothing more is.
#[tactic(auto, using(courses::proofs::Programs::stops_unwritten, courses::proofs::Programs::waits))]
fn list_all<R: Read, W: Write>(
    rt: &impl Eprint,
    input: &mut R,
    output: &mut W,
    buf: &mut [u8],
    out: &mut [u8],
    run: &mut Run,
) -> Result<(), Failure>
    requires in_bounds { (65 < length buf.old) × (128 ≤ length out.old) }
    requires started { run.old ≡ start_run Plain }
    ensures { Stops buf.new out.new run.new result }
{
    match read_all(rt, input, output, buf, out, run) {
        Ok(()) => close(rt, output, buf, out, run),
        Err(Failure::Unread) => {
            send_all(rt, output, out, run)?;
            Err(Failure::Unread)
        }
        Err(Failure::Unwritten) => Err(Failure::Unwritten),
    }
}

// Only a run that came to the input's end has succeeded.
fn status_of(end: Result<(), Failure>) -> ExitCode
    ensures { exit_status result ≡ (if is_ok end then 0 else 1) }
{
    match end {
        Ok(()) => ExitCode::SUCCESS,
        Err(_) => ExitCode::FAILURE,
    }
}

fn main(rt: HostRuntime) -> ExitCode {
    let mut input = rt.stdin();
    let mut output = rt.stdout();
    let mut read = [0u8; 65_536];
    let mut written = [0u8; 65_536];
    let mut run = lines::start(Form::Plain);
    status_of(list_all(
        &rt,
        &mut input,
        &mut output,
        &mut read,
        &mut written,
        &mut run,
    ))
}
