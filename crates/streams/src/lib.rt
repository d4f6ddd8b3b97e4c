// A reader read to its end, and bytes given to a writer. A part is never given for the whole: a call that a signal interrupts is made
// again, one on a stream that is not ready is made again after a pause, and any other failure is told, with its error.
//
// Nothing says that an input ends, or that bytes are ever taken, and a proved loop has to end. So each loop makes so many calls at most
// that no run uses them up.
#![tactic(auto)]

ghost use Rattle.std.specs.Prelude.{◌≡◌, ◌≢◌, ◌<◌, ◌↔◌, ◌⊎◌, IfErr, IfOk, IsTrue, MatchResult, length, take};
ghost use Rattle.std.specs.IoError.{error_kind};
ghost use Rattle.std.specs.Io.KnownBytes.{Appends, Consumes, IsAtEnd};
ghost use Rattle.io.specs.Counts.{IsPrefixLen};

use std::fmt::{self, Display, Formatter, InlineText};
use std::io::{self, Error, ErrorKind, Read, Write};
use std::thread;
use std::time::{Clock, Duration};

// Why not all of the bytes were written, and how many were.
#[derive(Clone, Copy, Debug)]
pub struct Unwritten {
    pub written: usize,
    pub error: Error,
}

// Reads until the input ends or the buffer is full, and counts the bytes. A reading that failed gives no count, so that nobody takes what
// it did read for an input.
pub fn read_all<R: Read>(clock: &impl Clock, reader: &mut R, buf: &mut [u8]) -> io::Result<usize>
    ensures count { IfOk result (λ n. IsPrefixLen n buf.new) }
    ensures retried { IfErr result
        (λ e. (error_kind e ≢ ErrorKind.WouldBlock) × (error_kind e ≢ ErrorKind.Interrupted)) }
    // Where the reader's bytes are known.
    ensures bytes { IfOk result (λ n. Consumes (R.remaining reader.old) (R.remaining reader.new) (take n buf.new)) }
    ensures end { IfOk result (λ n. n < length buf.new → IsAtEnd (R.remaining reader.new)) }
{
    let mut count = 0;
    for _ in 0..u64::MAX {
        if count == buf.len() {
            break;
        }
        match reader.read(&mut buf[count..]) {
            Ok(0) => return Ok(count),
            Ok(n) => count += n,
            Err(e) if is_passing(&e) => pause(clock, &e),
            Err(e) => return Err(e),
        }
    }
    if count < buf.len() {
        return Err(too_many_calls());
    }
    Ok(count)
}

// Writes all of the bytes.
pub fn write_all<W: Write>(
    clock: &impl Clock,
    writer: &mut W,
    bytes: &[u8],
) -> Result<(), Unwritten>
    ensures part { IfErr result (λ e. e.written < length bytes.now) }
    ensures retried { IfErr result
        (λ e. (error_kind e.error ≢ ErrorKind.WouldBlock) × (error_kind e.error ≢ ErrorKind.Interrupted)) }
    // Where the writer's bytes are known.
    ensures bytes { MatchResult result
        (λ _. Appends (W.contents writer.old) (W.contents writer.new) bytes.now)
        (λ e. Appends (W.contents writer.old) (W.contents writer.new) (take e.written bytes.now)) }
{
    let mut written = 0;
    for _ in 0..u64::MAX {
        if written == bytes.len() {
            break;
        }
        match writer.write(&bytes[written..]) {
            // A call that takes nothing and reports no error has failed too: the next one need not take more.
            Ok(0) => {
                let error = Error::new(ErrorKind::WriteZero, "no byte was taken");
                return Err(Unwritten { written, error });
            }
            Ok(n) => written += n,
            Err(e) if is_passing(&e) => pause(clock, &e),
            Err(error) => return Err(Unwritten { written, error }),
        }
    }
    if written < bytes.len() {
        let error = too_many_calls();
        return Err(Unwritten { written, error });
    }
    Ok(())
}

// Why a program could not make its output of its input. The programs tell it, with `Plain` for the error.
#[derive(Clone, Copy, Debug)]
pub enum Failure {
    Input(Error),
    Output(Unwritten),
}

impl From<Unwritten> for Failure {
    ghost use Rattle.streams.specs.declared.Failure.{Failure};

    ghost from_gives = { λ e f. f ≡ Failure.Output e };

    fn from(e: Unwritten) -> Failure {
        Failure::Output(e)
    }
}

// An error's text, without the system's number for it.
#[derive(Clone, Copy)]
pub struct Plain<'a>(pub &'a Error);

impl Display for Plain<'_> {
    fn fmt<W: fmt::Write>(&self, f: &mut Formatter<W>) -> fmt::Result {
        let told = InlineText::<128>::of(self.0);
        let text = told.as_str();
        match text.split_once(" (os error ") {
            Some((front, _)) => f.write_str(front),
            None => f.write_str(text),
        }
    }
}

fn too_many_calls() -> Error
    ensures { error_kind result ≡ ErrorKind.TimedOut }
{
    Error::new(ErrorKind::TimedOut, "gave up after 2^64 - 1 calls")
}

// Whether the call that has just failed is to be made again: a signal interrupted it, or the stream was not ready.
fn is_passing(error: &Error) -> bool
    ensures { IsTrue result ↔ (error_kind error.now ≡ ErrorKind.WouldBlock) ⊎ (error_kind error.now ≡ ErrorKind.Interrupted) }
{
    matches!(error.kind(), ErrorKind::WouldBlock | ErrorKind::Interrupted)
}

// A stream that was not ready is given a millisecond.
fn pause(clock: &impl Clock, error: &Error) {
    if error.kind() == ErrorKind::WouldBlock {
        thread::sleep(clock, Duration::from_millis(1));
    }
}
