// What a program reads and prints. A read that fails is told from the end of the input, and output that could not be written is said on standard error.
//
// No contract can speak of bytes that come from outside or go there. Those here say that what was read lies within the buffer that was lent.
#![tactic(auto)]

ghost use Rattle.std.specs.Prelude.{◌≡◌, ◌↔◌, ◌<◌, length, take, IfOk, IfErr, IsOk, OnOk};
ghost use Rattle.std.specs.Io.KnownBytes.{Appends, Consumes, IsAtEnd};
ghost use Rattle.std.specs.Process.{exit_status};
ghost use Rattle.files.specs.Status.{status_of, IsUnprinted};
ghost use Rattle.files.specs.Within.{IsPrefixLen, Within};

use std::env::{Env, FillError};
use std::fmt::InlineText;
use std::fs::File;
use std::io::{Error, ErrorKind, Read, Write};
use std::process::ExitCode;
use std::str::from_utf8;
use std::{fs, io};

// An input that signals interrupt more often than this counts as one that failed.
const MOST_INTERRUPTIONS: usize = 1000;

// Why a program stops before all is printed. What it was has been said on standard error.
#[derive(Clone, Copy)]
pub enum Stop {
    // An input could not be read, and the line that is the answer was printed.
    Refused,
    // Not all output was taken.
    Lost,
    // Output went where nobody reads any more.
    Unread,
}

// The status that a shell gives of a program which was ended by the signal for output that nobody reads.
const UNREAD: u8 = 141;

// The status that a program ends with.
pub fn status(end: Result<(), Stop>) -> ExitCode
    ensures { exit_status result ≡ status_of end }
{
    match end {
        Err(Stop::Unread) => ExitCode::from(UNREAD),
        _ => ExitCode::SUCCESS,
    }
}

// Writes all of a text, unless a write fails. Not std's `write_all`: that one goes on where a signal interrupts, and has other words for a writer that takes nothing.
fn write_whole<W: Write>(writer: &mut W, text: &[u8]) -> io::Result<()>
    ensures { OnOk result (Appends (W.contents writer.old) (W.contents writer.new) text.now) }
{
    let mut rest = text;
    while !rest.is_empty() {
        let taken = writer.write(rest)?;
        if taken == 0 {
            return Err(Error::from(ErrorKind::WriteZero));
        }
        rest = &rest[taken..];
    }
    Ok(())
}

// What writing to standard output came to. Where it failed, the reason is written to standard error.
fn told(rt: &HostRuntime, written: io::Result<()>) -> Result<(), Stop>
    ensures whole { IsOk result ↔ IsOk written }
    ensures printed { IfErr result IsUnprinted }
{
    match written {
        Ok(()) => Ok(()),
        Err(error) => {
            say(rt, b"standard output", error);
            if error.kind() == ErrorKind::BrokenPipe {
                return Err(Stop::Unread);
            }
            Err(Stop::Lost)
        }
    }
}

// Writes a text to standard output. Where not all of it was taken, the reason is written to standard error.
pub fn print(rt: &HostRuntime, text: &[u8]) -> Result<(), Stop>
    ensures { IfErr result IsUnprinted }
{
    let written = write_whole(&mut rt.stdout(), text);
    told(rt, written)
}

// Writes a text to standard error.
pub fn warn(rt: &HostRuntime, text: &[u8]) {
    let _ = write_whole(&mut rt.stderr(), text);
}

// A line on standard error: what failed, and why, in the system's words.
fn say(rt: &HostRuntime, name: &[u8], error: Error) {
    let reason = InlineText::<80>::of(error);
    warn(rt, name);
    warn(rt, b": ");
    warn(rt, words(reason.as_str()).as_bytes());
    warn(rt, b"\n");
}

// What an error says, without the system's number for it, which std puts behind the words.
fn words(reason: &str) -> &str {
    match reason.split_once(" (os error ") {
        Some((words, _)) => words,
        None => reason,
    }
}

// What failed and why, on standard error, and the line that is the answer.
fn refuse(rt: &HostRuntime, name: &[u8], line: &[u8], error: Error) -> Stop {
    say(rt, name, error);
    match print(rt, line) {
        Ok(()) => Stop::Refused,
        Err(stop) => stop,
    }
}

// Fills the buffer as far as the input goes. A read that a signal interrupts is tried again.
fn fill<R: Read>(reader: &mut R, buf: &mut [u8]) -> io::Result<usize>
    ensures within { IfOk result (λ n. IsPrefixLen n buf.new) }
    ensures bytes { IfOk result (λ n. Consumes (R.remaining reader.old) (R.remaining reader.new) (take n buf.new)) }
    ensures end { IfOk result (λ n. n < length buf.new → IsAtEnd (R.remaining reader.new)) }
{
    let mut done: usize = 0;
    let mut left: usize = MOST_INTERRUPTIONS;
    while done < buf.len() {
        match reader.read(&mut buf[done..]) {
            Ok(0) => return Ok(done),
            Ok(more) => done += more,
            Err(error) => {
                if error.kind() != ErrorKind::Interrupted {
                    return Err(error);
                }
                if left == 0 {
                    return Err(error);
                }
                left -= 1;
            }
        }
    }
    Ok(done)
}

// How many bytes were read, fewer than fill the buffer only where the input ended. Where a read fails, the line is printed.
fn read_from<R: Read>(
    rt: &HostRuntime,
    reader: &mut R,
    name: &[u8],
    line: &[u8],
    buf: &mut [u8],
) -> Result<usize, Stop>
    ensures { Within result buf.new }
{
    match fill(reader, buf) {
        Ok(n) => Ok(n),
        Err(error) => Err(refuse(rt, name, line, error)),
    }
}

// Reads standard input. Where a read fails, `refused file` is printed.
pub fn read_input(rt: &HostRuntime, buf: &mut [u8]) -> Result<usize, Stop>
    ensures { Within result buf.new }
{
    let mut stdin = rt.stdin();
    read_from(rt, &mut stdin, b"standard input", b"refused file\n", buf)
}

// Reads standard input for a program whose output is no text of answers: where a read fails, `refused file` goes to standard error.
pub fn read_source(rt: &HostRuntime, buf: &mut [u8]) -> Result<usize, Stop>
    ensures { Within result buf.new }
{
    let mut stdin = rt.stdin();
    let read = read_from(rt, &mut stdin, b"standard input", b"", buf);
    if read.is_err() {
        warn(rt, b"refused file\n");
    }
    read
}

// Whether the program was started with so many arguments, its own name among them.
pub fn argument_count_is(rt: &HostRuntime, count: usize) -> bool {
    if count == 0 {
        return !has_argument(rt, 0);
    }
    has_argument(rt, count - 1) && !has_argument(rt, count)
}

fn has_argument(rt: &HostRuntime, i: usize) -> bool {
    match rt.arg(i, &mut []) {
        Err(FillError::NotPresent) => false,
        _ => true,
    }
}

// Opens a file for reading. A name that is no text cannot be looked up.
fn open(rt: &HostRuntime, name: &[u8]) -> io::Result<File> {
    match from_utf8(name) {
        Ok(path) => fs::open(rt, path),
        Err(_) => Err(Error::from(ErrorKind::InvalidFilename)),
    }
}

// Reads the file that argument i names. Where it cannot be opened or a read fails, the line is printed.
pub fn read_argument(rt: &HostRuntime, i: usize, line: &[u8], buf: &mut [u8]) -> Result<usize, Stop>
    ensures { Within result buf.new }
{
    let mut room = [0u8; 4096];
    let length = match rt.arg(i, &mut room) {
        Ok(length) => length,
        Err(FillError::TooLong) => {
            return Err(refuse(rt, b"argument", line, Error::from_raw_os_error(36)));
        }
        Err(FillError::NotPresent) => {
            return Err(refuse(rt, b"argument", line, Error::from_raw_os_error(22)));
        }
    };
    let name = &room[..length];
    match open(rt, name) {
        Ok(mut file) => read_from(rt, &mut file, name, line, buf),
        Err(error) => Err(refuse(rt, name, line, error)),
    }
}
