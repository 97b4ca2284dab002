// Reads the frames of a captured stream from standard input, one after another, and prints what each carries.
#![tactic(auto)]

ghost use Rattle.std.specs.Prelude.{◌≤◌, length};

use files::Stop;
use std::process::ExitCode;
use wire_frames::{Frame, Refusal};

// A head, and the longest message that a frame may hold.
const ROOM: usize = wire_frames::HEAD + wire_text::LONGEST;

// Of a frame that holds more.
const TOO_LONG: u8 = 8;

// Reads a frame into the buffer, its head first. None at the end of the input.
fn read_next(rt: &HostRuntime, space: &mut [u8]) -> Result<Option<Result<Frame, Refusal>>, Stop>
    requires { 5 ≤ length space.old }
{
    let head = wire_frames::HEAD;
    let n = files::read_input(rt, &mut space[..head])?;
    if n == 0 {
        return Ok(None);
    }
    let held = wire_frames::held_length(&space[..n]);
    if space.len() - head < held {
        return Ok(Some(Err(Refusal::Reader(TOO_LONG))));
    }
    let end = head + held;
    let more = files::read_input(rt, &mut space[head..end])?;
    Ok(Some(wire_frames::read_frame(&space[..n + more])))
}

// Prints the text of a frame.
fn print_frame(
    rt: &HostRuntime,
    number: u64,
    offset: u64,
    frame: Result<Frame, Refusal>,
) -> Result<(), Stop> {
    let mut text = [0u8; wire_frames_text::LONGEST_TEXT];
    let length = wire_frames_text::shown(number, offset, frame, &mut text);
    files::print(rt, &text[..length])
}

fn print_end(rt: &HostRuntime, number: u64) -> Result<(), Stop> {
    let mut text = [0u8; wire_frames_text::LONGEST_TEXT];
    let length = wire_frames_text::ended(number, &mut text);
    files::print(rt, &text[..length])
}

fn run(rt: &HostRuntime) -> Result<(), Stop> {
    let mut room = [0u8; ROOM];
    let space: &mut [u8] = &mut room;
    let mut offset: u64 = 0;
    for before in 0..u64::MAX {
        let Some(frame) = read_next(rt, space)? else {
            return print_end(rt, before);
        };
        print_frame(rt, before + 1, offset, frame)?;
        let Ok(frame) = frame else {
            break;
        };
        offset = offset.wrapping_add(frame.size as u64);
    }
    Ok(())
}

fn main(rt: HostRuntime) -> ExitCode {
    files::status(run(&rt))
}
