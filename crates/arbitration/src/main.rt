// Reads the bytes of one arbitration message from standard input, and prints its fields.
#![tactic(auto)]

use files::Stop;
use std::process::ExitCode;

fn run(rt: &HostRuntime) -> Result<(), Stop> {
    // One byte more than the longest message, so that a longer one is seen.
    let mut message = [0u8; wire_text::LONGEST + 1];
    let n = files::read_input(rt, &mut message)?;
    let mut text = [0u8; wire_text::LONGEST_TEXT];
    let length = wire_text::printout(&message[..n], &mut text);
    let printed = files::print(rt, &text[..length]);
    if let Err(Stop::Unread) = printed {
        return printed;
    }
    if wire_frames::looks_streamed(&message[..n]) {
        files::warn(
            rt,
            b"arbitration: this looks like a stream message; captured reads those\n",
        );
    }
    printed
}

fn main(rt: HostRuntime) -> ExitCode {
    files::status(run(&rt))
}
