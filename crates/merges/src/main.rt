// Reads the merged log that its argument names, and prints whether every merge that the clocks allow accepts the same writes, or which pairs of records are in doubt.
#![tactic(auto)]

use files::Stop;
use std::process::ExitCode;

// A log of more bytes than this may take a while.
const LONG: usize = 65536;

// One byte more than the longest log, so that a longer one is seen.
fn room() -> [u8; log_read::LONGEST + 1] {
    [0u8; log_read::LONGEST + 1]
}

fn run(rt: &HostRuntime) -> Result<(), Stop> {
    if !files::argument_count_is(rt, 2) {
        return files::print(rt, b"usage: merges FILE\n");
    }
    let mut log = room();
    let n = files::read_argument(rt, 1, b"refused file\n", &mut log)?;
    if LONG < n {
        files::warn(rt, b"merges: comparing the records\n");
    }
    let mut text = [0u8; log_text::LONGEST_ANSWER];
    let length = log_text::answer(&log[..n], &mut text);
    files::print(rt, &text[..length])
}

fn main(rt: HostRuntime) -> ExitCode {
    files::status(run(&rt))
}
