// Compares the two event lists that its arguments name: whether they are merges of the same logs that cannot differ in the writes accepted, and what running both gives.
#![tactic(auto)]

use files::Stop;
use std::process::ExitCode;

fn run(rt: &HostRuntime) -> Result<(), Stop> {
    if !files::argument_count_is(rt, 3) {
        return files::print(rt, b"usage: compare FIRST SECOND\n");
    }
    // One byte more than the longest list, so that a longer one is seen.
    let mut first = [0u8; run_lists::LONGEST + 1];
    let n = files::read_argument(rt, 1, b"refused first file\n", &mut first)?;
    let mut second = [0u8; run_lists::LONGEST + 1];
    let m = files::read_argument(rt, 2, b"refused second file\n", &mut second)?;
    let mut text = [0u8; merge_text::LONGEST_REPORT];
    let length = merge_text::report(&first[..n], &second[..m], &mut text);
    files::print(rt, &text[..length])
}

fn main(rt: HostRuntime) -> ExitCode {
    files::status(run(&rt))
}
