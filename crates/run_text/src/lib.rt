// What running a list prints, as one text. The text is made whole in one buffer, so that a contract states every byte of it: of bytes that are written
// to a file part by part no contract can speak.
#![tactic(auto)]

ghost use Rattle.std.specs.Prelude.{◌≤◌, length};
ghost use Rattle.any_text.specs.Put.{Put};
ghost use Rattle.run_text.specs.Transcript.{transcript};

use run_lists::EventList;

// Room for the longest text: 32,762 lines of 18 bytes, one of 12 and 1,024 of 10.
pub const LONGEST_TEXT: usize = 600000;

// Runs a list from a fresh state and puts what the program prints at the front of the buffer. Returns how many bytes that is.
pub fn transcript(list: &[u8], buf: &mut [u8; LONGEST_TEXT]) -> usize
    ensures { Put buf.old 0 (transcript list.now) buf.new result × (result ≤ length buf.new) }
{
    match EventList::read(list) {
        Ok(events) => {
            let mut out = [0u8; run::LONGEST_OUT];
            let returned = run::run(list, &mut out);
            run_lines::put_run(buf, events, &out, returned - run::NO_WRITES)
        }
        Err(refusal) => any_text::put_refused_line(buf, 0, refusal as u32),
    }
}
