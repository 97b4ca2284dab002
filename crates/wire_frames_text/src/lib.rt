// What the program `captured` prints for a frame, as one text.
#![tactic(auto)]

ghost use Rattle.std.specs.Prelude.{◌+◌, ◌≤◌, ◌++◌, length};
ghost use Rattle.any_text.specs.Put.{Put};
ghost use Rattle.wire_text.specs.Printout.{field_lines};
ghost use Rattle.wire_frames_text.specs.Shown.{arbitration_word, carried_text, frame_text, end_text};

use wire_arbitration::Raw;
use wire_frames::{Carried, Frame, Refusal};

// Room for a number, the word `arbitration` and the fields.
pub const LONGEST_TEXT: usize = 240;

fn put_arbitration(buf: &mut [u8], at: usize, fields: Raw) -> usize
    requires { at + 220 ≤ length buf.old }
    ensures { Put buf.old at (arbitration_word ++ field_lines fields) buf.new result × (result ≤ at + 220) }
{
    let next = any_text::put_word(buf, at, b" arbitration\n");
    wire_text::put_fields(buf, next, fields)
}

fn put_carried(buf: &mut [u8], at: usize, carried: Carried) -> usize
    requires { at + 220 ≤ length buf.old }
    ensures { Put buf.old at (carried_text carried) buf.new result × (result ≤ at + 220) }
{
    match carried {
        Carried::Nothing => any_text::put_word(buf, at, b" nothing\n"),
        Carried::Arbitration(fields) => put_arbitration(buf, at, fields),
        Carried::Other(2) => any_text::put_word(buf, at, b" packet\n"),
        Carried::Other(number) => any_text::put_line(buf, at, b" field", &[number as u64]),
    }
}

// Puts the text of a frame at the front of the buffer. Returns how many bytes that is.
pub fn shown(
    number: u64,
    offset: u64,
    frame: Result<Frame, Refusal>,
    buf: &mut [u8; LONGEST_TEXT],
) -> usize
    ensures { Put buf.old 0 (frame_text number offset frame) buf.new result × (result ≤ length buf.new) }
{
    match frame {
        Ok(frame) => {
            let next = any_text::put_wide(buf, 0, number);
            put_carried(buf, next, frame.carried)
        }
        Err(refusal) => any_text::put_line(
            buf,
            0,
            b"refused frame",
            &[number, offset, refusal.number() as u64],
        ),
    }
}

// Puts how many frames were read.
pub fn ended(number: u64, buf: &mut [u8; LONGEST_TEXT]) -> usize
    ensures { Put buf.old 0 (end_text number) buf.new result × (result ≤ length buf.new) }
{
    any_text::put_line(buf, 0, b"frames", &[number])
}
