// What a host that takes numbers and bytes is told of a frame of a capture.
#![tactic(auto)]

ghost use Rattle.std.specs.Prelude.{◌≡◌};
ghost use Rattle.wire_frames_bytes.specs.Reply.{frame_reply};
ghost use Rattle.wire_frames_bytes.specs.Replies.{ReadFrom};

use wire_frames::{Frame, Refusal};

// The fields, and the offset behind the frame.
pub const TOLD_BYTES: usize = 48;

// What a frame that was read returns: this number plus the alternative.
const CARRYING: u32 = 256;

const OUT_TOO_SHORT: u32 = 12;

// The frame at an offset of a capture. Behind the end there is none: it is cut short.
fn read_from(capture: &[u8], at: usize) -> Result<Frame, Refusal>
    ensures { ReadFrom capture.now at result }
{
    match capture.get(at..) {
        Some(rest) => wire_frames::read_frame(rest),
        None => Err(Refusal::CutShort),
    }
}

// Reads the frame at an offset of a capture and puts the fields of its arbitration message and the next offset at the front of the buffer; bytes after them
// stay. Returns 256 plus the alternative, or why not: then the buffer stays as it was. One number, since C gets it and the clause names it.
pub fn frame_into(capture: &[u8], at: usize, out: &mut [u8]) -> u32
    ensures { (result ≡ (frame_reply capture.now at out.old).returned)
        × (out.new ≡ (frame_reply capture.now at out.old).out) }
{
    match read_from(capture, at) {
        Err(refusal) => refusal.number() as u32,
        Ok(_) if out.len() < TOLD_BYTES => OUT_TOO_SHORT,
        Ok(frame) => {
            let next = at + frame.size;
            let behind = wire_bytes::put_fields(out, frame.carried.fields());
            wire_bytes::put_little(out, behind, 8, next as u64);
            CARRYING + frame.carried.kind() as u32
        }
    }
}
