// Reads the frames of a captured gRPC stream, and the stream message of p4runtime.proto, release 1.0.0, in each.
#![tactic(auto)]

ghost use Rattle.std.specs.Prelude.{◌≡◌};
ghost use Rattle.wire_fields.specs.Fields.{bytes};
ghost use Rattle.wire_fields.specs.Places.{Within, field_of};
ghost use Rattle.wire_frames.specs.Stream.{carried};
ghost use Rattle.wire_frames.specs.Frames.{refusal_number, kind_of, fields_of, held_length, message_of, frame_at, is_frame, is_arbitration, says_nothing, looks_streamed};
ghost use Rattle.wire_frames.specs.Streaming.{Takes};
ghost use Rattle.wire_frames.specs.declared.Refusal.TheVariants.{Message};

use wire_arbitration::Raw;
use wire_fields::{Fault, Field, Held};

// Why a frame is refused.
#[derive(Clone, Copy, PartialEq, Eq)]
pub enum Refusal {
    // The bytes end before the frame does.
    CutShort,
    // The frame's flag is not 0.
    Compressed,
    // What it holds cannot be read.
    Message(Fault),
    // By a program that reads frames, for a reason of its own. It has a number and no name here, since `wire_frames_text::shown` takes any.
    Reader(u8),
}

impl Refusal {
    // What programs print, and hosts are told.
    pub fn number(self) -> u8
        ensures { result ≡ refusal_number self }
    {
        match self {
            Refusal::CutShort => 21,
            Refusal::Compressed => 22,
            Refusal::Message(fault) => fault.number(),
            Refusal::Reader(number) => number,
        }
    }
}

impl From<Fault> for Refusal {
    ghost from_gives = { λ fault refusal. refusal ≡ Message fault };

    fn from(fault: Fault) -> Refusal {
        Refusal::Message(fault)
    }
}

// A flag, and a length of four bytes.
pub const HEAD: usize = 5;

// What a message carries: nothing, an arbitration message, or the alternative of another field, by its number.
#[derive(Clone, Copy)]
pub enum Carried {
    Nothing,
    Arbitration(Raw),
    // By its number, since its name depends on the direction of the stream, which the bytes do not say.
    Other(u8),
}

impl Carried {
    // The number of the alternative's field, 0 if there is none.
    pub fn kind(self) -> u8
        ensures { result ≡ kind_of self }
    {
        match self {
            Carried::Nothing => 0,
            Carried::Arbitration(_) => 1,
            Carried::Other(number) => number,
        }
    }

    // The fields of the arbitration message; without one those that no bytes give.
    pub fn fields(self) -> Raw
        ensures { result ≡ fields_of self }
    {
        match self {
            Carried::Arbitration(fields) => fields,
            _ => wire_arbitration::NOTHING,
        }
    }
}

// A frame: its bytes with its head, and what it carries.
#[derive(Clone, Copy)]
pub struct Frame {
    pub size: usize,
    pub carried: Carried,
}

// What a field that holds bytes makes of what was known.
fn take_alternative(held: &[u8], number: u64, known: Carried) -> Result<Carried, Fault>
    ensures { Takes (bytes number held.now) known result }
{
    match number {
        1 => {
            let fields = wire_arbitration::read_onto(held, known.fields())?;
            Ok(Carried::Arbitration(fields))
        }
        2..=5 => Ok(Carried::Other(number as u8)),
        _ => Ok(known),
    }
}

// What the field at a place makes of what was known.
fn take(message: &[u8], field: Field, known: Carried) -> Result<Carried, Fault>
    requires { Within message.now field }
    ensures { Takes (field_of message.now field) known result }
{
    match field.held {
        Held::Varint(_) | Held::Fixed => Ok(known),
        Held::Bytes(start) => {
            let end = field.next;
            take_alternative(&message[start..end], field.number, known)
        }
    }
}

// A stream message.
pub fn read_message(message: &[u8]) -> Result<Carried, Fault>
    ensures { result ≡ message_of (carried message.now) }
{
    let mut known = Carried::Nothing;
    let mut at = 0;
    // No `for`: a field says itself where the next one begins.
    while at < message.len() {
        let field = wire_fields::read_field(message, at)?;
        known = take(message, field, known)?;
        at = field.next;
    }
    Ok(known)
}

// How many bytes the frame holds that begins with these: what its head says, or 0 where the head is not whole or says that they are compressed.
pub fn held_length(bytes: &[u8]) -> usize
    ensures { result ≡ held_length bytes.now }
{
    match bytes {
        [0, a, b, c, d, ..] => u32::from_be_bytes([*a, *b, *c, *d]) as usize,
        _ => 0,
    }
}

// The frame at the front of bytes.
pub fn read_frame(bytes: &[u8]) -> Result<Frame, Refusal>
    ensures { result ≡ frame_at bytes.now }
{
    if bytes.is_empty() {
        return Err(Refusal::CutShort);
    }
    if bytes[0] != 0 {
        return Err(Refusal::Compressed);
    }
    if bytes.len() < HEAD {
        return Err(Refusal::CutShort);
    }
    let held = held_length(bytes);
    if bytes.len() - HEAD < held {
        return Err(Refusal::CutShort);
    }
    let size = HEAD + held;
    let carried = read_message(&bytes[HEAD..size])?;
    Ok(Frame { size, carried })
}

// Neither cut short nor compressed.
fn is_frame(read: Result<Frame, Refusal>) -> bool
    ensures { result ≡ is_frame read }
{
    matches!(read, Ok(_) | Err(Refusal::Message(_)))
}

fn is_arbitration(read: Result<Carried, Fault>) -> bool
    ensures { result ≡ is_arbitration read }
{
    matches!(read, Ok(Carried::Arbitration(_)))
}

// Beside a fault nothing is said.
fn says_nothing(read: Result<Raw, Fault>) -> bool
    ensures { result ≡ says_nothing read }
{
    match read {
        Ok(said) => !said.role && !said.election && !said.status && said.device == 0,
        Err(_) => true,
    }
}

// Whether bytes that are taken for an arbitration message look like what a capture has: a frame, or a stream message that carries an arbitration message and
// in which the reader of arbitration messages finds nothing.
pub fn looks_streamed(message: &[u8]) -> bool
    ensures { result ≡ looks_streamed message.now }
{
    is_frame(read_frame(message))
        || is_arbitration(read_message(message))
            && says_nothing(wire_arbitration::read_raw(message))
}
