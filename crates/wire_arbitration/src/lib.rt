// Reads MasterArbitrationUpdate of p4runtime.proto, release 1.0.0, in protobuf's wire format.
#![tactic(auto)]

ghost use Rattle.std.specs.Prelude.{◌≡◌};
ghost use Rattle.wire_fields.specs.Messages.{message};
ghost use Rattle.wire_fields.specs.Places.{Within, field_at, field_of};
ghost use Rattle.wire_arbitration.specs.Arbitration.{low32, arbitration};
ghost use Rattle.wire_arbitration.specs.Update.{reading};
ghost use Rattle.wire_arbitration.specs.Seen.{raw_of};
ghost use Rattle.wire_arbitration.specs.Raw.{last_at, see_two, see_role, see_election, see_status, see_bytes, see, message_onto};

use wire_fields::{Fault, Field, Held};

// ---- embedded messages

// The numbers of fields 1 and 2.
#[derive(Clone, Copy)]
pub struct Pair {
    pub first: u64,
    pub second: u64,
}

// What a message has said so far: of each embedded message whether it is present, and the last of each scalar, 0 if there is none. `error` is the status
// code as it stands on the wire.
// Flags beside values, and no Options: `read_onto` and `wire_frames_text::shown` take every such value, an id of a role that is absent too.
#[derive(Clone, Copy)]
pub struct Raw {
    pub role: bool,
    pub election: bool,
    pub status: bool,
    pub device: u64,
    pub id: u64,
    pub high: u64,
    pub low: u64,
    pub error: u64,
}

// What no bytes say.
pub const NOTHING: Raw = Raw {
    role: false,
    election: false,
    status: false,
    device: 0,
    id: 0,
    high: 0,
    low: 0,
    error: 0,
};

// The last of a scalar: the field's, if it is that scalar.
fn last(field: Field, number: u64, old: u64) -> u64
    ensures { result ≡ last_at field number old }
{
    match field.held {
        Held::Varint(value) if field.number == number => value,
        _ => old,
    }
}

// The field at a place of an embedded message. The two tags that matter there are looked at first.
fn embedded_field(part: &[u8], at: usize) -> Result<Field, Fault>
    ensures { result ≡ field_at part.now at }
{
    match part.get(at) {
        Some(8) => wire_fields::read_varint(part, at + 1, 1),
        Some(16) => wire_fields::read_varint(part, at + 1, 2),
        _ => wire_fields::read_field(part, at),
    }
}

// An embedded message, read on top of what an earlier one gave. Its other fields are skipped.
fn read_pair(part: &[u8], before: Pair) -> Result<Pair, Fault>
    ensures { result ≡ message see_two before part.now }
{
    let mut pair = before;
    let mut at = 0;
    // No `for`: a field says itself where the next one begins.
    while at < part.len() {
        let field = embedded_field(part, at)?;
        pair = Pair {
            first: last(field, 1, pair.first),
            second: last(field, 2, pair.second),
        };
        at = field.next;
    }
    Ok(pair)
}

// ---- the message

// Role, election id and status are read alike, and each is stored into fields of its own.
fn take_role(part: &[u8], u: Raw) -> Result<Raw, Fault>
    ensures { result ≡ see_role part.now u }
{
    let before = Pair {
        first: u.id,
        second: 0,
    };
    let read = read_pair(part, before)?;
    Ok(Raw {
        role: true,
        id: read.first,
        ..u
    })
}

fn take_election(part: &[u8], u: Raw) -> Result<Raw, Fault>
    ensures { result ≡ see_election part.now u }
{
    let so_far = Pair {
        first: u.high,
        second: u.low,
    };
    let read = read_pair(part, so_far)?;
    Ok(Raw {
        election: true,
        high: read.first,
        low: read.second,
        ..u
    })
}

fn take_status(part: &[u8], u: Raw) -> Result<Raw, Fault>
    ensures { result ≡ see_status part.now u }
{
    let before = Pair {
        first: u.error,
        second: 0,
    };
    let read = read_pair(part, before)?;
    Ok(Raw {
        status: true,
        error: read.first,
        ..u
    })
}

// The field at a place of the message. The four tags that matter are looked at first. (Tags are numbers of the format; a table of other tags than
// `embedded_field` has.)
fn field_at(message: &[u8], at: usize) -> Result<Field, Fault>
    ensures { result ≡ field_at message.now at }
{
    match message.get(at) {
        Some(8) => wire_fields::read_varint(message, at + 1, 1),
        Some(18) => wire_fields::read_bytes(message, at + 1, 2),
        Some(26) => wire_fields::read_bytes(message, at + 1, 3),
        Some(34) => wire_fields::read_bytes(message, at + 1, 4),
        _ => wire_fields::read_field(message, at),
    }
}

// A field that holds bytes: role, election_id or status, or one to be skipped.
fn take_bytes(part: &[u8], number: u64, u: Raw) -> Result<Raw, Fault>
    ensures { result ≡ see_bytes number part.now u }
{
    match number {
        2 => take_role(part, u),
        3 => take_election(part, u),
        4 => take_status(part, u),
        _ => Ok(u),
    }
}

// What the field at a place makes of what was known. The one number is device_id.
fn take(message: &[u8], field: Field, u: Raw) -> Result<Raw, Fault>
    requires { Within message.now field }
    ensures { result ≡ see (field_of message.now field) u }
{
    match field.held {
        Held::Varint(_) => Ok(Raw {
            device: last(field, 1, u.device),
            ..u
        }),
        Held::Fixed => Ok(u),
        Held::Bytes(start) => {
            let end = field.next;
            take_bytes(&message[start..end], field.number, u)
        }
    }
}

// A message read on top of what an earlier one gave, or its first fault from the front.
pub fn read_onto(message: &[u8], before: Raw) -> Result<Raw, Fault>
    ensures { result ≡ message_onto before message.now }
{
    let mut u = before;
    let mut at = 0;
    // No `for`: a field says itself where the next one begins.
    while at < message.len() {
        let field = field_at(message, at)?;
        u = take(message, field, u)?;
        at = field.next;
    }
    Ok(u)
}

// The whole message, or its first fault from the front.
pub fn read_raw(message: &[u8]) -> Result<Raw, Fault>
    ensures { result ≡ raw_of (reading message.now) }
{
    read_onto(message, NOTHING)
}

// ---- what is reported

#[derive(Clone, Copy, PartialEq, Eq)]
pub struct Role {
    pub id: u64,
}

#[derive(Clone, Copy, PartialEq, Eq)]
pub struct ElectionId {
    pub high: u64,
    pub low: u64,
}

#[derive(Clone, Copy, PartialEq, Eq)]
pub struct Status {
    pub code: i32,
}

// What a message says. Absent scalars are 0.
#[derive(Clone, Copy, PartialEq, Eq)]
pub struct Arbitration {
    pub device: u64,
    pub role: Option<Role>,
    pub election: Option<ElectionId>,
    pub status: Option<Status>,
}

// The low 32 bits, signed: no cast of the language, which refuses one that loses bits.
fn signed(value: u64) -> i32
    ensures { result ≡ low32 value }
{
    let bits = value & 0xFFFF_FFFF;
    if bits < 0x8000_0000 {
        return bits as i32;
    }
    -1 - (0xFFFF_FFFF - bits) as i32
}

// Reads a message: what it says, or its first fault from the front.
pub fn read(message: &[u8]) -> Result<Arbitration, Fault>
    ensures { result ≡ arbitration (reading message.now) }
{
    let raw = read_raw(message)?;
    let role = Role { id: raw.id };
    let election = ElectionId {
        high: raw.high,
        low: raw.low,
    };
    let status = Status {
        code: signed(raw.error),
    };
    Ok(Arbitration {
        device: raw.device,
        role: raw.role.then_some(role),
        election: raw.election.then_some(election),
        status: raw.status.then_some(status),
    })
}
