// Protobuf's wire format: numbers, tags and fields, read at a place of a message.
#![tactic(auto)]

ghost use Rattle.std.specs.Prelude.{◌≡◌, ◌*◌, ◌%◌, ◌^◌, ◌<◌, ◌≤◌, length, drop};
ghost use Rattle.wire_fields.specs.Fields.{as_varint, as_fixed, as_bytes, content, part, tagged};
ghost use Rattle.wire_fields.specs.Groups.{joined};
ghost use Rattle.wire_fields.specs.Numbers.{code_of};
ghost use Rattle.wire_fields.specs.Places.{number_at, found_part, found_field, field_at};

// Why bytes cannot be read. Programs print the number, and hosts are told it.
#[derive(Clone, Copy, PartialEq, Eq)]
pub enum Fault {
    // The message ends too early, or a length reaches past the message that it stands in.
    CutShort = 13,
    // The tenth byte of a number is above 1.
    TooLarge = 14,
    // A wire type that is not 0, 1, 2 or 5, or a field number that is 0 or above 536,870,911.
    BadTag = 15,
}

impl Fault {
    pub fn number(self) -> u8
        ensures { result ≡ code_of self }
    {
        self as u8
    }
}

// The tenth group of seven bits, which has room for one bit.
const LAST_GROUP: usize = 9;

// ---- numbers

// What stands at a place: the number and the place behind it.
#[derive(Clone, Copy)]
pub struct Number {
    pub value: u64,
    pub next: usize,
}

// The low seven bits of a byte, put above the first `shift` bits.
fn with_group(value: u64, byte: u64, shift: u64) -> u64
    requires { (value < 2 ^ shift) × (shift < 64) × (byte % 128 * 2 ^ shift < 2 ^ 64) }
    ensures { result ≡ joined value byte shift }
{
    value | (byte & 0x7F) << shift
}

// The number at a place, by groups of seven bits.
fn read_groups(message: &[u8], at: usize) -> Result<Number, Fault>
    requires { at ≤ length message.now }
    ensures { result ≡ number_at message.now at }
{
    let mut value: u64 = 0;
    for (i, &byte) in message[at..].iter().enumerate() {
        let byte = byte as u64;
        if i == LAST_GROUP && 1 < byte {
            return Err(Fault::TooLarge);
        }
        value = with_group(value, byte, 7 * i as u64);
        if byte < 128 {
            return Ok(Number {
                value,
                next: at + i + 1,
            });
        }
    }
    Err(Fault::CutShort)
}

// The number at a place. Most are of one byte, which is looked at first.
pub fn read_number(message: &[u8], at: usize) -> Result<Number, Fault>
    ensures { result ≡ number_at message.now at }
{
    match message.get(at) {
        Some(&byte) if byte < 128 => Ok(Number {
            value: byte as u64,
            next: at + 1,
        }),
        Some(_) => read_groups(message, at),
        None => Err(Fault::CutShort),
    }
}

// ---- fields

// What a field holds: a number, four or eight bytes, or as many bytes as its length says, of which it has the place where they begin.
#[derive(Clone, Copy)]
pub enum Held {
    Varint(u64),
    Fixed,
    Bytes(usize),
}

// The field at a place: its number, what it holds, and the place behind it. Bytes that it holds end there.
#[derive(Clone, Copy)]
pub struct Field {
    pub number: u64,
    pub held: Held,
    pub next: usize,
}

const LAST_NUMBER: u64 = 536870911;

// ---- what stands behind a tag, by its wire type

pub fn read_varint(message: &[u8], at: usize, number: u64) -> Result<Field, Fault>
    ensures { result ≡ found_field message.now (as_varint number (drop at message.now)) }
{
    let read = read_number(message, at)?;
    Ok(Field {
        number,
        held: Held::Varint(read.value),
        next: read.next,
    })
}

// The place behind so many bytes.
fn behind(message: &[u8], at: usize, size: u64) -> Result<usize, Fault>
    requires { at ≤ length message.now }
    ensures { result ≡ found_part message.now (part size (drop at message.now)) }
{
    if size <= (message.len() - at) as u64 {
        return Ok(at + size as usize);
    }
    Err(Fault::CutShort)
}

fn skip_fixed(message: &[u8], at: usize, number: u64, size: u64) -> Result<Field, Fault>
    requires { at ≤ length message.now }
    ensures { result ≡ found_field message.now (as_fixed size number (drop at message.now)) }
{
    let next = behind(message, at, size)?;
    Ok(Field {
        number,
        held: Held::Fixed,
        next,
    })
}

pub fn read_bytes(message: &[u8], at: usize, number: u64) -> Result<Field, Fault>
    ensures { result ≡ found_field message.now (as_bytes number (drop at message.now)) }
{
    let size = read_number(message, at)?;
    let next = behind(message, size.next, size.value)?;
    Ok(Field {
        number,
        held: Held::Bytes(size.next),
        next,
    })
}

fn read_content(message: &[u8], at: usize, wire: u64, number: u64) -> Result<Field, Fault>
    requires { at ≤ length message.now }
    ensures { result ≡ found_field message.now (content wire number (drop at message.now)) }
{
    match wire {
        0 => read_varint(message, at, number),
        1 => skip_fixed(message, at, number, 8),
        2 => read_bytes(message, at, number),
        5 => skip_fixed(message, at, number, 4),
        _ => Err(Fault::BadTag),
    }
}

// The field whose tag stands before the place.
fn read_tagged(message: &[u8], at: usize, tag: u64) -> Result<Field, Fault>
    requires { at ≤ length message.now }
    ensures { result ≡ found_field message.now (tagged tag (drop at message.now)) }
{
    let number = tag >> 3;
    if number < 1 {
        return Err(Fault::BadTag);
    }
    if LAST_NUMBER < number {
        return Err(Fault::BadTag);
    }
    read_content(message, at, tag & 7, number)
}

// The field at a place. Who has seen its tag calls `read_varint` or `read_bytes` instead.
pub fn read_field(message: &[u8], at: usize) -> Result<Field, Fault>
    ensures { result ≡ field_at message.now at }
{
    let tag = read_number(message, at)?;
    read_tagged(message, tag.next, tag.value)
}
