// The fields of an arbitration message as forty bytes, for hosts that take numbers and bytes.
#![tactic(auto)]

ghost use Rattle.std.specs.Prelude.{◌≡◌, [], ◌∷◌};
ghost use Rattle.any_text.specs.Put.{Room, Put};
ghost use Rattle.wire_bytes.specs.Bytes.{little, flag, number_bytes, flag_bytes, field_bytes, reported};

use wire_arbitration::Raw;

// The low bytes of a number, the least first: so many as a parameter says, which `to_le_bytes` does not.
pub fn put_little(buf: &mut [u8], at: usize, size: usize, v: u64) -> usize
    requires { Room buf.old at (little size v) }
    ensures { Put buf.old at (little size v) buf.new result }
{
    let mut left = v;
    for i in 0..size {
        buf[at + i] = (left % 256) as u8;
        left /= 256;
    }
    at + size
}

fn put_flag(buf: &mut [u8], at: usize, present: bool) -> usize
    requires { Room buf.old at (flag present ∷ []) }
    ensures { Put buf.old at (flag present ∷ []) buf.new result }
{
    buf[at] = present as u8;
    at + 1
}

fn put_numbers(buf: &mut [u8], read: Raw) -> usize
    requires { Room buf.old 0 (number_bytes read) }
    ensures { Put buf.old 0 (number_bytes read) buf.new result }
{
    let a = put_little(buf, 0, 8, read.device);
    let b = put_little(buf, a, 8, read.id);
    let c = put_little(buf, b, 8, read.high);
    let d = put_little(buf, c, 8, read.low);
    put_little(buf, d, 4, read.error)
}

fn put_flags(buf: &mut [u8], at: usize, read: Raw) -> usize
    requires { Room buf.old at (flag_bytes read) }
    ensures { Put buf.old at (flag_bytes read) buf.new result }
{
    let a = put_flag(buf, at, read.role);
    let b = put_flag(buf, a, read.election);
    let c = put_flag(buf, b, read.status);
    put_flag(buf, c, false)
}

pub fn put_fields(buf: &mut [u8], read: Raw) -> usize
    requires { Room buf.old 0 (field_bytes read) }
    ensures { Put buf.old 0 (field_bytes read) buf.new result }
{
    let next = put_numbers(buf, read);
    put_flags(buf, next, read)
}

// The most that is put.
pub const FIELD_BYTES: usize = 40;

// What a host is told, as numbers, for C.
const DONE: u32 = 0;

const OUT_TOO_SHORT: u32 = 12;

// Reads a message and puts its fields at the front of the buffer; bytes after them stay. Returns 0, or why not: then the buffer stays as it was.
pub fn read_into(message: &[u8], fields: &mut [u8]) -> u32
    ensures { (result ≡ (reported message.now fields.old).returned)
        × (fields.new ≡ (reported message.now fields.old).fields) }
{
    match wire_arbitration::read_raw(message) {
        Err(fault) => fault.number() as u32,
        Ok(_) if fields.len() < FIELD_BYTES => OUT_TOO_SHORT,
        Ok(read) => {
            put_fields(fields, read);
            DONE
        }
    }
}
