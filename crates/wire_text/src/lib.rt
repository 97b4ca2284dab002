// What the program `arbitration` prints for a message, as one text.
#![tactic(auto)]

ghost use Rattle.std.specs.Prelude.{◌≤◌, length};
ghost use Rattle.any_text.specs.Put.{Room, Put};
ghost use Rattle.wire_arbitration.specs.Arbitration.{low32};
ghost use Rattle.wire_text.specs.Printout.{number_line, flag_word, flag_line, integer, integer_line, role_lines, election_lines, status_lines, field_lines, printout};

use wire_arbitration::Raw;

// ---- lines

fn put_number_line(buf: &mut [u8], at: usize, word: &[u8], n: u64) -> usize
    requires { Room buf.old at (number_line word.now n) }
    ensures { Put buf.old at (number_line word.now n) buf.new result }
{
    let number = any_text::put_word(buf, at, word);
    let end = any_text::put_wide(buf, number, n);
    any_text::put_word(buf, end, b"\n")
}

fn put_flag(buf: &mut [u8], at: usize, present: bool) -> usize
    requires { Room buf.old at (flag_word present) }
    ensures { Put buf.old at (flag_word present) buf.new result }
{
    if present {
        return any_text::put_word(buf, at, b"present\n");
    }
    any_text::put_word(buf, at, b"absent\n")
}

fn put_flag_line(buf: &mut [u8], at: usize, word: &[u8], present: bool) -> usize
    requires { Room buf.old at (flag_line word.now present) }
    ensures { Put buf.old at (flag_line word.now present) buf.new result }
{
    let next = any_text::put_word(buf, at, word);
    put_flag(buf, next, present)
}

// The low 32 bits of a number, signed. `put_wide` puts numbers without a sign, so the sign is put before it.
fn put_integer(buf: &mut [u8], at: usize, value: u64) -> usize
    requires { Room buf.old at (integer (low32 value)) }
    ensures { Put buf.old at (integer (low32 value)) buf.new result }
{
    let bits = value & 0xFFFF_FFFF;
    if bits < 0x8000_0000 {
        return any_text::put_wide(buf, at, bits);
    }
    let next = any_text::put_word(buf, at, b"-");
    any_text::put_wide(buf, next, 0x1_0000_0000 - bits)
}

fn put_integer_line(buf: &mut [u8], at: usize, word: &[u8], value: u64) -> usize
    requires { Room buf.old at (integer_line word.now (low32 value)) }
    ensures { Put buf.old at (integer_line word.now (low32 value)) buf.new result }
{
    let number = any_text::put_word(buf, at, word);
    let end = put_integer(buf, number, value);
    any_text::put_word(buf, end, b"\n")
}

// ---- the fields

fn put_role(buf: &mut [u8], at: usize, read: Raw) -> usize
    requires { Room buf.old at (role_lines read) }
    ensures { Put buf.old at (role_lines read) buf.new result }
{
    let next = put_flag_line(buf, at, b"role ", read.role);
    put_number_line(buf, next, b"role.id ", read.id)
}

fn put_election(buf: &mut [u8], at: usize, read: Raw) -> usize
    requires { Room buf.old at (election_lines read) }
    ensures { Put buf.old at (election_lines read) buf.new result }
{
    let high = put_flag_line(buf, at, b"election_id ", read.election);
    let low = put_number_line(buf, high, b"election_id.high ", read.high);
    put_number_line(buf, low, b"election_id.low ", read.low)
}

fn put_status(buf: &mut [u8], at: usize, read: Raw) -> usize
    requires { Room buf.old at (status_lines read) }
    ensures { Put buf.old at (status_lines read) buf.new result }
{
    let next = put_flag_line(buf, at, b"status ", read.status);
    put_integer_line(buf, next, b"status.code ", read.error)
}

pub fn put_fields(buf: &mut [u8], at: usize, read: Raw) -> usize
    requires { Room buf.old at (field_lines read) }
    ensures { Put buf.old at (field_lines read) buf.new result }
{
    let role = put_number_line(buf, at, b"device_id ", read.device);
    let election = put_role(buf, role, read);
    let status = put_election(buf, election, read);
    put_status(buf, status, read)
}

// ---- the text

// The most bytes that the program reads.
pub const LONGEST: usize = 65536;

// Room for eight lines, each with its longest number.
pub const LONGEST_TEXT: usize = 207;

// A number and no error: `printout` tells it to print one line, and nothing else reads it.
const BAD_LENGTH: u32 = 8;

// Puts what the program prints for a message at the front of the buffer. Returns how many bytes that is.
pub fn printout(message: &[u8], buf: &mut [u8; LONGEST_TEXT]) -> usize
    ensures { Put buf.old 0 (printout message.now) buf.new result × (result ≤ length buf.new) }
{
    if LONGEST < message.len() {
        return any_text::put_refused_line(buf, 0, BAD_LENGTH);
    }
    match wire_arbitration::read_raw(message) {
        Ok(read) => put_fields(buf, 0, read),
        Err(fault) => any_text::put_refused_line(buf, 0, fault.number() as u32),
    }
}
