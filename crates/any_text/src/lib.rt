// The lines of the program's output, put into a lent buffer. Each function puts its bytes at a place of the buffer and answers the place behind
// them. It asks for room for them and for nothing else.
#![tactic(auto)]

ghost use Rattle.std.specs.Prelude.{[], ◌∷◌, ◌++◌, ◌+◌, ◌*◌, ◌≤◌, length};
ghost use Rattle.any_text.specs.Decimal.{decimal};
ghost use Rattle.any_text.specs.Lines.{newline, refused_line};
ghost use Rattle.any_text.specs.Line.{spaced, line, row};
ghost use Rattle.any_text.specs.Put.{Room, Put};

const ZERO: u8 = b'0';

fn put_byte(buf: &mut [u8], at: usize, byte: u8) -> usize
    requires { Room buf.old at (byte ∷ []) }
    ensures { Put buf.old at (byte ∷ []) buf.new result }
{
    buf[at] = byte;
    at + 1
}

// A number of up to 64 bits: 20 digits. By hand, since no contract of the library's printing says what bytes a lent buffer has.
pub fn put_wide(buf: &mut [u8], at: usize, n: u64) -> usize
    requires { Room buf.old at (decimal n) }
    ensures { Put buf.old at (decimal n) buf.new result }
{
    if n < 10 {
        return put_byte(buf, at, ZERO + n as u8);
    }
    let last = put_wide(buf, at, n / 10);
    put_byte(buf, last, ZERO + (n % 10) as u8)
}

pub fn put_word(buf: &mut [u8], at: usize, word: &[u8]) -> usize
    requires { Room buf.old at word.now }
    ensures { Put buf.old at word.now buf.new result }
{
    // Not by `copy_from_slice`: for it the archive for C hosts would need `memmove` from outside.
    let mut next = at;
    for byte in word {
        next = put_byte(buf, next, *byte);
    }
    next
}

// Numbers, each behind a blank, and the end of the line.
fn put_numbers(buf: &mut [u8], at: usize, numbers: &[u64]) -> usize
    requires { Room buf.old at (spaced numbers.now ++ (newline ∷ [])) }
    ensures { Put buf.old at (spaced numbers.now ++ (newline ∷ [])) buf.new result }
{
    let mut next = at;
    for n in numbers {
        let after = put_byte(buf, next, b' ');
        next = put_wide(buf, after, *n);
    }
    put_byte(buf, next, b'\n')
}

// A line that begins with a number.
pub fn put_row(buf: &mut [u8], at: usize, first: u64, others: &[u64]) -> usize
    requires { Room buf.old at (row first others.now) }
    ensures { Put buf.old at (row first others.now) buf.new result }
{
    let next = put_wide(buf, at, first);
    put_numbers(buf, next, others)
}

// A line: a word, and numbers.
pub fn put_fitting_line(buf: &mut [u8], at: usize, word: &[u8], numbers: &[u64]) -> usize
    requires { Room buf.old at (line word.now numbers.now) }
    ensures { Put buf.old at (line word.now numbers.now) buf.new result }
{
    let next = put_word(buf, at, word);
    put_numbers(buf, next, numbers)
}

// The same, where the room is known by the number of numbers alone. A number has at most twenty digits.
pub fn put_line(buf: &mut [u8], at: usize, word: &[u8], numbers: &[u64]) -> usize
    requires { at + (length word.now + 21 * length numbers.now + 1) ≤ length buf.old }
    ensures { Put buf.old at (line word.now numbers.now) buf.new result
        × (result ≤ at + (length word.now + 21 * length numbers.now + 1)) }
{
    put_fitting_line(buf, at, word, numbers)
}

pub fn put_refused_line(buf: &mut [u8], at: usize, n: u32) -> usize
    requires { Room buf.old at (refused_line n) }
    ensures { Put buf.old at (refused_line n) buf.new result }
{
    put_fitting_line(buf, at, b"refused", &[n as u64])
}
