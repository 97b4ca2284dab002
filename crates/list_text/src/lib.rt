// From an event list to its text: what the program `read_list` prints.
#![tactic(auto)]

ghost use Rattle.std.specs.Prelude.{◌+◌, ◌*◌, ◌≤◌, length};
ghost use Rattle.any_text.specs.Put.{Put};
ghost use Rattle.any_text.specs.Lined.{Lined};
ghost use Rattle.any_text.specs.Printed.{Prints};
ghost use Rattle.list_text.specs.Shown.{kind_word, step_line, step_line_at, notes_line, list_text, shown};

use run_lists::EventList;

// Room for the longest text: 32,762 lines of 36 bytes, and two more.
pub const LONGEST_TEXT: usize = 1180000;

// Room for the line about a refusal.
pub const LONGEST_LINE: usize = 64;

// The name of a kind or, where there is no such kind, its number.
fn put_kind(buf: &mut [u8], at: usize, kind: u8) -> usize
    requires { at + 14 ≤ length buf.old }
    ensures { Put buf.old at (kind_word kind) buf.new result × (result ≤ at + 14) }
{
    let name = list_words::name_of(kind);
    if name.is_empty() {
        return any_text::put_wide(buf, at, u64::from(kind));
    }
    any_text::put_word(buf, at, name)
}

fn put_step(buf: &mut [u8], at: usize, kind: u8, node: u8) -> usize
    requires { at + 36 ≤ length buf.old }
    ensures { Put buf.old at (step_line (record { kind = kind; node = node })) buf.new result × (result ≤ at + 36) }
{
    let next = put_kind(buf, at, kind);
    let numbers = [node as u64];
    any_text::put_line(buf, next, b"", &numbers)
}

fn put_steps(buf: &mut [u8], at: usize, list: EventList) -> usize
    requires { at + 36 * list.trailer.records ≤ length buf.old }
    ensures { Lined (step_line_at list.entry.bytes.now) 36 buf.old at list.entry.trailer.records buf.new result }
{
    let mut next = at;
    for i in 0..list.trailer.records {
        let event = list.record(i);
        next = put_step(buf, next, event.kind, event.node);
    }
    next
}

// How many note bytes there are, if there are any.
fn put_notes(buf: &mut [u8], at: usize, first: usize) -> usize
    requires { at + 44 ≤ length buf.old }
    ensures { Put buf.old at (notes_line first) buf.new result × (result ≤ at + 44) }
{
    if first == 0 {
        return at;
    }
    let notes = [first as u64];
    any_text::put_line(buf, at, b"# note bytes left out:", &notes)
}

// The text of a list that is not refused.
fn put_text(buf: &mut [u8], list: EventList) -> usize
    requires { 1180000 ≤ length buf.old }
    ensures { Put buf.old 0 (list_text list.entry.bytes.now) buf.new result × (result ≤ length buf.new) }
{
    let nodes = [list.trailer.nodes as u64];
    let at = any_text::put_line(buf, 0, b"nodes", &nodes);
    let next = put_notes(buf, at, list.trailer.first);
    put_steps(buf, next, list)
}

fn put_shown(list: &[u8], text: &mut [u8], line: &mut [u8]) -> Result<usize, usize>
    requires { (1180000 ≤ length text.old) × (64 ≤ length line.old) }
    ensures { Prints (shown list.now) text.old line.old text.new line.new result }
{
    match EventList::read(list) {
        Ok(events) => Ok(put_text(text, events)),
        Err(refusal) => Err(any_text::put_refused_line(line, 0, refusal as u32)),
    }
}

// Puts the text of a list at the front of one buffer, or why it is refused at the front of the other, and says how many bytes that is.
pub fn text_of(
    list: &[u8],
    text: &mut [u8; LONGEST_TEXT],
    line: &mut [u8; LONGEST_LINE],
) -> Result<usize, usize>
    ensures { Prints (shown list.now) text.old line.old text.new line.new result }
{
    put_shown(list, text, line)
}
