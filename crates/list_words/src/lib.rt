// Steps in text: the names of the kinds, and what a line says.
#![tactic(auto)]

ghost use Rattle.std.specs.Prelude.{◌≡◌, ◌≤◌, length};
ghost use Rattle.any_words.specs.Text.{words};
ghost use Rattle.list_words.specs.Names.{name_of};
ghost use Rattle.list_words.specs.Line.{byte_of, kind_named, kind_said, said, of_words, line_of};

use step_parts::Kind;

// What a line says: nothing, the node count, a step's kind and node, or what cannot be read.
#[derive(Clone, Copy)]
pub enum Line {
    Blank,
    Nodes(u8),
    Step(u8, u8),
    Other,
}

// ---- names

// The most bytes of a name.
pub const LONGEST_NAME: usize = 14;

// The name of a kind, which is empty where there is no such kind.
#[tactic(auto, unfolding(crate::specs::Names::names))]
pub fn name_of(kind: u8) -> &'static [u8]
    ensures name { result.now ≡ name_of kind }
    ensures short { length result.now ≤ LONGEST_NAME }
{
    let Ok(kind) = Kind::try_from(kind) else {
        return b"";
    };
    match kind {
        Kind::Join => b"join",
        Kind::Leave => b"leave",
        Kind::Learn => b"learn",
        Kind::SendUpdate => b"send-update",
        Kind::ReceiveUpdate => b"receive-update",
        Kind::SendWrite => b"send-write",
        Kind::ReceiveWrite => b"receive-write",
        Kind::Connect => b"connect",
        Kind::Close => b"close",
        Kind::HandleUpdate => b"handle-update",
        Kind::HandleWrite => b"handle-write",
        Kind::Shutdown => b"shutdown",
        Kind::Startup => b"startup",
    }
}

fn kind_named(word: &[u8]) -> Option<u8>
    ensures { result ≡ kind_named word.now }
{
    for kind in 0..=Kind::Startup as u8 {
        if any_words::same(word, name_of(kind)) {
            return Some(kind);
        }
    }
    None
}

// ---- words

// A number of one byte.
fn byte_of(word: &[u8]) -> Option<u8>
    ensures { result ≡ byte_of word.now }
{
    u8::try_from(any_words::read_number(word)?).ok()
}

// By its number or by its name.
fn kind_said(word: &[u8]) -> Option<u8>
    ensures { result ≡ kind_said word.now }
{
    byte_of(word).or_else(|| kind_named(word))
}

// ---- lines

// A word, and a number behind it.
fn said(word: &[u8], number: &[u8]) -> Line
    ensures { result ≡ said word.now (byte_of number.now) }
{
    let Some(value) = byte_of(number) else {
        return Line::Other;
    };
    if any_words::same(word, b"nodes") {
        return Line::Nodes(value);
    }
    let Some(kind) = kind_said(word) else {
        return Line::Other;
    };
    Line::Step(kind, value)
}

// A line without a comment. Its words are sought by `next_where`, which docs/DECISIONS.md names and whose clause `words` is proved by.
fn of_words(line: &[u8]) -> Line
    ensures { result ≡ of_words (words line.now) }
{
    let first = any_words::next_where(line, 0, false);
    if line.len() <= first {
        return Line::Blank;
    }
    let end = any_words::next_where(line, first, true);
    let second = any_words::next_where(line, end, false);
    if line.len() <= second {
        return Line::Other;
    }
    let last = any_words::next_where(line, second, true);
    if any_words::next_where(line, last, false) < line.len() {
        return Line::Other;
    }
    said(&line[first..end], &line[second..last])
}

pub fn line_of(line: &[u8]) -> Line
    ensures { result ≡ line_of line.now }
{
    let end = any_words::next_byte(line, 0, b'#');
    of_words(&line[..end])
}
