// Reading an event list, and writing and reading the entries of the history behind the answers.
#![tactic(auto)]

ghost use Rattle.std.specs.Prelude.{◌≡◌, ◌+◌, ◌*◌, ◌≤◌, ◌<◌, length, MatchResult};
ghost use Rattle.std.proofs.lemmas.List.Edits.{sets};
ghost use Rattle.run_lists.specs.EventList.{number_at, refusal, event_at, record_at, first_record, entry_bytes};
ghost use Rattle.run_lists.specs.Listed.{trailer_bytes};
ghost use Rattle.run_lists.specs.Reads.{event_of};
ghost use Rattle.run_lists.specs.Trails.{Trails};
ghost use Rattle.step_parts.specs.Answers.{refusal_code};
ghost use Rattle.run_lists.specs.Entries.{entry_at};
ghost use Rattle.step_parts.specs.Hold.{hold_write};

use step_parts::{Refusal, Term, Write};

pub const TRAILER_LENGTH: usize = 12;

// The most bytes that a list has.
pub const LONGEST: usize = 65536;

// The most records that a list has.
pub const MOST_RECORDS: usize = 32762;

// ---- the trailer

// Four bytes, the least first. The sum that is held against the length cannot wrap, since each number is below 2^32.
fn number_at(list: &[u8], at: usize) -> usize
    requires { at + 4 ≤ length list.now }
    ensures { (result ≡ number_at list.now at) × (result < 4294967296) }
{
    u32::from_le_bytes([list[at], list[at + 1], list[at + 2], list[at + 3]]) as usize
}

// What the trailer says.
#[derive(Clone, Copy)]
pub struct Trailer {
    pub first: usize,
    pub records: usize,
    pub nodes: u8,
}

// The trailer of a good list, or why the list is refused.
pub fn read_trailer(list: &[u8]) -> Result<Trailer, Refusal>
    ensures { MatchResult result (Trails list.now) (λ r. refusal_code r ≡ refusal list.now) }
{
    let length = list.len();
    if length < TRAILER_LENGTH || LONGEST < length {
        return Err(Refusal::BadLength);
    }
    let at = length - TRAILER_LENGTH;
    if list[at + 10] != 0x4D || list[at + 11] != 0x41 || list[at + 9] != 0 {
        return Err(Refusal::BadMark);
    }
    let nodes = list[at + 8];
    if nodes < 1 || step_parts::MOST_NODES < nodes {
        return Err(Refusal::BadNodeCount);
    }
    let first = number_at(list, at);
    let records = number_at(list, at + 4);
    if first + 2 * records + TRAILER_LENGTH != length {
        return Err(Refusal::BadExtent);
    }
    Ok(Trailer {
        first,
        records,
        nodes,
    })
}

// The trailer of a list whose first record stands at its start.
pub fn trailer_bytes(records: usize, nodes: u8) -> [u8; TRAILER_LENGTH]
    requires { records ≤ 32762 }
    ensures { result ≡ trailer_bytes records nodes }
{
    let [low, high] = (records as u16).to_le_bytes();
    [0u8, 0, 0, 0, low, high, 0, 0, nodes, 0, 0x4D, 0x41]
}

// ---- the records

#[derive(Clone, Copy, PartialEq, Eq)]
pub struct Record {
    pub kind: u8,
    pub node: u8,
}

// The reader: the lent bytes and its place. A form that the project keeps: a thin struct over a covered function on slice and number.
#[derive(Clone, Copy)]
pub struct Reader<'a> {
    pub src: &'a [u8],
    pub at: usize,
}

// The record that stands at a place.
pub fn record_at(list: &[u8], at: usize) -> Record
    requires { at + 2 ≤ length list.now }
    ensures { event_of result ≡ event_at list.now at }
{
    Record {
        kind: list[at],
        node: list[at + 1],
    }
}

pub fn reader_at<'a>(src: &'a [u8], at: usize) -> Reader<'a>
    ensures { (result.src ≡ src.entry) × (result.at ≡ at) }
{
    Reader { src, at }
}

// The record at the reader's place.
pub fn next<'a>(reader: Reader<'a>) -> Record
    requires { reader.at + 2 ≤ length reader.src.now }
    ensures { event_of result ≡ event_at reader.entry.src.now reader.entry.at }
{
    record_at(reader.src, reader.at)
}

// Puts a reader at the place and takes its record. Those who call this need no reader of their own.
fn read_at(list: &[u8], at: usize) -> Record
    requires { at + 2 ≤ length list.now }
    ensures { event_of result ≡ event_at list.now at }
{
    next(reader_at(list, at))
}

// The i-th record of a list whose trailer says `first`.
pub fn read_record(list: &[u8], first: usize, i: usize) -> Record
    requires { (first ≡ first_record list.now) × (first + 2 * i + 2 ≤ length list.now) }
    ensures { event_of result ≡ record_at list.now i }
{
    read_at(list, first + 2 * i)
}

// ---- a list that is not refused

// Its bytes, with what its trailer says.
#[derive(Clone, Copy)]
pub struct EventList<'a> {
    pub bytes: &'a [u8],
    pub trailer: Trailer,
    pub ghost good: { Trails bytes.now trailer },
}

impl<'a> EventList<'a> {
    // The list that bytes are, or why they are refused.
    pub fn read(bytes: &'a [u8]) -> Result<EventList<'a>, Refusal>
        ensures { MatchResult result (λ l. l.bytes.now ≡ bytes.now) (λ r. refusal_code r ≡ refusal bytes.now) }
    {
        let trailer = read_trailer(bytes)?;
        Ok(EventList { bytes, trailer })
    }

    // The i-th record.
    pub fn record(self, i: usize) -> Record
        requires { i < self.trailer.records }
        ensures { event_of result ≡ record_at self.entry.bytes.now i }
    {
        read_record(self.bytes, self.trailer.first, i)
    }
}

// ---- the history

// Entry number `at`, into the part of the buffer behind the answers.
pub fn put_entry(part: &mut [u8], at: usize, node: u8, term: Term)
    requires { 4 * at + 4 ≤ length part.old }
    ensures { part.new ≡ sets part.old (4 * at) (entry_bytes (record { node = node; term = term.0 })) }
{
    let from = 4 * at;
    let [low, high] = term.0.to_le_bytes();
    part[from] = node;
    part[from + 1] = 0;
    part[from + 2] = low;
    part[from + 3] = high;
}

// The same into the whole buffer, whose first `answers` bytes are the answers: the part behind them is lent on, a form that the project keeps.
pub fn write_entry(out: &mut [u8], answers: usize, at: usize, node: u8, term: Term)
    requires { answers + 4 * at + 4 ≤ length out.old }
    ensures { out.new ≡ sets out.old (answers + 4 * at) (entry_bytes (record { node = node; term = term.0 })) }
{
    put_entry(&mut out[answers..], at, node, term);
}

// Entry number `at`, from the part of a buffer behind the answers.
pub fn entry_at(part: &[u8], at: usize) -> Write
    requires { 4 * at + 4 ≤ length part.now }
    ensures { hold_write result ≡ entry_at part.now at }
{
    Write {
        node: part[4 * at],
        term: Term(u16::from_le_bytes([part[4 * at + 2], part[4 * at + 3]])),
    }
}
