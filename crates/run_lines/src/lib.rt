// The lines of a run, put into a lent buffer: those of its records, of the number of writes, and of the writes.
#![tactic(auto)]

ghost use Rattle.std.specs.Prelude.{◌+◌, ◌*◌, ◌≤◌, length};
ghost use Rattle.rules.specs.Limits.{history_length};
ghost use Rattle.any_text.specs.Put.{Put};
ghost use Rattle.run_lines.specs.RunText.{record_line_at};
ghost use Rattle.run_lines.specs.Bytes.{entry_line_at, bytes_text, longest_text};
ghost use Rattle.any_text.specs.Lined.{Lined};

use run_lists::EventList;

// A line for each record. It has at most 18 bytes: a place of five digits, and three bytes of three digits.
fn put_records(buf: &mut [u8], list: EventList, answers: &[u8]) -> usize
    requires { (list.trailer.records ≤ length answers.now) × (18 * list.trailer.records ≤ length buf.old) }
    ensures { Lined (record_line_at list.entry.bytes.now answers.now) 18 buf.old 0 list.entry.trailer.records buf.new result }
{
    let mut at: usize = 0;
    for i in 0..list.trailer.records {
        let event = list.record(i);
        let others = [event.kind as u64, event.node as u64, answers[i] as u64];
        at = any_text::put_row(buf, at, (i + 1) as u64, &others);
    }
    at
}

// A line for each entry of the history. It has at most 10 bytes: a byte of three digits, and a term of five.
fn put_writes(buf: &mut [u8], at: usize, part: &[u8], writes: usize) -> usize
    requires { (4 * writes ≤ length part.now) × (at + 10 * writes ≤ length buf.old) }
    ensures { Lined (entry_line_at part.now) 10 buf.old at writes buf.new result }
{
    let mut next = at;
    for i in 0..writes {
        let entry = run_lists::entry_at(part, i);
        next = any_text::put_row(buf, next, entry.node as u64, &[entry.term.0 as u64]);
    }
    next
}

// The whole text of a list that is not refused, from the buffer that its run has filled.
pub fn put_run(buf: &mut [u8], list: EventList, out: &[u8], writes: u32) -> usize
    requires { (writes ≤ history_length) × (list.trailer.records + 4 * writes ≤ length out.now) × (longest_text ≤ length buf.old) }
    ensures { Put buf.old 0 (bytes_text list.entry.bytes.now out.now writes) buf.new result × (result ≤ longest_text) }
{
    let records = list.trailer.records;
    let writes_at = put_records(buf, list, out);
    let next = any_text::put_fitting_line(buf, writes_at, b"writes", &[writes as u64]);
    put_writes(buf, next, &out[records..], writes as usize)
}
