// Reading a merged log from text: a first line with the node count and the clocks' bound, then a line for each record with its log, time, kind and node.
// Empty lines are skipped.
#![tactic(auto)]

ghost use Rattle.std.specs.Prelude.{◌≡◌, Some, ◌≤◌, length, map};
ghost use Rattle.std.proofs.lemmas.List.Edits.{sets};
ghost use Rattle.log_read.specs.Line.{sorted, line_of};
ghost use Rattle.log_read.specs.Log.{longest_text, read_text, record_of, log_of};
ghost use Rattle.log_read.specs.Reads.{refused_at};

// The most bytes that a text has.
pub const LONGEST: usize = 2097152;

// The most records of a log.
pub const MOST_RECORDS: usize = run_lists::MOST_RECORDS;

// The most nodes of a log.
const MOST_NODES: u64 = 8;

// A record of a log, and the number of its line.
#[derive(Clone, Copy)]
pub struct Record {
    pub line: u64,
    pub log: u64,
    pub time: u64,
    pub kind: u64,
    pub node: u64,
}

// What stands where no record has been read.
pub const NO_RECORD: Record = Record {
    line: 0,
    log: 0,
    time: 0,
    kind: 0,
    node: 0,
};

// What the first line says.
#[derive(Clone, Copy)]
struct Head {
    nodes: u8,
    bound: u64,
}

// A log that was read: what its first line says, and how many records it has.
#[derive(Clone, Copy)]
pub struct Log {
    pub nodes: u8,
    pub bound: u64,
    pub records: usize,
}

// Why a log is refused: the line, and what was read before it.
// All 0 beside the line where the first line that says something is refused, or no line says anything.
#[derive(Clone, Copy)]
pub struct Refused {
    pub line: usize,
    pub nodes: u8,
    pub bound: u64,
    pub records: usize,
}

// A line: no words, two or four numbers, or none of these.
#[derive(Clone, Copy)]
pub enum Line {
    Blank,
    Two(u64, u64),
    Four(u64, u64, u64, u64),
    Other,
}

// ---- numbers

// What numbers make of a line.
fn line_with(values: &[u64]) -> Line
    ensures { result ≡ sorted (Some values.now) }
{
    match values {
        [] => Line::Blank,
        [a, b] => Line::Two(*a, *b),
        [a, b, c, d] => Line::Four(*a, *b, *c, *d),
        _ => Line::Other,
    }
}

fn line_of(line: &[u8]) -> Line
    ensures { result ≡ line_of line.now }
{
    let mut values = [0u64; 4];
    let mut n: usize = 0;
    for word in line
        .split(|byte| any_words::is_blank(*byte))
        .filter(|word| !word.is_empty())
    {
        let Some(value) = any_words::read_number(word) else {
            return Line::Other;
        };
        if 4 <= n {
            return Line::Other;
        }
        values[n] = value;
        n += 1;
    }
    line_with(&values[..n])
}

// ---- records

// The refusal of a line, behind what the first line says, if it was read, and that many records.
fn refused_at(line: usize, head: Option<Head>, records: usize) -> Refused
    ensures { result ≡ refused_at line head records }
{
    let Head { nodes, bound } = head.unwrap_or(Head { nodes: 0, bound: 0 });
    Refused {
        line,
        nodes,
        bound,
        records,
    }
}

// Reads a text, and puts its records at the front of those that are lent, as far as its lines are good.
pub fn read_log(text: &[u8], records: &mut [Record; MOST_RECORDS]) -> Result<Log, Refused>
    requires { length text.now ≤ longest_text }
    ensures log { result ≡ log_of (read_text text.now) }
    ensures records { records.new ≡ sets records.old 0 (map record_of (read_text text.now).rows) }
{
    let mut head: Option<Head> = None;
    let mut count: usize = 0;
    for (i, line) in text.split(|byte| *byte == b'\n').enumerate() {
        match line_of(line) {
            Line::Blank => {}
            Line::Two(nodes, bound) if head.is_none() && 1 <= nodes && nodes <= MOST_NODES => {
                head = Some(Head {
                    nodes: nodes as u8,
                    bound,
                });
            }
            Line::Four(log, time, kind, node)
                if head.is_some() && count < MOST_RECORDS && kind <= 255 && node <= 255 => {
                records[count] = Record {
                    line: i as u64 + 1,
                    log,
                    time,
                    kind,
                    node,
                };
                count += 1;
            }
            _ => return Err(refused_at(i + 1, head, count)),
        }
    }
    match head {
        Some(Head { nodes, bound }) => Ok(Log {
            nodes,
            bound,
            records: count,
        }),
        None => Err(refused_at(1, None, 0)),
    }
}
