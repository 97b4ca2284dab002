// From a text to an event list: what the program `write_list` prints.
#![tactic(auto)]

ghost use Rattle.std.specs.Prelude.{◌≡◌, List, ℕ, ◌+◌, ◌≤◌, length};
ghost use Rattle.any_text.specs.Put.{Put};
ghost use Rattle.any_text.specs.Printed.{Prints};
ghost use Rattle.list_words.specs.declared.Line.TheVariants.{Nodes, Step};
ghost use Rattle.run_lists.specs.EventList.{longest};
ghost use Rattle.list_write.specs.Write.{steps_in};
ghost use Rattle.list_source.specs.declared.Fault.TheVariants.{Coded};
ghost use Rattle.list_source.specs.Source.{comes_to, read_text};
ghost use Rattle.list_source.specs.Printed.{longest_text, line_refused, written, output};
ghost use Rattle.list_source.specs.Reads.{code_of, Took, Read};

use list_words::Line;
use step_parts::Refusal;

// The most bytes of a text.
pub const LONGEST: usize = 2097152;

// Room for the longest line about a refusal.
pub const LONGEST_LINE: usize = 64;

// Room for the steps of the longest text, of which no line has more bytes than it has itself with its end; and for one step more.
const ROOM: usize = LONGEST + 2;

// What has been read: the node count, which is 0 where no line says it, and how many bytes of steps there are.
#[derive(Clone, Copy)]
struct Taken {
    nodes: u8,
    steps: usize,
}

// Why a line is refused: it cannot be read, or what it says is refused.
#[derive(Clone, Copy)]
enum Fault {
    Unread,
    Coded(Refusal),
}

impl From<Refusal> for Fault {
    ghost from_gives = { λ refusal fault. fault ≡ Coded refusal };

    fn from(refusal: Refusal) -> Fault {
        Fault::Coded(refusal)
    }
}

// The line that is refused, and why.
#[derive(Clone, Copy)]
struct RefusedLine {
    line: usize,
    fault: Fault,
}

// ---- one line

fn take_nodes(count: u8, taken: Taken) -> Result<Taken, Fault>
    ensures { (l : List ℕ) → Took (comes_to taken.nodes (Nodes count)) taken.steps l l result }
{
    if taken.nodes != 0 {
        return Err(Fault::Unread);
    }
    if !step_parts::is_node(step_parts::MOST_NODES, count) {
        return Err(Fault::Coded(Refusal::BadNodeCount));
    }
    Ok(Taken {
        nodes: count,
        steps: taken.steps,
    })
}

fn take_step(kind: u8, node: u8, taken: Taken, steps: &mut [u8]) -> Result<Taken, Fault>
    requires { taken.steps + 2 ≤ length steps.old }
    ensures { Took (comes_to taken.nodes (Step kind node)) taken.steps steps.old steps.new result }
{
    if taken.nodes == 0 {
        return Err(Fault::Unread);
    }
    list_write::check_step(taken.nodes, kind, node)?;
    let at = taken.steps;
    steps[at] = kind;
    steps[at + 1] = node;
    Ok(Taken {
        nodes: taken.nodes,
        steps: at + 2,
    })
}

// A line behind others of which this has been read.
fn take_line(line: Line, taken: Taken, steps: &mut [u8]) -> Result<Taken, Fault>
    requires { taken.steps + 2 ≤ length steps.old }
    ensures { Took (comes_to taken.nodes line) taken.steps steps.old steps.new result }
{
    match line {
        Line::Blank => Ok(taken),
        Line::Nodes(count) => take_nodes(count, taken),
        Line::Step(kind, node) => take_step(kind, node, taken, steps),
        Line::Other => Err(Fault::Unread),
    }
}

// ---- all of them

// Puts the bytes of the steps at the front of the buffer.
fn read_source(text: &[u8], steps: &mut [u8]) -> Result<Taken, RefusedLine>
    requires { length text.now + 2 ≤ length steps.old }
    ensures { Read (read_text text.now) steps.old steps.new result }
{
    let mut taken = Taken { nodes: 0, steps: 0 };
    for (i, line) in text.split(|byte| *byte == b'\n').enumerate() {
        taken = match take_line(list_words::line_of(line), taken, steps) {
            Ok(next) => next,
            Err(fault) => return Err(RefusedLine { line: i + 1, fault }),
        };
    }
    if taken.nodes == 0 {
        return Err(RefusedLine {
            line: 1,
            fault: Fault::Unread,
        });
    }
    Ok(taken)
}

// ---- what is printed

// The line about a line that is refused.
fn put_refusal(buf: &mut [u8], refused: RefusedLine) -> usize
    requires { 64 ≤ length buf.old }
    ensures { Put buf.old 0 (line_refused (code_of refused.fault) refused.line) buf.new result × (result ≤ length buf.new) }
{
    let numbers = [refused.line as u64];
    match refused.fault {
        Fault::Unread => any_text::put_line(buf, 0, b"refused line", &numbers),
        Fault::Coded(refusal) => {
            let at = any_text::put_word(buf, 0, b"refused ");
            let next = any_text::put_wide(buf, at, refusal as u64);
            any_text::put_line(buf, next, b" line", &numbers)
        }
    }
}

// The list of the steps whose bytes stand at the front of a buffer, or why there is none.
fn put_list(nodes: u8, steps: &[u8], out: &mut [u8], line: &mut [u8]) -> Result<usize, usize>
    requires { (length out.old ≡ longest) × (64 ≤ length line.old) }
    ensures { Prints (written nodes (steps_in steps.now)) out.old line.old out.new line.new result }
{
    match list_write::write(nodes, steps, out) {
        Ok(length) => Ok(length),
        Err(refusal) => Err(any_text::put_refused_line(line, 0, refusal as u32)),
    }
}

fn room() -> [u8; ROOM]
    ensures { length result ≡ longest_text + 2 }
{
    [0u8; ROOM]
}

// Reads a text that is not too long.
fn list_of(text: &[u8], out: &mut [u8], line: &mut [u8]) -> Result<usize, usize>
    requires { (length text.now ≤ longest_text) × (length out.old ≡ longest) × (64 ≤ length line.old) }
    ensures { Prints (output text.now) out.old line.old out.new line.new result }
{
    let mut steps = room();
    match read_source(text, &mut steps) {
        Ok(taken) => put_list(taken.nodes, &steps[..taken.steps], out, line),
        Err(refused) => Err(put_refusal(line, refused)),
    }
}

// Reads any text.
fn put_output(text: &[u8], out: &mut [u8], line: &mut [u8]) -> Result<usize, usize>
    requires { (length out.old ≡ longest) × (64 ≤ length line.old) }
    ensures { Prints (output text.now) out.old line.old out.new line.new result }
{
    if LONGEST < text.len() {
        return Err(any_text::put_word(line, 0, b"refused long\n"));
    }
    list_of(text, out, line)
}

// Puts the list at the front of one buffer, or why there is none at the front of the other, and says how many bytes that is.
pub fn list_from(
    text: &[u8],
    out: &mut [u8; run_lists::LONGEST],
    line: &mut [u8; LONGEST_LINE],
) -> Result<usize, usize>
    ensures { Prints (output text.now) out.old line.old out.new line.new result }
{
    put_output(text, out, line)
}
