// What the program `merges` prints for a merged log, as one text in a lent buffer.
#![tactic(auto)]

ghost use Rattle.std.specs.Prelude.{◌≡◌, ◌+◌, ◌≤◌, ◌<◌, length, take};
ghost use Rattle.any_text.specs.Put.{Put};
ghost use Rattle.log_records.specs.Rows.{rows_of};
ghost use Rattle.log_exchange.specs.Ran.{AtHand};
ghost use Rattle.log_doubts.specs.Doubts.{doubts};
ghost use Rattle.log_doubts.specs.Found.{most_pairs};
ghost use Rattle.log_text.specs.Answer.{outcome, pair_text, shown, most_shown, log_text, answer};
ghost use Rattle.log_text.specs.Rows.{Known, known-once};
ghost use Rattle.log_text.specs.Showing.{longest};

use log_doubts::{MOST_PAIRS, Pair};
use log_exchange::Exchange;
use log_records::Merge;

// How many pairs are shown.
const MOST_SHOWN: usize = 16;

// Room for the longest text: 16 pairs of 384 bytes and a line of 5.
pub const LONGEST_ANSWER: usize = 8192;

// A merge that was run, and what its run left: answers and history, and how many writes that has.
#[derive(Clone, Copy)]
struct Ran<'a> {
    merge: Merge<'a>,
    out: &'a [u8],
    writes: u32,
    ghost known: { Known merge.nodes merge.records.now } by { known-once merge.nodes merge.records.now },
    ghost at_hand: { AtHand merge.nodes merge.records.now out.now writes },
}

impl Ran<'_> {
    // What the exchange of a pair does that the clocks allow.
    fn put_outcome(&self, buf: &mut [u8], at: usize, pair: Pair) -> usize
        requires { (pair.x < pair.y) × (pair.y < length self.now.merge.records.now) × (at + 128 ≤ length buf.old) }
        ensures { Put buf.old at (outcome self.now.merge.nodes self.now.merge.bound (rows_of self.now.merge.records.now) pair) buf.new result × (result ≤ at + 128) }
    {
        let Pair { x, y } = pair;
        let raised = Exchange { up: true, x, y };
        if log_exchange::allowed(&self.merge, raised) {
            let parting = log_exchange::parting(&self.merge, raised, self.out, self.writes);
            return merge_text::put_parting(buf, at, parting);
        }
        let lowered = Exchange { up: false, x, y };
        if log_exchange::allowed(&self.merge, lowered) {
            let parting = log_exchange::parting(&self.merge, lowered, self.out, self.writes);
            return merge_text::put_parting(buf, at, parting);
        }
        any_text::put_word(buf, at, b"open\n")
    }

    // A pair, and what is known of it.
    fn put_pair(&self, buf: &mut [u8], at: usize, pair: Pair) -> usize
        requires { (pair.x < pair.y) × (pair.y < length self.now.merge.records.now) × (at + 384 ≤ length buf.old) }
        ensures { Put buf.old at (pair_text self.now.merge.nodes self.now.merge.bound (rows_of self.now.merge.records.now) pair) buf.new result × (result ≤ at + 384) }
    {
        let records = self.merge.records;
        let (first, second) = (&records[pair.x], &records[pair.y]);
        let next = log_records::put_pair(buf, at, first, second, self.merge.bound);
        self.put_outcome(buf, next, pair)
    }

    // The pairs that were found, as many as are shown.
    fn put_doubts(&self, buf: &mut [u8], found: &[Pair]) -> usize
        requires { (longest ≤ length buf.old) × (found.now ≡ take most_pairs (doubts self.now.merge.nodes self.now.merge.bound (rows_of self.now.merge.records.now))) }
        ensures { Put buf.old 0 (shown (pair_text self.now.merge.nodes self.now.merge.bound (rows_of self.now.merge.records.now)) most_shown found.now) buf.new result × (result ≤ longest) }
    {
        let mut at = 0;
        for (i, pair) in found.iter().enumerate() {
            if i == MOST_SHOWN {
                return any_text::put_word(buf, at, b"more\n");
            }
            at = self.put_pair(buf, at, *pair);
        }
        at
    }
}

// The text for a log that is not refused.
fn put_log(buf: &mut [u8], merge: &Merge) -> usize
    requires { Known merge.now.nodes merge.now.records.now × (longest ≤ length buf.old) }
    ensures { Put buf.old 0 (log_text merge.now.nodes merge.now.bound (rows_of merge.now.records.now)) buf.new result × (result ≤ longest) }
{
    let mut found = [Pair { x: 0, y: 0 }; MOST_PAIRS];
    let pairs = log_doubts::first_pairs(merge, &mut found);
    if pairs == 0 {
        return any_text::put_word(buf, 0, b"same\n");
    }
    let mut out = [0u8; run::LONGEST_OUT];
    let writes = log_exchange::run_at_hand(merge, &mut out);
    let ran = Ran {
        merge: *merge,
        out: &out,
        writes,
    };
    ran.put_doubts(buf, &found[..pairs])
}

// Reads the text of a merged log and puts what the program prints at the front of the buffer. Returns how many bytes that is.
pub fn answer(log: &[u8], buf: &mut [u8; LONGEST_ANSWER]) -> usize
    ensures { Put buf.old 0 (answer log.now) buf.new result × (result ≤ length buf.new) }
{
    if log_read::LONGEST < log.len() {
        return any_text::put_word(buf, 0, b"refused long\n");
    }
    let mut records = [log_read::NO_RECORD; log_read::MOST_RECORDS];
    match log_read::read_log(log, &mut records) {
        Ok(read) => {
            let merge = Merge {
                records: &records[..read.records],
                nodes: read.nodes,
                bound: read.bound,
            };
            put_log(buf, &merge)
        }
        Err(refused) => any_text::put_line(buf, 0, b"refused line", &[refused.line as u64]),
    }
}
