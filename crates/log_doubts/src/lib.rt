// The pairs of records in a merged log that are in doubt, found one after another.
#![tactic(auto)]

ghost use Rattle.std.specs.Prelude.{◌≡◌, ◌≤◌, length, take};
ghost use Rattle.log_read.specs.Log.{most_records, row_of};
ghost use Rattle.merge_letters.specs.Letters.{letter_of};
ghost use Rattle.log_records.specs.Rows.{rows_of};
ghost use Rattle.log_doubts.specs.Doubts.{doubts};
ghost use Rattle.log_doubts.specs.Index.{Lettered, Least};
ghost use Rattle.log_doubts.specs.Found.{most_pairs, Found};

use log_read::Record;
use log_records::Merge;

mod search;

use search::Search;

// Two records, by their places.
#[derive(Clone, Copy)]
pub struct Pair {
    pub x: usize,
    pub y: usize,
}

// The most pairs that are looked for.
pub const MOST_PAIRS: usize = 17;

// ---- made once for a log

// The letter of a record's step.
fn letter(logged: &Record) -> u8
    ensures { result ≡ letter_of (row_of logged.now).logged.event }
{
    match (u8::try_from(logged.kind), u8::try_from(logged.node)) {
        (Ok(kind), Ok(node)) => merge_letters::letter(kind, node),
        _ => 0,
    }
}

// The letters of the records.
fn fill_letters(records: &[Record], letters: &mut [u8])
    requires { length letters.old ≡ length records.now }
    ensures { Lettered records.now letters.new (length records.now) }
{
    for (i, record) in records.iter().enumerate() {
        letters[i] = letter(record);
    }
}

// For each record, a time that is not later than its own or that of any behind it.
fn fill_least(records: &[Record], least: &mut [u64])
    requires { length least.old ≡ length records.now }
    ensures { Least records.now least.new 0 }
{
    let mut time = u64::MAX;
    for i in (0..records.len()).rev() {
        time = time.min(records[i].time);
        least[i] = time;
    }
}

// ---- the search

// The first pairs in doubt are put at the front of those that are lent; nothing else is put down. Gives the number of pairs.
pub fn first_pairs(merge: &Merge, found: &mut [Pair; MOST_PAIRS]) -> usize
    requires { (length merge.now.records.now ≤ most_records) × (merge.now.nodes ≤ 8) }
    ensures { Found (take most_pairs (doubts merge.now.nodes merge.now.bound (rows_of merge.now.records.now))) found.old found.new result }
{
    let records = merge.records;
    let mut table = [0u8; merge_letters::TABLE_SIZE];
    merge_letters::fill_table(merge.nodes, &mut table);
    let mut letters = [0u8; log_read::MOST_RECORDS];
    let letters = &mut letters[..records.len()];
    fill_letters(records, letters);
    let mut least = [0u64; log_read::MOST_RECORDS];
    let least = &mut least[..records.len()];
    fill_least(records, least);
    let search = Search {
        merge: *merge,
        table: &table,
        letters,
        least,
    };
    search.collect(found)
}
