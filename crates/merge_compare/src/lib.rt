// Comparing two merges of the same logs: the records of the first list are taken, in turn, out of the second, each past those that are independent of it. The
// places of the second list's records stand in a row; where one is taken, those before it that are left move up.
#![tactic(auto)]

ghost use Rattle.std.specs.Prelude.{◌≡◌, ◌≤◌, ◌<◌, length, get_or};
ghost use Rattle.run_lists.specs.EventList.{record_at, record_count};
ghost use Rattle.merge_letters.specs.Letters.{TableFor};
ghost use Rattle.any_search.specs.Places.{from};
ghost use Rattle.merge_places.specs.Row.{Placed};
ghost use Rattle.merge_compare.specs.Compared.{comparison, compared};
ghost use Rattle.merge_places.specs.Filling.{Lettered};
ghost use Rattle.merge_compare.specs.Obstacles.{hindrance};
ghost use Rattle.merge_compare.specs.Walk.{whole};

use run_lists::EventList;
use step_parts::Refusal;

// What comparing two lists finds. Places count from 1.
#[derive(Clone, Copy, PartialEq, Eq)]
pub enum Verdict {
    // Exchanges of independent neighbours lead from the one list to the other.
    Same,
    // Two dependent records stand in the other order: at p and q in the first list, at r and s in the second.
    Order { p: u32, q: u32, r: u32, s: u32 },
    // The record at this place of the first list is missing in the second.
    OnlyFirst(u32),
    // The record at this place of the second list is missing in the first.
    OnlySecond(u32),
}

// Why two lists are not compared: the first is refused, or the second, or their node counts differ.
#[derive(Clone, Copy, PartialEq, Eq)]
pub enum Refused {
    First(Refusal),
    Second(Refusal),
    NodesDiffer,
}

// Record a of the first list may not pass the record whose place stands at b. From a on, the row has what is left.
fn hindrance(first: EventList, second: EventList, places: &[u16], a: usize, b: usize) -> Verdict
    requires { Placed places.now second.trailer.records × (a < first.trailer.records) × (a ≤ b) × (b < second.trailer.records) }
    ensures { result ≡ hindrance first.entry.trailer.nodes (record_at first.entry.bytes.now) (record_at second.entry.bytes.now) first.entry.trailer.records places.now a (get_or places.now b 0) }
{
    let Some(found) = merge_places::find_left(places, second, a, first.record(a)) else {
        return Verdict::OnlyFirst(a as u32 + 1);
    };
    let place = places[b] as usize;
    let Some(behind) = merge_places::find_record(first, a + 1, second.record(place)) else {
        return Verdict::OnlySecond(place as u32 + 1);
    };
    Verdict::Order {
        p: a as u32 + 1,
        q: behind as u32 + 1,
        r: places[found] as u32 + 1,
        s: place as u32 + 1,
    }
}

// Takes the records of the first list out of the second.
fn walk(
    first: EventList,
    second: EventList,
    letters: &[u8],
    places: &mut [u16],
    table: &[u8],
) -> Verdict
    requires { Lettered second.bytes.now letters.now (record_count second.bytes.now) × (places.old ≡ from 0 second.trailer.records) × TableFor first.trailer.nodes table.now }
    ensures { result ≡ whole first.entry.trailer.nodes (record_at first.entry.bytes.now) (record_at second.entry.bytes.now) first.entry.trailer.records second.entry.trailer.records }
{
    for j in 0..first.trailer.records {
        let event = first.record(j);
        let letter = merge_letters::letter(event.kind, event.node);
        let Some(at) = merge_places::next_stop(letters, places, table, letter, j) else {
            return Verdict::OnlyFirst(j as u32 + 1);
        };
        let met = second.record(places[at] as usize);
        if event != met {
            return hindrance(first, second, places, j, at);
        }
        merge_places::take(places, j, at);
    }
    if first.trailer.records < second.trailer.records {
        return Verdict::OnlySecond(places[first.trailer.records] as u32 + 1);
    }
    Verdict::Same
}

// The same, of letters and places that are yet to be put down.
fn walk_letters(
    first: EventList,
    second: EventList,
    letters: &mut [u8],
    places: &mut [u16],
    table: &[u8],
) -> Verdict
    requires { (length letters.old ≡ second.trailer.records) × (length places.old ≡ second.trailer.records) × TableFor first.trailer.nodes table.now }
    ensures { result ≡ whole first.entry.trailer.nodes (record_at first.entry.bytes.now) (record_at second.entry.bytes.now) first.entry.trailer.records second.entry.trailer.records }
{
    merge_places::fill_letters(second, letters);
    merge_places::fill_places(places);
    walk(first, second, letters, places, table)
}

// Two lists that are not refused, by the node count of the first.
pub fn compare_lists(first: EventList, second: EventList) -> Verdict
    ensures { result ≡ comparison first.entry.bytes.now second.entry.bytes.now }
{
    let mut table = [0u8; merge_letters::TABLE_SIZE];
    merge_letters::fill_table(first.trailer.nodes, &mut table);
    let mut letters = [0u8; run_lists::MOST_RECORDS];
    let mut places = [0u16; run_lists::MOST_RECORDS];
    let records = second.trailer.records;
    walk_letters(
        first,
        second,
        &mut letters[..records],
        &mut places[..records],
        &table,
    )
}

// Compares two event lists as merges of the same logs: whether exchanges of independent neighbours lead from the one to the other, and if not, two dependent
// records that stand in the other order, or a record that one list lacks.
pub fn compare(first: &[u8], second: &[u8]) -> Result<Verdict, Refused>
    ensures { result ≡ compared first.now second.now }
{
    let one = match EventList::read(first) {
        Ok(list) => list,
        Err(refusal) => return Err(Refused::First(refusal)),
    };
    let other = match EventList::read(second) {
        Ok(list) => list,
        Err(refusal) => return Err(Refused::Second(refusal)),
    };
    if one.trailer.nodes != other.trailer.nodes {
        return Err(Refused::NodesDiffer);
    }
    Ok(compare_lists(one, other))
}
