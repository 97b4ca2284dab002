// A search for the pairs that are in doubt.
ghost use Rattle.std.specs.Prelude.{◌≡◌, ◌+◌, ◌-◌, ◌≤◌, ◌<◌, length, take};
ghost use Rattle.log_records.specs.Rows.{row_at, rows_of};
ghost use Rattle.log_doubts.specs.Doubts.{in_doubt, doubt_at, doubts};
ghost use Rattle.log_doubts.specs.Index.{Index};
ghost use Rattle.log_doubts.specs.Search.{pairs_at};
ghost use Rattle.log_doubts.specs.Found.{most_pairs, Found, Added};

use crate::{MOST_PAIRS, Pair};
use log_records::Merge;

// A merge, and what is made once for a search in it (see specs/Index): the table of letters that may pass one another, the letters of the records, and the
// least times.
#[derive(Clone, Copy)]
pub(crate) struct Search<'a> {
    pub(crate) merge: Merge<'a>,
    pub(crate) table: &'a [u8],
    pub(crate) letters: &'a [u8],
    pub(crate) least: &'a [u64],
    ghost index: { Index merge.nodes merge.records.now table.now letters.now least.now },
}

impl Search<'_> {
    // Whether two records are in doubt. Most are independent, so their letters are asked first.
    #[inline(always)]
    fn in_doubt(&self, x: usize, y: usize) -> bool
        requires { (x < length self.now.merge.records.now) × (y < length self.now.merge.records.now) }
        ensures { result ≡ in_doubt self.now.merge.nodes self.now.merge.bound (row_at self.now.merge.records.now x) (row_at self.now.merge.records.now y) }
    {
        let (first, second) = (self.letters[x] as usize, self.letters[y] as usize);
        if self.table[256 * first + second] == 1 {
            return false;
        }
        let (first, second) = (&self.merge.records[x], &self.merge.records[y]);
        first.log != second.log
            && log_records::may_precede(second.time, first.time, self.merge.bound)
    }

    // Puts the pairs in doubt of which record x is the first behind those that were found, as far as there is room. Where no time that is left is early enough,
    // there are no more. Gives the number of pairs that are found.
    fn collect_with(&self, x: usize, found: &mut [Pair; MOST_PAIRS], found_before: usize) -> usize
        requires { (x < length self.now.merge.records.now) × (found_before < most_pairs) }
        ensures { Added (take (most_pairs - found_before) (pairs_at (doubt_at self.now.merge.nodes self.now.merge.bound (rows_of self.now.merge.records.now)) (length self.now.merge.records.now) x (x + 1)))
            found.old found.new found_before result }
    {
        let time = self.merge.records[x].time;
        let mut count = found_before;
        for y in x + 1..self.merge.records.len() {
            if !log_records::may_precede(self.least[y], time, self.merge.bound) {
                return count;
            }
            if self.in_doubt(x, y) {
                found[count] = Pair { x, y };
                count += 1;
                if count == MOST_PAIRS {
                    return count;
                }
            }
        }
        count
    }

    // Puts down the first pairs in doubt. Gives the number of pairs.
    pub(crate) fn collect(&self, found: &mut [Pair; MOST_PAIRS]) -> usize
        ensures { Found (take most_pairs (doubts self.now.merge.nodes self.now.merge.bound (rows_of self.now.merge.records.now))) found.old found.new result }
    {
        let mut count = 0;
        for x in 0..self.merge.records.len() {
            if count == MOST_PAIRS {
                return count;
            }
            count = self.collect_with(x, found, count);
        }
        count
    }
}
