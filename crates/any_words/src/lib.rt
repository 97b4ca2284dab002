// The lines of a text, the words of a line, and the numbers that words say.
#![tactic(auto)]

ghost use Rattle.std.specs.Prelude.{◌≡◌, ◌≤◌, eqb, length, get_or};
ghost use Rattle.any_search.specs.Seek.{Sought};
ghost use Rattle.any_words.specs.Text.{is_blank, same, number_of};
ghost use Rattle.any_words.specs.Words.{blank_is};

// ---- bytes

// A space, a tab or a carriage return.
pub fn is_blank(byte: u8) -> bool
    ensures { result ≡ is_blank byte }
{
    (byte == b' ') | (byte == b'\t') | (byte == b'\r')
}

// The next place of a byte, or the end. No Option, here and below: docs/DECISIONS.md names both functions, and their clauses say the end.
pub fn next_byte(text: &[u8], start: usize, byte: u8) -> usize
    requires { start ≤ length text.now }
    ensures { Sought (λ k. eqb (get_or text.now k 0) byte) start (length text.now) result }
{
    match text[start..].iter().position(|other| *other == byte) {
        Some(steps) => start + steps,
        None => text.len(),
    }
}

// The next byte that is blank, or that is not, or the end.
pub fn next_where(line: &[u8], start: usize, blank: bool) -> usize
    requires { start ≤ length line.now }
    ensures { Sought (blank_is blank line.now) start (length line.now) result }
{
    match line[start..]
        .iter()
        .position(|byte| is_blank(*byte) == blank)
    {
        Some(steps) => start + steps,
        None => line.len(),
    }
}

// Whether two words are the same.
pub fn same(word: &[u8], other: &[u8]) -> bool
    ensures { result ≡ same word.now other.now }
{
    word == other
}

// ---- numbers

// A word of at most 19 digits says a number, which fits.
pub fn read_number(word: &[u8]) -> Option<u64>
    ensures { result ≡ number_of word.now }
{
    if 19 < word.len() {
        return None;
    }
    let mut value: u64 = 0;
    for byte in word {
        if !byte.is_ascii_digit() {
            return None;
        }
        value = 10 * value + u64::from(*byte - b'0');
    }
    Some(value)
}
