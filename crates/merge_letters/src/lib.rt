// A letter for each step, and a table of the letters that are independent: what a walk over many records asks at each of them.
#![tactic(auto)]

ghost use Rattle.std.specs.Prelude.{◌≡◌, ◌/◌, ◌%◌, ◌<◌, length};
ghost use Rattle.merge_independence.specs.Asks.{event};
ghost use Rattle.merge_letters.specs.Letters.{table_size, letter_of, may_pass, bit, TableFor};

// How long the table is.
pub const TABLE_SIZE: usize = 32768;

// The letter of a step; 0 for one of no kind or node that there is.
pub fn letter(kind: u8, node: u8) -> u8
    ensures { result ≡ letter_of (event kind node) }
{
    if kind < 14 && node < 9 {
        return 9 * kind + node;
    }
    0
}

// What stands at a place of the table.
fn entry(nodes: u8, at: usize) -> u8
    requires { at < table_size }
    ensures { result ≡ bit (may_pass nodes (at / 256) (at % 256)) }
{
    let a = at / 256;
    let b = at % 256;
    let free = merge_independence::independent(
        nodes,
        (a / 9) as u8,
        (a % 9) as u8,
        (b / 9) as u8,
        (b % 9) as u8,
    );
    u8::from(free)
}

// Fills the table for `nodes` nodes.
pub fn fill_table(nodes: u8, table: &mut [u8])
    requires { length table.old ≡ table_size }
    ensures { TableFor nodes table.new }
{
    for (i, place) in table.iter_mut().enumerate() {
        *place = entry(nodes, i);
    }
}
