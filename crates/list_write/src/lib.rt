// The writer of event lists: steps and a node count in, a list with its trailer out.
#![tactic(auto)]

ghost use Rattle.std.specs.Prelude.{◌≡◌, IfOk};
ghost use Rattle.step_parts.specs.Answers.{code_of};
ghost use Rattle.list_write.specs.Write.{steps_in, fault_of, first_fault, write_refusal, wrote, return_of};

use step_asks::Ask;
use step_parts::Refusal;

// In place of a node that is missing. There is no such node.
const MISSING: u8 = 255;

// What is returned to a C host for a list without steps, less its length.
const WROTE: u32 = 256;

// Whether a step is good, or why not: there is no such kind, or it does not call for this node.
pub fn check_step(nodes: u8, kind: u8, node: u8) -> Result<(), Refusal>
    ensures { code_of result ≡ fault_of nodes (record { kind = kind; node = node }) }
{
    step_asks::check_exists(Ask {
        count: nodes,
        running: true,
        kind,
        node,
    })
}

// Whether every step is good, or why the first bad one is not.
fn check_steps(nodes: u8, steps: &[u8]) -> Result<(), Refusal>
    ensures { code_of result ≡ first_fault nodes (steps_in steps.now) }
{
    // Whole steps first: with `chunks(2)` each step was asked whether it is cut short, for nearly half as many instructions again.
    for i in 0..steps.len() / 2 {
        check_step(nodes, steps[2 * i], steps[2 * i + 1])?;
    }
    if steps.len() % 2 == 1 {
        check_step(nodes, steps[steps.len() - 1], MISSING)?;
    }
    Ok(())
}

// Whether the list can be written, with so much room for it, or why not.
fn check_list(nodes: u8, steps: &[u8], room: usize) -> Result<(), Refusal>
    ensures { code_of result ≡ write_refusal nodes (steps_in steps.now) room }
{
    if !step_parts::is_node(step_parts::MOST_NODES, nodes) {
        return Err(Refusal::BadNodeCount);
    }
    check_steps(nodes, steps)?;
    if 2 * run_lists::MOST_RECORDS < steps.len() {
        return Err(Refusal::BadLength);
    }
    if room < steps.len() + run_lists::TRAILER_LENGTH {
        return Err(Refusal::OutTooShort);
    }
    Ok(())
}

// Writes the list at the front of the buffer, and says how many bytes it has. A refusal leaves every byte of the buffer.
pub fn write(nodes: u8, steps: &[u8], out: &mut [u8]) -> Result<usize, Refusal>
    ensures code { code_of result ≡ (wrote nodes steps.now out.old).code }
    ensures length { IfOk result (λ n. n ≡ (wrote nodes steps.now out.old).length) }
    ensures out { out.new ≡ (wrote nodes steps.now out.old).out }
{
    check_list(nodes, steps, out.len())?;
    let at = any_text::put_word(out, 0, steps);
    let trailer = run_lists::trailer_bytes(steps.len() / 2, nodes);
    Ok(any_text::put_word(out, at, &trailer))
}

// The same for a C host: 256 plus the length, or the refusal.
pub fn write_call(nodes: u32, steps: &[u8], out: &mut [u8]) -> u32
    ensures { (result ≡ return_of (wrote nodes steps.now out.old))
        × (out.new ≡ (wrote nodes steps.now out.old).out) }
{
    let Ok(count) = u8::try_from(nodes) else {
        return Refusal::BadNodeCount as u32;
    };
    match write(count, steps, out) {
        Ok(length) => WROTE + length as u32,
        Err(refusal) => refusal as u32,
    }
}
