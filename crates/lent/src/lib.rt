// Forms over lent memory (document 01, "What changes shape"): a stack that is changed in place, and errors as records.
#![tactic(auto)]

ghost use Rattle.std.specs.Prelude.{◌≡◌, [], ◌∷◌, ◌≤◌, ◌<◌, ◌+◌, ◌*◌, length};
ghost use Rattle.scope_state.specs.Kinds.{said, put};
ghost use Rattle.lent.specs.Changed.{Whole, Marked, Registered};
ghost use Rattle.lent.specs.Records.{record_at, Writes, told_by};

use image_fields::Fault;
use scope_stack::{Locals, States};

// The scope stack; the places of a state that has several stand in rows elsewhere, which no function here needs.
#[derive(Clone, Copy, PartialEq, Eq)]
pub struct Stack {
    pub locals: Locals,
    pub states: States,
}

// An error as C has it: of the places, the first count.
// Kind and hint are numbers: the struct is C's.
#[repr(C)]
#[derive(Clone, Copy)]
pub struct Report {
    pub kind: u32,
    pub place: u32,
    pub hint: u32,
    pub count: u32,
    pub places: [u32; 8],
}

// Kind 0 is Alive, 1 deleted, 2 moved, 3 consumed; a temporary that is taken over has 2, where `only_alive`.
pub fn mark(stack: &mut Stack, name: u16, kind: u8, place: u32, only_alive: bool)
    requires { Whole stack.old × (kind < 7) }
    ensures { Marked stack.old name (put only_alive (said kind (place ∷ []))) stack.new }
{
    stack.states = stack
        .states
        .mark(&stack.locals, name, kind, place, only_alive);
}

// False: 64 locals are there, and the stack is as it was.
pub fn register_local(
    stack: &mut Stack,
    name: u16,
    ty: u16,
    depth: u8,
    born: u32,
    dtor: bool,
) -> bool
    requires { Whole stack.old }
    ensures { Registered stack.old name ty depth born dtor result stack.new }
{
    if 64 <= stack.locals.count {
        return false;
    }
    stack.locals = stack.locals.register_local(name, ty, depth, born, dtor);
    if scope_stack::needs_revival(&stack.locals, stack.states.alive, name, depth) {
        stack.states = stack.states.mark(&stack.locals, name, 0, 0, false);
    }
    true
}

// The record of an error, by its number.
fn report_at(numbers: &[u32], i: usize) -> Report
    requires { 12 * i + 12 ≤ length numbers.now }
    ensures { result ≡ record_at numbers.now i }
{
    let entry = &numbers[12 * i..12 * i + 12];
    Report {
        kind: entry[0],
        place: entry[1],
        hint: entry[2],
        count: entry[3],
        places: [
            entry[4], entry[5], entry[6], entry[7], entry[8], entry[9], entry[10], entry[11],
        ],
    }
}

// The records of the first count errors; refused, where there are fewer structs than errors, or fewer numbers than they have, nothing changes.
pub fn write_reports(numbers: &[u32], count: usize, reports: &mut [Report]) -> Result<(), Fault>
    ensures { Writes numbers.now count reports.old reports.new (told_by result) }
{
    if reports.len() < count || numbers.len() / 12 < count {
        return Err(Fault::Lists);
    }
    for i in 0..count {
        reports[i] = report_at(numbers, i);
    }
    Ok(())
}

#[unsafe(no_mangle)]
pub extern "C" fn ownership_reports(numbers: &[u32], count: usize, reports: &mut [Report]) -> u32
    ensures { Writes numbers.now count reports.old reports.new result }
{
    match write_reports(numbers, count, reports) {
        Ok(()) => 0,
        Err(fault) => u32::from(fault),
    }
}
