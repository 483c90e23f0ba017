// Runs the functions of `lent` that change a lent stack beside those of `scope_stack` by value, on registrations and marks that a generator
// picks, and compares all of the two stacks after every step. Prints what was done and how many steps differ.
#![tactic(auto)]

ghost use Rattle.std.specs.Prelude.{[], ◌∷◌, ◌<◌, true, false, MatchResult};
ghost use Rattle.scope_state.specs.Kinds.{said, put};
ghost use Rattle.lent.specs.Changed.{Whole, Marked, Registered};

use lent::Stack;
use scope_stack::{Locals, States};
use std::io;

// The stack after a step, or the one that refused it, as it was.
type After = Result<Stack, Stack>;

// A registration: name, type, depth, birth and whether the type has a destructor. A mark: name and place.
#[derive(Clone, Copy)]
enum Step {
    Register(u16, u16, u8, u32, bool),
    Deleted(u16, u32),
    Moved(u16, u32),
    Consumed(u16, u32),
    Alive(u16),
    HandedOver(u16, u32),
}

// How many steps there were, how many of each kind, how many marks changed the stack, the most locals, and how many steps differ.
#[derive(Clone, Copy)]
struct Tally {
    steps: u64,
    registered: u64,
    refused: u64,
    marks: u64,
    changed: u64,
    most: usize,
    differ: u64,
}

// A stack lent to each function of `lent`, and given back.
fn mark(mut stack: Stack, name: u16, kind: u8, place: u32, only_alive: bool) -> Stack
    requires { Whole stack × (kind < 7) }
    ensures { Marked stack name (put only_alive (said kind (place ∷ []))) result }
{
    lent::mark(&mut stack, name, kind, place, only_alive);
    stack
}

fn register_local(mut stack: Stack, name: u16, ty: u16, depth: u8, born: u32, dtor: bool) -> After
    requires { Whole stack }
    ensures { MatchResult result (Registered stack name ty depth born dtor true) (Registered stack name ty depth born dtor false) }
{
    if lent::register_local(&mut stack, name, ty, depth, born, dtor) {
        Ok(stack)
    } else {
        Err(stack)
    }
}

// By value.
fn mark_by_value(old: Stack, name: u16, kind: u8, place: u32, only_alive: bool) -> Stack
    requires { Whole old × (kind < 7) }
    ensures { Marked old name (put only_alive (said kind (place ∷ []))) result }
{
    Stack {
        locals: old.locals,
        states: old.states.mark(&old.locals, name, kind, place, only_alive),
    }
}

// By value, the frame marked Alive whether or not that changes it.
fn register_by_value(old: Stack, name: u16, ty: u16, depth: u8, born: u32, dtor: bool) -> After
    requires { Whole old }
    ensures { MatchResult result (Registered old name ty depth born dtor true) (Registered old name ty depth born dtor false) }
{
    if 64 <= old.locals.count {
        return Err(old);
    }
    let locals = old.locals.register_local(name, ty, depth, born, dtor);
    Ok(Stack {
        locals: locals,
        states: old.states.mark(&locals, name, 0, 0, false),
    })
}

fn by_value(stack: Stack, step: Step) -> After
    requires { Whole stack }
    ensures { MatchResult result Whole Whole }
{
    match step {
        Step::Register(name, ty, depth, born, dtor) => register_by_value(
            stack, name, ty, depth, born, dtor,
        ),
        Step::Deleted(name, place) => Ok(mark_by_value(stack, name, 1, place, false)),
        Step::Moved(name, place) => Ok(mark_by_value(stack, name, 2, place, false)),
        Step::Consumed(name, place) => Ok(mark_by_value(stack, name, 3, place, false)),
        Step::Alive(name) => Ok(mark_by_value(stack, name, 0, 0, false)),
        Step::HandedOver(name, place) => Ok(mark_by_value(stack, name, 2, place, true)),
    }
}

// As by_value, over the other functions: that the two are set beside each other is the program.
fn in_place(stack: Stack, step: Step) -> After
    requires { Whole stack }
    ensures { MatchResult result Whole Whole }
{
    match step {
        Step::Register(name, ty, depth, born, dtor) => register_local(
            stack, name, ty, depth, born, dtor,
        ),
        Step::Deleted(name, place) => Ok(mark(stack, name, 1, place, false)),
        Step::Moved(name, place) => Ok(mark(stack, name, 2, place, false)),
        Step::Consumed(name, place) => Ok(mark(stack, name, 3, place, false)),
        Step::Alive(name) => Ok(mark(stack, name, 0, 0, false)),
        Step::HandedOver(name, place) => Ok(mark(stack, name, 2, place, true)),
    }
}

// The next number of a linear congruential sequence.
fn next_number(x: u64) -> u64
    requires { x < 2147483648 }
    ensures { result < 2147483648 }
{
    (x * 1103515245 + 12345) % 2147483648
}

// A step by two such numbers: half of them registrations, of 11 names at 5 depths.
fn step_of(a: u64, b: u64) -> Step
    requires { b < 2147483648 }
{
    let name = (a / 1024 % 11) as u16;
    let place = b as u32;
    let kind = a / 65536 % 10;
    match kind {
        0 => Step::Deleted(name, place),
        1 => Step::Moved(name, place),
        2 => Step::Consumed(name, place),
        3 => Step::Alive(name),
        4 => Step::HandedOver(name, place),
        _ => Step::Register(
            name,
            (b / 1024 % 300) as u16,
            (b / 65536 % 5) as u8,
            place,
            b / 1024 % 2 == 0,
        ),
    }
}

// One more, up to a million.
fn one_more(n: u64) -> u64 {
    if n < 1000000 { n + 1 } else { n }
}

fn stack_of(after: After) -> Stack
    requires { MatchResult after Whole Whole }
    ensures { Whole result }
{
    match after {
        Ok(stack) => stack,
        Err(stack) => stack,
    }
}

// With a step on the stack `old` that came to a by value and to b in place. Stacks are compared in all their fields, past their locals too.
fn counted(mut t: Tally, step: Step, old: Stack, a: After, b: After) -> Tally
    requires { MatchResult a Whole Whole }
{
    let new = stack_of(a);
    t.steps = one_more(t.steps);
    t.most = t.most.max(new.locals.count);
    if a != b {
        t.differ = one_more(t.differ);
    }
    match step {
        Step::Register(_, _, _, _, _) => match a {
            Ok(_) => t.registered = one_more(t.registered),
            Err(_) => t.refused = one_more(t.refused),
        },
        _ => {
            t.marks = one_more(t.marks);
            if old != new {
                t.changed = one_more(t.changed);
            }
        }
    }
    t
}

fn empty() -> Stack
    ensures { Whole result }
{
    Stack {
        locals: Locals::new(),
        states: States::new(),
    }
}

// So many steps from an empty stack.
fn run(seed: u64, steps: usize, before: Tally) -> Tally
    requires { seed < 2147483648 }
{
    let mut t = before;
    let mut value = empty();
    let mut lent = empty();
    let mut x = seed;
    for _ in 0..steps {
        let a = next_number(x);
        x = next_number(a);
        let step = step_of(a, x);
        let v = by_value(value, step);
        let l = in_place(lent, step);
        t = counted(t, step, value, v, l);
        value = stack_of(v);
        lent = stack_of(l);
    }
    t
}

fn print(rt: &impl Print, n: u64, text: &[u8]) -> io::Result<()> {
    rt.print(n)?;
    rt.write_all(text)
}

fn main(rt: HostRuntime) -> io::Result<()> {
    let mut t = Tally {
        steps: 0,
        registered: 0,
        refused: 0,
        marks: 0,
        changed: 0,
        most: 0,
        differ: 0,
    };
    for seed in 1..9 {
        t = run(seed, 200, t);
    }
    print(&rt, t.steps, b" steps: ")?;
    print(&rt, t.registered, b" registrations, ")?;
    print(&rt, t.refused, b" refused, ")?;
    print(&rt, t.marks, b" marks, ")?;
    print(&rt, t.changed, b" of which changed the stack; ")?;
    print(&rt, t.most as u64, b" locals at most; ")?;
    print(&rt, t.differ, b" differ\n")
}
