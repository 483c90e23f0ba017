// The stack that effects ask.

ghost use Rattle.expressions_scan.specs.States.{AllKept};

use scope_stack::{Locals, States};

// The locals and their states, the rows of those with several places, where the rows begin, and the places that a row has room for.
#[derive(Clone, Copy)]
pub struct Stack<'a> {
    pub l: &'a Locals,
    pub t: &'a States,
    pub rows: &'a [u32],
    pub cur: usize,
    pub width: usize,
    pub ghost kept: { AllKept t.now.kinds t.now.firsts rows.now cur width l.now.count },
}
