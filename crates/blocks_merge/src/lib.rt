// The branches of a statement: the numbers for one, and the merge of the states behind them.
// Throughout, rows has the places of joined states, and pl is where a walk has come to, both lent.
#![tactic(auto)]

ghost use Rattle.std.specs.Prelude.{◌≡◌, true, false, ℕ, ◌≤◌, ◌<◌, length, get_or};
ghost use Rattle.rules.specs.Rules.{switches_of};
ghost use Rattle.scope_stack.specs.View.{row_of, Known};
ghost use Rattle.scope_rows.specs.Rows.{Copied, Copies};
ghost use Rattle.blocks_ends.specs.Ends.{fault_in, sure_in};
ghost use Rattle.blocks_merge.specs.Merges.{behind_of, looped_of, Branches, MergesIn, MergesElse};

use blocks_ends::{Env, Walk};
use scope_stack::States;
use scope_state::Kinds;

// The numbers for a branch, whose rows stand behind those of n locals.
pub fn behind(env: Env, n: usize) -> Env
    requires { (n ≤ 64) × (env.width ≡ 8) × (env.cur < 4294967296) }
    ensures { result ≡ behind_of env n }
{
    Env {
        cur: env.cur + n * (env.width + 1),
        ..env
    }
}

// The numbers for the block of a statement of a tag behind n locals: a While's is the body of the nearest loop.
pub fn in_loop(env: Env, tag: u8, n: usize) -> Env
    ensures { result ≡ looped_of env tag n }
{
    if tag != 8 {
        return env;
    }
    Env { base: n, ..env }
}

// A branch starts from the rows of the stack before it, copied to its own; or false, where the rows end before one that is needed.
pub fn branch_rows(kinds: &Kinds, n: usize, rows: &mut [u32], env: Env, to: usize) -> bool
    requires { Copied n env.width kinds.now rows.old env.cur to }
    ensures { Copies n env.width kinds.now rows.old env.cur to result rows.new }
{
    scope_rows::copy_rows(kinds, n, rows, env.cur, to, env.width)
}

// The rows of n locals, back to where those of the stack begin.
fn copy_back(kinds: &Kinds, n: usize, rows: &mut [u32], src: usize, cur: usize, width: usize)
    requires { (n ≤ 64) × (width ≡ 8) × ((i : ℕ) → i < n → Known rows.old width (row_of src width i) (get_or kinds.now i 0))
        × ((src ≡ cur → ⊥) → row_of cur width n ≤ src) × (src < 4294968000) }
    ensures { Copies n width kinds.now rows.old src cur true rows.new }
{
    if src != cur {
        scope_rows::copy_rows(kinds, n, rows, src, cur, width);
    }
}

// merge_control_flow_states: the states after two branches of n locals, whether each surely returns, the first's rows behind the base's,
// the other's at b.
fn merge_control_flow_states(
    then_returns: bool,
    else_returns: bool,
    base: States,
    first: States,
    other: States,
    n: usize,
    rows: &mut [u32],
    env: Env,
    b: usize,
    pl: &mut Walk,
) -> States
    requires { Branches n base first other rows.old env.cur env.width b × (fault_in pl.old ≡ 0) }
    ensures { MergesIn (switches_of env.switches) then_returns else_returns n base first other rows.old env.cur env.width b pl.old result rows.new pl.new }
{
    let a = behind(env, n);
    if then_returns {
        if else_returns {
            return base;
        }
        copy_back(&other.kinds, n, rows, b, env.cur, env.width);
        return other;
    }
    if else_returns {
        copy_back(&first.kinds, n, rows, a.cur, env.cur, env.width);
        return first;
    }
    let keeps = statements_acts::has_switch(env.switches, 4);
    match scope_rows::join(first, other, n, rows, a.cur, b, env.width, keeps) {
        Ok(joined) => {
            copy_back(&joined.kinds, n, rows, a.cur, env.cur, env.width);
            joined
        }
        Err(stop) => {
            pl.stop = Some(stop);
            base
        }
    }
}

// The merge behind a block that has no other: first's, which pl says of whether it surely returns.
pub fn merge_first(
    base: States,
    first: States,
    n: usize,
    rows: &mut [u32],
    env: Env,
    pl: &mut Walk,
) -> States
    requires { Branches n base first base rows.old env.cur env.width env.cur × (fault_in pl.old ≡ 0) }
    ensures { MergesIn (switches_of env.switches) (sure_in pl.old) false n base first base rows.old env.cur env.width env.cur pl.old result rows.new pl.new }
{
    let sure = pl.sure;
    merge_control_flow_states(sure, false, base, first, base, n, rows, env, env.cur, pl)
}

// The merge behind else's block, which pl tells of, with its rows at b; where that block has a fault, its states as they are.
pub fn merge_else(
    sure: bool,
    base: States,
    first: States,
    other: States,
    n: usize,
    rows: &mut [u32],
    env: Env,
    b: usize,
    pl: &mut Walk,
) -> States
    requires { fault_in pl.old ≡ 0 → Branches n base first other rows.old env.cur env.width b }
    ensures { MergesElse (switches_of env.switches) «sure» n base first other rows.old env.cur env.width b pl.old result rows.new pl.new }
{
    if pl.stop.is_some() {
        return other;
    }
    let else_sure = pl.sure;
    merge_control_flow_states(sure, else_sure, base, first, other, n, rows, env, b, pl)
}
