// The ownership pass over the bytes of an image: blocks and branches.
// Throughout, tb has the tables of the image s, rows the places of joined states, nodes the open
// nodes of the values that are scanned, and pl where a walk has come to, all lent.
#![tactic(auto)]

ghost use Rattle.std.specs.Prelude.{◌≡◌, true, false, ℕ, suc, ◌+◌, ◌-◌, ◌*◌, ◌≤◌, ◌<◌, length};
ghost use Rattle.std.proofs.Math.Option.{Option};
ghost use Rattle.tables.specs.Tables.{Tables};
ghost use Rattle.tables_lookup.specs.Lent.{Says};
ghost use Rattle.rules.specs.Rules.{switches_of};
ghost use Rattle.image_writing.specs.Memory.{memory};
ghost use Rattle.statements_returns.specs.Returns.{BlockThere};
ghost use Rattle.scope_stack.specs.View.{row_of, view};
ghost use Rattle.blocks_laws.specs.Walks.{TagThere, TagWalks, BlockWalks, blocked};
ghost use Rattle.blocks_ends.specs.Ends.{place_in, fault_in, sure_in, walked_in};
ghost use Rattle.blocks_merge.specs.Merges.{RowsStand};
ghost use Rattle.blocks.specs.Blocks.{InLoop, Enters, Comes, block_rows, stmt_rows, ElseMerges};

use blocks_ends::{Env, Walk};
use expressions_steps::Nodes;
use image_fields::Fault;
use scope_rows::Stop;
use scope_stack::{Locals, States};
use statements_changes::Turn;

// The second block of an IfElse, and what is left of both.
#[cycle(transform_block_transform_blocks_transform_else)]
fn transform_else(
    s: &[u8],
    tb: &[u32],
    env: Env,
    first: States,
    l: Locals,
    st: States,
    rows: &mut [u32],
    nodes: &mut Nodes,
    out: &mut [u8],
    errs: &mut [u32],
    warns: &mut [u32],
    lefts: &mut [u32],
    pl: &mut Walk,
) -> States
    requires { Enters s.now tb.now env l st rows.old (place_in pl.old) × BlockThere s.now env.left (place_in pl.old).at
        × (env.cur + 1152 ≤ 1152 * (12 - env.left)) × RowsStand l.count first rows.old (row_of env.cur env.width l.count) env.width × (length nodes.old ≡ 26) }
    ensures comes { Comes s.now tb.now env.cur env.width (stmt_rows env.cur env.left) l rows.old (place_in pl.old) result rows.new pl.new × (length nodes.new ≡ 26) }
    ensures else_merges { (T : Tables) → Says s.now tb.now T → (loop : Option ℕ) → InLoop loop env.base (suc (12 - env.left)) l → (fault_in pl.new ≡ 254 → ⊥)
        → ElseMerges (switches_of env.switches) T s.now env.left (12 - env.left) loop (sure_in pl.old) (view l st rows.old env.cur env.width) (view l first rows.old (row_of env.cur env.width l.count) env.width)
        (place_in pl.old) (memory out.old errs.old warns.old lefts.old) (walked_in pl.new (view l result rows.new env.cur env.width)) (memory out.new errs.new warns.new lefts.new) }
{
    let n = l.count;
    let sure = pl.sure;
    let b = blocks_merge::behind(blocks_merge::behind(env, n), n);
    if !blocks_merge::branch_rows(&st.kinds, n, rows, env, b.cur) {
        pl.stop = Some(Stop::Rows);
        return st;
    }
    let other = transform_block(s, tb, b, l, st, rows, nodes, out, errs, warns, lefts, pl);
    blocks_merge::merge_else(sure, st, first, other, n, rows, env, b.cur, pl)
}

// The blocks of a statement of a tag.
#[cycle(transform_block_transform_blocks_transform_else)]
fn transform_blocks(
    s: &[u8],
    tb: &[u32],
    env: Env,
    tag: u8,
    l: Locals,
    st: States,
    rows: &mut [u32],
    nodes: &mut Nodes,
    out: &mut [u8],
    errs: &mut [u32],
    warns: &mut [u32],
    lefts: &mut [u32],
    pl: &mut Walk,
) -> States
    requires { Enters s.now tb.now env l st rows.old (place_in pl.old) × TagThere s.now env.left (place_in pl.old).at tag × (blocked tag ≡ true)
        × (env.cur + 1152 ≤ 1152 * (12 - env.left)) × (length nodes.old ≡ 26) }
    ensures comes { Comes s.now tb.now env.cur env.width (stmt_rows env.cur env.left) l rows.old (place_in pl.old) result rows.new pl.new × (length nodes.new ≡ 26) }
    ensures tag_walks { (T : Tables) → Says s.now tb.now T → (loop : Option ℕ) → InLoop loop env.base (suc (12 - env.left)) l → (fault_in pl.new ≡ 254 → ⊥)
        → TagWalks (switches_of env.switches) T s.now env.left (12 - env.left) loop tag (view l st rows.old env.cur env.width)
        (place_in pl.old) (memory out.old errs.old warns.old lefts.old) (walked_in pl.new (view l result rows.new env.cur env.width)) (memory out.new errs.new warns.new lefts.new) }
{
    if tag == 1 {
        return transform_block(s, tb, env, l, st, rows, nodes, out, errs, warns, lefts, pl);
    }
    let n = l.count;
    let a = blocks_merge::in_loop(blocks_merge::behind(env, n), tag, n);
    if !blocks_merge::branch_rows(&st.kinds, n, rows, env, a.cur) {
        pl.stop = Some(Stop::Rows);
        return st;
    }
    let first = transform_block(s, tb, a, l, st, rows, nodes, out, errs, warns, lefts, pl);
    if pl.stop.is_some() {
        return first;
    }
    if blocks_ends::else_follows(s, tag, out, pl) {
        return transform_else(
            s, tb, env, first, l, st, rows, nodes, out, errs, warns, lefts, pl,
        );
    }
    blocks_merge::merge_first(st, first, n, rows, env, pl)
}

// A block, with so much depth left: the one loop that owns the stack.
#[cycle(transform_block_transform_blocks_transform_else)]
pub fn transform_block(
    s: &[u8],
    tb: &[u32],
    env: Env,
    outer: Locals,
    states: States,
    rows: &mut [u32],
    nodes: &mut Nodes,
    out: &mut [u8],
    errs: &mut [u32],
    warns: &mut [u32],
    lefts: &mut [u32],
    pl: &mut Walk,
) -> States
    requires { Enters s.now tb.now env outer states rows.old (place_in pl.old) × BlockThere s.now env.left (place_in pl.old).at
        × (env.cur ≤ 1152 * (12 - env.left)) × (length nodes.old ≡ 26) }
    ensures comes { Comes s.now tb.now env.cur env.width (block_rows env.cur env.left) outer rows.old (place_in pl.old) result rows.new pl.new × (length nodes.new ≡ 26) }
    ensures block_walks { (T : Tables) → Says s.now tb.now T → (loop : Option ℕ) → InLoop loop env.base (suc (12 - env.left)) outer → (fault_in pl.new ≡ 254 → ⊥)
        → BlockWalks (switches_of env.switches) T s.now env.left (suc (12 - env.left)) loop (view outer states rows.old env.cur env.width)
        (place_in pl.old) (memory out.old errs.old warns.old lefts.old) (walked_in pl.new (view outer result rows.new env.cur env.width)) (memory out.new errs.new warns.new lefts.new) }
{
    let start = pl.place;
    let e = blocks_ends::inner(env);
    let depth = (12 - e.left) as u8;
    let mut l = outer;
    let mut st = states;
    let mut c = blocks_ends::head(s, start, out);
    loop {
        let mark = scope_stack::mark_of(st.alive, l.dtors);
        let r = statements_changes::next_change(
            s,
            tb,
            blocks_ends::scanning(e, mark),
            &l,
            &st,
            &*rows,
            nodes,
            c,
            out,
            errs,
            warns,
            lefts,
        );
        c = r.cursor;
        match r.turn {
            Turn::Over => {
                blocks_ends::end_block(
                    s,
                    env.switches,
                    env.left,
                    start,
                    c.place,
                    &l,
                    mark,
                    outer.count,
                    out,
                    pl,
                );
                return st.leave(outer.count, l.count);
            }
            Turn::Mark(m) => {
                st = st.mark(&l, m.name, m.kind, m.place, m.only_alive);
            }
            Turn::Register(name, ty, born) => {
                if blocks_ends::full(env, l.count) {
                    pl.stop = Some(Stop::Fault(Fault::Locals));
                    return st;
                }
                l = l.register_local(
                    name,
                    ty,
                    depth,
                    born,
                    tables_lookup::auto_deleted(tb, ty as usize),
                );
                if scope_stack::needs_revival(&l, st.alive, name, depth) {
                    st = st.mark(&l, name, 0, 0, false);
                }
            }
            Turn::Blocks(tag) => {
                *pl = Walk {
                    place: c.place,
                    stop: None,
                    sure: false,
                };
                st = transform_blocks(
                    s, tb, e, tag, l, st, rows, nodes, out, errs, warns, lefts, pl,
                );
                if pl.stop.is_some() {
                    return st;
                }
                c = blocks_ends::resumed(c.left, &*pl);
            }
        }
    }
}
