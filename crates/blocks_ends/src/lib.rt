// What stands before, between and behind the blocks of a body: a head, a flag, an end.
// Throughout, pl is where a walk has come to, and l has the locals, both lent.
#![tactic(auto)]

ghost use Rattle.std.specs.Prelude.{◌≡◌, true, false, List, ℕ, suc, ◌+◌, ◌-◌, ◌≤◌, ◌<◌, length, eqb, get_or};
ghost use Rattle.tables.specs.Tables.{Tables};
ghost use Rattle.rules.specs.State.{State as Status};
ghost use Rattle.rules.specs.Rules.{Switches, switches_of};
ghost use Rattle.rules.specs.Stack.{pop, Stack as Scope};
ghost use Rattle.image_writing.specs.Stored.{Stored};
ghost use Rattle.statements_steps.specs.Drops.{delete_bytes};
ghost use Rattle.statements_returns.specs.Returns.{StmtThere};
ghost use Rattle.statements_acts.specs.Act.{Within};
ghost use Rattle.statements_changes.specs.Turns.{between_of};
ghost use Rattle.statements_acts.specs.Marks.{lent, Marked};
ghost use Rattle.blocks_laws.specs.Ends.{LastReturns, tail, Ends};
ghost use Rattle.blocks_laws.specs.Places.{headed};
ghost use Rattle.blocks_ends.specs.Ends.{place_in, walked_in, inner_of, Heads, Loops, Flags, first_of, Due, Frame, EndThere, Ended};

use scope_rows::Stop;
use scope_stack::Locals;
use statements_acts::Place;
use statements_changes::Cursor;

// How much depth is left for blocks, how many locals and places there may be, where the rows of this stack begin, and how many locals there
// were before the nearest loop, 64 outside any; and the switches.
#[derive(Clone, Copy)]
pub struct Env {
    pub left: usize,
    pub limit: usize,
    pub width: usize,
    pub cur: usize,
    pub base: usize,
    pub switches: u32,
}

// Where a walk has come to: its place, why it stopped, if it did, and whether it surely returns.
#[derive(Clone, Copy)]
pub struct Walk {
    pub place: Place,
    pub stop: Option<Stop>,
    pub sure: bool,
}

// The numbers for a block's statements.
pub fn inner(env: Env) -> Env
    requires { 0 < env.left }
    ensures { result ≡ inner_of env }
{
    Env {
        left: env.left - 1,
        ..env
    }
}

// Whether there are as many locals as there may be.
pub fn full(env: Env, count: usize) -> bool
    ensures { (result ≡ true → env.limit ≤ count) × (result ≡ false → count < env.limit) }
{
    env.limit <= count
}

// Those for the walk up to the next change of a stack with a mark.
pub fn scanning(env: Env, mark: u64) -> expressions_scan::Env
    ensures { result ≡ record { left = env.left; mark = mark; base = env.base; cur = env.cur; width = env.width; switches = env.switches } }
{
    expressions_scan::Env {
        left: env.left,
        mark: mark,
        base: env.base,
        cur: env.cur,
        width: env.width,
        switches: env.switches,
    }
}

// The walk goes on behind the blocks of a statement, with so many statements left.
pub fn resumed(left: usize, pl: &Walk) -> Cursor
    ensures { result ≡ between_of left (place_in pl.now) None }
{
    statements_changes::between(left, pl.place, None)
}

// The place behind a block's head, whose count is stored at gap later.
fn inside(p: Place, gap: usize) -> Place
    requires { (p.at < 4294967200) × (gap < 4294967200) }
    ensures { result ≡ headed p gap }
{
    Place {
        at: p.at + 6,
        last: p.at + 6,
        written: gap + 2,
        inserted: 0,
        ..p
    }
}

// The head of a block: its span is copied, room is left for its count.
pub fn head(s: &[u8], p: Place, out: &mut [u8]) -> Cursor
    requires { Within s.now p × (p.at + 6 ≤ length s.now) }
    ensures { Heads s.now p out.old result out.new }
{
    let gap = image_writing::copy_bytes(s, p.at, p.at + 4, out, p.written);
    let total = image_fields::two_at(s, p.at + 4);
    let q = inside(p, gap);
    statements_changes::between(total, q, None)
}

// Behind then's block: the flag of an IfElse, the byte that stands there; a loop has none and never surely returns.
pub fn then_over(s: &[u8], tag: u8, out: &mut [u8], pl: &mut Walk) -> u8
    requires { Within s.now (place_in pl.old) × ((tag ≡ 8 → ⊥) → (place_in pl.old).at < length s.now) }
    ensures flag { (tag ≡ 8 → result ≡ 0) × ((tag ≡ 8 → ⊥) → result ≡ get_or s.now (place_in pl.old).at 0) }
    ensures goes { (tag ≡ 8 → Loops out.old pl.old (eqb result 1) out.new pl.new)
        × ((tag ≡ 8 → ⊥) → Flags s.now out.old pl.old (eqb result 1) out.new pl.new) }
{
    if tag == 8 {
        pl.sure = false;
        return 0;
    }
    let p = pl.place;
    let flag = s[p.at];
    let written = image_writing::put(out, p.written, flag);
    pl.place = Place {
        at: p.at + 1,
        written: written,
        ..p
    };
    flag
}

// The same: whether else's block follows.
pub fn else_follows(s: &[u8], tag: u8, out: &mut [u8], pl: &mut Walk) -> bool
    requires { Within s.now (place_in pl.old) × ((tag ≡ 8 → ⊥) → (place_in pl.old).at < length s.now) }
    ensures { (tag ≡ 8 → Loops out.old pl.old result out.new pl.new)
        × ((tag ≡ 8 → ⊥) → Flags s.now out.old pl.old result out.new pl.new) }
{
    then_over(s, tag, out, pl) == 1
}

// Whether the last of so many statements, at a position, surely returns.
fn ends_in_return(s: &[u8], left: usize, total: usize, last: usize) -> bool
    requires { (length s.now ≤ 65536) × (0 < total → StmtThere s.now left last) }
    ensures { LastReturns s.now left total last result }
{
    0 < total && statements_returns::statement_guaranteed_return(s, left, last).returns
}

// The deletes at the end of a block that does not surely return.
fn put_tail(
    l: &Locals,
    mark: u64,
    base: usize,
    sure: bool,
    span: u32,
    out: &mut [u8],
    at: usize,
) -> statements_acts::Put
    requires { (at < 4294900000) × (base ≤ 64) }
    ensures { (result.at ≤ at + 1344) × (result.count ≤ 64) × ((w : Switches) (T : Tables) (ld births : List ℕ) (g : ℕ → Status) (n depth : ℕ) → Marked T l.now.types g n mark → Due w ld base depth n
        → Stored out.old at (delete_bytes (tail w T «sure» depth span (lent l.now.names l.now.types ld births g n))) out.new result.at
        × (result.count ≡ length (tail w T «sure» depth span (lent l.now.names l.now.types ld births g n)))) }
{
    if sure {
        return statements_acts::Put { at: at, count: 0 };
    }
    let own = scope_stack::since(mark, base);
    statements_acts::put_drops(l, own, None, span, out, at)
}

// The locals that the end of a block deletes begin with its own; with switch 4, at the end of the body's block, with the first.
fn first_of(switches: u32, left: usize, base: usize) -> usize
    ensures { result ≡ first_of switches left base }
{
    if statements_acts::has_switch(switches, 8) && 12 <= left {
        0
    } else {
        base
    }
}

// The end of the block that began at a place: the deletes of its own locals, those from base on (but for first_of), and the count.
pub fn end_block(
    s: &[u8],
    switches: u32,
    left: usize,
    start: Place,
    p: Place,
    l: &Locals,
    mark: u64,
    base: usize,
    out: &mut [u8],
    pl: &mut Walk,
)
    requires { EndThere s.now left start p × (base ≤ 64) }
    ensures { ((T : Tables) (ld births : List ℕ) (g : ℕ → Status) (n : ℕ) → Marked T l.now.types g n mark → Frame ld base (suc (12 - left)) n
        → (σ : Scope Status) → σ ≡ pop (suc (12 - left)) (lent l.now.names l.now.types ld births g n)
        → Ends (switches_of switches) T s.now left (suc (12 - left)) (lent l.now.names l.now.types ld births g n) start (start.written + 4) p out.old
        (walked_in pl.new σ) out.new)
        × Ended start p pl.new }
{
    let total = image_fields::two_at(s, start.at + 4);
    let sure = ends_in_return(s, left - 1, total, p.last);
    let span = expressions_effects::span_at(s, start.at);
    let first = first_of(switches, left, base);
    let put = put_tail(l, mark, first, sure, span, out, p.written);
    let count = total + p.inserted + put.count;
    image_writing::put_two(out, start.written + 4, (count % 65536) as u16);
    let place = Place {
        last: start.last,
        written: put.at,
        inserted: start.inserted,
        fits: p.fits && count <= 65535,
        ..p
    };
    *pl = Walk {
        place: place,
        stop: None,
        sure: sure,
    };
}
