// The statements of a block over lent arrays, up to the next change of the stack.
// Throughout, tb has the tables of the image s, l the locals and t their states, rows the places of joined states, all lent; env has the numbers of the walk. A step of the walk goes on
// (`Continue`) with the cursor behind it, or comes back (`Break`) to whoever owns the stack.
#![tactic(auto)]

ghost use Rattle.std.specs.Prelude.{◌≡◌, true, false, List, ℕ, ◌+◌, ◌-◌, ◌≤◌, ◌<◌, length};
ghost use Rattle.std.proofs.Math.Option.{Option};
ghost use Rattle.tables.specs.Tables.{Tables};
ghost use Rattle.tables_lookup.specs.Lent.{Lent, Says};
ghost use Rattle.rules.specs.Rules.{Switches, switches_of};
ghost use Rattle.rules.specs.State.{State as Status};
ghost use Rattle.rules.specs.Stack.{Stack as Scope};
ghost use Rattle.statements_acts.specs.Act.{Grows};
ghost use Rattle.image_writing.specs.Memory.{Memory, memory};
ghost use Rattle.blocks_laws.specs.Walks.{blocked};
ghost use Rattle.scope_state.specs.Locals.{state_in, lent};
ghost use Rattle.expressions_scan.specs.States.{AllKept};
ghost use Rattle.statements_changes.specs.declared.Turn.TheVariants as turns;
ghost use Rattle.expressions_steps.specs.declared.Open.{Open};
ghost use Rattle.std.specs.declared.option.Option.TheVariants.{None};
ghost use Rattle.std.specs.ControlFlow.{ForBreak, ForContinue};
ghost use Rattle.statements_changes.specs.Turns.{Lends, retold, between_of, within_of, came_of, cursor_of, Stood, After, AfterFlow, Steady, SomeSteady, Fit, FitFlow, ahead};

use expressions_scan::{Env, Mark};
use expressions_steps::Nodes;
use scope_stack::{Locals, States};
use statements_acts::{Change, Named, Place};
use std::ops::ControlFlow;

// What the stack must do: the statements are over, a mark, a registration (name, type, birth), the blocks of a statement of a tag.
#[derive(Clone, Copy)]
pub enum Turn {
    Over,
    Mark(Mark),
    Register(u16, u16, u32),
    Blocks(u8),
}

// Where a walk of statements stands: how many are left, whether the values of the next are being scanned, how many nodes are open in
// them and where, the place before the statement, and what is still to be taken over.
#[derive(Clone, Copy)]
pub struct Cursor {
    pub left: usize,
    pub begun: bool,
    pub nodes: usize,
    pub at: usize,
    pub place: Place,
    pub taken: Option<Named>,
}

#[derive(Clone, Copy)]
pub struct Came {
    pub cursor: Cursor,
    pub turn: Turn,
}

pub fn between(left: usize, place: Place, taken: Option<Named>) -> Cursor
    ensures { result ≡ between_of left place taken }
{
    Cursor {
        left,
        begun: false,
        nodes: 0,
        at: place.at,
        place,
        taken,
    }
}

fn within(left: usize, nodes: usize, at: usize, place: Place) -> Cursor
    ensures { result ≡ within_of left nodes at place }
{
    Cursor {
        left,
        begun: true,
        nodes,
        at,
        place,
        taken: None,
    }
}

fn has_blocks(tag: u8) -> bool
    ensures { result ≡ blocked tag }
{
    matches!(tag, 1 | 7 | 8)
}

// A name is deleted at a place.
fn deleted(name: u16, place: u32) -> Mark
    ensures { result ≡ record { name = name; kind = 1; place = place; only_alive = false } }
{
    Mark {
        name,
        kind: 1,
        place,
        only_alive: false,
    }
}

// A name is Alive again.
fn revived(name: u16) -> Mark
    ensures { result ≡ record { name = name; kind = 0; place = 0; only_alive = false } }
{
    Mark {
        name,
        kind: 0,
        place: 0,
        only_alive: false,
    }
}

// What is to be done behind a statement.
fn turn_of(
    tag: u8,
    left: usize,
    place: Place,
    change: Change,
    taken: Option<Named>,
) -> ControlFlow<Came, Cursor>
    ensures { result ≡ came_of tag left place change taken }
{
    if has_blocks(tag) {
        return ControlFlow::Break(Came {
            cursor: between(left, place, None),
            turn: Turn::Blocks(tag),
        });
    }
    let cursor = between(left, place, taken);
    let turn = match change {
        Change::Nothing => return ControlFlow::Continue(cursor),
        Change::Delete(name, span) => Turn::Mark(deleted(name, span)),
        Change::Register(name, ty, born) => Turn::Register(name, ty, born),
        Change::Revive(name) => Turn::Mark(revived(name)),
    };
    ControlFlow::Break(Came { cursor, turn })
}

// The statement at the cursor's place, whose values are through.
fn acted(
    s: &[u8],
    tb: &[u32],
    env: Env,
    l: &Locals,
    c: Cursor,
    out: &mut [u8],
    warns: &mut [u32],
    lefts: &mut [u32],
) -> ControlFlow<Came, Cursor>
    requires { Lent s.now tb.now × (l.now.count ≤ 64) × (env.base ≤ 64) × (env.left ≤ 12)
        × SomeSteady s.now env.left c × (c.begun ≡ true) × (c.nodes ≡ 0) }
    ensures after { (T : Tables) → Says s.now tb.now T
        → (ld : List ℕ) (at : ℕ → Status) (σ : Scope Status) (loop : Option ℕ) → Lends T env.mark loop env.base l.now.names l.now.types ld l.now.births at l.now.count σ
        → (all : ℕ) (σ₀ : Scope Status) (p₀ : Place) (m₀ : Memory) (nodes : List Open) (errs : List ℕ)
        → Stood (switches_of env.switches) T s.now env.left (12 - env.left) loop all σ₀ p₀ m₀ nodes c σ (memory out.old errs warns.old lefts.old)
        → AfterFlow (switches_of env.switches) T s.now env.left (12 - env.left) loop all σ₀ p₀ m₀ nodes result σ (memory out.new errs warns.new lefts.new) }
    ensures by_index { ((nodes : List Open) → FitFlow s.now env.left nodes result) × ((cursor_of result).left + 1 ≡ c.left) × ((cursor_of result).begun ≡ false)
        × Grows s.now (retold c.place 0) (retold (cursor_of result).place 0) }
{
    let p = c.place;
    let at = p.at;
    let tag = s[at];
    let a = statements_acts::statement(
        s,
        tb,
        l,
        env.mark,
        env.base,
        env.switches,
        Place { errors: 0, ..p },
        c.at,
        out,
        warns,
        lefts,
    );
    let behind = Place {
        errors: p.errors,
        ..a.place
    };
    turn_of(tag, c.left - 1, behind, a.change, a.taken)
}

// What is still to be taken over is marked deleted first.
fn owed(c: Cursor, taken: Named) -> Came
    ensures { result ≡ record { cursor = between_of c.left c.place None; turn = turns.Mark (record { name = taken.name; kind = 1; place = taken.span; only_alive = false }) } }
{
    Came {
        cursor: between(c.left, c.place, None),
        turn: Turn::Mark(deleted(taken.name, taken.span)),
    }
}

// What comes before the next statement: a temporary still to be taken over, or the end; nothing where there is neither.
fn due(c: Cursor) -> ControlFlow<Came>
    ensures goes_on { ForContinue result (λ x. (c.taken ≡ None) × (0 < c.left)) }
    ensures by_index { ForBreak result (λ came. (s : List ℕ) (left : ℕ) (nodes : List Open) → Steady s left nodes c → Fit s left nodes came.cursor came.turn
        × ((came.turn ≡ turns.Over → ⊥) → ahead s came.cursor < ahead s c)
        × ((sw : Switches) (T : Tables) (loop : Option ℕ) (all : ℕ) (σ₀ : Scope Status) (p₀ : Place) (m₀ : Memory) (σ : Scope Status) (m : Memory)
        → Stood sw T s left (12 - left) loop all σ₀ p₀ m₀ nodes c σ m → After sw T s left (12 - left) loop all σ₀ p₀ m₀ nodes came.cursor σ m came.turn)) }
    ensures place_value { ForBreak result (λ came. came.cursor.place ≡ c.place) }
{
    if let Some(taken) = c.taken {
        return ControlFlow::Break(owed(c, taken));
    }
    if c.left == 0 {
        return ControlFlow::Break(Came {
            cursor: c,
            turn: Turn::Over,
        });
    }
    ControlFlow::Continue(())
}

// The scan of the values of the next statement begins, if it has not.
fn begun(s: &[u8], left: usize, nodes: &mut Nodes, c: Cursor) -> Cursor
    requires { Steady s.now left nodes.old c × (c.taken ≡ None) × (0 < c.left) × (length nodes.old ≡ 26) }
    ensures { ((sw : Switches) (T : Tables) (loop : Option ℕ) (all : ℕ) (σ₀ : Scope Status) (p₀ : Place) (m₀ : Memory) (σ : Scope Status) (out errs warns lefts : List ℕ)
        → Stood sw T s.now left (12 - left) loop all σ₀ p₀ m₀ nodes.old c σ (memory out errs warns lefts)
        → Stood sw T s.now left (12 - left) loop all σ₀ p₀ m₀ nodes.new result σ (memory out errs warns lefts))
        × Steady s.now left nodes.new result × (result.begun ≡ true) × (result.left ≡ c.left) × (length nodes.new ≡ 26)
        × (ahead s.now result ≤ ahead s.now c) × (result.place ≡ c.place) }
{
    if c.begun {
        return c;
    }
    let p = c.place;
    let f = statements_returns::front_at(s, p.at);
    expressions_scan::start(nodes, f.values);
    within(c.left, 1, f.first, p)
}

// The values of the statement that is begun, scanned on up to a change of the stack, or through.
fn scanned(
    s: &[u8],
    tb: &[u32],
    env: Env,
    l: &Locals,
    t: &States,
    rows: &[u32],
    nodes: &mut Nodes,
    c: Cursor,
    out: &mut [u8],
    errs: &mut [u32],
) -> ControlFlow<Came, Cursor>
    requires { Lent s.now tb.now × AllKept t.now.kinds t.now.firsts rows.now env.cur env.width l.now.count
        × Steady s.now env.left nodes.old c × (c.begun ≡ true) }
    ensures after { (sw : Switches) (T : Tables) → Says s.now tb.now T
        → (types depths births : List ℕ) (σ : Scope Status)
        → σ ≡ lent l.now.names types depths births (state_in t.now.kinds t.now.firsts rows.now env.cur env.width) l.now.count
        → (loop : Option ℕ) (all : ℕ) (σ₀ : Scope Status) (p₀ : Place) (m₀ : Memory) (warns lefts : List ℕ)
        → Stood sw T s.now env.left (12 - env.left) loop all σ₀ p₀ m₀ nodes.old c σ (memory out.old errs.old warns lefts)
        → AfterFlow sw T s.now env.left (12 - env.left) loop all σ₀ p₀ m₀ nodes.new result σ (memory out.new errs.new warns lefts) }
    ensures fit { FitFlow s.now env.left nodes.new result × (length nodes.new ≡ 26)
        × ForContinue result (λ w. (w.begun ≡ true) × (w.nodes ≡ 0) × (w.left ≡ c.left))
        × ForBreak result (λ came. ahead s.now came.cursor < ahead s.now c)
        × (retold (cursor_of result).place 0 ≡ retold c.place 0) }
{
    let p = c.place;
    let v = expressions_scan::scan_on(
        s, tb, env, l, t, rows, nodes, c.nodes, c.at, p.paged, out, errs, p.errors,
    );
    let told = Place {
        errors: v.told,
        ..p
    };
    let cursor = within(c.left, v.nodes, v.at, told);
    match v.change {
        None => ControlFlow::Continue(cursor),
        Some(mark) => ControlFlow::Break(Came {
            cursor,
            turn: Turn::Mark(mark),
        }),
    }
}

// The next statement, up to its end or a change of the stack.
fn passed(
    s: &[u8],
    tb: &[u32],
    env: Env,
    l: &Locals,
    t: &States,
    rows: &[u32],
    nodes: &mut Nodes,
    c: Cursor,
    out: &mut [u8],
    errs: &mut [u32],
    warns: &mut [u32],
    lefts: &mut [u32],
) -> ControlFlow<Came, Cursor>
    requires { Lent s.now tb.now × AllKept t.now.kinds t.now.firsts rows.now env.cur env.width l.now.count
        × (env.left ≤ 12) × (env.base ≤ 64) × Steady s.now env.left nodes.old c × (length nodes.old ≡ 26) }
    ensures after { (T : Tables) → Says s.now tb.now T
        → (ld : List ℕ) (σ : Scope Status) (loop : Option ℕ)
        → Lends T env.mark loop env.base l.now.names l.now.types ld l.now.births (state_in t.now.kinds t.now.firsts rows.now env.cur env.width) l.now.count σ
        → (all : ℕ) (σ₀ : Scope Status) (p₀ : Place) (m₀ : Memory)
        → Stood (switches_of env.switches) T s.now env.left (12 - env.left) loop all σ₀ p₀ m₀ nodes.old c σ (memory out.old errs.old warns.old lefts.old)
        → AfterFlow (switches_of env.switches) T s.now env.left (12 - env.left) loop all σ₀ p₀ m₀ nodes.new result σ (memory out.new errs.new warns.new lefts.new) }
    ensures fit { FitFlow s.now env.left nodes.new result × (length nodes.new ≡ 26)
        × ForContinue result (λ w. (w.left + 1 ≡ c.left) × (ahead s.now w < ahead s.now c))
        × ForBreak result (λ came. (came.turn ≡ turns.Over → ⊥) → ahead s.now came.cursor < ahead s.now c)
        × Grows s.now (retold c.place 0) (retold (cursor_of result).place 0) }
{
    due(c)?;
    let b = begun(s, env.left, nodes, c);
    let w = scanned(s, tb, env, l, t, rows, nodes, b, out, errs)?;
    acted(s, tb, env, l, w, out, warns, lefts)
}

// The statements up to the next change of the stack.
pub fn next_change(
    s: &[u8],
    tb: &[u32],
    env: Env,
    l: &Locals,
    t: &States,
    rows: &[u32],
    nodes: &mut Nodes,
    cursor: Cursor,
    out: &mut [u8],
    errs: &mut [u32],
    warns: &mut [u32],
    lefts: &mut [u32],
) -> Came
    requires { Lent s.now tb.now × AllKept t.now.kinds t.now.firsts rows.now env.cur env.width l.now.count
        × (env.left ≤ 12) × (env.base ≤ 64) × Steady s.now env.left nodes.old cursor × (length nodes.old ≡ 26) }
    ensures after { (T : Tables) → Says s.now tb.now T
        → (ld : List ℕ) (σ : Scope Status) (loop : Option ℕ)
        → Lends T env.mark loop env.base l.now.names l.now.types ld l.now.births (state_in t.now.kinds t.now.firsts rows.now env.cur env.width) l.now.count σ
        → (all : ℕ) (σ₀ : Scope Status) (p₀ : Place) (m₀ : Memory)
        → Stood (switches_of env.switches) T s.now env.left (12 - env.left) loop all σ₀ p₀ m₀ nodes.old cursor σ (memory out.old errs.old warns.old lefts.old)
        → After (switches_of env.switches) T s.now env.left (12 - env.left) loop all σ₀ p₀ m₀ nodes.new result.cursor σ (memory out.new errs.new warns.new lefts.new) result.turn }
    ensures fit { Fit s.now env.left nodes.new result.cursor result.turn × (length nodes.new ≡ 26)
        × ((result.turn ≡ turns.Over → ⊥) → ahead s.now result.cursor < ahead s.now cursor)
        × Grows s.now (retold cursor.place 0) (retold result.cursor.place 0) }
{
    let mut c = cursor;
    loop {
        match passed(s, tb, env, l, t, rows, nodes, c, out, errs, warns, lefts) {
            ControlFlow::Continue(behind) => c = behind,
            ControlFlow::Break(came) => return came,
        }
    }
}
