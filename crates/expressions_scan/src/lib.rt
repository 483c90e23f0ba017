// The scan of a statement's values over lent arrays: it reports the errors of their effects, as numbers of their list or as lines of a
// page, and comes back where the stack must change; the caller changes it and has the scan go on. The open nodes stand in a lent array.
#![tactic(auto)]

ghost use Rattle.std.specs.Prelude.{◌≡◌, List, [], ◌∷◌, ◌++◌, ℕ, ◌+◌, ◌*◌, ◌≤◌, ◌<◌, eqb, length, get_or, replicate, take};
ghost use Rattle.tables.specs.Limits.{version1};
ghost use Rattle.tables.specs.Tables.{Tables};
ghost use Rattle.rules.specs.State.{State as Status};
ghost use Rattle.rules.specs.Stack.{Stack as Scope};
ghost use Rattle.rules.specs.Report.{error, bad_use};
ghost use Rattle.rules.specs.Verdict.{entry_of, entries_of};
ghost use Rattle.rules.specs.Effects.{uses, hands, gives, moves};
ghost use Rattle.tables_lookup.specs.Lent.{Lent, Says};
ghost use Rattle.expressions_effects.specs.Asked.{emits};
ghost use Rattle.expressions_steps.specs.Scan.{root_of, top_of, Ready, Goes, nodes_after, open_after, fuel};
ghost use Rattle.scope_state.specs.Kinds.{base_of};
ghost use Rattle.scope_state.specs.Locals.{row_at, status_of, state_in, lent};
ghost use Rattle.expressions_scan.specs.Held.{state_of, held};
ghost use Rattle.image_writing.specs.Stored.{Stored};
ghost use Rattle.expressions_scan.specs.States.{Kept, AllKept};
ghost use Rattle.expressions_scan.specs.Changes.{applied, Answers, Tells, Marks, Small};
ghost use Rattle.expressions_scan.specs.Resumed.{Onward, Going};

use expressions_effects::Effect;
use expressions_steps::{Innermost, Nodes, Step};
use image_fields::wide32;
use scope_stack::{Locals, States};
use scope_state::find_local;

mod stack;

pub use stack::Stack;

// A mark that the stack must make: of a name, its kind (1 to 6), its place, and whether only what is Alive is marked.
#[derive(Clone, Copy)]
pub struct Mark {
    pub name: u16,
    pub kind: u8,
    pub place: u32,
    pub only_alive: bool,
}

// The numbers of a walk: the depth that is left for blocks; the mark of the locals; where their rows start, and the places that a row has
// room for.
#[derive(Clone, Copy)]
pub struct Env {
    pub left: usize,
    pub mark: u64,
    pub base: usize,
    pub cur: usize,
    pub width: usize,
    pub switches: u32,
}

// How many numbers of the list of errors, or bytes of their page, there are after an effect, and the change.
#[derive(Clone, Copy)]
pub struct Answer {
    pub told: usize,
    pub change: Option<Mark>,
}

// Where a scan stands: the position, how many nodes are open, the numbers or bytes of errors, and the change that it came back for.
#[derive(Clone, Copy)]
pub struct Scanned {
    pub at: usize,
    pub nodes: usize,
    pub told: usize,
    pub change: Option<Mark>,
}

// The answer to an effect that changes nothing.
fn still(told: usize) -> Answer
    ensures { result ≡ record { told = told; change = None } }
{
    Answer { told, change: None }
}

// The answer to an effect that marks a name.
fn marking(told: usize, name: u16, kind: u8, place: u32, only_alive: bool) -> Answer
    ensures { result ≡ record { told = told; change = Some (record { name = name; kind = kind; place = place; only_alive = only_alive }) } }
{
    let mark = Mark {
        name,
        kind,
        place,
        only_alive,
    };
    Answer {
        told,
        change: Some(mark),
    }
}

// An error with at most one other place.
fn put_error(
    list: &mut [u32],
    n: usize,
    kind: u8,
    place: u32,
    hint: u8,
    others: u32,
    first: u32,
) -> usize
    requires { n < 4294967100 }
    ensures { Stored list.old n (kind ∷ place ∷ hint ∷ others ∷ first ∷ replicate 7 0) list.new result }
{
    let mut at = image_writing::put_number(list, n, kind as u32);
    at = image_writing::put_number(list, at, place);
    at = image_writing::put_number(list, at, hint as u32);
    at = image_writing::put_number(list, at, others);
    at = image_writing::put_number(list, at, first);
    for _ in 0..7usize {
        at = image_writing::put_number(list, at, 0);
    }
    at
}

// The places of a row, with zeros up to 8.
fn put_places(list: &mut [u32], at: usize, rows: &[u32], row: usize, count: usize) -> usize
    requires { (at < 4294967200) × (row + count < length rows.now) × (count ≤ 8) × (count ≡ get_or rows.now row 0) }
    ensures { Stored list.old at (take 8 (row_at rows.now row ++ replicate 8 0)) list.new result }
{
    let mut next = at;
    for i in 0..8 {
        let place = if i < count { rows[row + 1 + i] } else { 0 };
        next = image_writing::put_number(list, next, place);
    }
    next
}

// An error with the places of a row.
fn put_row(list: &mut [u32], n: usize, kind: u8, place: u32, rows: &[u32], row: usize) -> usize
    requires { (n < 4294967100) × (row + get_or rows.now row 0 < length rows.now) × (get_or rows.now row 0 ≤ 8) }
    ensures { Stored list.old n (entry_of version1 (error kind place 0 (row_at rows.now row))) list.new result }
{
    let others = rows[row];
    let mut at = image_writing::put_number(list, n, kind as u32);
    at = image_writing::put_number(list, at, place);
    at = image_writing::put_number(list, at, 0);
    at = image_writing::put_number(list, at, others);
    put_places(list, at, rows, row, wide32(others))
}

// Whether an error of the kind gives all places.
fn gives_all(kind: u8) -> bool
    ensures { result ≡ eqb (base_of kind) 3 }
{
    kind == 3 || kind == 6
}

// The error of a use of a local in a state; none of a living one.
fn put_use(
    list: &mut [u32],
    n: usize,
    kind: u8,
    place: u32,
    first: u32,
    rows: &[u32],
    row: usize,
) -> usize
    requires { Kept kind first rows.now row × (n < 4294967100) }
    ensures { Stored list.old n (entries_of version1 (bad_use place (status_of kind first rows.now row))) list.new result × (result ≤ n + 12) }
{
    if kind == 0 {
        return n;
    }
    if kind < 8 {
        return put_error(list, n, kind, place, 0, 1, first);
    }
    let low = kind - 8;
    if gives_all(low) {
        return put_row(list, n, low, place, rows, row);
    }
    put_error(list, n, low, place, 0, 1, rows[row + 1])
}

// Inlined: a struct of references that stands in memory would cost a copy of the stack for each block, since the callee could keep them.
impl<'a> Stack<'a> {
    // Where the row of a local starts.
    #[inline(always)]
    fn row_of(&self, i: usize) -> usize
        requires { i < 64 }
        ensures { result ≡ self.now.cur + i * (self.now.width + 1) }
    {
        self.cur + i * (self.width + 1)
    }

    // The error of the use of the local of a number.
    #[inline(always)]
    fn put_use_of(&self, i: usize, place: u32, errs: &mut [u32], told: usize) -> usize
        requires { (i < self.now.l.now.count) × (told < 4294967100) }
        ensures { Stored errs.old told
            (entries_of version1 (bad_use place (state_of self.now i))) errs.new result × (result ≤ told + 12) }
    {
        let row = self.row_of(i);
        put_use(
            errs,
            told,
            self.t.kinds[i],
            place,
            self.t.firsts[i],
            self.rows,
            row,
        )
    }

    // The use of a name: what is wrong with it is stored, and the stack stays as it is.
    #[inline(always)]
    fn validate_identifier_use(
        &self,
        name: u16,
        place: u32,
        errs: &mut [u32],
        told: usize,
    ) -> Answer
        requires { told < 4294967100 }
        ensures { ((types depths births : List ℕ)
            → Answers (uses name place ∷ []) (held self.now types depths births) errs.old told errs.new result) × Small told errs.old errs.new result }
    {
        match find_local(&self.l.names, self.l.count, name) {
            Some(i) => still(self.put_use_of(i, place, errs, told)),
            None => still(told),
        }
    }

    // A use, and then the hand-over of a temporary.
    #[inline(always)]
    fn use_and_hand_over(&self, name: u16, place: u32, errs: &mut [u32], told: usize) -> Answer
        requires { told < 4294967100 }
        ensures { ((types depths births : List ℕ)
            → Answers (uses name place ∷ hands name place ∷ []) (held self.now types depths births) errs.old told errs.new result) × Small told errs.old errs.new result }
    {
        match find_local(&self.l.names, self.l.count, name) {
            Some(i) => {
                let more = self.put_use_of(i, place, errs, told);
                marking(more, name, 2, place, true)
            }
            None => still(told),
        }
    }

    // The consumption of a receiver that is a local.
    #[inline(always)]
    fn consume(&self, name: u16, place: u32, told: usize) -> Answer
        ensures { ((types depths births old : List ℕ)
            → Answers (gives name place ∷ []) (held self.now types depths births) old told old result) × ((old : List ℕ) → Small told old old result) }
    {
        match find_local(&self.l.names, self.l.count, name) {
            Some(_) => marking(told, name, 3, place, false),
            None => still(told),
        }
    }

    // validate_move_argument, of a name that is no global: a temporary is not moved.
    #[inline(always)]
    fn validate_move(
        &self,
        name: u16,
        place: u32,
        temp: bool,
        errs: &mut [u32],
        told: usize,
    ) -> Answer
        requires { told < 4294967100 }
        ensures { ((types depths births : List ℕ)
            → Answers (moves name place temp ∷ []) (held self.now types depths births) errs.old told errs.new result) × Small told errs.old errs.new result }
    {
        match find_local(&self.l.names, self.l.count, name) {
            Some(_) if temp => put_bad_move(errs, told, place, 3),
            Some(_) => marking(told, name, 2, place, false),
            None => put_bad_move(errs, told, place, 2),
        }
    }

    // One effect: its error is stored, and what the stack must do is the answer.
    #[inline(always)]
    pub fn effect_on(&self, effect: Effect, errs: &mut [u32], told: usize) -> Answer
        requires { told < 4294967100 }
        ensures { ((types depths births : List ℕ)
            → Answers (emits effect) (held self.now types depths births) errs.old told errs.new result) × Small told errs.old errs.new result }
    {
        match effect {
            Effect::Nothing => still(told),
            Effect::Use(name, at) => self.validate_identifier_use(name, at, errs, told),
            Effect::UseHand(name, at) => self.use_and_hand_over(name, at, errs, told),
            Effect::Consume(name, at) => self.consume(name, at, told),
            Effect::Move(name, at) => self.validate_move(name, at, false, errs, told),
            Effect::MoveTemp(name, at) => self.validate_move(name, at, true, errs, told),
            Effect::BadMove(at) => put_bad_move(errs, told, at, 1),
            Effect::GlobalMove(at, definition) => {
                still(put_error(errs, told, 8, at, 0, 1, definition))
            }
        }
    }

    // One effect, its error stored as numbers, or as lines of the page by way of the numbers of its entry.
    #[inline(always)]
    fn effect_told(
        &self,
        paged: bool,
        effect: Effect,
        out: &mut [u8],
        errs: &mut [u32],
        told: usize,
    ) -> Answer
        requires { told < 4294900000 }
        ensures { ((types depths births : List ℕ)
            → Tells «paged» (emits effect) (held self.now types depths births)
            errs.old out.old told errs.new out.new result) × (result.told ≤ told + 219) × Marks result.change }
    {
        if let Effect::Nothing = effect {
            return still(told);
        }
        if !paged {
            return self.effect_on(effect, errs, told);
        }
        let mut entry = [0u32; 12];
        let a = self.effect_on(effect, &mut entry, 0);
        if a.told == 0 {
            return Answer { told, ..a };
        }
        let next = image_lines::put_error_lines(&entry, out, told);
        Answer { told: next, ..a }
    }
}

// A bad move at a place, with its hint.
fn put_bad_move(list: &mut [u32], n: usize, place: u32, hint: u8) -> Answer
    requires { n < 4294967100 }
    ensures { Stored list.old n (entry_of version1 (error 7 place hint [])) list.new result.told × (result.change ≡ None) }
{
    still(put_error(list, n, 7, place, hint, 0, 0))
}

// The scan of k values starts: one open node, whoever holds them.
pub fn start(nodes: &mut Nodes, k: u16)
    requires { length nodes.old ≡ 26 }
    ensures { (top_of nodes.new 1 ≡ root_of k) × (length nodes.new ≡ 26) }
{
    nodes[0] = expressions_steps::root(k);
}

// One step at the innermost open node, and how many are open after it; the nodes after it are stored.
fn step_on(s: &[u8], tb: &[u32], nodes: &mut Nodes, depth: usize, at: usize) -> (Step, usize)
    requires { Lent s.now tb.now × Ready s.now nodes.old depth at × (0 < depth) }
    ensures { ((T : Tables) → Says s.now tb.now T → Goes T s.now nodes.old depth at result.0)
        × (nodes.new ≡ nodes_after nodes.old depth result.0) × (result.1 ≡ open_after depth result.0) }
{
    let m = depth - 1;
    let step = expressions_steps::advance(s, tb, nodes[m], at);
    match step.innermost {
        Innermost::Ends => (step, m),
        Innermost::Stays(top) => {
            nodes[m] = top;
            (step, depth)
        }
        Innermost::Opens(top, inner) => {
            nodes[m] = top;
            nodes[depth] = inner;
            (step, depth + 1)
        }
    }
}

// The values from the innermost open node on, up to the next change or their end.
pub fn scan_on(
    s: &[u8],
    tb: &[u32],
    env: Env,
    l: &Locals,
    t: &States,
    rows: &[u32],
    nodes: &mut Nodes,
    count: usize,
    at: usize,
    paged: bool,
    out: &mut [u8],
    errs: &mut [u32],
    told: usize,
) -> Scanned
    requires { Lent s.now tb.now × AllKept t.now.kinds t.now.firsts rows.now env.cur env.width l.now.count
        × Ready s.now nodes.old count at × (told + 219 * fuel s.now count at < 4294900000) }
    ensures { ((T : Tables) → Says s.now tb.now T
        → (types depths births : List ℕ) (σ : Scope Status)
        → σ ≡ lent l.now.names types depths births (state_in t.now.kinds t.now.firsts rows.now env.cur env.width) l.now.count
        → Onward T s.now nodes.old count at σ «paged» errs.old out.old told
        nodes.new result.nodes result.at (applied result.change σ) errs.new out.new result.told)
        × Going s.now nodes.old count at told nodes.new result }
{
    let stack = Stack {
        l,
        t,
        rows,
        cur: env.cur,
        width: env.width,
    };
    let mut now = Scanned {
        at,
        nodes: count,
        told,
        change: None,
    };
    while 0 < now.nodes {
        let (step, left) = step_on(s, tb, nodes, now.nodes, now.at);
        let a = stack.effect_told(paged, step.effect, out, errs, now.told);
        now = Scanned {
            at: step.at,
            nodes: left,
            told: a.told,
            change: a.change,
        };
        if now.change.is_some() {
            return now;
        }
    }
    now
}
