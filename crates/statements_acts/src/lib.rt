// What each kind of statement writes before its blocks, and how it changes the scope stack: the arms of transform_block. Throughout,
// tb has the tables of the image s, ns where the names stand, both lent, l the locals, and mark is the mark of the stack: a bit for each local that is Alive and of a type with a destructor.
#![tactic(auto)]

ghost use Rattle.std.specs.Prelude.{◌≡◌, true, cond, ◌&&◌, ◌||◌, List, [], ◌∷◌, map, ℕ, ◌+◌, ◌/◌, ◌%◌, ◌≤◌, ◌<◌, eqb, length, get_or, IfSome};
ghost use Rattle.std.proofs.Math.Option.{Option as Maybe};
ghost use Rattle.image_fields.specs.Number.{four};
ghost use Rattle.tables.specs.Tables.{Tables};
ghost use Rattle.tables.specs.Name.{name_of};
ghost use Rattle.tables_lookup.specs.First.{AllWithin};
ghost use Rattle.tables_lookup.specs.Lent.{Lent, Says};
ghost use Rattle.image_body.specs.Expr.{Expr};
ghost use Rattle.image_body.specs.Stands.{Stands};
ghost use Rattle.image_body.specs.Depth.{Walkable};
ghost use Rattle.rules.specs.Questions.{auto};
ghost use Rattle.rules.specs.Expr.{view as viewed, name_in, called, is_call, ty_of, callee_at};
ghost use Rattle.rules.specs.State.{State as Status};
ghost use Rattle.rules.specs.Stack.{Static, shape, static_of, Stack as Scope};
ghost use Rattle.rules.specs.Effects.{take_over, take_from, assign_takes};
ghost use Rattle.rules.specs.Rules.{states, apply_all, gather, collect, drop_named, assign_drops, off, Switches, switches_of, concerns};
ghost use Rattle.rules.specs.Report.{warning, left, left_at};
ghost use Rattle.image_writing.specs.Stored.{Stored};
ghost use Rattle.rules_page.specs.Page.{blanks};
ghost use Rattle.image_lines.specs.Told.{Listed, left_begin};
ghost use Rattle.statements_steps.specs.Drops.{delete_bytes};
ghost use Rattle.statements_acts.specs.Drops.{admitted};
ghost use Rattle.statements_acts.specs.declared.Change.TheVariants.{Nothing};
ghost use Rattle.statements_acts.specs.Act.{named_of, taken_in, FrontThere, Within, Grows, ActsThere};
ghost use Rattle.statements_acts.specs.Parts.{deleted_name, delete_of, revive_of, takes_over, no_put, sparing, relisted, Copied, WarnsAt, Untouched};
ghost use Rattle.statements_acts.specs.Marks.{lent, Marked, Looped, EndsThere};

use expressions_effects::{is_temp, name_at, span_at};
use image_body::Node;
use image_fields::peek;
use scope_stack::Locals;

// A name and the span of its node.
#[derive(Clone, Copy)]
pub struct Named {
    pub name: u16,
    pub span: u32,
}

// How a statement changes the stack once its values are evaluated: a name is deleted at a place, a local of a name, type and birth is
// registered, a name is alive again.
#[derive(Clone, Copy)]
pub enum Change {
    Nothing,
    Delete(u16, u32),
    Register(u16, u16, u32),
    Revive(u16),
}

// Where a walk stands in the statements of a block: the next byte to read, where the last statement began, how many bytes of output
// and numbers of each list there are, how many deletes were put into the block itself, whether every block that ended counts at most
// 65,535 statements, and whether a page is made: then lists are lines of the output, and counted in its bytes.
#[derive(Clone, Copy)]
pub struct Place {
    pub at: usize,
    pub last: usize,
    pub written: usize,
    pub errors: usize,
    pub warnings: usize,
    pub lefts: usize,
    pub inserted: usize,
    pub fits: bool,
    pub paged: bool,
}

// The place before a statement's blocks or behind the statement, and its change, with the temporary that is taken over.
#[derive(Clone, Copy)]
pub struct Act {
    pub place: Place,
    pub change: Change,
    pub taken: Option<Named>,
}

// Where the bytes end, and how many deletes were put.
#[derive(Clone, Copy)]
pub struct Put {
    pub at: usize,
    pub count: usize,
}

// The name of an Ident or a ThisLiteral, looked through.
fn name_in(s: &[u8], at: usize) -> Option<Named>
    ensures { (e : Expr) (next : ℕ) → Stands e s.now at next → named_of result ≡ name_in (viewed e) }
{
    let p = image_body::strip_noop_unary(s, at);
    match peek(s, p) {
        1 => Some(Named {
            name: name_at(s, p + 7),
            span: span_at(s, p + 1),
        }),
        2 => Some(Named {
            name: 0,
            span: span_at(s, p + 1),
        }),
        _ => None,
    }
}

// deleted_identifier
fn deleted_identifier(s: &[u8], at: usize) -> Change
    ensures { (e : Expr) (next : ℕ) → Stands e s.now at next → result ≡ delete_of (deleted_name (viewed e)) }
{
    let p = image_body::strip_noop_unary(s, at);
    let Node::Delete(child) = image_body::node_at(s, p) else {
        return Change::Nothing;
    };
    match name_in(s, child) {
        Some(named) => Change::Delete(named.name, named.span),
        None => Change::Nothing,
    }
}

// Where the tag of a call's callee stands, if the expression is a call whose result should be deleted.
fn unused_callee(s: &[u8], tb: &[u32], at: usize) -> Option<usize>
    requires { Lent s.now tb.now × (at < length s.now) }
    ensures { IfSome result (λ c. c < length s.now + 8) × ((T : Tables) → Says s.now tb.now T
        → (e : Expr) (next : ℕ) → Stands e s.now at next → result ≡ cond (auto T (ty_of e) && is_call (viewed e)) (Some (callee_at e at)) None) }
{
    let p = image_body::strip_noop_unary(s, at);
    let Node::Call(callee) = image_body::node_at(s, p) else {
        return None;
    };
    let unused = tables_lookup::auto_deleted(tb, image_fields::peek_two(s, at + 5));
    unused.then_some(callee)
}

// Whether a temporary is taken over by a name of a type: a local of that type, and the name no temporary.
fn takes(s: &[u8], ns: &[u32], l: &Locals, temp: u16, name: u16, ty: u16) -> bool
    requires { AllWithin s.now ns.now × (l.now.count ≤ 64) }
    ensures { (T : Tables) → map (name_of s.now) ns.now ≡ T.names
        → (ld births : List ℕ) (g : ℕ → Status) → result ≡ takes_over T (shape (lent l.now.names l.now.types ld births g l.now.count)) temp name ty }
{
    let Some(i) = scope_state::find_local(&l.names, l.count, temp) else {
        return false;
    };
    temp != name && l.types[i] == ty && !is_temp(s, ns, name) && is_temp(s, ns, temp)
}

// consumed_compiler_temp_from_value: the value at a position is a temporary that a name of a type takes over.
fn consumed_compiler_temp_from_value(
    s: &[u8],
    ns: &[u32],
    l: &Locals,
    value: usize,
    name: u16,
    ty: u16,
) -> Option<Named>
    requires { AllWithin s.now ns.now × (l.now.count ≤ 64) }
    ensures { (T : Tables) → map (name_of s.now) ns.now ≡ T.names
        → (ld births : List ℕ) (g : ℕ → Status) → (e : Expr) (next : ℕ) → Stands e s.now value next
        → (σ : Scope Status) → taken_in result σ ≡ apply_all (states off) (take_over T (shape (lent l.now.names l.now.types ld births g l.now.count)) name ty e) σ }
{
    let named = name_in(s, value)?;
    takes(s, ns, l, named.name, name, ty).then_some(named)
}

// consumed_compiler_temp_from_assign: the name is a local's, and the value at a position a temporary that it takes over.
fn consumed_compiler_temp_from_assign(
    s: &[u8],
    ns: &[u32],
    l: &Locals,
    value: usize,
    name: u16,
) -> Option<Named>
    requires { AllWithin s.now ns.now × (l.now.count ≤ 64) }
    ensures { (T : Tables) → map (name_of s.now) ns.now ≡ T.names
        → (ld births : List ℕ) (g : ℕ → Status) → (e : Expr) (next : ℕ) → Stands e s.now value next
        → (σ : Scope Status) → taken_in result σ ≡ apply_all (states off) (take_from T (shape (lent l.now.names l.now.types ld births g l.now.count)) name (static_of name (shape (lent l.now.names l.now.types ld births g l.now.count))) e) σ }
{
    let i = scope_state::find_local(&l.names, l.count, name)?;
    consumed_compiler_temp_from_value(s, ns, l, value, name, l.types[i])
}

// The place behind a statement that began there, its bytes copied up to a position after so many deletes.
fn behind(s: &[u8], p: Place, put: Put, to: usize, out: &mut [u8]) -> Place
    requires { (p.at ≤ to) × (to ≤ length s.now) × (length s.now ≤ 65536) × (put.at < 4294967296) × (p.inserted + put.count < 4294967296) }
    ensures { Copied s.now p put to out.old result out.new }
{
    let written = image_writing::copy_bytes(s, p.at, to, out, put.at);
    Place {
        at: to,
        last: p.at,
        written,
        inserted: p.inserted + put.count,
        ..p
    }
}

// Nothing put in.
fn nothing_put(p: Place) -> Put
    ensures { result ≡ no_put p }
{
    Put {
        at: p.written,
        count: 0,
    }
}

// A statement that changes nothing and puts nothing in, up to a position.
fn plain_statement(s: &[u8], p: Place, to: usize, out: &mut [u8]) -> Act
    requires { Within s.now p × FrontThere s.now p.at to × Untouched (get_or s.now p.at 0) }
    ensures acts_there { (w : Switches) (T : Tables) (σ : Scope Status) (warns left : List ℕ) (loop : Maybe ℕ)
        → ActsThere w T s.now loop σ p out.old warns left result out.new warns left }
    ensures grows { Grows s.now p result.place }
{
    unchanged(behind(s, p, nothing_put(p), to, out))
}

// An expression statement: an unused result is deleted, with a warning.
fn expr_statement(
    s: &[u8],
    tb: &[u32],
    p: Place,
    end: usize,
    out: &mut [u8],
    warns: &mut [u32],
) -> Act
    requires { Lent s.now tb.now × Within s.now p × FrontThere s.now p.at end × (get_or s.now p.at 0 ≡ 3) }
    ensures acts_there { (w : Switches) (T : Tables) → Says s.now tb.now T → (σ : Scope Status) (left : List ℕ) (loop : Maybe ℕ)
        → ActsThere w T s.now loop σ p out.old warns.old left result out.new warns.new left }
    ensures grows { Grows s.now p result.place }
{
    let value = p.at + 5;
    let callee = unused_callee(s, tb, value);
    let head = image_writing::copy_bytes(s, p.at, value, out, p.written);
    let warned = put_unused(s, callee, p.at, p.paged, out, head, warns, p.warnings);
    let written = image_writing::copy_bytes(s, value, end, out, warned.written);
    let place = Place {
        at: end,
        last: p.at,
        written,
        warnings: warned.warnings,
        ..p
    };
    Act {
        place,
        change: deleted_identifier(s, value),
        taken: None,
    }
}

// How many bytes of output and numbers of warnings there are, or bytes of their lines.
#[derive(Clone, Copy)]
pub struct Warned {
    pub written: usize,
    pub warnings: usize,
}

// A warning: two numbers, or a line.
fn put_warning(
    paged: bool,
    out: &mut [u8],
    warns: &mut [u32],
    at: usize,
    span: u32,
    offset: u32,
) -> usize
    requires { at < 4294900000 }
    ensures { Listed «paged» (warning span offset ∷ []) warns.old out.old at warns.new out.new result × (result ≤ at + 73) }
{
    if paged {
        return image_lines::put_warning_line(out, at, span, offset);
    }
    image_writing::put_pair(warns, at, span, offset)
}

// The delete round an unused result, and its warning.
fn put_unused(
    s: &[u8],
    callee: Option<usize>,
    at: usize,
    paged: bool,
    out: &mut [u8],
    written: usize,
    warns: &mut [u32],
    told: usize,
) -> Warned
    requires { IfSome callee (λ c. c < 4294967296) × (at < length s.now) × (written < 4294967200) × (told < 4294900000) }
    ensures { WarnsAt «paged» callee (four s.now (at + 1)) out.old written warns.old told result out.new warns.new }
{
    let Some(callee) = callee else {
        return Warned {
            written,
            warnings: told,
        };
    };
    let span = span_at(s, at + 1);
    let next = image_writing::put_delete_head(out, written, span);
    let more = put_warning(paged, out, warns, told, span, callee as u32);
    Warned {
        written: next,
        warnings: more,
    }
}

// A Let or Const.
fn variable_statement(s: &[u8], ns: &[u32], l: &Locals, p: Place, end: usize, out: &mut [u8]) -> Act
    requires { AllWithin s.now ns.now × (l.now.count ≤ 64) × Within s.now p × FrontThere s.now p.at end
        × (3 < get_or s.now p.at 0) × (get_or s.now p.at 0 < 6) }
    ensures acts_there { (w : Switches) (T : Tables) → map (name_of s.now) ns.now ≡ T.names
        → (ld births : List ℕ) (g : ℕ → Status) → (warns left : List ℕ) (loop : Maybe ℕ)
        → ActsThere w T s.now loop (lent l.now.names l.now.types ld births g l.now.count) p out.old warns left result out.new warns left }
    ensures grows { Grows s.now p result.place }
{
    let born = span_at(s, p.at + 1);
    let name = name_at(s, p.at + 5);
    let ty = name_at(s, p.at + 7);
    let value = p.at + 9;
    let taken = consumed_compiler_temp_from_value(s, ns, l, value, name, ty);
    let place = behind(s, p, nothing_put(p), end, out);
    Act {
        place,
        change: Change::Register(name, ty, born),
        taken,
    }
}

// The destination at a position is alive again.
fn revived(s: &[u8], destination: usize) -> Change
    ensures { (e : Expr) (next : ℕ) → Stands e s.now destination next → result ≡ revive_of (name_in (viewed e)) }
{
    match name_in(s, destination) {
        Some(named) => Change::Revive(named.name),
        None => Change::Nothing,
    }
}

// The temporary that an assignment to the destination at a position takes over.
fn taken_by(s: &[u8], ns: &[u32], l: &Locals, destination: usize) -> Option<Named>
    requires { AllWithin s.now ns.now × (l.now.count ≤ 64) × Walkable s.now 24 destination }
    ensures { (T : Tables) → map (name_of s.now) ns.now ≡ T.names
        → (ld births : List ℕ) (g : ℕ → Status) → (e v : Expr) (p q : ℕ) → Stands e s.now destination p → Stands v s.now p q
        → (σ : Scope Status) → taken_in result σ ≡ apply_all (states off) (assign_takes T (shape (lent l.now.names l.now.types ld births g l.now.count)) e v) σ }
{
    let named = name_in(s, destination)?;
    let value = image_body::skip(s, 24, destination);
    consumed_compiler_temp_from_assign(s, ns, l, value, named.name)
}

// Whether a local of a name is deleted where a name is spared, if any.
fn admits(spared: Option<u16>, name: u16) -> bool
    ensures { (x : Static) → x.name ≡ name → result ≡ admitted spared x }
{
    spared != Some(name)
}

// collect_scope_drops, and the end of a block: the deletes of the locals that the mark has, but for a name that is spared, newest first, with a span.
pub fn put_drops(
    l: &Locals,
    mark: u64,
    spared: Option<u16>,
    span: u32,
    out: &mut [u8],
    at: usize,
) -> Put
    requires { at < 4294900000 }
    ensures { (result.at ≤ at + 1344) × (result.count ≤ 64) × ((T : Tables) (depths births : List ℕ) (g : ℕ → Status) (n : ℕ) → Marked T l.now.types g n mark
        → Stored out.old at (delete_bytes (collect (states off) T (admitted spared) span (lent l.now.names l.now.types depths births g n))) out.new result.at
        × (result.count ≡ length (collect (states off) T (admitted spared) span (lent l.now.names l.now.types depths births g n)))) }
{
    let mut m = mark;
    let mut place = at;
    let mut put = 0;
    // the bits of a word, highest first (document 02, (b)): no index is counted through
    while 0 < m {
        let i = scope_stack::newest(m);
        let name = l.names[i];
        if admits(spared, name) {
            place = image_writing::put_delete(out, place, span, name, l.types[i]);
            put += 1;
        }
        m = scope_stack::without(m, i);
    }
    Put {
        at: place,
        count: put,
    }
}

// What the lines of left-behind entries begin with, if a page is made.
fn begin_lefts(paged: bool, span: u32, text: &mut [u8; 73])
    requires { text.old ≡ blanks 73 }
    ensures { «paged» ≡ true → text.new ≡ left_begin span }
{
    if paged {
        image_lines::begin_left(text, span);
    }
}

// A local left behind: three numbers, or a line.
fn put_left(
    paged: bool,
    text: &[u8; 73],
    out: &mut [u8],
    lefts: &mut [u32],
    at: usize,
    span: u32,
    name: u32,
    born: u32,
) -> usize
    requires { (at < 4294900000) × («paged» ≡ true → text.now ≡ left_begin span) }
    ensures { Listed «paged» (left span name born ∷ []) lefts.old out.old at lefts.new out.new result × (result ≤ at + 73) }
{
    if paged {
        return image_lines::put_left_line(text, out, at, name, born);
    }
    image_writing::put_triple(lefts, at, span, name, born)
}

// What a return without a value, a Break or a Continue leaves behind: the locals that a mark has, newest first, each as the span, the name and the birth.
pub fn list_left(
    l: &Locals,
    mark: u64,
    span: u32,
    paged: bool,
    out: &mut [u8],
    lefts: &mut [u32],
    n: usize,
) -> usize
    requires { n < 4294800000 }
    ensures { (result ≤ n + 4672) × ((T : Tables) (tys depths : List ℕ) (g : ℕ → Status) (k : ℕ) → Marked T tys g k mark
        → Listed «paged» (gather (states off) T (admitted None) (left_at span) (lent l.now.names tys depths l.now.births g k)) lefts.old out.old n lefts.new out.new result) }
{
    let mut text = [32u8; 73];
    begin_lefts(paged, span, &mut text);
    let mut rest = mark;
    let mut at = n;
    while 0 < rest {
        let i = scope_stack::newest(rest);
        at = put_left(
            paged,
            &text,
            out,
            lefts,
            at,
            span,
            u32::from(l.names[i]),
            l.births[i],
        );
        rest = scope_stack::without(rest, i);
    }
    at
}

// pre_delete_before_assign: the newest local of a name, if the mark has it.
pub fn put_assign_drop(
    l: &Locals,
    mark: u64,
    name: u16,
    span: u32,
    out: &mut [u8],
    at: usize,
) -> Put
    requires { (l.now.count ≤ 64) × (at < 4294900000) }
    ensures { (result.at ≤ at + 21) × (result.count ≤ 1) × ((T : Tables) (depths births : List ℕ) (g : ℕ → Status) → Marked T l.now.types g l.now.count mark
        → Stored out.old at (delete_bytes (drop_named (states off) T (λ x. true) span (called name 0) (lent l.now.names l.now.types depths births g l.now.count))) out.new result.at
        × (result.count ≡ length (drop_named (states off) T (λ x. true) span (called name 0) (lent l.now.names l.now.types depths births g l.now.count)))) }
{
    let Some(i) = scope_state::find_local(&l.names, l.count, name) else {
        return Put { at, count: 0 };
    };
    if !scope_stack::has_bit(mark, i) {
        return Put { at, count: 0 };
    }
    let end = image_writing::put_delete(out, at, span, name, l.types[i]);
    Put { at: end, count: 1 }
}

// The name that a return of the value at a position spares.
fn returned_identifier_name(s: &[u8], value: usize) -> Option<u16>
    ensures { (e : Expr) (next : ℕ) → Stands e s.now value next → result ≡ sparing (name_in (viewed e)) }
{
    let named = name_in(s, value)?;
    Some(named.name)
}

// A Return with a value: deletes, with span 0, then the statement.
fn return_statement(s: &[u8], l: &Locals, mark: u64, p: Place, end: usize, out: &mut [u8]) -> Act
    requires { Within s.now p × FrontThere s.now p.at end × (get_or s.now p.at 0 ≡ 2) × (get_or s.now (p.at + 5) 0 ≡ 1) }
    ensures acts_there { (w : Switches) (T : Tables) (ld births : List ℕ) (g : ℕ → Status) (n : ℕ) → Marked T l.now.types g n mark → (warns left : List ℕ) (loop : Maybe ℕ)
        → ActsThere w T s.now loop (lent l.now.names l.now.types ld births g n) p out.old warns left result out.new warns left }
    ensures grows { Grows s.now p result.place × EndsThere s.now p.at result.place.at }
{
    let spared = returned_identifier_name(s, p.at + 6);
    let put = put_drops(l, mark, spared, 0, out, p.written);
    unchanged(behind(s, p, put, end + 2, out))
}

// The place after so many numbers of left-behind entries, or bytes of their lines.
fn listed(p: Place, lefts: usize) -> Place
    ensures { result ≡ relisted p lefts }
{
    Place { lefts, ..p }
}

// Whether a switch value has a switch on, by its bit: 1, 2, 4 or 8.
pub fn has_switch(switches: u32, bit: u32) -> bool
    requires { 0 < bit }
    ensures { result ≡ eqb (switches / bit % 2) 1 }
{
    switches / bit % 2 == 1
}

// What a statement leaves where it changes nothing.
fn unchanged(place: Place) -> Act
    ensures { result ≡ record { place = place; change = Nothing; taken = None } }
{
    Act {
        place,
        change: Change::Nothing,
        taken: None,
    }
}

// A Return without a value, by switch 1: what it would leave behind is deleted before it, with span 0, or else listed.
fn bare_return(
    s: &[u8],
    l: &Locals,
    mark: u64,
    switches: u32,
    p: Place,
    out: &mut [u8],
    lefts: &mut [u32],
) -> Act
    requires { Within s.now p × FrontThere s.now p.at (p.at + 6) × (get_or s.now p.at 0 ≡ 2) × (get_or s.now (p.at + 5) 0 ≡ 0) }
    ensures acts_there { (T : Tables) (ld : List ℕ) (g : ℕ → Status) (n : ℕ) → Marked T l.now.types g n mark → (warns : List ℕ) (loop : Maybe ℕ)
        → ActsThere (switches_of switches) T s.now loop (lent l.now.names l.now.types ld l.now.births g n) p out.old warns lefts.old result out.new warns lefts.new }
    ensures grows { Grows s.now p result.place × EndsThere s.now p.at result.place.at }
{
    if has_switch(switches, 1) {
        let put = put_drops(l, mark, None, 0, out, p.written);
        return unchanged(behind(s, p, put, p.at + 8, out));
    }
    let span = span_at(s, p.at + 1);
    let left = list_left(l, mark, span, p.paged, out, lefts, p.lefts);
    unchanged(behind(s, listed(p, left), nothing_put(p), p.at + 8, out))
}

// A Break or Continue, likewise by switch 2, of the frames out to the nearest loop's body, that is of the locals from base on.
fn jump_statement(
    s: &[u8],
    l: &Locals,
    mark: u64,
    base: usize,
    switches: u32,
    p: Place,
    out: &mut [u8],
    lefts: &mut [u32],
) -> Act
    requires { Within s.now p × FrontThere s.now p.at (p.at + 5) × (8 < get_or s.now p.at 0) × (base ≤ 64) }
    ensures acts_there { (T : Tables) (ld : List ℕ) (g : ℕ → Status) (n : ℕ) → Marked T l.now.types g n mark → (loop : Maybe ℕ) → Looped ld loop base n → (warns : List ℕ)
        → ActsThere (switches_of switches) T s.now loop (lent l.now.names l.now.types ld l.now.births g n) p out.old warns lefts.old result out.new warns lefts.new }
    ensures grows { Grows s.now p result.place × EndsThere s.now p.at result.place.at }
{
    let own = scope_stack::since(mark, base);
    if has_switch(switches, 2) {
        let put = put_drops(l, own, None, 0, out, p.written);
        return unchanged(behind(s, p, put, p.at + 5, out));
    }
    let span = span_at(s, p.at + 1);
    let left = list_left(l, own, span, p.paged, out, lefts, p.lefts);
    unchanged(behind(s, listed(p, left), nothing_put(p), p.at + 5, out))
}

// A Return, by its flag.
fn either_return(
    s: &[u8],
    l: &Locals,
    mark: u64,
    switches: u32,
    p: Place,
    end: usize,
    out: &mut [u8],
    lefts: &mut [u32],
) -> Act
    requires { Within s.now p × FrontThere s.now p.at end × (get_or s.now p.at 0 ≡ 2) }
    ensures acts_there { (T : Tables) (ld : List ℕ) (g : ℕ → Status) (n : ℕ) → Marked T l.now.types g n mark → (warns : List ℕ) (loop : Maybe ℕ)
        → ActsThere (switches_of switches) T s.now loop (lent l.now.names l.now.types ld l.now.births g n) p out.old warns lefts.old result out.new warns lefts.new }
    ensures grows { Grows s.now p result.place × EndsThere s.now p.at result.place.at }
{
    if peek(s, p.at + 5) == 1 {
        return return_statement(s, l, mark, p, end, out);
    }
    bare_return(s, l, mark, switches, p, out, lefts)
}

// pre_delete_before_assign: the destination at a position is an Ident, not a ThisLiteral.
fn pre_delete_before_assign(
    s: &[u8],
    l: &Locals,
    mark: u64,
    destination: usize,
    span: u32,
    out: &mut [u8],
    at: usize,
) -> Put
    requires { (l.now.count ≤ 64) × (at < 4294900000) }
    ensures { (result.at ≤ at + 21) × (result.count ≤ 1) × ((w : Switches) (T : Tables) (ld births : List ℕ) (g : ℕ → Status) → Marked T l.now.types g l.now.count mark
        → (e : Expr) (next : ℕ) → Stands e s.now destination next
        → Stored out.old at (delete_bytes (assign_drops (states w) T (concerns w) span e (lent l.now.names l.now.types ld births g l.now.count))) out.new result.at
        × (result.count ≡ length (assign_drops (states w) T (concerns w) span e (lent l.now.names l.now.types ld births g l.now.count)))) }
{
    let p = image_body::strip_noop_unary(s, destination);
    let Node::Ident(_) = image_body::node_at(s, p) else {
        return Put { at, count: 0 };
    };
    let name = name_at(s, p + 7);
    put_assign_drop(l, mark, name, span, out, at)
}

// An Assign: its delete, then the statement.
fn assign_statement(
    s: &[u8],
    ns: &[u32],
    l: &Locals,
    mark: u64,
    p: Place,
    end: usize,
    out: &mut [u8],
) -> Act
    requires { AllWithin s.now ns.now × (l.now.count ≤ 64) × Within s.now p × FrontThere s.now p.at end × (get_or s.now p.at 0 ≡ 6) }
    ensures acts_there { (w : Switches) (T : Tables) → map (name_of s.now) ns.now ≡ T.names
        → (ld births : List ℕ) (g : ℕ → Status) → Marked T l.now.types g l.now.count mark → (warns left : List ℕ) (loop : Maybe ℕ)
        → ActsThere w T s.now loop (lent l.now.names l.now.types ld births g l.now.count) p out.old warns left result out.new warns left }
    ensures grows { Grows s.now p result.place × EndsThere s.now p.at result.place.at }
{
    let span = span_at(s, p.at + 1);
    let dst = p.at + 5;
    let put = pre_delete_before_assign(s, l, mark, dst, span, out, p.written);
    let place = behind(s, p, put, end + 2, out);
    Act {
        place,
        change: revived(s, dst),
        taken: taken_by(s, ns, l, dst),
    }
}

// A statement up to its blocks: its tag is at the place, its values, evaluated, end at `end`.
pub fn statement(
    s: &[u8],
    tb: &[u32],
    l: &Locals,
    mark: u64,
    base: usize,
    switches: u32,
    p: Place,
    end: usize,
    out: &mut [u8],
    warns: &mut [u32],
    lefts: &mut [u32],
) -> Act
    requires { Lent s.now tb.now × (l.now.count ≤ 64) × (base ≤ 64) × Within s.now p × FrontThere s.now p.at end }
    ensures acts_there { (T : Tables) → Says s.now tb.now T
        → (ld : List ℕ) (g : ℕ → Status) → Marked T l.now.types g l.now.count mark → (loop : Maybe ℕ) → Looped ld loop base l.now.count
        → ActsThere (switches_of switches) T s.now loop (lent l.now.names l.now.types ld l.now.births g l.now.count) p out.old warns.old lefts.old result out.new warns.new lefts.new }
    ensures grows { Grows s.now p result.place × EndsThere s.now p.at result.place.at }
{
    let names = 8 + tb[0] as usize;
    let ns = &tb[8..names];
    match s[p.at] {
        2 => either_return(s, l, mark, switches, p, end, out, lefts),
        3 => expr_statement(s, tb, p, end, out, warns),
        4 | 5 => variable_statement(s, ns, l, p, end, out),
        6 => assign_statement(s, ns, l, mark, p, end, out),
        9.. => jump_statement(s, l, mark, base, switches, p, out, lefts),
        _ => plain_statement(s, p, end, out),
    }
}
