// What a call and std::move do once their arguments are evaluated, as mod.rs's validate_expr has it, as far as the tables and the
// bytes say it: the caller asks its stack which names are locals.
#![tactic(auto)]

ghost use Rattle.std.specs.Prelude.{◌≡◌, ℕ, ◌+◌, ◌*◌, ◌<◌, ◌≤◌, [], ◌∷◌, map, length};
ghost use Rattle.image_fields.specs.Table.{entries};
ghost use Rattle.tables.specs.Tables.{Tables};
ghost use Rattle.tables.specs.Name.{name_of};
ghost use Rattle.tables.specs.Ty.{type_in};
ghost use Rattle.tables.specs.Signature.{struct_in, global_in};
ghost use Rattle.tables_lookup.specs.First.{AllWithin};
ghost use Rattle.tables_lookup.specs.Ty.{Lower};
ghost use Rattle.image_body.specs.Expr.{Expr, head_of, through};
ghost use Rattle.image_body.specs.Stands.{Stands, Placed};
ghost use Rattle.rules.specs.Questions.{is_move_of, consumes as consuming};
ghost use Rattle.rules.specs.Effects.{field_call, move_local, move_ident, move_head, finish as finished};
ghost use Rattle.tables_lookup.specs.Lent.{Lent, Says};
ghost use Rattle.expressions_effects.specs.Asked.{emits};

use expressions_effects::{Effect, is_temp, name_at, span_at};
use image_body::Node;
use image_fields::{peek, peek_two};

// Whether a name is the table's `std::move`.
fn is_move(s: &[u8], names: &[u32], n: u16) -> bool
    requires { AllWithin s.now names.now }
    ensures { (T : Tables) → map (name_of s.now) names.now ≡ T.names → result ≡ is_move_of T n }
{
    let k = usize::from(n);
    k < names.len() && tables_named::is_move(s, names, k)
}

// Whether a method consumes a receiver of the type.
fn consumes(s: &[u8], types: &[u32], structs: &[u32], ty: usize, method: usize) -> bool
    requires { AllWithin s.now types.now × AllWithin s.now structs.now × Lower (map (type_in s.now) types.now) }
    ensures { (T : Tables) → map (type_in s.now) types.now ≡ T.types
        → map (struct_in s.now) structs.now ≡ T.structs → result ≡ consuming T ty method }
{
    tables_named::method_modifier(s, types, structs, ty, method) == Some(3)
}

// The receiver that the call with the callee at `at` consumes.
fn consuming_method_receiver(s: &[u8], types: &[u32], structs: &[u32], at: usize) -> Effect
    requires { AllWithin s.now types.now × AllWithin s.now structs.now × Lower (map (type_in s.now) types.now) }
    ensures { (T : Tables) → map (type_in s.now) types.now ≡ T.types
        → map (struct_in s.now) structs.now ≡ T.structs
        → (e : Expr) (next : ℕ) → Stands e s.now at next → emits result ≡ field_call T (through e) }
{
    let p = image_body::strip_noop_unary(s, at);
    let Node::FieldAccess(target) = image_body::node_at(s, p) else {
        return Effect::Nothing;
    };
    let q = image_body::strip_noop_unary(s, target);
    let Node::Ident(_) = image_body::node_at(s, q) else {
        return Effect::Nothing;
    };
    let ty = peek_two(s, target + 5);
    let method = peek_two(s, q + 9);
    if consumes(s, types, structs, ty, method) {
        Effect::Consume(name_at(s, q + 7), span_at(s, p + 1))
    } else {
        Effect::Nothing
    }
}

fn move_local(s: &[u8], names: &[u32], n: u16, p: u32) -> Effect
    requires { AllWithin s.now names.now }
    ensures { (T : Tables) → map (name_of s.now) names.now ≡ T.names → emits result ≡ move_local T n p ∷ [] }
{
    if is_temp(s, names, n) {
        Effect::MoveTemp(n, p)
    } else {
        Effect::Move(n, p)
    }
}

fn move_ident(s: &[u8], names: &[u32], count: usize, first: usize, n: u16, p: u32) -> Effect
    requires { AllWithin s.now names.now × (first + 6 * count ≤ length s.now) }
    ensures { (T : Tables) → map (name_of s.now) names.now ≡ T.names
        → entries (global_in s.now) 6 count first ≡ T.globals → emits result ≡ move_ident T n p ∷ [] }
{
    match tables_named::global_span(s, count, first, usize::from(n)) {
        Some(def) => Effect::GlobalMove(p, def as u32),
        None => move_local(s, names, n, p),
    }
}

// The move of the argument at `at`.
fn validate_move_argument(s: &[u8], names: &[u32], count: usize, first: usize, at: usize) -> Effect
    requires { AllWithin s.now names.now × (first + 6 * count ≤ length s.now) × (at < length s.now + 13) }
    ensures { (T : Tables) → map (name_of s.now) names.now ≡ T.names
        → entries (global_in s.now) 6 count first ≡ T.globals
        → (e : Expr) (next : ℕ) → Stands e s.now at next → emits result ≡ move_head T (head_of e).span (head_of (through e)) ∷ [] }
{
    let p = image_body::strip_noop_unary(s, at);
    match peek(s, p) {
        1 => move_ident(s, names, count, first, name_at(s, p + 7), span_at(s, p + 1)),
        2 => move_local(s, names, 0, span_at(s, p + 1)),
        _ => Effect::BadMove(span_at(s, at + 1)),
    }
}

// What the Intrinsic that starts there does after its arguments: `std::move` moves the first of them.
fn moves(s: &[u8], names: &[u32], count: usize, first: usize, start: usize) -> Effect
    requires { AllWithin s.now names.now × (first + 6 * count ≤ length s.now) × (start ≤ length s.now) }
    ensures { (T : Tables) → map (name_of s.now) names.now ≡ T.names
        → entries (global_in s.now) 6 count first ≡ T.globals
        → (e : Expr) (next : ℕ) → Stands e s.now start next → (head_of e).tag ≡ 14 → emits result ≡ finished T e }
{
    let many = peek_two(s, start + 9);
    if is_move(s, names, name_at(s, start + 7)) && 0 < many {
        validate_move_argument(s, names, count, first, start + 11)
    } else {
        Effect::Nothing
    }
}

// What the node that starts there does after its children.
pub fn finish(s: &[u8], tb: &[u32], tag: u8, start: usize) -> Effect
    requires { Lent s.now tb.now × (start ≤ length s.now) }
    ensures { (T : Tables) → Says s.now tb.now T
        → (e : Expr) → (0 < tag → Placed s.now start e) → (head_of e).tag ≡ tag → emits result ≡ finished T e }
{
    match tag {
        6 => {
            let types = 520 + tb[1] as usize;
            let structs = 776 + tb[2] as usize;
            consuming_method_receiver(s, &tb[520..types], &tb[776..structs], start + 7)
        },
        14 => {
            let names = 8 + tb[0] as usize;
            moves(s, &tb[8..names], tb[3] as usize, tb[4] as usize, start)
        },
        _ => Effect::Nothing,
    }
}
