// What a node of an expression does before its children, as mod.rs's validate_expr has it, as far as the tables and the bytes say
// it: the caller asks its stack which names are locals.
#![tactic(auto)]

ghost use Rattle.std.specs.Prelude.{◌≡◌, true, false, map, ◌+◌, ◌<◌, length, get_or};
ghost use Rattle.image_fields.specs.Number.{two, four};
ghost use Rattle.tables.specs.Tables.{Tables};
ghost use Rattle.tables.specs.Name.{name_of};
ghost use Rattle.tables_lookup.specs.First.{AllWithin};
ghost use Rattle.rules.specs.Questions.{is_temp_of};
ghost use Rattle.expressions_effects.specs.Asked.{leaf as leaf_at, leaf_of};
ghost use Rattle.expressions_effects.specs.Asked.{emits};

use image_fields::{peek, peek_two};

// A name and a place. UseHand is a use and then the hand-over of a temporary; MoveTemp a move of a temporary. BadMove, the move of
// what is no name, has a place; GlobalMove a place and the place of the global's definition.
#[derive(Clone, Copy)]
pub enum Effect {
    Nothing,
    Use(u16, u32),
    UseHand(u16, u32),
    Consume(u16, u32),
    Move(u16, u32),
    MoveTemp(u16, u32),
    BadMove(u32),
    GlobalMove(u32, u32),
}

// The number in two bytes, 0 for what is past the end.
pub fn name_at(s: &[u8], at: usize) -> u16
    requires { at < length s.now + 16 }
    ensures { result ≡ two s.now at }
{
    peek_two(s, at) as u16
}

// The place in four bytes, 0 for what is past the end.
pub fn span_at(s: &[u8], at: usize) -> u32
    requires { at < length s.now + 14 }
    ensures { result ≡ four s.now at }
{
    (peek_two(s, at) * 65536 + peek_two(s, at + 2)) as u32
}

// Whether a name is one of the table that begins with `__tmp`.
// As is_move in expressions_calls with another question: one function that is handed the question would be no plainer.
pub fn is_temp(s: &[u8], names: &[u32], n: u16) -> bool
    requires { AllWithin s.now names.now }
    ensures { (T : Tables) → map (name_of s.now) names.now ≡ T.names → result ≡ is_temp_of T n }
{
    let k = usize::from(n);
    k < names.len() && tables_named::is_compiler_temp_name(s, names, k)
}

// What is handed over: its use, and the hand-over of a temporary.
fn mark_compiler_temp_consumed(s: &[u8], names: &[u32], n: u16, p: u32) -> Effect
    requires { AllWithin s.now names.now }
    ensures { (T : Tables) → map (name_of s.now) names.now ≡ T.names → emits result ≡ leaf_at T true n p }
{
    if is_temp(s, names, n) {
        Effect::UseHand(n, p)
    } else {
        Effect::Use(n, p)
    }
}

// The use of a name, and its hand-over where it is handed over.
fn identifier_effect(s: &[u8], names: &[u32], handed: bool, n: u16, p: u32) -> Effect
    requires { AllWithin s.now names.now }
    ensures { (T : Tables) → map (name_of s.now) names.now ≡ T.names → emits result ≡ leaf_at T handed n p }
{
    if handed {
        mark_compiler_temp_consumed(s, names, n, p)
    } else {
        Effect::Use(n, p)
    }
}

// What the node at p does before its children.
pub fn own(s: &[u8], names: &[u32], handed: bool, p: usize) -> Effect
    requires { (p < length s.now) × AllWithin s.now names.now }
    ensures { (T : Tables) → map (name_of s.now) names.now ≡ T.names
        → emits result ≡ leaf_of T handed (get_or s.now p 0) (two s.now (p + 7)) (four s.now (p + 1)) }
{
    match peek(s, p) {
        1 => identifier_effect(s, names, handed, name_at(s, p + 7), span_at(s, p + 1)),
        2 => identifier_effect(s, names, handed, 0, span_at(s, p + 1)),
        _ => Effect::Nothing,
    }
}
