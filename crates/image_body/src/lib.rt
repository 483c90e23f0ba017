// Answers what stands at a place of a body that was read: every answer equals what the definitions of specs/ say of the bytes.
#![tactic(auto)]

pub mod layout;

ghost use Rattle.std.specs.Prelude.{◌≡◌, ℕ, ◌+◌, ◌-◌, ◌≤◌, ◌<◌, cond, length, eqb};
ghost use Rattle.image_fields.specs.Number.{two};
ghost use Rattle.image_body.specs.Expr.{Expr, Exprs, through, generic_receiver};
ghost use Rattle.image_body.specs.Node.{node_at};
ghost use Rattle.image_body.specs.Stands.{Stands, StandAll, count};
ghost use Rattle.image_body.specs.Depth.{Walkable, WalkableAll};

use image_fields::{peek, peek_two};

// How many names and types there are, and how deep an expression may be.
#[derive(Clone, Copy)]
pub struct Env {
    pub names: usize,
    pub types: usize,
    pub depth: usize,
}

// What stands at a position, in the order of the tags: numbers, and positions of what follows the head.
#[derive(Clone, Copy)]
pub enum Node {
    Other,
    Ident(usize),
    This,
    Unary(usize, usize),
    Casting(usize),
    Binary(usize),
    Call(usize),
    ListOf(usize, usize),
    Sized(usize),
    Object(usize, usize),
    Delete(usize),
    FieldAccess(usize),
    Indexing(usize),
    StaticAccess,
    Intrinsic(usize, usize, usize),
    Literal,
}

// The node of the tag at a position, whatever follows it; Other past the end and for any other byte.
#[tactic(auto, unfolding(crate::specs::Node::node_of))]
pub fn node_at(s: &[u8], at: usize) -> Node
    ensures { result ≡ node_at s.now at }
{
    let tag = peek(s, at);
    if s.len() <= at {
        return Node::Other;
    }
    match tag {
        1 => Node::Ident(peek_two(s, at + 7)),
        2 => Node::This,
        3 => Node::Unary(peek(s, at + 7), at + 8),
        4 => Node::Casting(at + 7),
        5 => Node::Binary(at + 7),
        6 => Node::Call(at + 7),
        7 => Node::ListOf(peek_two(s, at + 7), at + 9),
        8 => Node::Sized(at + 7),
        9 => Node::Object(peek_two(s, at + 7), at + 9),
        10 => Node::Delete(at + 7),
        11 => Node::FieldAccess(at + 7),
        12 => Node::Indexing(at + 7),
        13 => Node::StaticAccess,
        14 => Node::Intrinsic(peek_two(s, at + 7), peek_two(s, at + 9), at + 11),
        15 => Node::Literal,
        _ => Node::Other,
    }
}

// The position of an expression looked through: past its operator-less unaries. What stands there ends where the expression does.
pub fn strip_noop_unary(s: &[u8], at: usize) -> usize
    ensures { (e : Expr) (next : ℕ) → Stands e s.now at next → Stands (through e) s.now result next }
{
    let mut p = at;
    // 3: a Unary; its operator stands behind the head, then its child.
    while peek(s, p) == 3 {
        if 0 < peek(s, p + 7) {
            return p;
        }
        p += 8;
    }
    p
}

// Whether the call whose callee stands at `at` has a generic receiver.
pub fn generic_receiver(s: &[u8], flags: &[u8], at: usize) -> bool
    ensures { (e : Expr) (next : ℕ) → Stands e s.now at next → result ≡ generic_receiver flags.now e }
{
    let p = strip_noop_unary(s, at);
    // 11: a FieldAccess, its target behind the head; 1: an Ident.
    if peek(s, p) != 11 {
        return false;
    }
    let target = p + 7;
    let q = strip_noop_unary(s, target);
    peek(s, q) == 1 && peek(flags, peek_two(s, target + 5)) == 1
}

// The number of items at p, or 0 where the tag has no counted list.
fn items_at(s: &[u8], width: usize, p: usize) -> usize
    requires { p ≤ length s.now }
    ensures { result ≡ cond (eqb width 2) (two s.now p) 0 }
{
    if width == 2 { peek_two(s, p) } else { 0 }
}

// The position after an expression of an image that was read.
#[cycle(skip_skip_many)]
pub fn skip(s: &[u8], left: usize, at: usize) -> usize
    requires { Walkable s.now left at }
    ensures { (e : Expr) (next : ℕ) → Stands e s.now at next → result ≡ next }
{
    let tag = peek(s, at);
    let p = skip_many(
        s,
        left - 1,
        layout::fixed_count(tag),
        at + 7 + layout::arg_width(tag),
    );
    let width = layout::count_width(tag);
    let q = skip_many(s, left - 1, items_at(s, width, p), p + width);
    q + layout::last_width(tag)
}

// The position after so many expressions of an image that was read.
#[cycle(skip_skip_many)]
pub fn skip_many(s: &[u8], left: usize, n: usize, at: usize) -> usize
    requires { WalkableAll s.now left n at }
    ensures { (es : Exprs) (next : ℕ) → StandAll es s.now at next → count es ≡ n → result ≡ next }
{
    let mut p = at;
    for _ in 0..n {
        p = skip(s, left, p);
    }
    p
}
