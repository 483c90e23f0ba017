// Hands out the effects of an expression one after another, in the order of mod.rs's validate_expr, as far as the tables and the
// bytes say them: the caller asks its stack which names are locals.
#![tactic(auto)]

ghost use Rattle.std.specs.Prelude.{◌≡◌, List, map, ℕ, ◌≤◌, ◌<◌, get_or, eqb};
ghost use Rattle.tables.specs.Tables.{Tables};
ghost use Rattle.tables.specs.Name.{name_of};
ghost use Rattle.tables_lookup.specs.First.{AllWithin};
ghost use Rattle.rules.specs.Effects.{takes, handed as is_handed};
ghost use Rattle.tables_lookup.specs.Lent.{Lent, Says};
ghost use Rattle.expressions_steps.specs.Scan.{root_of, top_of, Ready, Waits, Goes};
ghost use Rattle.expressions_steps.specs.declared.Open.{Open};

use expressions_effects::Effect;
use image_body::layout;
use image_fields::{wide, wide32};

// An open node: where it starts, how many children are left of those being scanned, its tag, and the bytes of the count of its
// items while that is still to come.
#[derive(Clone, Copy)]
pub struct Open {
    pub start: u32,
    pub left: u16,
    pub tag: u8,
    pub counted: u8,
}

// The open nodes of a scan, outermost first.
pub type Nodes = [Open; 26];

// What becomes of the innermost open node: it ends; it stays, as it is now; or it stays, as it is now, and a child begins.
#[derive(Clone, Copy)]
pub enum Innermost {
    Ends,
    Stays(Open),
    Opens(Open, Open),
}

// One step at the innermost open node: what it does, where to go on, and what becomes of the node.
#[derive(Clone, Copy)]
pub struct Step {
    pub effect: Effect,
    pub at: usize,
    pub innermost: Innermost,
}

// Whether a node of a tag takes its items or its child over.
#[tactic(auto, using(crate::proofs::Takes::takes_6, crate::proofs::Takes::takes_8, crate::proofs::Takes::takes_low, crate::proofs::Takes::takes_high))]
fn takes_over(tag: u8) -> bool
    ensures { result ≡ eqb (get_or takes tag 0) 1 }
{
    matches!(tag, 6 | 8 | 9)
}

// Whether a child being scanned is handed over: the callee, before the count of the arguments, is not.
fn is_handed(counted: u8, tag: u8) -> bool
    requires { tag < 16 }
    ensures { result ≡ is_handed counted tag }
{
    counted == 0 && takes_over(tag)
}

// Whoever holds k expressions: so many children.
pub fn root(k: u16) -> Open
    ensures { result ≡ root_of k }
{
    Open {
        start: 0,
        left: k,
        tag: 0,
        counted: 0,
    }
}

// The next child begins, at `at`.
fn next_child(s: &[u8], names: &[u32], top: Open, at: usize) -> Step
    requires { AllWithin s.now names.now × Waits s.now top at × (0 < top.left) }
    ensures { (T : Tables) → map (name_of s.now) names.now ≡ T.names
        → (os : List Open) (n : ℕ) → Ready s.now os n at → 0 < n → top_of os n ≡ top → Goes T s.now os n at result }
{
    let p = image_body::strip_noop_unary(s, at);
    let effect = expressions_effects::own(s, names, is_handed(top.counted, top.tag), p);
    let tag = s[p];
    let k = wide(tag);
    let next = p + 7 + layout::arg_width(k);
    let lower = Open {
        left: top.left - 1,
        ..top
    };
    if layout::is_leaf(k) {
        return Step {
            effect,
            at: next,
            innermost: Innermost::Stays(lower),
        };
    }
    let inner = Open {
        start: p as u32,
        left: layout::fixed_count(k) as u16,
        tag,
        counted: layout::count_width(k) as u8,
    };
    Step {
        effect,
        at: next,
        innermost: Innermost::Opens(lower, inner),
    }
}

// The count of the items is read: these are the children now.
fn count_items(s: &[u8], top: Open, at: usize) -> Step
    requires { Waits s.now top at × (top.left ≤ 0) × (0 < top.counted) }
    ensures { (T : Tables) (os : List Open) (n : ℕ) → Ready s.now os n at → 0 < n → top_of os n ≡ top → Goes T s.now os n at result }
{
    let lower = Open {
        left: expressions_effects::name_at(s, at),
        counted: 0,
        ..top
    };
    Step {
        effect: Effect::Nothing,
        at: at + 2,
        innermost: Innermost::Stays(lower),
    }
}

// The next child begins, the count of the items is read, or the node ends.
pub fn advance(s: &[u8], tb: &[u32], top: Open, at: usize) -> Step
    requires { Lent s.now tb.now × Waits s.now top at }
    ensures { (T : Tables) → Says s.now tb.now T
        → (os : List Open) (n : ℕ) → Ready s.now os n at → 0 < n → top_of os n ≡ top → Goes T s.now os n at result }
{
    if 0 < top.left {
        let names = 8 + tb[0] as usize;
        return next_child(s, &tb[8..names], top, at);
    }
    if 0 < top.counted {
        return count_items(s, top, at);
    }
    let effect = expressions_calls::finish(s, tb, top.tag, wide32(top.start));
    Step {
        effect,
        at: at + layout::last_width(wide(top.tag)),
        innermost: Innermost::Ends,
    }
}
