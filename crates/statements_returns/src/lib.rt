// What surely returns, by places in the image: statements_guaranteed_return and statement_guaranteed_return call each other, the
// depth of blocks falling.
#![tactic(auto)]

ghost use Rattle.std.specs.Prelude.{◌≡◌, ◌≤◌, ◌<◌, cond, ◌&&◌, length, get_or, eqb};
ghost use Rattle.statements_returns.specs.Front.{front_at};
ghost use Rattle.statements_returns.specs.Returns.{StmtThere, BlockThere, BranchesThere, StmtSure, BlockSure, BranchesSure};

use image_body::layout;
use image_fields::{peek, wide, wide16};

// A statement's tag, how many values it has, where the first begins, and the bytes of the type after them.
#[derive(Clone, Copy)]
pub struct Front {
    pub tag: u8,
    pub values: u16,
    pub first: usize,
    pub last: usize,
}

// Whether statements surely return, and where they end.
#[derive(Clone, Copy)]
pub struct Sure {
    pub returns: bool,
    pub at: usize,
}

// The flag of a Return, or 0.
// As items_at in image_body with other widths and bounds: no plainer as one.
fn flag_at(s: &[u8], width: usize, at: usize) -> usize
    ensures { (result ≡ cond (eqb width 1) (get_or s.now at 0) 0) × (result < 256) }
{
    if width == 1 { peek(s, at) } else { 0 }
}

// The front of the statement at a position.
pub fn front_at(s: &[u8], at: usize) -> Front
    requires { (at < length s.now) × (get_or s.now at 0 < 11) }
    ensures { result ≡ front_at s.now at }
{
    let tag = s[at];
    let k = wide(tag);
    let flag = layout::value_flag(k);
    let head = at + layout::head_bytes(k);
    let more = flag_at(s, flag, head);
    Front {
        tag,
        values: (layout::value_count(k) + more) as u16,
        first: head + flag,
        last: layout::type_width(k),
    }
}

// The blocks of an IfElse.
#[cycle(branches_guaranteed_return_statement_guaranteed_return_statements_guaranteed_return)]
fn branches_guaranteed_return(s: &[u8], left: usize, at: usize) -> Sure
    requires { BranchesThere s.now left at × (length s.now ≤ 65536) }
    ensures { BranchesSure s.now left at result }
{
    let then = statements_guaranteed_return(s, left, at);
    let flag = then.at;
    if peek(s, flag) == 0 {
        return Sure {
            returns: false,
            at: flag + 1,
        };
    }
    let other = statements_guaranteed_return(s, left, flag + 1);
    Sure {
        returns: then.returns && other.returns,
        at: other.at,
    }
}

// Of the statement at a position; blocks in it have so much depth left.
#[cycle(branches_guaranteed_return_statement_guaranteed_return_statements_guaranteed_return)]
pub fn statement_guaranteed_return(s: &[u8], left: usize, at: usize) -> Sure
    requires { StmtThere s.now left at × (length s.now ≤ 65536) }
    ensures { StmtSure s.now left at result }
{
    let f = front_at(s, at);
    let p = image_body::skip_many(s, 24, wide16(f.values), f.first) + f.last;
    match f.tag {
        1 => statements_guaranteed_return(s, left, p),
        7 => branches_guaranteed_return(s, left, p),
        8 => Sure {
            returns: false,
            ..statements_guaranteed_return(s, left, p)
        },
        tag => Sure {
            returns: tag == 2,
            at: p,
        },
    }
}

// Of the block at a position, with so much depth left: the last statement counts.
#[cycle(branches_guaranteed_return_statement_guaranteed_return_statements_guaranteed_return)]
pub fn statements_guaranteed_return(s: &[u8], left: usize, at: usize) -> Sure
    requires { BlockThere s.now left at × (length s.now ≤ 65536) }
    ensures { BlockSure s.now left at result }
{
    let n = image_fields::two_at(s, at + 4);
    let mut last = Sure {
        returns: false,
        at: at + 6,
    };
    for _ in 0..n {
        last = statement_guaranteed_return(s, left - 1, last.at);
    }
    last
}
