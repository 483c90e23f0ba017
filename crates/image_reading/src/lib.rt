// Reads expressions, statements and blocks: every answer equals what the definitions of specs/ say of the bytes.
#![tactic(auto)]

ghost use Rattle.std.specs.Prelude.{◌≡◌, ℕ, ◌+◌, ◌-◌, ◌<◌, length, get_or, Result};
ghost use Rattle.image_fields.specs.declared.Fault.{Fault};
ghost use Rattle.image_fields.specs.Fault.{coded};
ghost use Rattle.image_fields.specs.Answer.{read_of};
ghost use Rattle.image_body.specs.Expr.{Head, Exprs, fixed_count, arg_limit, type_ok, head_at, end_at, expr_at, exprs_at, children_at};
ghost use Rattle.image_body.specs.Stmt.{StmtHead, Front, binds_ok, stmt_head_at, values_at, front_at, block_at, stmt_in, back_in, stmts_at, blocks_at};
ghost use Rattle.image_body.specs.Stands.{StandAll, count};
ghost use Rattle.image_body.specs.Answer.{scope_of};
ghost use Rattle.image_reading.specs.Answer.{scope, start_of, stmt_start_of, front_of, ends_after};

use image_body::{Env, generic_receiver, layout};
use image_fields::{Fault, Read, peek, peek_two, read_field, room, two_at};

// What a body is read from and against: the bytes, for each type 1 if it is generic, and what names, types and depths stay below.
#[derive(Clone, Copy)]
struct Reader<'a> {
    s: &'a [u8],
    flags: &'a [u8],
    env: Env,
}

// A node's tag and the position of what follows its head.
type Start = Result<(usize, usize), Fault>;

// What an argument of k bytes stays below: an operator or a name.
fn arg_limit(names: usize, k: usize) -> usize
    ensures { result ≡ arg_limit names k }
{
    if k == 1 { 5 } else { names }
}

// A type in the table; a Delete has type 0.
fn type_ok(env: Env, tag: usize, ty: usize) -> bool
    ensures { result ≡ type_ok env.types tag ty }
{
    ty < env.types && (tag != 10 || ty == 0)
}

// So many of a kind, one after another.
fn read_many<F: Fn(usize) -> Read>(n: usize, at: usize, read: F) -> Read
    requires { F.IsAlwaysCallable read }
    ensures { (g : ℕ → Result ℕ ℕ) → ((p : ℕ) (r : Result ℕ Fault) → F.post read p r → coded r ≡ g p)
        → coded result ≡ ends_after g n at }
{
    let mut p = at;
    for _ in 0..n {
        p = read(p)?;
    }
    Ok(p)
}

// A block, with so much depth left.
pub fn read_block(s: &[u8], flags: &[u8], env: Env, left: usize, at: usize) -> Read
    ensures { coded result ≡ read_of (block_at (scope_of env flags.now) s.now left at) }
{
    let reader = Reader { s, flags, env };
    reader.read_block(left, at)
}

impl<'a> Reader<'a> {
    // A node's head: its tag, span, type and the argument before its children.
    fn read_head(&self, at: usize) -> Start
        ensures { coded result ≡ start_of (head_at self.now.env.names self.now.env.types self.now.s.now at) }
    {
        if room(self.s, at) < 7 {
            return Err(Fault::Body);
        }
        let tag = usize::from(self.s[at]);
        if tag == 0 || 15 < tag {
            return Err(Fault::Body);
        }
        let ty = two_at(self.s, at + 5);
        if !type_ok(self.env, tag, ty) {
            return Err(Fault::Body);
        }
        let width = layout::arg_width(tag);
        let (_, next) = read_field(
            self.s,
            Fault::Body,
            arg_limit(self.env.names, width),
            width,
            at + 7,
        )?;
        Ok((tag, next))
    }

    // What is left once the children are read: the name of a FieldAccess, and the test of a Call's receiver.
    fn read_end(&self, tag: usize, first: usize, at: usize) -> Read
        requires { tag < 16 }
        ensures { (h : Head) (ks xs : Exprs) (q : ℕ) → h.tag ≡ tag → count ks ≡ get_or fixed_count tag 0 → StandAll ks self.now.s.now first q
            → coded result ≡ read_of (end_at (scope self.now) self.now.s.now h ks xs at) }
    {
        let width = layout::last_width(tag);
        let (_, next) = read_field(self.s, Fault::Body, self.env.names, width, at)?;
        if tag == 6 && generic_receiver(self.s, self.flags, first) {
            return Err(Fault::GenericReceiver);
        }
        Ok(next)
    }

    // An expression, with so much depth left.
    #[cycle(expressions)]
    fn read_expr(&self, left: usize, at: usize) -> Read
        ensures { coded result ≡ read_of (expr_at (scope self.now) self.now.s.now left at) }
    {
        if left == 0 {
            return Err(Fault::Depth);
        }
        let (tag, first) = self.read_head(at)?;
        if layout::is_leaf(tag) {
            return Ok(first);
        }
        self.read_children(left - 1, tag, first)
    }

    // What follows the head of a node: its fixed children, its counted list, and the end.
    #[cycle(expressions)]
    fn read_children(&self, left: usize, tag: usize, first: usize) -> Read
        requires { tag < 16 }
        ensures { (h : Head) → h.tag ≡ tag → coded result ≡ read_of (children_at (scope self.now) self.now.s.now left h first) }
    {
        let fixed = layout::fixed_count(tag);
        let p = self.read_exprs(left, fixed, first)?;
        let width = layout::count_width(tag);
        let (n, q) = read_field(self.s, Fault::Body, 65536, width, p)?;
        match self.read_exprs(left, n, q) {
            Ok(end) => self.read_end(tag, first, end),
            Err(fault) => Err(fault),
        }
    }

    // So many expressions, one after another: read_many under the name that its cycle calls, as read_stmts and read_blocks are.
    #[cycle(expressions)]
    fn read_exprs(&self, left: usize, n: usize, at: usize) -> Read
        ensures { coded result ≡ read_of (exprs_at (scope self.now) self.now.s.now left n at) }
    {
        let read = |p|
            ensures { coded result ≡ read_of (expr_at (scope self.entry.now) self.entry.now.s.now left p) }
        { self.read_expr(left, p) };
        read_many(n, at, read)
    }

    // The name and the type of a Let or Const.
    fn binds_ok(&self, size: usize, at: usize) -> bool
        requires { at < length self.now.s.now }
        ensures { result ≡ binds_ok self.now.env.names self.now.env.types size self.now.s.now at }
    {
        size != 9
            || (peek_two(self.s, at + 5) < self.env.names
                && peek_two(self.s, at + 7) < self.env.types)
    }

    // A statement's head: its tag, span, and the name and type of a Let or Const.
    fn read_stmt_head(&self, at: usize) -> Start
        ensures { coded result ≡ stmt_start_of (stmt_head_at self.now.env.names self.now.env.types self.now.s.now at) }
    {
        let tag = peek(self.s, at);
        if tag == 0 || 10 < tag {
            return Err(Fault::Body);
        }
        let size = layout::head_bytes(tag);
        if room(self.s, at) < size {
            return Err(Fault::Body);
        }
        if self.binds_ok(size, at) {
            Ok((tag, at + size))
        } else {
            Err(Fault::Body)
        }
    }

    // A statement up to its blocks.
    fn read_front(&self, at: usize) -> Start
        ensures { coded result ≡ front_of (front_at (scope self.now) self.now.s.now at) }
    {
        let (tag, p) = self.read_stmt_head(at)?;
        self.read_values(tag, p)
    }

    // The values of a statement and the type after them.
    fn read_values(&self, tag: usize, p: usize) -> Start
        requires { tag < 11 }
        ensures { (h : StmtHead) → h.tag ≡ tag → coded result ≡ front_of (values_at (scope self.now) self.now.s.now h p) }
    {
        let flag = layout::value_flag(tag);
        let (n, q) = read_field(self.s, Fault::Body, 2, flag, p)?;
        let count = layout::value_count(tag);
        let r = self.read_exprs(self.env.depth, count + n, q)?;
        let width = layout::type_width(tag);
        let (_, end) = read_field(self.s, Fault::Body, self.env.types, width, r)?;
        Ok((tag, end))
    }

    // A block, with so much depth left.
    #[cycle(blocks)]
    fn read_block(&self, left: usize, at: usize) -> Read
        ensures { coded result ≡ read_of (block_at (scope self.now) self.now.s.now left at) }
    {
        let bytes = room(self.s, at);
        if left == 0 {
            return Err(Fault::Depth);
        }
        if bytes < 6 {
            return Err(Fault::Body);
        }
        let n = two_at(self.s, at + 4);
        self.read_stmts(left - 1, n, at + 6)
    }

    // So many statements; their blocks have so much depth left.
    #[cycle(blocks)]
    fn read_stmts(&self, left: usize, n: usize, at: usize) -> Read
        ensures { coded result ≡ read_of (stmts_at (scope self.now) self.now.s.now left n at) }
    {
        let read = |p|
            ensures { coded result ≡ read_of (stmt_in (scope self.entry.now) self.entry.now.s.now left p) }
        { self.read_stmt(left, p) };
        read_many(n, at, read)
    }

    // A statement; its blocks have so much depth left.
    #[cycle(blocks)]
    fn read_stmt(&self, left: usize, at: usize) -> Read
        ensures { coded result ≡ read_of (stmt_in (scope self.now) self.now.s.now left at) }
    {
        let (tag, p) = self.read_front(at)?;
        if layout::block_count(tag) == 0 {
            return Ok(p);
        }
        self.read_back(left, tag, p)
    }

    // The blocks of a statement.
    #[cycle(blocks)]
    fn read_back(&self, left: usize, tag: usize, p: usize) -> Read
        requires { tag < 11 }
        ensures { (h : Front) → h.head.tag ≡ tag → coded result ≡ read_of (back_in (scope self.now) self.now.s.now left h p) }
    {
        let count = layout::block_count(tag);
        let q = self.read_blocks(left, count, p)?;
        let flag = layout::else_flag(tag);
        let (n, r) = read_field(self.s, Fault::Body, 2, flag, q)?;
        self.read_blocks(left, n, r)
    }

    // So many blocks, one after another.
    #[cycle(blocks)]
    fn read_blocks(&self, left: usize, n: usize, at: usize) -> Read
        ensures { coded result ≡ read_of (blocks_at (scope self.now) self.now.s.now left n at) }
    {
        let read = |p|
            ensures { coded result ≡ read_of (block_at (scope self.entry.now) self.entry.now.s.now left p) }
        { self.read_block(left, p) };
        read_many(n, at, read)
    }
}
