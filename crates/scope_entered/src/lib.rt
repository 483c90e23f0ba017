// The locals that a body is entered with, on the scope stack in two structs: all are Alive.
#![tactic(auto)]

ghost use Rattle.std.specs.Prelude.{[], ◌∷◌, ◌+◌, ◌*◌, ◌≤◌, ◌<◌, length};
ghost use Rattle.tables_lookup.specs.Lent.{Sized};
ghost use Rattle.scope_stack.specs.View.{Kept};
ghost use Rattle.scope_entered.specs.Entered.{EntryThere, Adds, params_in, Enters};

use scope_stack::Locals;

// A local of a name and type in the outermost frame.
fn register(tb: &[u32], l: Locals, name: u16, ty: u16) -> Locals
    requires { Kept l × (l.count < 64) × Sized tb.now }
    ensures { Adds tb.now (record { name = name; ty = ty } ∷ []) l result }
{
    let dtor = tables_lookup::auto_deleted(tb, ty as usize);
    l.register_local(name, ty, 0, 0, dtor)
}

// So many parameters from a position on, registered in the outermost frame after `this`, if there is one.
fn register_params(s: &[u8], tb: &[u32], locals: Locals, many: usize, at: usize) -> Locals
    requires { Kept locals × (locals.count ≤ 1) × (many ≤ 16) × (at + 4 * many ≤ length s.now) × (length s.now ≤ 65536)
        × Sized tb.now }
    ensures { Adds tb.now (params_in s.now many at) locals result }
{
    let mut l = locals;
    for i in 0..many {
        let p = at + 4 * i;
        l = register(
            tb,
            l,
            expressions_effects::name_at(s, p),
            expressions_effects::name_at(s, p + 2),
        );
    }
    l
}

// run_ownership_for_body, run_ownership_for_method_body: `this` after the entry bytes 2 to 4, then the parameters. They are at most 17.
pub fn enter(s: &[u8], tb: &[u32], at: usize) -> Locals
    requires { EntryThere s.now at × (length s.now ≤ 65536) × Sized tb.now }
    ensures { Enters s.now tb.now at result }
{
    let empty = Locals::new();
    if image_fields::peek(s, at) < 2 {
        let many = image_fields::peek_two(s, at + 1);
        return register_params(s, tb, empty, many, at + 3);
    }
    let this = register(tb, empty, 0, expressions_effects::name_at(s, at + 1));
    let many = image_fields::peek_two(s, at + 3);
    register_params(s, tb, this, many, at + 5)
}
