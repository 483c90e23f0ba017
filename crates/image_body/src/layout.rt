// The layout of expressions (tags 1 to 15) and statements (tags 1 to 10), a column of specs/Expr.antt or specs/Stmt.antt each. A
// `match` compiles to one load; an array that is indexed would be stored anew at every use.
// Tags are bytes of the image; document 01 lists the columns by them.
ghost use Rattle.std.specs.Prelude.{◌≡◌, ◌<◌, get_or};
ghost use Rattle.image_body.specs.Expr.{arg_width, fixed_count, count_width, last_width, leaf};
ghost use Rattle.image_body.specs.Stmt.{head_bytes, value_flag, value_count, type_width, block_count, else_flag};

// Bytes of the argument before the children: 1 an operator, 2 a name.
#[tactic(auto, unfolding(crate::specs::Expr::arg_width))]
pub fn arg_width(tag: usize) -> usize
    ensures { (result ≡ get_or arg_width tag 0) × (result < 10) }
{
    match tag {
        1 => 2,
        3 => 1,
        14 => 2,
        _ => 0,
    }
}

// Fixed children.
#[tactic(auto, unfolding(crate::specs::Expr::fixed_count))]
pub fn fixed_count(tag: usize) -> usize
    ensures { (result ≡ get_or fixed_count tag 0) × (result < 10) }
{
    match tag {
        3 => 1,
        4 => 1,
        5 => 2,
        6 => 1,
        8 => 1,
        10 => 1,
        11 => 1,
        12 => 2,
        _ => 0,
    }
}

// Bytes of the count of the items that follow them.
#[tactic(auto, unfolding(crate::specs::Expr::count_width))]
pub fn count_width(tag: usize) -> usize
    ensures { (result ≡ get_or count_width tag 0) × (result < 10) }
{
    match tag {
        6 => 2,
        7 => 2,
        9 => 2,
        14 => 2,
        _ => 0,
    }
}

// Bytes of the name after these.
#[tactic(auto, unfolding(crate::specs::Expr::last_width))]
pub fn last_width(tag: usize) -> usize
    ensures { (result ≡ get_or last_width tag 0) × (result < 10) }
{
    match tag {
        11 => 2,
        _ => 0,
    }
}

// Whether nothing follows the head of an expression.
pub fn is_leaf(tag: usize) -> bool
    ensures { result ≡ leaf tag }
{
    matches!(tag, 1 | 2 | 13 | 15)
}

// Bytes of the head.
#[tactic(auto, unfolding(crate::specs::Stmt::head_bytes))]
pub fn head_bytes(tag: usize) -> usize
    ensures { (result ≡ get_or head_bytes tag 0) × (result < 10) }
{
    match tag {
        1 => 1,
        2 => 5,
        3 => 5,
        4 => 9,
        5 => 9,
        6 => 5,
        7 => 5,
        8 => 5,
        9 => 5,
        10 => 5,
        _ => 0,
    }
}

// Bytes of the flag that says if there is a value.
#[tactic(auto, unfolding(crate::specs::Stmt::value_flag))]
pub fn value_flag(tag: usize) -> usize
    ensures { (result ≡ get_or value_flag tag 0) × (result < 10) }
{
    match tag {
        2 => 1,
        _ => 0,
    }
}

// Values.
#[tactic(auto, unfolding(crate::specs::Stmt::value_count))]
pub fn value_count(tag: usize) -> usize
    ensures { (result ≡ get_or value_count tag 0) × (result < 10) }
{
    match tag {
        3 => 1,
        4 => 1,
        5 => 1,
        6 => 2,
        7 => 1,
        8 => 1,
        _ => 0,
    }
}

// Bytes of the type after them.
#[tactic(auto, unfolding(crate::specs::Stmt::type_width))]
pub fn type_width(tag: usize) -> usize
    ensures { (result ≡ get_or type_width tag 0) × (result < 10) }
{
    match tag {
        2 => 2,
        6 => 2,
        _ => 0,
    }
}

// Blocks.
#[tactic(auto, unfolding(crate::specs::Stmt::block_count))]
pub fn block_count(tag: usize) -> usize
    ensures { (result ≡ get_or block_count tag 0) × (result < 10) }
{
    match tag {
        1 => 1,
        7 => 1,
        8 => 1,
        _ => 0,
    }
}

// Bytes of the flag that says if there is one more.
#[tactic(auto, unfolding(crate::specs::Stmt::else_flag))]
pub fn else_flag(tag: usize) -> usize
    ensures { (result ≡ get_or else_flag tag 0) × (result < 10) }
{
    match tag {
        7 => 1,
        _ => 0,
    }
}
