// The table of types.
ghost use Rattle.std.specs.Prelude.{◌≡◌, ℕ, ◌+◌, ◌-◌, ◌<◌, ◌≤◌, ◌||◌, List, [], map, length, take, if◌then◌else◌, ◌==◌, nat_eq, nat_lt, slice_index, MatchResult};
ghost use Rattle.image_fields.specs.declared.Fault.TheVariants.{Types};
ghost use Rattle.image_fields.specs.Parsed.{ok};
ghost use Rattle.image_fields.specs.Table.{table_from};
ghost use Rattle.image_fields.specs.Fault.{coded};
ghost use Rattle.image_fields.specs.Answer.{table_of};
ghost use Rattle.tables.specs.Limits.{version1};
ghost use Rattle.tables.specs.Ty.{Ty, of_width, shape_width, of_limit, parts_at, type_at, types_at, type_in, generic_flags};
ghost use Rattle.tables.specs.Answer.{kind_number, coded_type, type_of, Listed};

use image_fields::{Fault, Number};

// The kinds of types, each the number of its byte.
#[derive(Clone, Copy, Debug, PartialEq, Eq)]
enum Kind {
    Plain,
    Named,
    Generic,
    Array,
    Pointer,
}

impl TryFrom<usize> for Kind {
    type Error = Fault;

    fn try_from(n: usize) -> Result<Kind, Fault>
        ensures { MatchResult result (λ k. kind_number k ≡ n) (λ e. (e ≡ Types) × (5 ≤ n)) }
    {
        match n {
            0 => Ok(Kind::Plain),
            1 => Ok(Kind::Named),
            2 => Ok(Kind::Generic),
            3 => Ok(Kind::Array),
            4 => Ok(Kind::Pointer),
            _ => Err(Fault::Types),
        }
    }
}

// A type's kind, its name or lower type, and the position after it.
#[derive(Clone, Copy)]
struct Parts {
    kind: Kind,
    of: usize,
    next: usize,
}

// Bytes of the name or lower type of a kind: a column of the table of kinds, as shape_width.
#[tactic(auto, unfolding(crate::specs::Ty::of_width))]
fn of_width(kind: Kind) -> usize
    ensures { result ≡ slice_index of_width (kind_number kind) }
{
    match kind {
        Kind::Plain => 0,
        Kind::Named | Kind::Generic | Kind::Array | Kind::Pointer => 2,
    }
}

// Bytes of its shape.
#[tactic(auto, unfolding(crate::specs::Ty::shape_width))]
fn shape_width(kind: Kind) -> usize
    ensures { result ≡ slice_index shape_width (kind_number kind) }
{
    match kind {
        Kind::Generic => 2,
        Kind::Plain | Kind::Named | Kind::Array | Kind::Pointer => 0,
    }
}

fn of_limit(names: usize, i: usize, kind: Kind) -> usize
    ensures { result ≡ of_limit names i (kind_number kind) }
{
    match kind {
        Kind::Plain => 1,
        Kind::Named | Kind::Generic => names,
        Kind::Array | Kind::Pointer => i,
    }
}

// Type 0 is plain.
fn kind_ok(i: usize, kind: Kind) -> bool
    ensures { result ≡ (nat_lt 0 i || kind_number kind == 0) }
{
    0 < i || kind == Kind::Plain
}

// Whether a type is generic, perhaps behind pointers, by the flags of the lower types.
fn generic_flag(flags: &[u8], kind: Kind, of: usize) -> u8
    ensures { result ≡ (if nat_eq (kind_number kind) 2 then 1 else (if nat_eq (kind_number kind) 4 then slice_index flags.now of else 0)) }
{
    match kind {
        Kind::Generic => 1,
        Kind::Pointer if of < flags.len() => flags[of],
        _ => 0,
    }
}

// The name or lower type of a type of a kind, and its shape.
fn read_parts(s: &[u8], names: usize, i: usize, kind: Kind, at: usize) -> Result<Parts, Fault>
    ensures { (ts : List Ty) → length ts ≡ i → coded_type result ≡ type_of (parts_at names s.now ts (kind_number kind) at) }
{
    let (of, p) = image_fields::read_field(
        s,
        Fault::Types,
        of_limit(names, i, kind),
        of_width(kind),
        at,
    )?;
    let (_, next) = image_fields::read_field(s, Fault::Types, 65536, shape_width(kind), p)?;
    Ok(Parts { kind, of, next })
}

// Type number i.
fn read_type(s: &[u8], names: usize, i: usize, at: usize) -> Result<Parts, Fault>
    ensures { (ts : List Ty) → length ts ≡ i → coded_type result ≡ type_of (type_at names s.now ts at) }
{
    let (number, p) = image_fields::read_field(s, Fault::Types, 256, 1, at)?;
    let kind = Kind::try_from(number)?;
    if kind_ok(i, kind) {
        read_parts(s, names, i, kind, p)
    } else {
        Err(Fault::Types)
    }
}

// So many types, their positions and their flags.
fn fill_types(
    s: &[u8],
    starts: &mut [u32],
    flags: &mut [u8],
    names: usize,
    n: usize,
    at: usize,
) -> Number
    requires { (n ≤ length starts.old) × (n ≤ length flags.old) × (length s.now ≤ 65536) }
    ensures value { coded result ≡ table_of (table_from (type_at names s.now) [] n at) }
    ensures filled { (ts : List Ty) (next : ℕ) → table_from (type_at names s.now) [] n at ≡ ok ts next
        → Listed (type_in s.now) s.now starts.new ts × (take (length ts) flags.new ≡ generic_flags [] ts) }
{
    let mut p = at;
    for i in 0..n {
        let t = read_type(s, names, i, p)?;
        flags[i] = generic_flag(&flags[..], t.kind, t.of);
        starts[i] = p as u32;
        p = t.next;
    }
    Ok((n, p))
}

// The table of types: its count and the position after it. The types' positions go to `starts`, and to `flags`, for each of them, 1
// if it is generic, perhaps behind pointers.
// Two arrays: each is memory that the caller lends, at its place of the tables.
pub fn read_types(s: &[u8], starts: &mut [u32], flags: &mut [u8], names: usize, at: usize) -> Number
    requires { (256 ≤ length starts.old) × (256 ≤ length flags.old) × (length s.now ≤ 65536) }
    ensures value { coded result ≡ table_of (types_at version1 names s.now at) }
    ensures filled { (ts : List Ty) (next : ℕ) → types_at version1 names s.now at ≡ ok ts next
        → Listed (type_in s.now) s.now starts.new ts × (take (length ts) flags.new ≡ generic_flags [] ts) }
{
    let (n, first) = image_fields::read_field(s, Fault::Types, 257, 2, at)?;
    if n == 0 {
        return Err(Fault::Types);
    }
    fill_types(s, starts, flags, names, n, first)
}
