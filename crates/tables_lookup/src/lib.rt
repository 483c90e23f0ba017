// What the tables of an image answer of types and structs: every answer equals what the definitions of specs/ say of the entries in
// the bytes.
#![tactic(auto)]

ghost use Rattle.std.specs.Prelude.{◌≡◌, ℕ, ◌+◌, ◌*◌, ◌<◌, ◌≤◌, List, map, length, take, IfSome};
ghost use Rattle.tables.specs.Tables.{Tables};
ghost use Rattle.tables.specs.Ty.{type_in};
ghost use Rattle.tables.specs.Signature.{struct_in};
ghost use Rattle.tables_lookup.specs.First.{first_from, is_number, positions, AllWithin};
ghost use Rattle.tables_lookup.specs.Ty.{Lower, struct_named, struct_shaped, struct_of_generic, struct_of, should_auto_delete};
ghost use Rattle.tables_lookup.specs.Lent.{Filled, Lent, Says, Sized, structs_in, types_in};
ghost use Rattle.tables_lookup.specs.Answer.{found_of};

// Whether two bytes are the number x. A byte past the end is 0.
fn is_number(s: &[u8], at: usize, x: usize) -> bool
    requires { at < 18446744073709551615 }
    ensures { result ≡ is_number s.now x at }
{
    image_fields::peek(s, at) * 256 + image_fields::peek(s, at + 1) == x
}

// The first of some positions with the number x so many bytes after it.
fn first_at(s: &[u8], starts: &[u32], offset: usize, x: usize) -> Option<usize>
    requires { AllWithin s.now starts.now × (offset < 16) }
    ensures first { result ≡ found_of (first_from (λ at. is_number s.now x (at + offset)) 0 starts.now) }
    ensures below { IfSome result (λ i. i < length starts.now) }
{
    starts
        .iter()
        .position(|at| is_number(s, *at as usize + offset, x))
}

// The first of n positions, each `stride` bytes after the one before, where the number x stands.
pub fn first_spaced(s: &[u8], stride: usize, n: usize, first: usize, x: usize) -> Option<usize>
    requires { first + stride * n < 18446744073709551615 }
    ensures first { result ≡ found_of (first_from (is_number s.now x) 0 (positions stride n first)) }
    ensures below { IfSome result (λ i. i < n) }
{
    let mut p = first;
    for i in 0..n {
        if is_number(s, p, x) {
            return Some(i);
        }
        p += stride;
    }
    None
}

// The struct of a name.
pub fn struct_named(s: &[u8], structs: &[u32], name: usize) -> Option<usize>
    requires { AllWithin s.now structs.now }
    ensures named { result ≡ found_of (struct_named name (map (struct_in s.now) structs.now)) }
    ensures below { IfSome result (λ i. i < length structs.now) }
{
    first_at(s, structs, 0, name)
}

// The first struct of a shape.
fn struct_shaped(s: &[u8], structs: &[u32], shape: usize) -> Option<usize>
    requires { AllWithin s.now structs.now }
    ensures shaped { result ≡ found_of (struct_shaped shape (map (struct_in s.now) structs.now)) }
    ensures below { IfSome result (λ i. i < length structs.now) }
{
    if shape == 0 {
        None
    } else {
        first_at(s, structs, 3, shape)
    }
}

// The struct of a generic type: that of its plain name, destructor or not, else the first of its shape.
fn struct_of_generic(s: &[u8], structs: &[u32], name: usize, shape: usize) -> Option<usize>
    requires { AllWithin s.now structs.now }
    ensures generic { result ≡ found_of (struct_of_generic name shape (map (struct_in s.now) structs.now)) }
    ensures below { IfSome result (λ i. i < length structs.now) }
{
    struct_named(s, structs, name).or_else(|| struct_shaped(s, structs, shape))
}

// The struct that the destructor question asks. An inline array asks that of its inner type, a lower number.
fn struct_of_type(s: &[u8], types: &[u32], structs: &[u32], ty: usize) -> Option<usize>
    requires { AllWithin s.now types.now × AllWithin s.now structs.now × Lower (map (type_in s.now) types.now) }
    ensures asked { result ≡ found_of (struct_of (map (type_in s.now) types.now) (map (struct_in s.now) structs.now) ty) }
    ensures below { IfSome result (λ i. i < length structs.now) }
{
    let at = *types.get(ty)? as usize;
    let of = image_fields::peek_two(s, at + 1);
    match image_fields::peek(s, at) {
        3 => struct_of_type(s, types, structs, of),
        1 => struct_named(s, structs, of),
        2 => struct_of_generic(s, structs, of, image_fields::peek_two(s, at + 3)),
        _ => None,
    }
}

// Whether a local of the type is deleted at the end of its scope.
pub fn should_auto_delete(s: &[u8], types: &[u32], structs: &[u32], ty: usize) -> bool
    requires { AllWithin s.now types.now × AllWithin s.now structs.now × Lower (map (type_in s.now) types.now) }
    ensures { result ≡ should_auto_delete (map (type_in s.now) types.now) (map (struct_in s.now) structs.now) ty }
{
    match struct_of_type(s, types, structs, ty) {
        Some(i) => image_fields::peek(s, structs[i] as usize + 2) == 1,
        None => false,
    }
}

// The same of the tables that are lent.
fn deleted_in(s: &[u8], tb: &[u32], ty: usize) -> bool
    requires { Filled s.now tb.now }
    ensures { result ≡ should_auto_delete (map (type_in s.now) (types_in tb.now)) (map (struct_in s.now) (structs_in tb.now)) ty }
{
    let types_end = 520 + tb[1] as usize;
    let structs_end = 776 + tb[2] as usize;
    should_auto_delete(s, &tb[520..types_end], &tb[776..structs_end], ty)
}

// Asks it once for each type: 1 if its values are deleted.
pub fn fill_drops(s: &[u8], tb: &mut [u32])
    requires { Filled s.now tb.old }
    ensures { Lent s.now tb.new × (take 840 tb.new ≡ take 840 tb.old) }
{
    for t in 0..tb[1] as usize {
        let deleted = deleted_in(s, &tb[..], t);
        tb[840 + t] = if deleted { 1 } else { 0 };
    }
}

// Whether a local of the type is deleted, where that was asked for each type.
pub fn auto_deleted(tb: &[u32], ty: usize) -> bool
    requires { Sized tb.now }
    ensures { (s : List ℕ) (T : Tables) → Lent s tb.now → Says s tb.now T → result ≡ should_auto_delete T.types T.structs ty }
{
    ty < tb[1] as usize && tb[840 + ty] == 1
}
