// What the tables of an image answer of names, those of methods, of globals and their own: every answer equals what the definitions
// of tables_lookup/specs/ say of the entries in the bytes.
#![tactic(auto)]

ghost use Rattle.std.specs.Prelude.{◌≡◌, ◌+◌, ◌*◌, ◌<◌, ◌≤◌, map, length, slice_index};
ghost use Rattle.image_fields.specs.Table.{entries};
ghost use Rattle.tables.specs.Name.{name_of, starts_with};
ghost use Rattle.tables.specs.Ty.{type_in};
ghost use Rattle.tables.specs.Signature.{struct_in, global_in};
ghost use Rattle.tables_lookup.specs.First.{AllWithin};
ghost use Rattle.tables_lookup.specs.Ty.{Lower, class_of};
ghost use Rattle.tables_lookup.specs.Signature.{modifier_in, modifier_of, global_of};
ghost use Rattle.tables_lookup.specs.Name.{is_temp, is_move};
ghost use Rattle.tables_lookup.specs.Answer.{found_of};

use tables_lookup::{first_spaced, struct_named};

// The name of a receiver's class: that of a named type, behind pointers.
fn class_name_from_receiver_ty(s: &[u8], types: &[u32], ty: usize) -> Option<usize>
    requires { AllWithin s.now types.now × Lower (map (type_in s.now) types.now) }
    ensures { result ≡ found_of (class_of (map (type_in s.now) types.now) ty) }
{
    let at = *types.get(ty)? as usize;
    let of = image_fields::peek_two(s, at + 1);
    match image_fields::peek(s, at) {
        4 => class_name_from_receiver_ty(s, types, of),
        1 => Some(of),
        _ => None,
    }
}

// The modifier of a method of the struct at a position.
fn modifier_in(s: &[u8], at: usize, name: usize) -> Option<usize>
    requires { at < length s.now }
    ensures { result ≡ found_of (modifier_in (struct_in s.now at).methods name) }
{
    let count = image_fields::peek_two(s, at + 5);
    let i = first_spaced(s, 3, count, at + 7, name)?;
    Some(image_fields::peek(s, at + 7 + 3 * i + 2))
}

// The modifier of a method that is called on a receiver of the type.
pub fn method_modifier(
    s: &[u8],
    types: &[u32],
    structs: &[u32],
    ty: usize,
    name: usize,
) -> Option<usize>
    requires { AllWithin s.now types.now × AllWithin s.now structs.now × Lower (map (type_in s.now) types.now) }
    ensures { result ≡ found_of (modifier_of (map (type_in s.now) types.now) (map (struct_in s.now) structs.now) ty name) }
{
    let class = class_name_from_receiver_ty(s, types, ty)?;
    let i = struct_named(s, structs, class)?;
    modifier_in(s, structs[i] as usize, name)
}

// The span of the global of a name; the globals stand one after the other, 6 bytes each.
pub fn global_span(s: &[u8], count: usize, first: usize, name: usize) -> Option<usize>
    requires { first + 6 * count ≤ length s.now }
    ensures { result ≡ found_of (global_of (entries (global_in s.now) 6 count first) name) }
{
    let i = first_spaced(s, 6, count, first, name)?;
    Some(image_fields::four_at(s, first + 6 * i + 2))
}

// Whether the name at a position begins with a word. A byte past the end is 0, in the name too.
fn begins_with(s: &[u8], at: usize, word: &[u8]) -> bool
    requires { at ≤ length s.now }
    ensures { result ≡ starts_with word.now (name_of s.now at) }
{
    if image_fields::peek(s, at) < word.len() {
        return false;
    }
    for (i, b) in word.iter().enumerate() {
        if image_fields::peek(s, at + 1 + i) != usize::from(*b) {
            return false;
        }
    }
    true
}

// The position of an entry, 0 past the table.
fn start_of(starts: &[u32], i: usize) -> usize
    ensures { result ≡ slice_index starts.now i }
{
    if i < starts.len() {
        starts[i] as usize
    } else {
        0
    }
}

// Whether the name of a number, one of the table, begins with `__tmp`.
pub fn is_compiler_temp_name(s: &[u8], names: &[u32], n: usize) -> bool
    requires { AllWithin s.now names.now }
    ensures { result ≡ is_temp (name_of s.now (slice_index names.now n)) }
{
    begins_with(s, start_of(names, n), b"__tmp")
}

// Whether the name of a number, one of the table, is `std::move`.
pub fn is_move(s: &[u8], names: &[u32], n: usize) -> bool
    requires { AllWithin s.now names.now }
    ensures { result ≡ is_move (name_of s.now (slice_index names.now n)) }
{
    let at = start_of(names, n);
    image_fields::peek(s, at) == 9 && begins_with(s, at, b"std::move")
}
