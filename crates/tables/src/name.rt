// The table of names.
ghost use Rattle.std.specs.Prelude.{◌≡◌, ℕ, ◌+◌, ◌<◌, ◌≤◌, List, [], map, length, slice_index};
ghost use Rattle.image_fields.specs.Parsed.{ok};
ghost use Rattle.image_fields.specs.Table.{member, table_from};
ghost use Rattle.image_fields.specs.Fault.{coded};
ghost use Rattle.image_fields.specs.Answer.{table_of};
ghost use Rattle.tables.specs.Limits.{version1};
ghost use Rattle.tables.specs.Name.{name_of, same_bytes, below_bytes, this_name, key_of, name_at, names_at};
ghost use Rattle.tables.specs.Answer.{Whole, Keyed, Listed, length_at};

use image_fields::{Fault, Number};

// The bytes of the name at p.
fn name_bytes(s: &[u8], p: usize) -> &[u8]
    requires { p + slice_index s.now p < length s.now }
    ensures { result.now ≡ name_of s.now p }
{
    let first = p + 1;
    &s[first..first + usize::from(s[p])]
}

// Whether the name at a is below the name at b.
pub fn below_name(s: &[u8], a: usize, b: usize) -> bool
    requires { (a < length s.now) × (b < length s.now) }
    ensures { result ≡ below_bytes (name_of s.now a) (name_of s.now b) }
{
    let n = image_fields::peek(s, a);
    let m = image_fields::peek(s, b);
    for k in 0..m {
        if k == n {
            return true;
        }
        let x = image_fields::peek(s, a + 1 + k);
        let y = image_fields::peek(s, b + 1 + k);
        if x != y {
            return x < y;
        }
    }
    false
}

// The key of a name.
fn key_of(name: &[u8]) -> u32
    ensures { result ≡ key_of name.now }
{
    name.iter().fold(
        0u32,
        |key, x| key.wrapping_mul(31).wrapping_add(u32::from(*x)),
    )
}

// Whether a name with this key is among those at the positions. Only those with the same key are compared with it.
fn repeated_name(s: &[u8], starts: &[u32], keys: &[u32], key: u32, name: &[u8]) -> bool
    requires { (length starts.now ≡ length keys.now) × (key ≡ key_of name.now)
        × Whole s.now starts.now (length starts.now) × Keyed s.now starts.now keys.now (length starts.now) }
    ensures { result ≡ member same_bytes (map (name_of s.now) starts.now) name.now }
{
    if !keys.contains(&key) {
        return false;
    }
    for (i, k) in keys.iter().enumerate() {
        if *k == key && name_bytes(s, starts[i] as usize) == name {
            return true;
        }
    }
    false
}

// The length of the name at p.
fn name_length(s: &[u8], p: usize) -> Result<usize, Fault>
    ensures { coded result ≡ length_at s.now p }
{
    let n = image_fields::peek(s, p);
    if 0 < n && n <= 64 && n < image_fields::room(s, p) {
        Ok(n)
    } else {
        Err(Fault::Names)
    }
}

// So many names, all different, and their positions.
fn fill_names(s: &[u8], starts: &mut [u32], n: usize, at: usize) -> Number
    requires { (n ≤ length starts.old) × (n ≤ 512) × (length s.now ≤ 65536) }
    ensures value { coded result ≡ table_of (table_from (name_at version1 s.now) [] n at) }
    ensures starts { (ns : List (List ℕ)) (next : ℕ) → table_from (name_at version1 s.now) [] n at ≡ ok ns next
        → Listed (name_of s.now) s.now starts.new ns }
{
    // apart from the positions, so that several keys are compared at a time
    let mut keys = [0u32; 512];
    let mut p = at;
    for i in 0..n {
        let len = name_length(s, p)?;
        let name = name_bytes(s, p);
        let key = key_of(name);
        if repeated_name(s, &starts[..i], &keys[..i], key, name) {
            return Err(Fault::Names);
        }
        starts[i] = p as u32;
        keys[i] = key;
        p += len + 1;
    }
    Ok((n, p))
}

// Whether the name at p is `this`.
fn is_this(s: &[u8], p: usize) -> bool
    requires { p + slice_index s.now p < length s.now }
    ensures { result ≡ same_bytes (name_of s.now p) this_name }
{
    name_bytes(s, p) == b"this".as_slice()
}

// The table of names: its count and the position after it. The names' positions go to `starts`.
pub fn read_names(s: &[u8], starts: &mut [u32], at: usize) -> Number
    requires { (512 ≤ length starts.old) × (length s.now ≤ 65536) }
    ensures value { coded result ≡ table_of (names_at version1 s.now at) }
    ensures starts { (ns : List (List ℕ)) (next : ℕ) → names_at version1 s.now at ≡ ok ns next
        → Listed (name_of s.now) s.now starts.new ns }
{
    let (n, first) = image_fields::read_field(s, Fault::Names, 513, 2, at)?;
    if n == 0 {
        return Err(Fault::Names);
    }
    let (_, next) = fill_names(s, starts, n, first)?;
    if is_this(s, first) {
        Ok((n, next))
    } else {
        Err(Fault::Names)
    }
}
