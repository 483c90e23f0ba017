// Reads a whole image: head, tables, entry and body, up to the end of its bytes.
#![tactic(auto)]

ghost use Rattle.std.specs.Prelude.{◌≡◌, ◌+◌, ◌≤◌, ◌<◌, List, [], ◌∷◌, map, length, drop};
ghost use Rattle.std.proofs.Math.Seq.{paste};
ghost use Rattle.image_fields.specs.Fault.{coded};
ghost use Rattle.image_fields.specs.Answer.{read_of};
ghost use Rattle.tables.specs.Limits.{version1};
ghost use Rattle.tables.specs.Name.{name_of};
ghost use Rattle.tables.specs.Ty.{Ty, generic_flags};
ghost use Rattle.tables.specs.Answer.{Within};
ghost use Rattle.image_body.specs.Answer.{scope_of};
ghost use Rattle.image.specs.Image.{body_at, decode, fault_of};
ghost use Rattle.image.specs.Layout.{head_fault, fault_in, RestReads, Counts, Places, Reads};

use image_body::Env;
use image_fields::{Fault, four_at, peek};

const MOST_BYTES: usize = 65536;

// What follows the names and the types: how many structs and globals there are, and where the globals, the entry and the body start.
#[derive(Clone, Copy)]
struct Rest {
    struct_count: usize,
    globals: usize,
    global_count: usize,
    entry: usize,
    body: usize,
}

// Where the entry and the body start.
#[derive(Clone, Copy)]
pub struct ImageRead {
    pub entry: usize,
    pub body: usize,
}

// Fault 1 or 2.
fn head_fault(s: &[u8]) -> Result<(), Fault>
    ensures { fault_in result ≡ head_fault version1 s.now }
{
    if s.len() < 5 || MOST_BYTES < s.len() || four_at(s, 0) + 4 != s.len() {
        return Err(Fault::Length);
    }
    if peek(s, 4) != 1 {
        return Err(Fault::Version);
    }
    Ok(())
}

// The body block, up to the end of the bytes.
fn read_body(s: &[u8], flags: &[u8], env: Env, at: usize) -> Result<usize, Fault>
    ensures { coded result ≡ read_of (body_at version1 (scope_of env flags.now) s.now at) }
{
    let end = image_reading::read_block(s, flags, env, 12, at)?;
    if end == s.len() {
        Ok(end)
    } else {
        Err(Fault::BytesLeft)
    }
}

// What follows the names and the types.
fn read_rest(
    s: &[u8],
    names: &[u32],
    flags: &[u8],
    structs: &mut [u32],
    at: usize,
) -> Result<Rest, Fault>
    requires { (64 ≤ length structs.old) × (0 < length names.now) × Within s.now names.now (length names.now) × (length s.now ≤ 65536) }
    ensures { (ts : List Ty) → flags.now ≡ generic_flags [] ts
        → RestReads (map (name_of s.now) names.now) ts s.now at structs.new result }
{
    let (struct_count, p) = tables_signatures::read_structs(s, names, structs, at)?;
    let (global_count, entry) = tables_signatures::read_globals(s, names.len(), p)?;
    let body = tables_signatures::read_entry(s, names.len(), flags.len(), entry)?;
    let env = Env {
        names: names.len(),
        types: flags.len(),
        depth: 24,
    };
    read_body(s, flags, env, body)?;
    Ok(Rest {
        struct_count,
        globals: p + 2,
        global_count,
        entry,
        body,
    })
}

// The structs' positions, to their place in the tables.
fn copy_structs(structs: &[u32], n: usize, tb: &mut [u32])
    requires { (n ≤ length structs.now) × (776 + n ≤ length tb.old) }
    ensures { tb.new ≡ paste tb.old 776 structs.now n }
{
    tb[776..776 + n].copy_from_slice(&structs[..n]);
}

// The counts, and where the globals stand.
// Casts: their bounds are facts of the tables, and a `try_from` with a case that cannot be is no plainer.
fn put_counts(tb: &mut [u32], names: usize, types: usize, rest: Rest)
    requires { (5 ≤ length tb.old) × Counts names types rest }
    ensures { tb.new ≡ names ∷ (types ∷ (rest.struct_count ∷ (rest.global_count ∷ (rest.globals ∷ drop 5 tb.old)))) }
{
    tb[0] = names as u32;
    tb[1] = types as u32;
    tb[2] = rest.struct_count as u32;
    tb[3] = rest.global_count as u32;
    tb[4] = rest.globals as u32;
}

// The whole image, and its tables but for what is asked of the types.
fn read_parts(s: &[u8], tb: &mut [u32]) -> Result<ImageRead, Fault>
    requires { length tb.old ≡ 1096 }
    ensures { Places s.now tb.new result }
{
    head_fault(s)?;
    let (name_count, p) = tables::name::read_names(s, &mut tb[8..520], 5)?;
    let mut flags = [0u8; 256];
    let (type_count, q) = tables::ty::read_types(s, &mut tb[520..776], &mut flags, name_count, p)?;
    let mut structs = [0u32; 64];
    let names_end = 8 + name_count;
    let rest = read_rest(s, &tb[8..names_end], &flags[..type_count], &mut structs, q)?;
    copy_structs(&structs, rest.struct_count, tb);
    put_counts(tb, name_count, type_count, rest);
    Ok(ImageRead {
        entry: rest.entry,
        body: rest.body,
    })
}

// The whole image. Its tables go to the memory lent.
pub fn read_image(s: &[u8], tb: &mut [u32]) -> Result<ImageRead, Fault>
    requires { length tb.old ≡ 1096 }
    ensures { Reads s.now tb.new result }
{
    let read = read_parts(s, tb)?;
    tables_lookup::fill_drops(s, tb);
    Ok(read)
}

// For Rust and C: the first fault of 1 to 11, or 0.
#[unsafe(no_mangle)]
pub extern "C" fn image_fault(s: &[u8]) -> u64
    ensures { result ≡ fault_of (decode version1 s.now) }
{
    let mut tb = [0u32; 1096];
    match read_parts(s, &mut tb) {
        Ok(_) => 0,
        Err(fault) => u64::from(fault),
    }
}
