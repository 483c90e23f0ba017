// The tables of structs and globals, and the entry.
#![tactic(auto)]

ghost use Rattle.std.specs.Prelude.{◌≡◌, ℕ, ◌+◌, ◌-◌, ◌*◌, ◌≤◌, ◌<◌, ◌&&◌, List, map, [], length, eqb, IfSome};
ghost use Rattle.image_fields.specs.Parsed.{ok};
ghost use Rattle.image_fields.specs.Number.{two};
ghost use Rattle.image_fields.specs.Table.{member, entries, table_from, table_at};
ghost use Rattle.image_fields.specs.Fault.{fault_number, coded};
ghost use Rattle.image_fields.specs.Answer.{read_of, table_of};
ghost use Rattle.tables.specs.Limits.{version1};
ghost use Rattle.tables.specs.Name.{name_of, below_bytes};
ghost use Rattle.tables.specs.Signature.{Struct, Named, named_at, named_in, struct_at, struct_rest_at, structs_at, globals_at, entry_at, this_width, struct_in};
ghost use Rattle.tables.specs.Answer.{Within, Listed};
ghost use Rattle.tables_signatures.specs.Answer.{struct_name_of, above_last, Ends};

use image_fields::{Fault, Number, Read};

// How a table of names with numbers is read: its fault, how many names there are, the numbers' limit and width, and whether the
// names differ.
#[derive(Clone, Copy)]
struct NamedFormat {
    fault: Fault,
    names: usize,
    limit: usize,
    width: usize,
    distinct: bool,
    ghost narrow: { width ≤ 4 },
}

impl NamedFormat {
    // Whether a name is one of i that must differ from it.
    fn taken(self, s: &[u8], i: usize, first: usize, name: usize) -> bool
        requires { first + (2 + self.width) * i ≤ length s.now }
        ensures { result ≡ (self.distinct && member eqb (entries (two s.now) (2 + self.width) i first) name) }
    {
        self.distinct && image_fields::repeated_number(s, 2 + self.width, i, first, name)
    }

    // The entry after i entries that stand from `first` on.
    fn read_named(self, s: &[u8], i: usize, first: usize, at: usize) -> Read
        requires { first + (2 + self.width) * i ≤ length s.now }
        ensures { (xs : List Named) → xs ≡ entries (named_in self.width s.now) (2 + self.width) i first
            → coded result ≡ read_of (named_at (fault_number self.fault) self.names self.limit self.width self.distinct s.now xs at) }
    {
        let (name, p) = image_fields::read_field(s, self.fault, self.names, 2, at)?;
        let (_, q) = image_fields::read_field(s, self.fault, self.limit, self.width, p)?;
        if self.taken(s, i, first, name) {
            Err(self.fault)
        } else {
            Ok(q)
        }
    }

    // So many entries.
    fn fill_named(self, s: &[u8], n: usize, first: usize) -> Number
        requires { first ≤ length s.now }
        ensures { coded result ≡ table_of (table_from (named_at (fault_number self.fault) self.names self.limit self.width self.distinct s.now) [] n first) }
    {
        let mut p = first;
        for i in 0..n {
            p = self.read_named(s, i, first, p)?;
        }
        Ok((n, p))
    }

    // A table of fewer than `limit` entries: its count and the position after it.
    fn read_named_table(self, s: &[u8], limit: usize, at: usize) -> Number
        ensures { coded result ≡ table_of (table_at (fault_number self.fault) 0 limit (named_at (fault_number self.fault) self.names self.limit self.width self.distinct s.now) s.now at) }
    {
        let (n, first) = image_fields::read_field(s, self.fault, limit, 2, at)?;
        self.fill_named(s, n, first)
    }
}

// What follows a struct's name: its flag, its shape and its methods.
fn read_struct_rest(s: &[u8], names: usize, name: usize, at: usize) -> Number
    ensures { coded result ≡ struct_name_of (struct_rest_at version1 names s.now name at) }
{
    let (_, p) = image_fields::read_field(s, Fault::Structs, 2, 1, at)?;
    let (_, q) = image_fields::read_field(s, Fault::Structs, 65536, 2, p)?;
    let methods = NamedFormat {
        fault: Fault::Structs,
        names,
        limit: 4,
        width: 1,
        distinct: true,
    };
    let (_, next) = methods.read_named_table(s, 33, q)?;
    Ok((name, next))
}

// The names of an image and where they stand in it.
#[derive(Clone, Copy)]
struct Names<'a> {
    s: &'a [u8],
    starts: &'a [u32],
    ghost within: { Within s.now starts.now (length starts.now) },
}

impl<'a> Names<'a> {
    // Whether a name is above the last struct's, where there is one.
    fn rises(self, last: Option<usize>, name: usize) -> bool
        requires { IfSome last (λ k. k < length self.starts.now) × (name < length self.starts.now) }
        ensures { result ≡ above_last (map (name_of self.entry.s.now) self.entry.starts.now) last name }
    {
        match last {
            None => true,
            Some(last) => tables::name::below_name(
                self.s,
                self.starts[last] as usize,
                self.starts[name] as usize,
            ),
        }
    }

    // The struct after others, the last of them of the name `last`: its name and the position after it.
    fn read_struct(self, last: Option<usize>, at: usize) -> Number
        requires { IfSome last (λ k. k < length self.starts.now) }
        ensures { (ss : List Struct) → Ends (map (name_of self.entry.s.now) self.entry.starts.now) ss last
            → coded result ≡ struct_name_of (struct_at version1 (map (name_of self.entry.s.now) self.entry.starts.now) self.entry.s.now ss at) }
    {
        let (name, p) = image_fields::read_field(self.s, Fault::Structs, self.starts.len(), 2, at)?;
        if self.rises(last, name) {
            read_struct_rest(self.s, self.starts.len(), name, p)
        } else {
            Err(Fault::Structs)
        }
    }

    // So many structs, and their positions.
    fn fill_structs(self, structs: &mut [u32], n: usize, at: usize) -> Number
        requires { (n ≤ length structs.old) × (length self.s.now ≤ 65536) }
        ensures value { coded result ≡ table_of (table_from (struct_at version1 (map (name_of self.entry.s.now) self.entry.starts.now) self.entry.s.now) [] n at) }
        ensures structs { (ss : List Struct) (next : ℕ)
            → table_from (struct_at version1 (map (name_of self.entry.s.now) self.entry.starts.now) self.entry.s.now) [] n at ≡ ok ss next
            → Listed (struct_in self.entry.s.now) self.entry.s.now structs.new ss }
    {
        let mut p = at;
        let mut last = None;
        for i in 0..n {
            let (name, next) = self.read_struct(last, p)?;
            structs[i] = p as u32;
            last = Some(name);
            p = next;
        }
        Ok((n, p))
    }
}

// The table of structs: its count and the position after it. The structs' positions go to `structs`.
pub fn read_structs(s: &[u8], names: &[u32], structs: &mut [u32], at: usize) -> Number
    requires { (64 ≤ length structs.old) × (0 < length names.now) × Within s.now names.now (length names.now) × (length s.now ≤ 65536) }
    ensures value { coded result ≡ table_of (structs_at version1 (map (name_of s.now) names.now) s.now at) }
    ensures structs { (ss : List Struct) (next : ℕ)
        → structs_at version1 (map (name_of s.now) names.now) s.now at ≡ ok ss next
        → Listed (struct_in s.now) s.now structs.new ss }
{
    let (n, first) = image_fields::read_field(s, Fault::Structs, 65, 2, at)?;
    let names = Names { s, starts: names };
    names.fill_structs(structs, n, first)
}

// The table of globals: its count and the position after it.
pub fn read_globals(s: &[u8], names: usize, at: usize) -> Number
    ensures { coded result ≡ table_of (globals_at version1 names s.now at) }
{
    let globals = NamedFormat {
        fault: Fault::Globals,
        names,
        limit: 4294967296,
        width: 4,
        distinct: true,
    };
    globals.read_named_table(s, 65, at)
}

// The bytes of the type of `this`.
// The receiver stays its byte: it is asked this once, and an enum of five cases is no plainer.
fn this_width(receiver: usize) -> usize
    ensures { result ≡ this_width receiver }
{
    if receiver < 2 { 0 } else { 2 }
}

// The entry: the position after it.
pub fn read_entry(s: &[u8], names: usize, types: usize, at: usize) -> Read
    ensures { coded result ≡ read_of (entry_at version1 names types s.now at) }
{
    let (receiver, p) = image_fields::read_field(s, Fault::Entry, 5, 1, at)?;
    let (_, q) = image_fields::read_field(s, Fault::Entry, types, this_width(receiver), p)?;
    let params = NamedFormat {
        fault: Fault::Entry,
        names,
        limit: types,
        width: 2,
        distinct: false,
    };
    let (_, next) = params.read_named_table(s, 17, q)?;
    Ok(next)
}
