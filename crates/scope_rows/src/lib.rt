// The rows of joined states: read, written and copied, and the join of the states after two branches.
#![tactic(auto)]

ghost use Rattle.std.specs.Prelude.{◌≡◌, false, ◌+◌, ◌^◌, ◌≤◌, ◌<◌, length, get_or};
ghost use Rattle.scope_state.specs.View.{listed, state_of};
ghost use Rattle.scope_stack.specs.View.{entry_at, row_at, said_at, Known};
ghost use Rattle.scope_rows.specs.Rows.{Wrote, Loads, Alike, JoinsAt, Branches, JoinsAll, Copied, Copies};

use image_fields::Fault;
use scope_stack::{Entry, States};
use scope_state::{Kinds, Places, State};

// Why a walk stops: a fault, or memory of our own does not reach, the rows that are lent above all.
#[derive(Clone, Copy, Debug, PartialEq, Eq)]
pub enum Stop {
    Fault(Fault),
    Rows,
}

fn read_row(rows: &[u32], row: usize) -> Places
    requires { (get_or rows.now row 0 ≤ 8) × (row + get_or rows.now row 0 < length rows.now) }
    ensures { listed result ≡ row_at rows.now row }
{
    let start = row + 1;
    let end = start + rows[row] as usize;
    Places::of(&rows[start..end])
}

fn write_row(rows: &mut [u32], row: usize, places: &[u32])
    requires { (length places.now < 256) × (row + length places.now < length rows.old) }
    ensures { Wrote rows.old row places.now rows.new }
{
    let start = row + 1;
    let end = start + places.len();
    rows[start..end].copy_from_slice(places);
    rows[row] = places.len() as u32;
}

// A state as the crate scope_state has it.
fn load(rows: &[u32], e: Entry, row: usize) -> State
    requires { Loads rows.now row e.kind }
    ensures { state_of result ≡ said_at rows.now row e }
{
    match e.kind {
        0 => State::alive(),
        1..=7 => State::at(e.kind, e.first),
        _ => State {
            kind: e.kind - 8,
            places: read_row(rows, row),
        },
    }
}

fn entry_at(t: &States, i: usize) -> Entry
    requires { i < 64 }
    ensures { result ≡ entry_at t.now i }
{
    Entry {
        kind: t.kinds[i],
        first: t.firsts[i],
    }
}

// Whether two states need a join.
fn differ(x: Entry, y: Entry) -> bool
    ensures { result ≡ false → Alike x y }
{
    x.kind != y.kind || (x.kind != 0 && (8 <= x.kind || x.first != y.first))
}

// What two branches say of one local, with their rows; a joined row goes to the first's.
fn join_at(
    x: Entry,
    y: Entry,
    rows: &mut [u32],
    row: usize,
    more: usize,
    width: usize,
    keeps: bool,
) -> Result<Entry, Stop>
    requires { Known rows.old width row x.kind × Known rows.old width more y.kind × (width ≤ 8) × (row + width < 2 ^ 64) }
    ensures { JoinsAt «keeps» width x y rows.old row more result rows.new }
{
    let a = load(&*rows, x, row);
    let b = load(&*rows, y, more);
    let Some(s) = a.join(b, keeps) else {
        return Err(Stop::Fault(Fault::Places));
    };
    let places = s.places.as_slice();
    if width < places.len() {
        return Err(Stop::Fault(Fault::Places));
    }
    match places {
        [] => Ok(Entry { kind: 0, first: 0 }),
        [first] => Ok(Entry {
            kind: s.kind,
            first: *first,
        }),
        [first, ..] => {
            if rows.len() <= row + width {
                return Err(Stop::Rows);
            }
            write_row(rows, row, places);
            Ok(Entry {
                kind: s.kind + 8,
                first: *first,
            })
        }
    }
}

// The states after two branches of n locals, then's with their rows at a, the other's at b; or a state has too many places, or the rows
// end before one that is needed.
pub fn join(
    mut then: States,
    other: States,
    n: usize,
    rows: &mut [u32],
    a: usize,
    b: usize,
    width: usize,
    keeps: bool,
) -> Result<States, Stop>
    requires { Branches n width then other rows.old a b }
    ensures { JoinsAll «keeps» n width then other rows.old a b result rows.new }
{
    for i in 0..n {
        let x = entry_at(&then, i);
        let y = entry_at(&other, i);
        if differ(x, y) {
            let row = i * (width + 1);
            let z = join_at(x, y, rows, a + row, b + row, width, keeps)?;
            then.kinds[i] = z.kind;
            then.firsts[i] = z.first;
            then.alive = scope_stack::with_bit(then.alive, i, z.kind == 0);
        }
    }
    Ok(then)
}

// The rows of n locals, from a place to another; or false, where the rows end before one that is needed.
pub fn copy_rows(
    kinds: &Kinds,
    n: usize,
    rows: &mut [u32],
    src: usize,
    dst: usize,
    width: usize,
) -> bool
    requires { Copied n width kinds.now rows.old src dst }
    ensures { Copies n width kinds.now rows.old src dst result rows.new }
{
    for i in 0..n {
        if 8 <= kinds[i] {
            let row = i * (width + 1);
            let to = dst + row;
            if rows.len() <= to + width {
                return false;
            }
            let p = read_row(&*rows, src + row);
            write_row(rows, to, p.as_slice());
        }
    }
    true
}
