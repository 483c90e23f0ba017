// The walk of a whole image: into memory, as far as that reaches, into a page, or into nothing, to measure it.
// Throughout, tb has the tables of the image s, rows the places of joined states, both lent.
#![tactic(auto)]

ghost use Rattle.std.specs.Prelude.{◌≡◌, ◌≤◌, ◌<◌, length, None, IfSome};
ghost use Rattle.rules.specs.Rules.{switches_of};
ghost use Rattle.image_writing.specs.Memory.{memory};
ghost use Rattle.image_lines.specs.Lined.{cursors};
ghost use Rattle.entries_image.specs.Images.{ImageThere, begins, Begins, BodyWalks, ImageWalks, PageWalks, Measures};

use blocks_ends::{Env, Walk};
use expressions_steps::Open;
use image::ImageRead;
use image_fields::Fault;
use scope_rows::Stop;
use scope_stack::States;
use statements_acts::Place;

// Where the walk of a body begins.
fn begin(at: usize, written: usize, warnings: usize, lefts: usize, paged: bool) -> Place
    ensures { result ≡ begins at written warnings lefts «paged» }
{
    Place {
        at,
        last: at,
        written,
        errors: 0,
        warnings,
        lefts,
        inserted: 0,
        fits: true,
        paged,
    }
}

// The body's block, from where its walk begins.
fn walk_body(
    s: &[u8],
    tb: &[u32],
    env: Env,
    read: ImageRead,
    start: Place,
    rows: &mut [u32],
    out: &mut [u8],
    errs: &mut [u32],
    warns: &mut [u32],
    lefts: &mut [u32],
) -> Result<Place, Stop>
    requires { ImageThere s.now tb.now env read.entry read.body × Begins read.body start }
    ensures { BodyWalks (switches_of env.switches) s.now (length rows.old) start (memory out.old errs.old warns.old lefts.old) result (memory out.new errs.new warns.new lefts.new) }
{
    let l = scope_entered::enter(s, tb, read.entry);
    let states = States::new();
    let mut nodes = [Open {
        start: 0,
        left: 0,
        tag: 0,
        counted: 0,
    }; 26];
    let mut pl = Walk {
        place: start,
        stop: None,
        sure: false,
    };
    blocks::transform_block(
        s, tb, env, l, states, rows, &mut nodes, out, errs, warns, lefts, &mut pl,
    );
    match pl.stop {
        None => Ok(pl.place),
        Some(stop) => Err(stop),
    }
}

// The image given back: up to the body as it stands, then the body, then its length in the first four bytes.
pub fn walk_image(
    s: &[u8],
    tb: &[u32],
    env: Env,
    read: ImageRead,
    rows: &mut [u32],
    out: &mut [u8],
    errs: &mut [u32],
    warns: &mut [u32],
    lefts: &mut [u32],
) -> Result<Place, Stop>
    requires { ImageThere s.now tb.now env read.entry read.body }
    ensures { ImageWalks (switches_of env.switches) s.now (length rows.old) (memory out.old errs.old warns.old lefts.old) result (memory out.new errs.new warns.new lefts.new) }
{
    let body = read.body;
    let written = image_writing::copy_bytes(s, 4, body, out, 4);
    let start = begin(body, written, 0, 0, false);
    let p = walk_body(s, tb, env, read, start, rows, out, errs, warns, lefts)?;
    let end = p.written;
    image_writing::put_four(out, 0, ((end + 4294967292) % 4294967296) as u32);
    Ok(p)
}

// The reports as lines of a page, warnings and left-behind entries from these places on.
pub fn page_image(
    s: &[u8],
    tb: &[u32],
    env: Env,
    read: ImageRead,
    rows: &mut [u32],
    page: &mut [u8],
    warnings: usize,
    lefts: usize,
) -> Result<Place, Stop>
    requires { ImageThere s.now tb.now env read.entry read.body × (length page.old ≤ 200000000) × (warnings ≤ 200000000) × (lefts ≤ 200000000) }
    ensures { PageWalks (switches_of env.switches) s.now (length rows.old) (cursors 0 warnings lefts) page.old result page.new }
{
    let start = begin(read.body, page.len(), warnings, lefts, true);
    walk_body(
        s,
        tb,
        env,
        read,
        start,
        rows,
        page,
        &mut [],
        &mut [],
        &mut [],
    )
}

// The walk into no memory, with so many rows: how many bytes and numbers, or bytes of a page's lists, or which fault. None: the rows do
// not reach.
// Not inlined, so that a measure's many rows take machine stack only where few do not reach.
#[inline(never)]
fn measure_in<const ROWS: usize>(
    s: &[u8],
    tb: &[u32],
    env: Env,
    read: ImageRead,
    paged: bool,
) -> Option<Result<Place, Fault>>
    requires { ImageThere s.now tb.now env read.entry read.body × (ROWS ≤ 13248) }
    ensures rows { result ≡ None → ROWS < 13248 }
    ensures measures { IfSome result (Measures (switches_of env.switches) s.now «paged») }
{
    let mut rows = [0u32; ROWS];
    let start = begin(read.body, read.body, 0, 0, paged);
    let w = walk_body(
        s,
        tb,
        env,
        read,
        start,
        &mut rows,
        &mut [],
        &mut [],
        &mut [],
        &mut [],
    );
    match w {
        Ok(p) => Some(Ok(p)),
        Err(Stop::Fault(fault)) => Some(Err(fault)),
        Err(Stop::Rows) => None,
    }
}

// The walk into no memory, with few rows first, then with rows that suffice for every image.
pub fn measure(s: &[u8], tb: &[u32], env: Env, read: ImageRead, paged: bool) -> Result<Place, Fault>
    requires { ImageThere s.now tb.now env read.entry read.body }
    ensures { Measures (switches_of env.switches) s.now «paged» result }
{
    match measure_in::<1152>(s, tb, env, read, paged) {
        Some(measured) => measured,
        None => measure_in::<13248>(s, tb, env, read, paged).unwrap(),
    }
}
