// Memory of our own in four sizes, the next one where one does not reach.
// Throughout, tb has the tables of the image s, lent.
#![tactic(auto)]

ghost use Rattle.std.specs.Prelude.{◌≡◌, true, ◌≤◌};
ghost use Rattle.image_writing.specs.Memory.{memory};
ghost use Rattle.entries_image.specs.Images.{ImageThere};
ghost use Rattle.entries_verdict.specs.Passes.{Passes};
ghost use Rattle.entries_verdict.specs.Verdicts.{totals_at, Judges};
ghost use Rattle.entries_sizes.specs.Sizes.{is_long, following};

use blocks_ends::Env;
use entries_verdict::{Totals, judge};
use image::ImageRead;
use image_fields::Fault;
use scope_rows::Stop;
use statements_acts::Place;

// How much memory of our own, by the longest image that it is tried first for: 512, 2,048 and 16,384 bytes, and any.
#[derive(Clone, Copy, Debug, PartialEq, Eq)]
pub enum Size {
    Tiny,
    Short,
    Middle,
    Long,
}

// The verdict with so much memory of our own.
// Not inlined: a size takes machine stack only where it is tried.
#[inline(never)]
fn judge_sized<
    const BYTES: usize,
    const ERRORS: usize,
    const WARNINGS: usize,
    const LEFTS: usize,
    const ROWS: usize,
>(
    s: &[u8],
    tb: &[u32],
    env: Env,
    read: ImageRead,
    largest: bool,
    out: &mut [u8],
    errs: &mut [u32],
    warns: &mut [u32],
    lefts: &mut [u32],
) -> Result<Place, Stop>
    requires there { ImageThere s.now tb.now env read.entry read.body × (largest ≡ true → 13248 ≤ ROWS) }
    requires sizes { (BYTES ≤ 65536) × (ERRORS ≤ 65536) × (WARNINGS ≤ 65536) × (LEFTS ≤ 65536) × (ROWS ≤ 65536) }
    ensures { Judges env.switches largest s.now (memory out.old errs.old warns.old lefts.old) result (memory out.new errs.new warns.new lefts.new) }
{
    let mut bytes = [0u8; BYTES];
    let mut told = [0u32; ERRORS];
    let mut warned = [0u32; WARNINGS];
    let mut left = [0u32; LEFTS];
    let mut rows = [0u32; ROWS];
    judge(
        s,
        tb,
        env,
        read,
        largest,
        &mut bytes,
        &mut told,
        &mut warned,
        &mut left,
        &mut rows,
        out,
        errs,
        warns,
        lefts,
    )
}

// The rows of the longest suffice for every image.
fn judge_in(
    size: Size,
    s: &[u8],
    tb: &[u32],
    env: Env,
    read: ImageRead,
    out: &mut [u8],
    errs: &mut [u32],
    warns: &mut [u32],
    lefts: &mut [u32],
) -> Result<Place, Stop>
    requires { ImageThere s.now tb.now env read.entry read.body }
    ensures { Judges env.switches (is_long size) s.now (memory out.old errs.old warns.old lefts.old) result (memory out.new errs.new warns.new lefts.new) }
{
    match size {
        Size::Tiny => {
            judge_sized::<1024, 96, 34, 51, 288>(s, tb, env, read, false, out, errs, warns, lefts)
        }
        Size::Short => {
            judge_sized::<4096, 384, 64, 96, 1152>(s, tb, env, read, false, out, errs, warns, lefts)
        }
        Size::Middle => judge_sized::<32768, 3072, 512, 768, 4608>(
            s, tb, env, read, false, out, errs, warns, lefts,
        ),
        Size::Long => judge_sized::<65536, 6144, 1024, 1536, 13248>(
            s, tb, env, read, true, out, errs, warns, lefts,
        ),
    }
}

// The totals of a walk that came to a place.
fn totals_of(p: Place) -> Totals
    ensures { result ≡ totals_at p }
{
    Totals {
        written: p.written,
        errors: p.errors / 12,
        warnings: p.warnings / 2,
        lefts: p.lefts / 3,
    }
}

// The size that an image of so many bytes is tried with first.
pub fn size_for(n: usize) -> Size {
    match n {
        0..=512 => Size::Tiny,
        513..=2048 => Size::Short,
        2049..=16384 => Size::Middle,
        _ => Size::Long,
    }
}

// The next larger size.
fn next_size(size: Size) -> Option<Size>
    ensures { result ≡ following size }
{
    match size {
        Size::Tiny => Some(Size::Short),
        Size::Short => Some(Size::Middle),
        Size::Middle => Some(Size::Long),
        Size::Long => None,
    }
}

// The verdict, with memory of our own of a size, or of the next where that does not reach.
pub fn verdict_from(
    size: Size,
    s: &[u8],
    tb: &[u32],
    env: Env,
    read: ImageRead,
    out: &mut [u8],
    errs: &mut [u32],
    warns: &mut [u32],
    lefts: &mut [u32],
) -> Result<Totals, Fault>
    requires { ImageThere s.now tb.now env read.entry read.body }
    ensures { Passes env.switches s.now (memory out.old errs.old warns.old lefts.old) result (memory out.new errs.new warns.new lefts.new) }
{
    match judge_in(size, s, tb, env, read, out, errs, warns, lefts) {
        Ok(p) => Ok(totals_of(p)),
        Err(Stop::Fault(fault)) => Err(fault),
        Err(Stop::Rows) => {
            let next = next_size(size).unwrap();
            verdict_from(next, s, tb, env, read, out, errs, warns, lefts)
        }
    }
}

// The verdict, with memory of our own of the size for the image first.
pub fn verdict(
    s: &[u8],
    tb: &[u32],
    env: Env,
    read: ImageRead,
    out: &mut [u8],
    errs: &mut [u32],
    warns: &mut [u32],
    lefts: &mut [u32],
) -> Result<Totals, Fault>
    requires { ImageThere s.now tb.now env read.entry read.body }
    ensures { Passes env.switches s.now (memory out.old errs.old warns.old lefts.old) result (memory out.new errs.new warns.new lefts.new) }
{
    verdict_from(size_for(s.len()), s, tb, env, read, out, errs, warns, lefts)
}
