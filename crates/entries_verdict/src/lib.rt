// The verdict on an image that was read: the walk of the whole image into memory of our own first.
// Throughout, tb has the tables of the image s, rows the places of joined states, both lent.
#![tactic(auto)]

ghost use Rattle.std.specs.Prelude.{◌≡◌, true, false, ◌+◌, ◌≤◌, ◌<◌, length};
ghost use Rattle.std.proofs.lemmas.List.Edits.{sets};
ghost use Rattle.std.proofs.Math.Seq.{slice};
ghost use Rattle.image_writing.specs.Memory.{memory};
ghost use Rattle.entries_verdict.specs.Passes.{Passes};
ghost use Rattle.entries_image.specs.Images.{ImageThere, number_in};
ghost use Rattle.entries_verdict.specs.Verdicts.{lack_of, Fits, CopiesAll, Judges};

use blocks_ends::Env;
use entries_image::walk_image;
use image::ImageRead;
use image_fields::Fault;
use scope_rows::Stop;
use statements_acts::Place;

// Of an image that is accepted: bytes written and entries of each list.
#[derive(Clone, Copy, Debug, PartialEq, Eq)]
pub struct Totals {
    pub written: usize,
    pub errors: usize,
    pub warnings: usize,
    pub lefts: usize,
}

// Faults 14 and 15 of a walk that ended at a place, by the lengths lent.
pub fn room_fault(
    p: Place,
    bytes: usize,
    errs: usize,
    warns: usize,
    lefts: usize,
) -> Result<(), Fault>
    ensures { number_in result ≡ lack_of p bytes errs warns lefts }
{
    if errs < p.errors || warns < p.warnings || lefts < p.lefts {
        return Err(Fault::Lists);
    }
    if bytes < p.written || !p.fits {
        return Err(Fault::Output);
    }
    Ok(())
}

// The first numbers of a list in front of another.
pub fn copy_numbers(from: &[u32], many: usize, to: &mut [u32])
    requires { (many ≤ length from.now) × (many ≤ length to.old) }
    ensures { to.new ≡ sets to.old 0 (slice 0 many from.now) }
{
    to[..many].copy_from_slice(&from[..many]);
}

// What our own memory holds, in front of what is lent.
fn copy_all(
    p: Place,
    bytes: &[u8],
    told: &[u32],
    warned: &[u32],
    left: &[u32],
    out: &mut [u8],
    errs: &mut [u32],
    warns: &mut [u32],
    lefts: &mut [u32],
)
    requires { (length bytes.now ≤ 65536) × Fits p (length bytes.now) (length told.now) (length warned.now) (length left.now) × Fits p (length out.old) (length errs.old) (length warns.old) (length lefts.old) }
    ensures { CopiesAll p (memory bytes.now told.now warned.now left.now) (memory out.old errs.old warns.old lefts.old) (memory out.new errs.new warns.new lefts.new) }
{
    image_writing::copy_bytes(bytes, 0, p.written, out, 0);
    copy_numbers(told, p.errors, errs);
    copy_numbers(warned, p.warnings, warns);
    copy_numbers(left, p.lefts, lefts);
}

// The image that was read, walked into memory of our own first: what is lent changes only once no fault is left. If our own memory
// holds all of it, that is copied; else the largest walks again, and a smaller one says so (`Stop::Rows`).
pub fn judge(
    s: &[u8],
    tb: &[u32],
    env: Env,
    read: ImageRead,
    largest: bool,
    bytes: &mut [u8],
    told: &mut [u32],
    warned: &mut [u32],
    left: &mut [u32],
    rows: &mut [u32],
    out: &mut [u8],
    errs: &mut [u32],
    warns: &mut [u32],
    lefts: &mut [u32],
) -> Result<Place, Stop>
    requires { ImageThere s.now tb.now env read.entry read.body × (length bytes.old ≤ 65536) × (largest ≡ true → 13248 ≤ length rows.old) }
    ensures { Judges env.switches largest s.now (memory out.old errs.old warns.old lefts.old) result (memory out.new errs.new warns.new lefts.new) }
{
    let p = walk_image(s, tb, env, read, rows, bytes, told, warned, left)?;
    room_fault(p, out.len(), errs.len(), warns.len(), lefts.len()).map_err(Stop::Fault)?;
    if room_fault(p, bytes.len(), told.len(), warned.len(), left.len()).is_ok() {
        copy_all(p, bytes, told, warned, left, out, errs, warns, lefts);
        return Ok(p);
    }
    if largest {
        // It comes to the same place.
        let _ = walk_image(s, tb, env, read, rows, out, errs, warns, lefts);
        return Ok(p);
    }
    Err(Stop::Rows)
}
