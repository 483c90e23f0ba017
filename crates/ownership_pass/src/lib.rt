// The entries: one image in, the body with the deletes inserted and the reports out, into lent memory; or the room that needs; or the
// page of the reports.
#![tactic(auto)]

ghost use Rattle.std.specs.Prelude.{◌≡◌, ◌<◌, ◌≤◌, MatchResult};
ghost use Rattle.image_fields.specs.declared.Fault.TheVariants.{Switches as Unknown};
ghost use Rattle.image_writing.specs.Memory.{memory};
ghost use Rattle.entries_verdict.specs.Passes.{Passes};
ghost use Rattle.entries_page.specs.Pages.{Pages};
ghost use Rattle.ownership_pass.specs.Entries.{Begun, PassLeaves, RoomIs, RoomLeaves, PageLeaves};

use blocks_ends::Env;
use entries_verdict::Totals;
use image::ImageRead;
use image_fields::Fault;

// The numbers that a walk begins with: 12 blocks deep, 64 locals, 8 places, and rows from the first on.
fn first_env(switches: u32) -> Env
    ensures { result ≡ record { left = 12; limit = 64; width = 8; cur = 0; base = 64; switches = switches } }
{
    Env {
        left: 12,
        limit: 64,
        width: 8,
        cur: 0,
        base: 64,
        switches,
    }
}

// A value of the switches is at most 15. Asked before any table is cleared: a refusal costs no more than the test.
fn known(switches: u32) -> Result<(), Fault>
    ensures { MatchResult result (λ u. switches ≤ 15) (λ f. (15 < switches) × (f ≡ Unknown)) }
{
    if 15 < switches {
        return Err(Fault::Switches);
    }
    Ok(())
}

// The image read, and what its walk begins with.
fn read_switched(switches: u32, s: &[u8], tb: &mut [u32; 1096]) -> Result<(Env, ImageRead), Fault>
    requires { switches ≤ 15 }
    ensures { Begun switches s.now tb.new result }
{
    let read = image::read_image(s, tb)?;
    Ok((first_env(switches), read))
}

// The body with the deletes inserted, and what is reported, into the memory lent.
pub fn pass_switched(
    switches: u32,
    s: &[u8],
    out: &mut [u8],
    errs: &mut [u32],
    warns: &mut [u32],
    lefts: &mut [u32],
) -> Result<Totals, Fault>
    ensures { Passes switches s.now (memory out.old errs.old warns.old lefts.old) result (memory out.new errs.new warns.new lefts.new) }
{
    known(switches)?;
    let mut tb = [0u32; 1096];
    let (env, read) = read_switched(switches, s, &mut tb)?;
    entries_sizes::verdict(s, &tb, env, read, out, errs, warns, lefts)
}

// The bytes that the body given back needs.
pub fn room_switched(switches: u32, s: &[u8]) -> Result<usize, Fault>
    ensures { RoomIs switches s.now result }
{
    known(switches)?;
    let mut tb = [0u32; 1096];
    let (env, read) = read_switched(switches, s, &mut tb)?;
    let p = entries_image::measure(s, &tb, env, read, false)?;
    Ok(p.written)
}

// The page of what is reported, into the memory lent.
pub fn page_switched(switches: u32, s: &[u8], page: &mut [u8]) -> Result<usize, Fault>
    ensures { Pages switches s.now page.old result page.new }
{
    known(switches)?;
    let mut tb = [0u32; 1096];
    let (env, read) = read_switched(switches, s, &mut tb)?;
    entries_page::page_verdict(s, &tb, env, read, page)
}

// With all switches off.
pub fn pass(
    s: &[u8],
    out: &mut [u8],
    errs: &mut [u32],
    warns: &mut [u32],
    lefts: &mut [u32],
) -> Result<Totals, Fault>
    ensures { Passes 0 s.now (memory out.old errs.old warns.old lefts.old) result (memory out.new errs.new warns.new lefts.new) }
{
    pass_switched(0, s, out, errs, warns, lefts)
}

pub fn room(s: &[u8]) -> Result<usize, Fault>
    ensures { RoomIs 0 s.now result }
{
    room_switched(0, s)
}

pub fn page(s: &[u8], page: &mut [u8]) -> Result<usize, Fault>
    ensures { Pages 0 s.now page.old result page.new }
{
    page_switched(0, s, page)
}

// For C and Rust: 0 and the totals, or the fault's number.
#[unsafe(no_mangle)]
pub extern "C" fn ownership_pass_switched(
    switches: u32,
    image: &[u8],
    output: &mut [u8],
    errors: &mut [u32],
    warnings: &mut [u32],
    left: &mut [u32],
    totals: &mut [u64; 4],
) -> u32
    ensures { PassLeaves switches image.now (memory output.old errors.old warnings.old left.old) totals.old result (memory output.new errors.new warnings.new left.new) totals.new }
{
    match pass_switched(switches, image, output, errors, warnings, left) {
        Err(fault) => u32::from(fault),
        Ok(t) => {
            *totals = [
                t.written as u64,
                t.errors as u64,
                t.warnings as u64,
                t.lefts as u64,
            ];
            0
        }
    }
}

#[unsafe(no_mangle)]
pub extern "C" fn ownership_pass(
    image: &[u8],
    output: &mut [u8],
    errors: &mut [u32],
    warnings: &mut [u32],
    left: &mut [u32],
    totals: &mut [u64; 4],
) -> u32
    ensures { PassLeaves 0 image.now (memory output.old errors.old warnings.old left.old) totals.old result (memory output.new errors.new warnings.new left.new) totals.new }
{
    ownership_pass_switched(0, image, output, errors, warnings, left, totals)
}

// For C and Rust: 0 and the bytes needed, or the fault's number.
#[unsafe(no_mangle)]
pub extern "C" fn ownership_room_switched(switches: u32, image: &[u8], needed: &mut u64) -> u32
    ensures { RoomLeaves switches image.now needed.old result needed.new }
{
    match room_switched(switches, image) {
        Err(fault) => u32::from(fault),
        Ok(bytes) => {
            *needed = bytes as u64;
            0
        }
    }
}

#[unsafe(no_mangle)]
pub extern "C" fn ownership_room(image: &[u8], needed: &mut u64) -> u32
    ensures { RoomLeaves 0 image.now needed.old result needed.new }
{
    ownership_room_switched(0, image, needed)
}

// For C and Rust: 0 and the bytes written, or the fault's number.
#[unsafe(no_mangle)]
pub extern "C" fn ownership_page_switched(
    switches: u32,
    image: &[u8],
    output: &mut [u8],
    written: &mut u64,
) -> u32
    ensures { PageLeaves switches image.now output.old written.old result output.new written.new }
{
    match page_switched(switches, image, output) {
        Err(fault) => u32::from(fault),
        Ok(bytes) => {
            *written = bytes as u64;
            0
        }
    }
}

#[unsafe(no_mangle)]
pub extern "C" fn ownership_page(image: &[u8], output: &mut [u8], written: &mut u64) -> u32
    ensures { PageLeaves 0 image.now output.old written.old result output.new written.new }
{
    ownership_page_switched(0, image, output, written)
}
