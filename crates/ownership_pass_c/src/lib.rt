// The entries of `ownership_pass` for C and Rust, under its clauses: they answer 0 and the numbers, or the fault's number.
#![tactic(auto)]

ghost use Rattle.image_writing.specs.Memory.{memory};
ghost use Rattle.ownership_pass.specs.Entries.{PassLeaves, RoomLeaves, PageLeaves};

#[unsafe(no_mangle)]
pub extern "C" fn ownership_pass_switched(
    switches: u32,
    image: &[u8],
    output: &mut [u8],
    errors: &mut [u32],
    warnings: &mut [u32],
    left: &mut [u32],
    totals: &mut [u64; 4],
) -> u32
    ensures { PassLeaves switches image.now (memory output.old errors.old warnings.old left.old) totals.old result (memory output.new errors.new warnings.new left.new) totals.new }
{
    ownership_pass::ownership_pass_switched(switches, image, output, errors, warnings, left, totals)
}

#[unsafe(no_mangle)]
pub extern "C" fn ownership_pass(
    image: &[u8],
    output: &mut [u8],
    errors: &mut [u32],
    warnings: &mut [u32],
    left: &mut [u32],
    totals: &mut [u64; 4],
) -> u32
    ensures { PassLeaves 0 image.now (memory output.old errors.old warnings.old left.old) totals.old result (memory output.new errors.new warnings.new left.new) totals.new }
{
    ownership_pass::ownership_pass(image, output, errors, warnings, left, totals)
}

#[unsafe(no_mangle)]
pub extern "C" fn ownership_room_switched(switches: u32, image: &[u8], needed: &mut u64) -> u32
    ensures { RoomLeaves switches image.now needed.old result needed.new }
{
    ownership_pass::ownership_room_switched(switches, image, needed)
}

#[unsafe(no_mangle)]
pub extern "C" fn ownership_room(image: &[u8], needed: &mut u64) -> u32
    ensures { RoomLeaves 0 image.now needed.old result needed.new }
{
    ownership_pass::ownership_room(image, needed)
}

#[unsafe(no_mangle)]
pub extern "C" fn ownership_page_switched(
    switches: u32,
    image: &[u8],
    output: &mut [u8],
    written: &mut u64,
) -> u32
    ensures { PageLeaves switches image.now output.old written.old result output.new written.new }
{
    ownership_pass::ownership_page_switched(switches, image, output, written)
}

#[unsafe(no_mangle)]
pub extern "C" fn ownership_page(image: &[u8], output: &mut [u8], written: &mut u64) -> u32
    ensures { PageLeaves 0 image.now output.old written.old result output.new written.new }
{
    ownership_pass::ownership_page(image, output, written)
}
