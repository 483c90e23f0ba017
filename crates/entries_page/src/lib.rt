// The page of an image that was read: measured by a walk into nothing, then written by another.
// Throughout, tb has the tables of the image s, lent.
#![tactic(auto)]

ghost use Rattle.std.specs.Prelude.{◌≡◌, ◌≤◌, length};
ghost use Rattle.std.proofs.Math.Option.{none};
ghost use Rattle.tables.specs.Limits.{version1};
ghost use Rattle.image.specs.Image.{Image, accepted, decode};
ghost use Rattle.rules.specs.Rules.{switches_of};
ghost use Rattle.rules.specs.Report.{reports};
ghost use Rattle.rules.specs.Walk.{image_fault};
ghost use Rattle.image_lines.specs.Lined.{cursors, lined};
ghost use Rattle.entries_image.specs.Images.{ImageThere};
ghost use Rattle.entries_page.specs.Pages.{Pages};

use blocks_ends::Env;
use image::ImageRead;
use image_fields::Fault;

// The lines, each list's from its place on, with rows that suffice for every image.
fn write_page(
    s: &[u8],
    tb: &[u32],
    env: Env,
    read: ImageRead,
    page: &mut [u8],
    warnings: usize,
    lefts: usize,
)
    requires { ImageThere s.now tb.now env read.entry read.body × (length page.old ≤ 200000000) × (warnings ≤ 200000000) × (lefts ≤ 200000000) }
    ensures { (i : Image) → decode version1 s.now ≡ accepted i → image_fault version1 (switches_of env.switches) i ≡ none
        → page.new ≡ lined (cursors 0 warnings lefts) (reports (switches_of env.switches) i) page.old }
{
    let mut rows = [0u32; 13248];
    let _ = entries_image::page_image(s, tb, env, read, &mut rows, page, warnings, lefts);
}

// The verdict: nothing of the page is changed before it is known that all of it fits.
pub fn page_verdict(
    s: &[u8],
    tb: &[u32],
    env: Env,
    read: ImageRead,
    page: &mut [u8],
) -> Result<usize, Fault>
    requires { ImageThere s.now tb.now env read.entry read.body }
    ensures { Pages env.switches s.now page.old result page.new }
{
    let p = entries_image::measure(s, tb, env, read, true)?;
    let lefts = p.errors + p.warnings;
    let end = lefts + p.lefts;
    if page.len() < end {
        return Err(Fault::Page);
    }
    write_page(s, tb, env, read, &mut page[..end], p.errors, lefts);
    Ok(end)
}
