// Reads one image from standard input and writes in decimals what the pass answers, as document 01 shows: the totals and a line for each
// entry of the lists, or the fault.
#![tactic(auto)]

ghost use Rattle.std.specs.Prelude.{◌≡◌, List, [], ◌∷◌, ◌++◌, ◌+◌, ◌-◌, ◌*◌, ◌≤◌, ◌<◌, min, length};
ghost use Rattle.std.proofs.Math.Seq.{slice};
ghost use Rattle.image_writing.specs.Stored.{Stored};
ghost use Rattle.programs_text.specs.Text.{numbers, line};
ghost use Rattle.ownership.specs.Text.{accepted_word, error_line, entry_line, lines, Reports};

use entries_verdict::Totals;
use std::io;

// Some of a list's numbers.
fn put_numbers(out: &mut [u8], at: usize, list: &[u32], from: usize, to: usize) -> usize
    requires { (at < 4294900000) × (from ≤ to) × (to ≤ length list.now) × (to ≤ from + 12) }
    ensures { Stored out.old at (numbers (slice from to list.now)) out.new result × (result ≤ at + 21 * (to - from)) }
{
    let mut p = at;
    for i in from..to {
        p = programs_text::put_number(out, p, u64::from(list[i]));
    }
    p
}

// How many other places an error's entry shows: its count, of which it has room for 8.
fn others(count: u32) -> usize
    ensures { result ≡ min count 8 }
{
    if count < 8 { count as usize } else { 8 }
}

// An error's line: the entry without its count.
fn put_error(out: &mut [u8], at: usize, errs: &[u32], entry: usize) -> usize
    requires { (at < 4294800000) × (entry + 12 ≤ length errs.now) }
    ensures { Stored out.old at (error_line errs.now entry) out.new result × (result ≤ at + 240) }
{
    let count = entry + 3;
    let places = entry + 4;
    let named = programs_text::put_text(out, at, b"error");
    let told = put_numbers(out, named, errs, entry, count);
    let shown = put_numbers(out, told, errs, places, places + others(errs[count]));
    programs_text::put_text(out, shown, b"\n")
}

// The lines of the first errors.
fn put_errors(out: &mut [u8], at: usize, errs: &[u32], many: usize) -> usize
    requires { (at < 1000000) × (many ≤ 256) × (12 * many ≤ length errs.now) }
    ensures { Stored out.old at (lines (error_line errs.now) 12 many 0) out.new result × (result ≤ at + 240 * many) }
{
    let mut p = at;
    for i in 0..many {
        p = put_error(out, p, errs, 12 * i);
    }
    p
}

// A word and the numbers of an entry, so many.
fn put_entry(
    out: &mut [u8],
    at: usize,
    word: &[u8],
    list: &[u32],
    width: usize,
    entry: usize,
) -> usize
    requires { (at < 4294800000) × (length word.now ≤ 8) × (width ≤ 3) × (entry + width ≤ length list.now) }
    ensures { Stored out.old at (entry_line word.now list.now width entry) out.new result × (result ≤ at + 73) }
{
    let named = programs_text::put_text(out, at, word);
    let told = put_numbers(out, named, list, entry, entry + width);
    programs_text::put_text(out, told, b"\n")
}

// The lines of a list's first entries.
fn put_entries(
    out: &mut [u8],
    at: usize,
    word: &[u8],
    list: &[u32],
    width: usize,
    many: usize,
) -> usize
    requires { (at < 1000000) × (many ≤ 256) × (length word.now ≤ 8) × (width ≤ 3) × (width * many ≤ length list.now) }
    ensures { Stored out.old at (lines (entry_line word.now list.now width) width many 0) out.new result × (result ≤ at + 73 * many) }
{
    let mut p = at;
    for i in 0..many {
        p = put_entry(out, p, word, list, width, width * i);
    }
    p
}

fn put_totals(out: &mut [u8], t: Totals) -> usize
    ensures { Stored out.old 0 (line accepted_word (t.written ∷ t.errors ∷ t.warnings ∷ t.lefts ∷ [])) out.new result × (result ≤ 100) }
{
    let named = programs_text::put_text(out, 0, b"accepted");
    let written = programs_text::put_number(out, named, t.written as u64);
    let errors = programs_text::put_number(out, written, t.errors as u64);
    let warnings = programs_text::put_number(out, errors, t.warnings as u64);
    let lefts = programs_text::put_number(out, warnings, t.lefts as u64);
    programs_text::put_text(out, lefts, b"\n")
}

// The text of what the pass answers to an image, with 65,536 bytes and 256 entries a list lent.
fn report(s: &[u8], out: &mut [u8]) -> usize
    ensures { Reports s.now out.old out.new result × (result ≤ 131072) }
{
    let mut bytes = [0u8; 65536];
    let mut errs = [0u32; 3072];
    let mut warns = [0u32; 512];
    let mut lefts = [0u32; 768];
    match ownership_pass::pass(s, &mut bytes, &mut errs, &mut warns, &mut lefts) {
        Err(fault) => programs_text::put_refused(out, u8::from(fault)),
        Ok(t) => {
            let totals = put_totals(out, t);
            let errors = put_errors(out, totals, &errs, t.errors);
            let warnings = put_entries(out, errors, b"warning", &warns, 2, t.warnings);
            put_entries(out, warnings, b"left", &lefts, 3, t.lefts)
        }
    }
}

// A byte more than any image has, so that longer input is refused.
fn main(rt: HostRuntime) -> io::Result<()> {
    let mut image = [0u8; 65537];
    let mut text = [0u8; 131072];
    let n = programs_input::read_full(&mut rt.reader(), &mut image)?;
    let end = report(&image[..n], &mut text);
    rt.write_all(&text[..end])
}
