// Reads one image from standard input and writes the page of what is reported, 72 columns, as document 02 (a) shows it, or the fault.
#![tactic(auto)]

ghost use Rattle.std.specs.Prelude.{◌≡◌, length};
ghost use Rattle.report.specs.Shown.{Shows};

use std::io;

// The page of an image, or its fault's line, in front of the memory lent.
fn show(s: &[u8], out: &mut [u8]) -> usize
    requires { length out.old ≡ 2097152 }
    ensures { Shows s.now out.new result }
{
    match ownership_pass::page(s, out) {
        Err(fault) => programs_text::put_refused(out, u8::from(fault)),
        Ok(bytes) => bytes,
    }
}

// The page of the image on standard input. A byte more is read than any image has, so that longer input is refused.
fn print(rt: &(impl Input + Print), text: &mut [u8]) -> io::Result<()>
    requires { length text.old ≡ 2097152 }
{
    let mut image = [0u8; 65537];
    let n = programs_input::read_full(&mut rt.reader(), &mut image)?;
    let end = show(&image[..n], text);
    rt.write_all(&text[..end])
}

fn main(rt: HostRuntime) -> io::Result<()> {
    let mut text = [0u8; 2097152];
    print(&rt, &mut text)
}
