// Prints a line for each image of the file `images`: its label, and `accepted` with the number of its bytes or `refused` with the
// fault's number. The file is a run of records: a label's length in one byte, the label, an image's length in four bytes (big-endian),
// the image. tools/fault_images.rs makes data/images and, from document 01, the lines that have to come out.
#![tactic(auto)]

ghost use Rattle.std.specs.Prelude.{◌≡◌, ◌+◌, ◌≤◌, ◌<◌, length};
ghost use Rattle.programs_faults.specs.Record.{record_at, Inside};

use image_fields::{four_at, peek, room};
use std::{fs, io};

// Where a record's label and its image end.
#[derive(Clone, Copy)]
struct Record {
    label: usize,
    end: usize,
}

// The record that starts at a position; none where it is cut short.
fn record_at(s: &[u8], at: usize) -> Option<Record>
    ensures value { result ≡ record_at s.now at }
    ensures inside { Inside s.now at result }
{
    if room(s, at) < 1 {
        return None;
    }
    let label = at + 1 + peek(s, at);
    if room(s, label) < 4 {
        return None;
    }
    let size = four_at(s, label);
    if room(s, label + 4) < size {
        return None;
    }
    let end = label + 4 + size;
    Some(Record { label, end })
}

// The line of a record that starts at a position.
fn print_record(rt: &impl Print, s: &[u8], at: usize, record: Record) -> io::Result<()>
    requires { (at < record.label) × (record.label + 4 ≤ record.end) × (record.end ≤ length s.now) }
{
    let name = at + 1;
    let image = record.label + 4;
    rt.write_all(&s[name..record.label])?;
    // the answer as C has it, 0 for none
    let fault = image::image_fault(&s[image..record.end]);
    if fault == 0 {
        rt.write_all(b" accepted ")?;
        rt.print(record.end - image)?;
    } else {
        rt.write_all(b" refused ")?;
        rt.print(fault)?;
    }
    rt.write_all(b"\n")
}

fn print_bad(rt: &impl Print) -> io::Result<()> {
    rt.write_all(b"bad record\n")
}

// The lines of all records, up to the end or a record that is cut short.
fn print_records(rt: &impl Print, s: &[u8]) -> io::Result<()> {
    let mut at = 0;
    while at < s.len() {
        let Some(record) = record_at(s, at) else {
            return print_bad(rt);
        };
        print_record(rt, s, at, record)?;
        at = record.end;
    }
    Ok(())
}

// A file that fills the room for it may be cut short anywhere, so it is not looked at.
fn main(rt: HostRuntime) -> io::Result<()> {
    let mut images = match fs::open(&rt, "images") {
        Ok(images) => images,
        Err(e) => return eprintln!(rt; "images: {e}"),
    };
    let mut file = [0u8; 524288];
    let n = programs_input::read_full(&mut images, &mut file)?;
    if n < 524288 {
        print_records(&rt, &file[..n])
    } else {
        print_bad(&rt)
    }
}
