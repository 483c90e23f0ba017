// Runs the stored images through the entries and prints how many answers agree with the Rust's and, if there is one, the label of the first
// that differs. bench/stored/README.md says what a record of the file `answers` holds.
#![tactic(auto)]

ghost use Rattle.std.specs.Prelude.{◌≡◌, ◌+◌, ◌*◌, ◌≤◌, ◌<◌, length};
ghost use Rattle.programs_replay.specs.Record.{Listed, Stands, Inside};

use entries_verdict::Totals;
use image_fields::{peek, wide, wide32};
use std::rt::Files;
use std::{fs, io};

// Where a record's parts stand: the end of its label and of its image, the bytes given back, the lists, the record's end.
#[derive(Clone, Copy)]
struct Record {
    label: usize,
    answer: usize,
    bytes: usize,
    errors: usize,
    warnings: usize,
    lefts: usize,
    end: usize,
}

// How many records agree and how many differ.
#[derive(Clone, Copy)]
struct Count {
    agree: usize,
    differ: usize,
}

// Two bytes' number, or 0 past the end.
fn two(s: &[u8], at: usize) -> usize
    ensures { result < 65536 }
{
    if image_fields::room(s, at) < 2 {
        0
    } else {
        image_fields::two_at(s, at)
    }
}

// Four bytes' number, or 0 past the end.
fn four(s: &[u8], at: usize) -> usize
    ensures { result < 4294967296 }
{
    if image_fields::room(s, at) < 4 {
        0
    } else {
        image_fields::four_at(s, at)
    }
}

// Where a list of errors ends.
fn errors_end(s: &[u8], at: usize) -> usize
    requires { at < 1099511627776 }
    ensures { (at < result) × (result ≤ at + 67304447) }
{
    let many = two(s, at);
    let mut p = at + 2;
    for _ in 0..many {
        p += 7 + 4 * peek(s, p + 6);
    }
    p
}

// A record whose image was refused: there are no bytes and no lists.
fn refused(label: usize, answer: usize) -> Record
    requires { answer < 549755813888 }
    ensures { (result.label ≡ label) × (result.answer ≡ answer) × Listed result }
{
    Record {
        label,
        answer,
        bytes: answer,
        errors: answer,
        warnings: answer,
        lefts: answer,
        end: answer + 6,
    }
}

// A record with lists.
fn with_lists(s: &[u8], label: usize, answer: usize, bytes: usize, errors: usize) -> Record
    requires { (answer < errors) × (bytes ≤ errors) × (errors < 1099511627776) }
    ensures { (result.label ≡ label) × (result.answer ≡ answer) × Listed result }
{
    let warnings = errors_end(s, errors);
    let lefts = warnings + 2 + 8 * two(s, warnings);
    Record {
        label,
        answer,
        bytes,
        errors,
        warnings,
        lefts,
        end: lefts + 2 + 10 * two(s, lefts),
    }
}

// A record whose image was accepted: the bytes stand there if they are not the image's own.
fn accepted(s: &[u8], label: usize, answer: usize) -> Record
    requires { (label + 4 ≤ answer) × (answer < 549755813888) }
    ensures { (result.label ≡ label) × (result.answer ≡ answer) × Listed result }
{
    let bytes = answer + 7;
    if peek(s, answer + 6) == 1 {
        with_lists(s, label, answer, bytes, bytes + four(s, answer + 2))
    } else {
        with_lists(s, label, answer, label + 4, bytes)
    }
}

// A record, if the bytes hold it.
fn held(s: &[u8], at: usize, q: Record) -> Option<Record>
    requires { (at < q.label) × (q.label + 4 ≤ q.answer) × Listed q × (length s.now < 4294967296) }
    ensures { Inside s.now at result }
{
    if q.end <= s.len() { Some(q) } else { None }
}

// The record that starts at a position.
fn record_at(s: &[u8], at: usize) -> Option<Record>
    requires { (at < length s.now) × (length s.now < 4294967296) }
    ensures { Inside s.now at result }
{
    let label = at + 1 + peek(s, at);
    let answer = label + 4 + four(s, label);
    if peek(s, answer) == 0 {
        held(s, at, accepted(s, label, answer))
    } else {
        held(s, at, refused(label, answer))
    }
}

// Whether a record's bytes from a position on are the first that were given back.
fn same_bytes(s: &[u8], at: usize, out: &[u8], many: usize) -> bool
    requires { (at ≤ length s.now) × (many ≤ length out.now) }
{
    s[at..].starts_with(&out[..many])
}

// Number j of the entry that a stored error stands for: kind, place, hint, count, and 8 places.
fn error_number(s: &[u8], at: usize, j: usize) -> usize
    requires { (at < 1099511627776) × (j < 12) }
{
    match j {
        0 => peek(s, at),
        1 => four(s, at + 1),
        2 | 3 => peek(s, at + 3 + j),
        _ if j - 4 < peek(s, at + 6) => four(s, at + 7 + 4 * (j - 4)),
        _ => 0,
    }
}

fn same_error(s: &[u8], at: usize, errs: &[u32], entry: usize) -> bool
    requires { (at < 1099511627776) × (entry + 12 ≤ length errs.now) }
{
    for j in 0..12 {
        if error_number(s, at, j) != wide32(errs[entry + j]) {
            return false;
        }
    }
    true
}

// Whether a stored list of errors is the one that was given.
fn same_errors(s: &[u8], at: usize, errs: &[u32], many: usize) -> bool
    requires { (at < 4294967296) × (12 * many ≤ length errs.now) }
{
    if two(s, at) != many {
        return false;
    }
    let mut p = at + 2;
    for i in 0..many {
        if !same_error(s, p, errs, 12 * i) {
            return false;
        }
        p += 7 + 4 * peek(s, p + 6);
    }
    true
}

// Whether a stored warning, a span and an offset, is the one that was given.
fn same_warning(s: &[u8], at: usize, list: &[u32], entry: usize) -> bool
    requires { (at < 1099511627776) × (entry + 2 ≤ length list.now) }
{
    four(s, at) == wide32(list[entry]) && four(s, at + 4) == wide32(list[entry + 1])
}

// Whether a stored list of warnings is the one that was given.
fn same_warnings(s: &[u8], at: usize, list: &[u32], many: usize) -> bool
    requires { (at < 4294967296) × (2 * many ≤ length list.now) }
{
    if two(s, at) != many {
        return false;
    }
    for i in 0..many {
        if !same_warning(s, at + 2 + 8 * i, list, 2 * i) {
            return false;
        }
    }
    true
}

// Whether a stored left-behind entry, a span, a name in 2 bytes and a birth, is the one that was given.
fn same_left(s: &[u8], at: usize, list: &[u32], entry: usize) -> bool
    requires { (at < 1099511627776) × (entry + 3 ≤ length list.now) }
{
    four(s, at) == wide32(list[entry])
        && two(s, at + 4) == wide32(list[entry + 1])
        && four(s, at + 6) == wide32(list[entry + 2])
}

// Whether a stored list of left-behind entries is the one that was given.
fn same_lefts(s: &[u8], at: usize, list: &[u32], many: usize) -> bool
    requires { (at < 4294967296) × (3 * many ≤ length list.now) }
{
    if two(s, at) != many {
        return false;
    }
    for i in 0..many {
        if !same_left(s, at + 2 + 10 * i, list, 3 * i) {
            return false;
        }
    }
    true
}

// Whether an accepted image's totals, bytes and lists are those of its record.
fn same_answer(
    s: &[u8],
    q: Record,
    t: Totals,
    out: &[u8],
    errs: &[u32],
    warns: &[u32],
    lefts: &[u32],
) -> bool
    requires stands { Stands s.now q }
    requires written_in_bounds { (t.written ≤ length out.now) × (12 * t.errors ≤ length errs.now) × (2 * t.warnings ≤ length warns.now) × (3 * t.lefts ≤ length lefts.now) }
{
    four(s, q.answer + 2) == t.written
        && same_bytes(s, q.bytes, out, t.written)
        && same_errors(s, q.errors, errs, t.errors)
        && same_warnings(s, q.warnings, warns, t.warnings)
        && same_lefts(s, q.lefts, lefts, t.lefts)
}

// With 65,536 bytes and 256 entries a list lent: the outcome, and what it gives.
fn usual_agrees(s: &[u8], q: Record) -> bool
    requires { Stands s.now q }
{
    let image = q.label + 4;
    let answer = q.answer;
    let mut out = [0u8; 65536];
    let mut errs = [0u32; 3072];
    let mut warns = [0u32; 512];
    let mut lefts = [0u32; 768];
    let outcome = peek(s, answer);
    match ownership_pass::pass(
        &s[image..answer],
        &mut out,
        &mut errs,
        &mut warns,
        &mut lefts,
    ) {
        Err(fault) => wide(u8::from(fault)) == outcome,
        Ok(t) => outcome == 0 && same_answer(s, q, t, &out, &errs, &warns, &lefts),
    }
}

// With more lent than any stored image needs: the outcome, and how many bytes there are.
fn lavish_agrees(s: &[u8], q: Record, out: &mut [u8]) -> bool
    requires { Stands s.now q }
{
    let image = q.label + 4;
    let answer = q.answer;
    let mut errs = [0u32; 6144];
    let mut warns = [0u32; 1024];
    let mut lefts = [0u32; 1536];
    let outcome = peek(s, answer + 1);
    match ownership_pass::pass(&s[image..answer], out, &mut errs, &mut warns, &mut lefts) {
        Err(fault) => wide(u8::from(fault)) == outcome,
        Ok(t) => outcome == 0 && four(s, answer + 2) == t.written,
    }
}

fn all_agrees(s: &[u8], q: Record) -> bool
    requires { Stands s.now q }
{
    let mut out = [0u8; 1500000];
    lavish_agrees(s, q, &mut out)
}

// The room: the fault of 1 to 13, or no less than is needed.
fn room_agrees(s: &[u8], q: Record) -> bool
    requires { Stands s.now q }
{
    let image = q.label + 4;
    let answer = q.answer;
    let outcome = peek(s, answer);
    match ownership_pass::room(&s[image..answer]) {
        Err(fault) => wide(u8::from(fault)) == outcome,
        Ok(bytes) => (outcome == 0 || 14 <= outcome) && four(s, answer + 2) <= bytes,
    }
}

// Whether all three agree with a record. Only after 14 and 15 can more memory change the outcome.
fn agrees(s: &[u8], q: Record) -> bool
    requires { Stands s.now q }
{
    let outcome = peek(s, q.answer);
    usual_agrees(s, q)
        && room_agrees(s, q)
        && (14 <= outcome || peek(s, q.answer + 1) == outcome)
        && (outcome < 14 || all_agrees(s, q))
}

// The count after one more record.
fn counted(same: bool, c: Count) -> Count
    requires { c.agree + c.differ < 4294967296 }
    ensures { result.agree + result.differ ≡ c.agree + c.differ + 1 }
{
    if same {
        Count {
            agree: c.agree + 1,
            ..c
        }
    } else {
        Count {
            differ: c.differ + 1,
            ..c
        }
    }
}

// The label of a record that differs.
fn print_label(rt: &impl Print, s: &[u8], at: usize, label: usize) -> io::Result<()>
    requires { (at < label) × (label ≤ length s.now) }
{
    let name = at + 1;
    rt.write_all(b"first to differ: ")?;
    rt.write_all(&s[name..label])?;
    rt.write_all(b"\n")
}

fn print_bad(rt: &impl Print) -> io::Result<()> {
    rt.write_all(b"bad record\n")
}

fn print_count(rt: &impl Print, c: Count) -> io::Result<()> {
    rt.print(c.agree)?;
    rt.write_all(b" agree, ")?;
    rt.print(c.differ)?;
    rt.write_all(b" differ\n")
}

// All records, up to the end or one that is cut short; the label of the first that differs is printed.
fn replay(rt: &impl Print, s: &[u8]) -> io::Result<Count>
    requires { length s.now < 4294967296 }
{
    let mut count = Count {
        agree: 0,
        differ: 0,
    };
    let mut at = 0;
    while at < s.len() {
        let Some(q) = record_at(s, at) else {
            print_bad(rt)?;
            return Ok(count);
        };
        let same = agrees(s, q);
        if !same && count.differ == 0 {
            print_label(rt, s, at, q.label)?;
        }
        count = counted(same, count);
        at = q.end;
    }
    Ok(count)
}

// The answers, read into the memory lent. A file that fills it may be cut short anywhere, so it is not looked at.
fn replay_file(rt: &(impl Files + Print + Eprint), file: &mut [u8]) -> io::Result<()>
    requires { length file.old ≤ 4294967295 }
{
    let mut answers = match fs::open(rt, "answers") {
        Ok(answers) => answers,
        Err(e) => return eprintln!(rt; "answers: {e}"),
    };
    let n = programs_input::read_full(&mut answers, file)?;
    if n < file.len() {
        print_count(rt, replay(rt, &file[..n])?)
    } else {
        print_bad(rt)
    }
}

fn main(rt: HostRuntime) -> io::Result<()> {
    let mut file = [0u8; 2500000];
    replay_file(&rt, &mut file)
}
