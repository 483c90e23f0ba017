// The lines of one report of the page (document 02, (a)), stored as far as lent memory reaches. A line is put together in 73 bytes of our
// own, blank at first: numbers are written there from their last digit on, and the end of memory is met once a line.
#![tactic(auto)]

ghost use Rattle.std.specs.Prelude.{◌≡◌, ℕ, ◌+◌, ◌-◌, ◌≤◌, ◌<◌, min, length, get_or};
ghost use mathlib.Core.List.{List, ◌++◌, flat_map, flatten};
ghost use Rattle.std.proofs.lemmas.List.Edits.{sets};
ghost use Rattle.std.proofs.Math.Seq.{slice};
ghost use Rattle.rules.specs.Report.{warning, left};
ghost use Rattle.rules_page.specs.Page.{kind_name, blanks, left_in, digits, column, head, line};
ghost use Rattle.image_writing.specs.Stored.{Stored};
ghost use Rattle.image_lines.specs.Lined.{shown, error_of};
ghost use Rattle.image_lines.specs.Told.{left_begin};
ghost use Rattle.image_lines.specs.Further.{further_lines};

// The digits of a number, the last of them before `end`.
// A `while` over what is left of the number: no index is counted through.
fn put_digits(text: &mut [u8; 73], end: usize, n: u32)
    requires { (12 ≤ end) × (end ≤ 73) }
    ensures { text.new ≡ sets text.old (end - length (digits n)) (digits n) }
{
    let mut i = end - 1;
    let mut m = n;
    while 9 < m {
        text[i] = (48 + m % 10) as u8;
        m = m / 10;
        i -= 1;
    }
    text[i] = (48 + m) as u8;
}

// A name from the first column on.
fn put_name(text: &mut [u8; 73], name: &[u8])
    requires { length name.now ≤ 24 }
    ensures { text.new ≡ sets text.old 0 name.now }
{
    image_writing::copy_bytes(name, 0, name.len(), text, 0);
}

// The name of an error's kind, which is a number in the list of numbers that C is lent.
fn put_kind(text: &mut [u8; 73], kind: u32)
    requires { (0 < kind) × (kind ≤ 8) }
    ensures { text.new ≡ sets text.old 0 (kind_name kind) }
{
    match kind {
        1 => put_name(text, b"deleted"),
        2 => put_name(text, b"moved"),
        3 => put_name(text, b"consumed"),
        4 => put_name(text, b"potentially deleted"),
        5 => put_name(text, b"potentially moved"),
        6 => put_name(text, b"potentially consumed"),
        7 => put_name(text, b"bad move"),
        _ => put_name(text, b"global moved"),
    }
}

// Other places behind the first 36 columns, right in 12 each.
fn put_others(text: &mut [u8; 73], others: &[u32])
    requires { length others.now ≤ 3 }
    ensures { (h : List ℕ) → length h ≡ 36 → text.old ≡ left_in 73 h → text.new ≡ left_in 73 (h ++ flat_map column others.now) }
{
    for (i, place) in others.iter().enumerate() {
        put_digits(text, 48 + 12 * i, *place);
    }
}

// A line of which `text` has the first 36 columns, and blanks.
fn put_line(text: &mut [u8; 73], others: &[u32], out: &mut [u8], at: usize) -> usize
    requires { (length others.now ≤ 3) × (at < 4294967000) }
    ensures { ((h : List ℕ) → length h ≡ 36 → text.old ≡ left_in 73 h → Stored out.old at (line h others.now) out.new result) × (result ≡ at + 73) }
{
    put_others(text, others);
    text[72] = 10;
    image_writing::copy_bytes(text, 0, 73, out, at)
}

// A line with a name and a place.
fn put_first(out: &mut [u8], at: usize, name: &[u8], place: u32, others: &[u32]) -> usize
    requires { (length name.now ≤ 24) × (length others.now ≤ 3) × (at < 4294967000) }
    ensures { Stored out.old at (line (head name.now place) others.now) out.new result × (result ≡ at + 73) }
{
    let mut text = [32u8; 73];
    put_name(&mut text, name);
    put_digits(&mut text, 36, place);
    put_line(&mut text, others, out, at)
}

// A line that continues an entry.
fn put_further(out: &mut [u8], at: usize, others: &[u32]) -> usize
    requires { (length others.now ≤ 3) × (at < 4294967000) }
    ensures { Stored out.old at (line (blanks 36) others.now) out.new result × (result ≡ at + 73) }
{
    let mut text = [32u8; 73];
    put_line(&mut text, others, out, at)
}

// Where a line's three numbers end, or all numbers.
fn three_on(from: usize, to: usize) -> usize
    requires { from ≤ to }
    ensures { result ≡ min (from + 3) to }
{
    from + (to - from).min(3)
}

// The lines that continue an entry, with the numbers from a position up to another.
fn put_continued(numbers: &[u32], from: usize, to: usize, out: &mut [u8], at: usize) -> usize
    requires { (from ≤ to) × (to ≤ length numbers.now) × (to ≤ from + 32) × (at < 4294900100) }
    ensures { Stored out.old at (flatten (further_lines (slice from to numbers.now))) out.new result }
{
    let mut i = from;
    let mut p = at;
    while i < to {
        let end = three_on(i, to);
        p = put_further(out, p, &numbers[i..end]);
        i = end;
    }
    p
}

// An error's lines, of the numbers of its entry.
pub fn put_error_lines(numbers: &[u32], out: &mut [u8], at: usize) -> usize
    requires { (12 ≤ length numbers.now) × (0 < get_or numbers.now 0 0) × (get_or numbers.now 0 0 ≤ 8) × (get_or numbers.now 3 0 ≤ 8) × (at < 4294900000) }
    ensures { Stored out.old at (shown (error_of numbers.now)) out.new result × (result ≤ at + 219) }
{
    let mut text = [32u8; 73];
    put_kind(&mut text, numbers[0]);
    put_digits(&mut text, 36, numbers[1]);
    let to = 4 + numbers[3] as usize;
    let end = three_on(4, to);
    let next = put_line(&mut text, &numbers[4..end], out, at);
    put_continued(numbers, end, to, out, next)
}

// A warning's line.
pub fn put_warning_line(out: &mut [u8], at: usize, span: u32, offset: u32) -> usize
    requires { at < 4294900000 }
    ensures { Stored out.old at (shown (warning span offset)) out.new result × (result ≡ at + 73) }
{
    let others = [offset];
    put_first(out, at, b"unused result", span, &others)
}

// What the line of a left-behind entry begins with, in blank text: the same for all that a return, a break or a continue leaves behind.
pub fn begin_left(text: &mut [u8; 73], span: u32)
    requires { text.old ≡ blanks 73 }
    ensures { text.new ≡ left_begin span }
{
    put_name(text, b"left behind");
    put_digits(text, 36, span);
}

// A left-behind entry's line, from what it begins with.
pub fn put_left_line(text: &[u8; 73], out: &mut [u8], at: usize, name: u32, born: u32) -> usize
    requires { at < 4294900000 }
    ensures { ((span : ℕ) → text.now ≡ left_begin span → Stored out.old at (shown (left span name born)) out.new result) × (result ≡ at + 73) }
{
    if out.len() <= at {
        return at + 73;
    }
    let mut whole = *text;
    let others = [name, born];
    put_line(&mut whole, &others, out, at)
}
