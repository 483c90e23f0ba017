// Text that the programs print: words, and numbers in decimals, stored into lent memory as far as it reaches.
#![tactic(auto)]

ghost use Rattle.std.specs.Prelude.{◌≡◌, [], ◌∷◌, ◌+◌, ◌≤◌, ◌<◌, length};
ghost use Rattle.image_writing.specs.Stored.{Stored};
ghost use Rattle.programs_text.specs.Text.{refused_word, spell, line};

// The decimal digits of a number of at most `more` + 1.
fn put_digits(out: &mut [u8], at: usize, n: u64, more: usize) -> usize
    requires { at + more < 4294967296 }
    ensures { Stored out.old at (spell more n) out.new result × (result ≤ at + more + 1) }
{
    if more == 0 {
        return image_writing::put(out, at, (48 + n % 10) as u8);
    }
    if n < 10 {
        return image_writing::put(out, at, (48 + n) as u8);
    }
    let next = put_digits(out, at, n / 10, more - 1);
    image_writing::put(out, next, (48 + n % 10) as u8)
}

// A blank and a number.
pub fn put_number(out: &mut [u8], at: usize, n: u64) -> usize
    requires { at < 4294960000 }
    ensures { Stored out.old at (32 ∷ spell 19 n) out.new result × (result ≤ at + 21) }
{
    let next = image_writing::put(out, at, 32);
    put_digits(out, next, n, 19)
}

// A word or a line's end.
pub fn put_text(out: &mut [u8], at: usize, text: &[u8]) -> usize
    requires { (at < 4294967296) × (length text.now ≤ 16) }
    ensures { Stored out.old at text.now out.new result × (result ≡ at + length text.now) }
{
    image_writing::copy_bytes(text, 0, text.len(), out, at)
}

// The line of a fault, in front.
// The fault is a number: its clause is said of every byte.
pub fn put_refused(out: &mut [u8], fault: u8) -> usize
    ensures { Stored out.old 0 (line refused_word (fault ∷ [])) out.new result × (result ≤ 100) }
{
    let named = put_text(out, 0, b"refused");
    let told = put_number(out, named, fault as u64);
    put_text(out, told, b"\n")
}
