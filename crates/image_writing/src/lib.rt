// Stores into lent memory as far as it reaches, and counts everything: with memory of length 0 it measures.
#![tactic(auto)]

ghost use Rattle.std.specs.Prelude.{[], ◌∷◌, ◌++◌, ◌+◌, ◌-◌, ◌≤◌, ◌<◌, length};
ghost use Rattle.std.proofs.Math.Seq.{slice};
ghost use Rattle.image_fields.specs.Bytes.{two_bytes, four_bytes};
ghost use Rattle.image_encoding.specs.Body.{encode_expr};
ghost use Rattle.rules.specs.Report.{delete_node, ident_node};
ghost use Rattle.image_writing.specs.Stored.{Stored};

// A byte, a number or any other element.
pub fn put<T: Copy>(out: &mut [T], at: usize, x: T) -> usize
    requires { at < 4294967296 }
    ensures { Stored out.old at (x ∷ []) out.new result }
{
    if at < out.len() {
        out[at] = x;
    }
    at + 1
}

// A number of two bytes.
pub fn put_two(out: &mut [u8], at: usize, n: u16) -> usize
    requires { at < 4294967295 }
    ensures { Stored out.old at (two_bytes n) out.new result }
{
    let next = put(out, at, (n / 256) as u8);
    put(out, next, (n % 256) as u8)
}

// A number of four bytes.
// As put_two on its parts: each stands on the shorter one, and a function of part and base would be no plainer.
pub fn put_four(out: &mut [u8], at: usize, n: u32) -> usize
    requires { at < 4294967290 }
    ensures { Stored out.old at (four_bytes n) out.new result }
{
    let next = put_two(out, at, (n / 65536) as u16);
    put_two(out, next, (n % 65536) as u16)
}

// The bytes of the image from a position up to another.
pub fn copy_bytes(s: &[u8], from: usize, to: usize, out: &mut [u8], at: usize) -> usize
    requires { (from ≤ to) × (to ≤ length s.now) × (length s.now ≤ 65536) × (at < 4294967296) }
    ensures { Stored out.old at (slice from to s.now) out.new result }
{
    let many = to - from;
    let fit = many.min(image_fields::room(out, at));
    if at < out.len() {
        out[at..at + fit].copy_from_slice(&s[from..from + fit]);
    }
    at + many
}

// The head of a Delete, of type 0.
pub fn put_delete_head(out: &mut [u8], at: usize, span: u32) -> usize
    requires { at < 4294967280 }
    ensures { Stored out.old at (10 ∷ (four_bytes span ++ two_bytes 0)) out.new result }
{
    let tagged = put(out, at, 10);
    let spanned = put_four(out, tagged, span);
    put_two(out, spanned, 0)
}

// delete_stmt_for: the statement that deletes a local.
pub fn put_delete(out: &mut [u8], at: usize, span: u32, name: u16, ty: u16) -> usize
    requires { at < 4294967200 }
    ensures { Stored out.old at (3 ∷ (four_bytes span ++ encode_expr (delete_node span (ident_node span ty name)))) out.new result }
{
    let tagged = put(out, at, 3);
    let spanned = put_four(out, tagged, span);
    let child = put_delete_head(out, spanned, span);
    let ident = put(out, child, 1);
    let place = put_four(out, ident, span);
    let typed = put_two(out, place, ty);
    put_two(out, typed, name)
}

// A number of a list.
pub fn put_number(list: &mut [u32], at: usize, n: u32) -> usize
    requires { at < 4294967296 }
    ensures { Stored list.old at (n ∷ []) list.new result }
{
    put(list, at, n)
}

// An entry of two numbers.
pub fn put_pair(list: &mut [u32], at: usize, a: u32, b: u32) -> usize
    requires { at < 4294967200 }
    ensures { Stored list.old at (a ∷ b ∷ []) list.new result }
{
    let next = put(list, at, a);
    put(list, next, b)
}

// An entry of three numbers.
// On put_pair: nothing is said twice.
pub fn put_triple(list: &mut [u32], at: usize, a: u32, b: u32, c: u32) -> usize
    requires { at < 4294967100 }
    ensures { Stored list.old at (a ∷ b ∷ c ∷ []) list.new result }
{
    let next = put_pair(list, at, a, b);
    put(list, next, c)
}
