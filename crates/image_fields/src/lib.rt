// Numbers in bytes, and the answers of a reader.
#![tactic(auto)]

ghost use Rattle.std.specs.Prelude.{◌≡◌, ℕ, ◌+◌, ◌-◌, ◌*◌, ◌≤◌, ◌<◌, length, get_or, eqb};
ghost use Rattle.image_fields.specs.Number.{two, four, number_in, field_at};
ghost use Rattle.image_fields.specs.Table.{member, entries};
ghost use Rattle.image_fields.specs.Fault.{fault_number, coded};
ghost use Rattle.image_fields.specs.Answer.{number_of, number_or};

// Why an image is refused.
#[derive(Clone, Copy, Debug, PartialEq, Eq)]
pub enum Fault {
    Length = 1,
    Version = 2,
    Names = 3,
    Types = 4,
    Structs = 5,
    Globals = 6,
    Entry = 7,
    Body = 8,
    Depth = 9,
    BytesLeft = 10,
    GenericReceiver = 11,
    Locals = 12,
    Places = 13,
    Lists = 14,
    Output = 15,
    Page = 16,
    Switches = 17,
}

impl From<Fault> for u8 {
    ghost from_gives = { λ f n. n ≡ fault_number f };

    #[tactic(auto, using(crate::proofs::Faults::numbered))]
    fn from(f: Fault) -> u8
        ensures { result ≡ fault_number f }
    {
        f as u8
    }
}

impl From<Fault> for u32 {
    ghost from_gives = { λ f n. n ≡ fault_number f };

    #[tactic(auto, using(crate::proofs::Faults::numbered))]
    fn from(f: Fault) -> u32
        ensures { result ≡ fault_number f }
    {
        f as u32
    }
}

impl From<Fault> for u64 {
    ghost from_gives = { λ f n. n ≡ fault_number f };

    #[tactic(auto, using(crate::proofs::Faults::numbered))]
    fn from(f: Fault) -> u64
        ensures { result ≡ fault_number f }
    {
        f as u64
    }
}

// The position after what was read.
pub type Read = Result<usize, Fault>;

// A number and the position after it.
pub type Number = Result<(usize, usize), Fault>;

pub fn wide(x: u8) -> usize
    ensures { (result ≡ x) × (result < 256) }
{
    usize::from(x)
}

pub fn wide16(x: u16) -> usize
    ensures { result ≡ x }
{
    usize::from(x)
}

// A cast: std has no `From` of a u32 for it.
pub fn wide32(x: u32) -> usize
    ensures { result ≡ x }
{
    x as usize
}

// How many bytes there are from a position on.
pub fn room(s: &[u8], at: usize) -> usize
    ensures { result ≡ length s.now - at }
{
    s.len().saturating_sub(at)
}

// A byte, or 0 past the end.
pub fn peek(s: &[u8], at: usize) -> usize
    ensures { (result ≡ get_or s.now at 0) × (result < 256) }
{
    if at < s.len() { usize::from(s[at]) } else { 0 }
}

// Two bytes, or 0 for what is past the end.
pub fn peek_two(s: &[u8], at: usize) -> usize
    requires { at < length s.now + 16 }
    ensures { (result ≡ two s.now at) × (result < 65536) }
{
    peek(s, at) * 256 + peek(s, at + 1)
}

// The big-endian number in two bytes.
pub fn two_at(s: &[u8], at: usize) -> usize
    requires { 2 ≤ length s.now - at }
    ensures { (result ≡ two s.now at) × (result < 65536) }
{
    usize::from(s[at]) * 256 + usize::from(s[at + 1])
}

// The big-endian number in four bytes.
// As two_at on its parts: a function of part and base would be no plainer.
pub fn four_at(s: &[u8], at: usize) -> usize
    requires { 4 ≤ length s.now - at }
    ensures { (result ≡ four s.now at) × (result < 4294967296) }
{
    two_at(s, at) * 65536 + two_at(s, at + 2)
}

// The number in k bytes, k being 1, 2 or 4; otherwise 0.
fn number_in(s: &[u8], k: usize, at: usize) -> usize
    requires { k ≤ length s.now - at }
    ensures { result ≡ number_in s.now k at }
{
    match k {
        1 => usize::from(s[at]),
        2 => two_at(s, at),
        4 => four_at(s, at),
        _ => 0,
    }
}

// A number of k bytes, k being 0, 1, 2 or 4, below a limit, or what is said of one that is not.
pub fn field<E: Copy>(
    s: &[u8],
    fault: E,
    limit: usize,
    k: usize,
    at: usize,
) -> Result<(usize, usize), E>
    ensures { (n : ℕ) → result ≡ number_or fault (field_at n limit k s.now at) }
{
    if room(s, at) < k {
        return Err(fault);
    }
    let n = number_in(s, k, at);
    if n < limit {
        Ok((n, at + k))
    } else {
        Err(fault)
    }
}

// The same, or the fault.
pub fn read_field(s: &[u8], fault: Fault, limit: usize, k: usize, at: usize) -> Number
    ensures { coded result ≡ number_of (field_at (fault_number fault) limit k s.now at) }
{
    field(s, fault, limit, k, at)
}

// Whether x is the two-byte number at one of n positions, each `stride` bytes after the one before.
pub fn repeated_number(s: &[u8], stride: usize, n: usize, first: usize, x: usize) -> bool
    requires { first + stride * n ≤ length s.now }
    ensures { result ≡ member eqb (entries (two s.now) stride n first) x }
{
    let mut p = first;
    for _ in 0..n {
        if peek_two(s, p) == x {
            return true;
        }
        p += stride;
    }
    false
}
