// The scope stack of the ownership pass in two structs by value: locals, which only registrations change, and their states, which marks
// and joins change. The places of a state that has several stand in lent rows. Every operation equals its rule, through `view`.
#![tactic(auto)]

ghost use Rattle.std.specs.Prelude.{◌≡◌, ℕ, ◌-◌, ◌^◌, ◌<◌, ◌≤◌, Bool, false, cond, not, ◌&&◌, [], ◌∷◌, length, ◌==◌, nat_le, slice_index};
ghost use Rattle.tables.specs.Tables.{Tables};
ghost use Rattle.rules.specs.State.{State as Status};
ghost use Rattle.scope_state.specs.Kinds.{said, put};
ghost use Rattle.scope_stack.specs.declared.Locals.{Locals};
ghost use Rattle.scope_stack.specs.declared.States.{States};
ghost use Rattle.scope_stack.specs.Word.{slot, word_at, Top, Newest};
ghost use Rattle.scope_stack.specs.View.{stacked, static_at, depth_of, Kept, Held, Drops, Grows, Marks, Named, Leaves, mark_of};

use scope_state::{Births, Depths, Firsts, Kinds, Names, Types};

// The locals registered, oldest first: the first count of each array. A birth is the span of the statement that registered the local, 0 for
// a parameter or `this`. A bit of dtors for each whose type has a destructor. Arrays, and by value: document 01, "Choosing the form by place".
#[derive(Clone, Copy, PartialEq, Eq)]
pub struct Locals {
    pub count: usize,
    pub names: Names,
    pub types: Types,
    pub depths: Depths,
    pub births: Births,
    pub dtors: u64,
}

// Their states: kind 0 Alive, 1 to 6 the error that a use reports, with one place, and 8 more where a row has the places. A bit of alive
// for each that is Alive; what is past the locals is Alive.
#[derive(Clone, Copy, PartialEq, Eq)]
pub struct States {
    pub kinds: Kinds,
    pub firsts: Firsts,
    pub alive: u64,
}

// A state of States.
#[derive(Clone, Copy)]
pub struct Entry {
    pub kind: u8,
    pub first: u32,
}

// The depth of the newest local of a name, or 0.
fn frame_of(l: &Locals, name: u16) -> u8
    requires { l.now.count ≤ 64 }
    ensures { (g : ℕ → Status) → result ≡ depth_of name (stacked l.now.count (static_at l.now) g) }
{
    match scope_state::find_local(&l.names, l.count, name) {
        Some(i) => l.depths[i],
        None => 0,
    }
}

// Whether a local of the name a, depth d and this kind is marked where the frame of that depth marks a name.
fn is_marked(a: u16, name: u16, d: u8, depth: u8, only_alive: bool, kind: u8) -> bool
    ensures { result ≡ ((a == name && d == depth) && not (only_alive && not (kind == 0))) }
{
    a == name && d == depth && (!only_alive || kind == 0)
}

fn bit(i: usize) -> u64
    requires { i < 64 }
    ensures { result ≡ 2 ^ i }
{
    1u64 << i
}

// The word with bit i set or cleared.
pub fn with_bit(w: u64, i: usize, on: bool) -> u64
    requires { i < 64 }
    ensures { (k : ℕ) (p : ℕ → Bool) → w ≡ word_at k 64 p → result ≡ word_at k 64 (λ j. cond (j == slot k i) «on» (p j)) }
{
    let b = bit(i);
    if on {
        w | b
    } else {
        w & (18446744073709551615 - b)
    }
}

// The highest set bit: the newest local that a word marks.
pub fn newest(m: u64) -> usize
    requires { 0 < m }
    ensures { Top m result × ((k n : ℕ) (p : ℕ → Bool) → m ≡ word_at k n p → Newest k n p m result) }
{
    (63 - u64::leading_zeros(m)) as usize
}

// The word without its highest set bit.
pub fn without(m: u64, j: usize) -> u64
    requires { (j < 64) × (2 ^ j ≤ m) }
    ensures { result ≡ m - 2 ^ j }
{
    m - bit(j)
}

// Whether a word marks a local.
pub fn has_bit(w: u64, i: usize) -> bool
    requires { i < 64 }
    ensures { (k n : ℕ) (p : ℕ → Bool) → i < n → w ≡ word_at k n p → result ≡ p (slot k i) }
{
    w & bit(i) != 0
}

// The mark of a stack.
pub fn mark_of(alive: u64, dtors: u64) -> u64
    ensures { (l : Locals) (t : States) → alive ≡ t.alive → dtors ≡ l.dtors → result ≡ mark_of l t }
{
    alive & dtors
}

// The bits of a word from base on.
pub fn since(w: u64, base: usize) -> u64
    requires { base ≤ 64 }
    ensures { (k n : ℕ) (p : ℕ → Bool) → n ≤ 64 → w ≡ word_at k n p → result ≡ word_at k n (λ i. nat_le (slot k base) i && p i) }
{
    if base == 64 {
        return 0;
    }
    (18446744073709551615 - (bit(base) - 1)) & w
}

impl Locals {
    pub fn new() -> Locals
        ensures { Kept result × (result.count ≡ 0) × ((T : Tables) → Drops T result) }
    {
        Locals {
            count: 0,
            names: [0; 64],
            types: [0; 64],
            depths: [0; 64],
            births: [0; 64],
            dtors: 0,
        }
    }

    // One local more; its state, past the locals, is Alive already.
    pub fn register_local(mut self, name: u16, ty: u16, depth: u8, born: u32, dtor: bool) -> Locals
        requires { Kept self × (self.count < 64) }
        ensures { Grows self (record { name = name; ty = ty; depth = depth; born = born }) dtor result }
    {
        let n = self.count;
        self.names[n] = name;
        self.types[n] = ty;
        self.depths[n] = depth;
        self.births[n] = born;
        self.count = n + 1;
        if dtor {
            self.dtors = self.dtors + bit(n);
        }
        self
    }
}

impl States {
    pub fn new() -> States
        ensures { Held result × ((i : ℕ) → slice_index result.kinds i ≡ 0) }
    {
        States {
            kinds: [0; 64],
            firsts: [0; 64],
            alive: 18446744073709551615,
        }
    }

    // The innermost frame that has the name gives its locals of the name a state; where `only_alive`, those that live.
    pub fn mark(mut self, l: &Locals, name: u16, kind: u8, place: u32, only_alive: bool) -> States
        requires { Held self × (l.now.count ≤ 64) × (kind < 7) }
        ensures { Held result × Marks l.now name (put only_alive (said kind (place ∷ []))) self result
            × ((k : Locals) → k.names ≡ l.now.names → k.depths ≡ l.now.depths → k.count ≡ l.now.count → Marks k name (put only_alive (said kind (place ∷ []))) self result) }
    {
        let depth = frame_of(l, name);
        for at in 0..l.count {
            if is_marked(
                l.names[at],
                name,
                l.depths[at],
                depth,
                only_alive,
                self.kinds[at],
            ) {
                self.kinds[at] = kind;
                self.firsts[at] = place;
                self.alive = with_bit(self.alive, at, kind == 0);
            }
        }
        self
    }

    // The end of a block: the first n of m locals are left, and the slots of the others Alive again.
    pub fn leave(mut self, n: usize, m: usize) -> States
        requires { Held self × (n ≤ m) × (m ≤ 64) }
        ensures { Leaves n m self result }
    {
        for i in n..m {
            self.kinds[i] = 0;
            self.firsts[i] = 0;
            self.alive = with_bit(self.alive, i, true);
        }
        self
    }
}

// Whether some local of the name in the frame of a depth is not Alive: then its registration marks it Alive.
pub fn needs_revival(l: &Locals, alive: u64, name: u16, depth: u8) -> bool
    ensures { (p : ℕ → Bool) → alive ≡ word_at 0 64 p → result ≡ false → (i : ℕ) → i < 64 → p i ≡ false → Named l.now.names l.now.depths name depth i → ⊥ }
{
    let mut m = 18446744073709551615 - alive;
    while 0 < m {
        let k = newest(m);
        if l.names[k] == name && l.depths[k] == depth {
            return true;
        }
        m = without(m, k);
    }
    false
}
