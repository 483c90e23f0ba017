// The state of a local: its kind and its places, and the join of two. Every operation equals its rule, through `listed` and `state_of`.
#![tactic(auto)]

ghost use Rattle.std.specs.Prelude.{◌≡◌, cond, [], ◌∷◌, ◌++◌, ◌≤◌, ◌<◌, ◌==◌, eqb, length};
ghost use Rattle.scope_state.specs.Kinds.{said, base_of, conditional as conditional_of, family as family_of};
ghost use Rattle.scope_state.specs.Locals.{Finds};

use image_fields::wide;

// A number for each local; how many a stack may have stands here alone.
pub type Names = [u16; 64];

pub type Types = [u16; 64];

pub type Depths = [u8; 64];

pub type Births = [u32; 64];

pub type Kinds = [u8; 64];

pub type Firsts = [u32; 64];

// Where a name was given up: the first count of the list.
#[derive(Clone, Copy)]
pub struct Places {
    pub count: u8,
    pub list: [u32; 8],
    ghost few: { count ≤ 8 },
}

// The state of a name: 0 Alive, which has no places, else the kind of error that a use of it reports.
#[derive(Clone, Copy, PartialEq)]
pub struct State {
    pub kind: u8,
    pub places: Places,
    ghost known: { kind < 7 },
    ghost given: { eqb kind 0 ≡ eqb places.count 0 },
}

// The number of the newest local of a name.
pub fn find_local(names: &Names, count: usize, name: u16) -> Option<usize>
    requires { count ≤ 64 }
    ensures { Finds names.now count name result }
{
    for i in (0..count).rev() {
        if names[i] == name {
            return Some(i);
        }
    }
    None
}

impl PartialEq for Places {
    ghost use Rattle.std.proofs.Common.{rules};
    ghost use Rattle.std.specs.Cmp.Rules.{comparing};
    ghost use Rattle.std.specs.Ordering.{on};
    ghost use Rattle.std.specs.Cmp.Lexicographic.{pointwise};
    ghost use Rattle.scope_state.specs.View.{listed};

    ghost eq = { on listed (pointwise ◌==◌) };

    ghost laws = { Prim.search (comparing, rules) };

    fn eq(&self, other: &Places) -> bool {
        self.as_slice() == other.as_slice()
    }
}

impl Places {
    ghost use Rattle.image_fields.specs.Table.{member};
    ghost use Rattle.rules.specs.State.{combine as combined};
    ghost use Rattle.scope_state.specs.View.{listed, Fits};

    pub fn none() -> Places
        ensures { (listed result ≡ []) × (result.count ≡ 0) }
    {
        Places {
            count: 0,
            list: [0; 8],
        }
    }

    pub fn of(places: &[u32]) -> Places
        requires { length places.now ≤ 8 }
        ensures { listed result ≡ places.now }
    {
        let mut list = [0; 8];
        list[..places.len()].copy_from_slice(places);
        Places {
            count: places.len() as u8,
            list: list,
        }
    }

    pub fn as_slice(&self) -> &[u32]
        ensures { result.now ≡ listed self.now }
    {
        &self.list[..wide(self.count)]
    }

    // One place more, unless it is there. None: it is the 9th.
    fn add(mut self, place: u32) -> Option<Places>
        ensures { Fits result (cond (member eqb (listed self) place) (listed self) (listed self ++ (place ∷ []))) }
    {
        if self.as_slice().contains(&place) {
            return Some(self);
        }
        if self.count == 8 {
            return None;
        }
        self.list[wide(self.count)] = place;
        self.count += 1;
        Some(self)
    }

    // combine_spans: these places, then the other's new ones. None: a 9th place.
    fn combine(self, other: Places) -> Option<Places>
        ensures { Fits result (combined (listed self) (listed other)) }
    {
        let mut out = self;
        for p in other.as_slice() {
            out = out.add(*p)?;
        }
        Some(out)
    }
}

// The number of the same kind, surely.
fn base(kind: u8) -> u8
    ensures { result ≡ base_of kind }
{
    if 3 < kind { kind - 3 } else { kind }
}

// conditionalize_state
fn conditional(kind: u8) -> u8
    requires { kind < 7 }
    ensures { result ≡ conditional_of kind }
{
    match kind {
        0 => 0,
        1..=3 => kind + 3,
        _ => kind,
    }
}

// Of two states of one family that family's number, under a condition if both are and so asked; else that of Consumed.
fn family(a: u8, b: u8, keeps: bool) -> u8
    ensures { result ≡ family_of «keeps» a b }
{
    let x = base(a);
    if x != base(b) {
        return 3;
    }
    if keeps && 3 < a && 3 < b { a } else { x }
}

impl State {
    ghost use Rattle.rules.specs.State.{alive, join_state};
    ghost use Rattle.scope_state.specs.View.{state_of, Joins};

    pub fn alive() -> State
        ensures { state_of result ≡ alive }
    {
        State {
            kind: 0,
            places: Places::none(),
        }
    }

    // Given up at one place.
    pub fn at(kind: u8, place: u32) -> State
        requires { (0 < kind) × (kind < 7) }
        ensures { state_of result ≡ said kind (place ∷ []) }
    {
        State {
            kind: kind,
            places: Places::of(&[place]),
        }
    }

    // merge_join_state: the state after two branches, this one then's; two conditional ones of a family keep it, if so asked. None: a 9th place.
    pub fn join(self, other: State, keeps: bool) -> Option<State>
        ensures { Joins result (join_state «keeps» (state_of self) (state_of other)) }
    {
        if self.kind == 0 {
            return Some(State {
                kind: conditional(other.kind),
                places: other.places,
            });
        }
        if other.kind == 0 {
            return Some(State {
                kind: conditional(self.kind),
                places: self.places,
            });
        }
        if self == other {
            return Some(self);
        }
        let places = self.places.combine(other.places)?;
        Some(State {
            kind: family(self.kind, other.kind, keeps),
            places: places,
        })
    }
}
