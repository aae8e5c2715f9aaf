ghost use Rattle.std.specs.Prelude.{◌≡◌, ◌<◌, false, length, map, slice_index_or};
ghost use Rattle.lift_model.specs.Model.{choices, row_at, choices_support, live, union};
ghost use Rattle.lift_model.specs.Valid.{IsModel, IsRow};

use crate::kind::Kind;
use crate::row::{Row, choices_support};
use lift_names::Names;

/// A parametric Markov model: its kind, its common denominator, its parameters, its goal states, its
/// initial state, and for each state its choices. The probability of an entry is its polynomial over
/// the common denominator.
///
/// States are numbered from 0, and so are the choices of a state. There are from 1 to 65,536 states, at
/// least one of them a goal state, at most 131,072 choices, at least one for each state and exactly one
/// in a chain, at most 262,144 entries, and at most 16 parameters. The denominator is from 1 to
/// 2^62 - 1, and each coefficient's size is below 2^100. The targets of a row are states and distinct.
#[derive(Drop)]
pub struct Model {
    kind: Kind,
    common: i64,
    names: Names,
    goal: Vec<bool>,
    init: u32,
    states: Vec<Vec<Row>>,
    live: u16,
}

impl std::marker::Model for Model {
    ghost use Rattle.std.specs.Prelude.{◌≡◌, map};
    ghost use Rattle.lift_model.specs.Model.{ModelData, choices_support, union};
    ghost use Rattle.lift_model.specs.Valid.{IsModel, IsRow};

    ghost Value = { ModelData };

    ghost view = { λ m. record {
      kind = m.kind;
      common = m.common;
      names = m.names;
      goal = m.goal.items;
      init = m.init;
      states = map (λ v. v.items) m.states.items;
    } };

    ghost invariant = { λ m. IsModel (record {
      kind = m.kind;
      common = m.common;
      names = m.names;
      goal = m.goal.items;
      init = m.init;
      states = map (λ v. v.items) m.states.items;
    }) × (m.live ≡ union (map choices_support (map (λ v. v.items) m.states.items))) };
}

/// The set of the parameters that occur in some row of these states.
fn live_of(states: &[Vec<Row>]) -> u16
    ensures { result ≡ union (map choices_support (map (λ v. v.items) states.now)) }
{
    let mut set = 0;
    for choices in states {
        set |= choices_support(choices);
    }
    set
}

impl Model {
    /// The model of these parts, `c` being the common denominator. Takes no memory, and is linear in the number of
    /// choices.
    pub fn new(
        kind: Kind,
        c: i64,
        names: Names,
        goal: Vec<bool>,
        init: u32,
        states: Vec<Vec<Row>>,
    ) -> Self
        requires { IsModel (record {
          kind = kind;
          common = c;
          names = names;
          goal = goal.items;
          init = init;
          states = map (λ v. v.items) states.items;
        }) }
        ensures { result ≡ record {
          kind = kind;
          common = c;
          names = names;
          goal = goal.items;
          init = init;
          states = map (λ v. v.items) states.items;
        } }
    {
        let live = live_of(&states);
        Model {
            kind,
            common: c,
            names,
            goal,
            init,
            states,
            live,
        }
    }

    /// Whether each state has exactly one choice.
    pub fn kind(&self) -> Kind
        ensures { result ≡ self.now.kind }
    {
        self.kind
    }

    /// The common denominator of all probabilities.
    pub fn common(&self) -> i64
        ensures value { result ≡ self.now.common }
        ensures model { IsModel self.now }
    {
        self.common
    }

    /// The names of the parameters, in declared order.
    pub fn names(&self) -> &Names
        ensures value { result.now ≡ self.now.names }
        ensures model { IsModel self.now }
    {
        &self.names
    }

    /// Whether the state is a goal state.
    pub fn is_goal(&self, s: u32) -> bool
        requires { s < length self.now.states }
        ensures { result ≡ slice_index_or self.now.goal s false }
    {
        self.goal[s as usize]
    }

    /// The initial state.
    pub fn init(&self) -> u32
        ensures value { result ≡ self.now.init }
        ensures model { IsModel self.now }
    {
        self.init
    }

    /// The number of states.
    pub fn states(&self) -> u32
        ensures value { result ≡ length self.now.states }
        ensures model { IsModel self.now }
    {
        self.states.len() as u32
    }

    /// The number of choices of the state.
    pub fn choices(&self, s: u32) -> u32
        requires { s < length self.now.states }
        ensures { result ≡ length (choices self.now s) }
    {
        self.states[s as usize].len() as u32
    }

    /// The row of the state's choice of that number.
    pub fn row(&self, s: u32, a: u32) -> &Row
        requires state { s < length self.now.states }
        requires choice { a < length (choices self.now s) }
        ensures value { result.now ≡ row_at self.now s a }
        ensures valid { IsRow (length self.now.states) (length self.now.names) result.now }
        ensures model { IsModel self.now }
    {
        &self.states[s as usize][a as usize]
    }

    /// The set of the parameters that occur in some row, also of a goal state.
    pub fn live(&self) -> u16
        ensures { result ≡ live self.now }
    {
        self.live
    }
}
