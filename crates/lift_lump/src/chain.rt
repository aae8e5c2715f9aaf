//! A chain's quotient by its coarsest right partition.

ghost use Rattle.std.specs.Prelude.{◌≡◌, ◌<◌, ◌↔◌, ℕ, All, length, map, IfOk, IsErrOf};
ghost use Rattle.lift_poly.specs.Polynomial.{Valuation};
ghost use Rattle.lift_model.specs.declared.kind.Kind.TheVariants.{Dtmc, Mdp};
ghost use Rattle.lift_model.specs.Model.{is_goal};
ghost use Rattle.lift_lump.specs.declared.error.LumpError.TheVariants.{NotChain, Wide};
ghost use Rattle.lift_lump.specs.Laws.{GoalsHaveEntries, HasSmallCoefficients};
ghost use Rattle.lift_lump.specs.Lumped.{IsLumped, IsWide};
ghost use Rattle.lift_lump.specs.Quotient.{block, hold};

use crate::coarsest::find_coarsest;
use crate::error::LumpError;
use crate::laws::{coarsest_is_one, quotients_are_models, quotients_hold};
use crate::numbered::Numbered;
use crate::small::are_small;
use lift_model::{Kind, Model};
use lift_names::Names;
use std::alloc::{AllocError, Global};

/// A chain's quotient by its coarsest right partition: states of equal behaviour are one state.
#[derive(Drop)]
pub struct Lumped {
    model: Model,
    blocks: Numbered,
}

impl std::marker::Model for Lumped {
    ghost use Rattle.lift_lump.specs.LumpedData.{LumpedData};
    ghost use Rattle.lift_lump.specs.Comparing.{blocks_of};

    ghost Value = { LumpedData };

    ghost view = { λ l. record { model = l.model; blocks = blocks_of l.blocks } };
}

impl Lumped {
    /// The quotient.
    pub fn model(&self) -> &Model
        ensures { result.now ≡ self.now.model }
    {
        &self.model
    }

    /// The block of a state.
    pub fn block(&self, s: u32) -> u32
        requires { s < length self.now.blocks.of_states }
        ensures { result ≡ block self.now.blocks s }
    {
        self.blocks.of_states[s as usize]
    }
}

/// The same names.
fn copied(alloc: Global, names: &Names) -> Result<Names, AllocError>
    ensures { IfOk result (λ copy. copy ≡ names.now) }
{
    let mut copy = Names::new(alloc);
    for i in 0..names.len() {
        copy.push(names.get(i))?;
    }
    Ok(copy)
}

/// Whether each of these states is a goal state.
fn goals_of(alloc: Global, model: &Model, states: &[u32]) -> Result<Vec<bool>, AllocError>
    requires { All (λ s. s < length model.now.states) states.now }
    ensures { IfOk result (λ goals. goals.items ≡ map (is_goal model.now) states.now) }
{
    let mut goals = Vec::with_capacity(alloc, states.len())?;
    for s in states {
        goals.push(model.is_goal(*s))?;
    }
    Ok(goals)
}

/// The quotient of a chain.
fn lump_chain(alloc: Global, model: &Model) -> Result<Lumped, LumpError>
    requires chain { model.now.kind ≡ Dtmc }
    requires goals { GoalsHaveEntries model.now }
    ensures chain { IsErrOf result NotChain → ⊥ }
    ensures lumped { IfOk result (IsLumped model.now) }
    ensures small { IfOk result (λ l. HasSmallCoefficients l.model) }
    ensures wide { IsErrOf result Wide → IsWide model.now }
{
    coarsest_is_one();
    quotients_are_models();
    let found = find_coarsest(alloc, model)?;
    if !are_small(&found.rows) {
        return Err(LumpError::Wide);
    }
    let goal = goals_of(alloc, model, &found.blocks.firsts)?;
    let names = copied(alloc, model.names())?;
    let init = found.blocks.of_states[model.init() as usize];
    let quotient = Model::new(Kind::Dtmc, model.common(), names, goal, init, found.rows);
    Ok(Lumped {
        model: quotient,
        blocks: found.blocks,
    })
}

/// The quotient of a chain by its coarsest right partition. `NotChain` exactly for a decision process, and `Wide`
/// exactly where a coefficient of the quotient has a size of 2^100 or more.
pub fn lump(alloc: Global, model: &Model) -> Result<Lumped, LumpError>
    requires goals { model.now.kind ≡ Dtmc → GoalsHaveEntries model.now }
    ensures chain { IsErrOf result NotChain ↔ (model.now.kind ≡ Mdp) }
    ensures lumped { IfOk result (IsLumped model.now) }
    ensures small { IfOk result (λ l. HasSmallCoefficients l.model) }
    ensures wide { IsErrOf result Wide → IsWide model.now }
    ensures hold { IfOk result (λ l. (v : Valuation) (n s : ℕ) → s < length model.now.states
        → hold l.model v n (block l.blocks s) ≡ hold model.now v n s) }
{
    quotients_hold();
    let _common = model.common();
    match model.kind() {
        Kind::Mdp => Err(LumpError::NotChain),
        Kind::Dtmc => {
            let lumped = lump_chain(alloc, model)?;
            Ok(lumped)
        }
    }
}
