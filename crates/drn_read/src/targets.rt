// The targets of a choice.
ghost use Rattle.std.specs.Prelude.{◌≡◌, ◌==◌, ◌≤◌, ◌++◌, ◌∷◌, [], ℕ, length, OnOk, OnErr};
ghost use Rattle.std.specs.List.{list_any};
ghost use Rattle.std.specs.Ordering.{nat_cmp};
ghost use Rattle.std.specs.BTreeSet.{contains};
ghost use Rattle.drn_read.specs.ModelSteps.{IsInSet, few_targets};

use std::alloc::{AllocError, Global};
use std::collections::BTreeSet;

/// How many targets at most are gone through one by one: `few_targets` in the definitions.
const FEW: usize = 16;

/// The targets of a choice in their order. Where there are many, they are found by a set of them.
#[derive(Drop)]
pub(crate) struct Targets {
    list: Vec<u128>,
    set: BTreeSet<u128>,
}

impl std::marker::Model for Targets {
    ghost use Rattle.std.specs.Prelude.{ℕ, List};
    ghost use Rattle.drn_read.specs.ModelSteps.{IsInSet};

    ghost Value = { List ℕ };

    ghost view = { λ t. t.list.items };

    ghost invariant = { λ t. IsInSet t.list.items t.set };
}

/// Makes the set that of these targets.
fn fill(set: &mut BTreeSet<u128>, targets: &[u128]) -> Result<(), AllocError>
    ensures { OnOk result ((q : ℕ) → contains nat_cmp set.new q ≡ list_any (λ t. t == q) targets.now) }
{
    set.clear();
    for target in targets {
        set.insert(*target)?;
    }
    Ok(())
}

/// Makes the set that of the targets so far, where these become many.
fn fill_first(set: &mut BTreeSet<u128>, targets: &[u128]) -> Result<(), AllocError>
    requires many { few_targets ≤ length targets.now }
    requires set { IsInSet targets.now set.old }
    ensures { OnOk result ((q : ℕ) → contains nat_cmp set.new q ≡ list_any (λ t. t == q) targets.now) }
{
    if targets.len() == FEW {
        fill(set, targets)?;
    }
    Ok(())
}

/// One more of many targets.
fn push_many(list: &mut Vec<u128>, set: &mut BTreeSet<u128>, target: u128) -> Result<(), AllocError>
    requires many { few_targets ≤ length list.old.items }
    requires set { IsInSet list.old.items set.old }
    ensures list { OnOk result (list.new.items ≡ list.old.items ++ target ∷ []) }
    ensures set { OnOk result (IsInSet list.new.items set.new) }
{
    fill_first(set, list)?;
    set.insert(target)?;
    list.push(target)?;
    Ok(())
}

impl Targets {
    /// There is no target yet. It takes no memory.
    pub fn new(alloc: Global) -> Self
        ensures { result ≡ [] }
    {
        Targets {
            list: Vec::new(alloc),
            set: BTreeSet::new(alloc),
        }
    }

    /// Whether this is one of them. One search.
    #[inline(always)]
    pub fn contains(&self, target: u128) -> bool
        ensures { result ≡ list_any (λ t. t == target) self.now }
    {
        if self.list.len() > FEW {
            return self.set.contains(&target);
        }
        self.list.iter().any(|known| *known == target)
    }

    /// There is no target any more.
    #[inline(always)]
    pub fn clear(&mut self)
        ensures { self.new ≡ [] }
    {
        self.list.clear();
    }

    /// One more target. Where memory is wanting, none may be left.
    #[inline(always)]
    pub fn push(&mut self, target: u128) -> Result<(), AllocError>
        ensures { OnOk result (self.new ≡ self.old ++ target ∷ []) }
    {
        if self.list.len() < FEW {
            self.list.push(target)?;
            return Ok(());
        }
        if let Err(error) = push_many(&mut self.list, &mut self.set, target) {
            self.list.clear();
            return Err(error);
        }
        Ok(())
    }
}
