//! Blocks, numbered by their least states.

ghost use Rattle.std.specs.Prelude.{◌≡◌, ◌<◌, ◌^◌, ℕ, suc, List, All, length, IfOk, OnOk};
ghost use Rattle.lift_lump.specs.Quotient.{AreNumbered};
ghost use Rattle.lift_lump.specs.Search.{number_at};
ghost use Rattle.lift_lump.specs.Splitting.{AreNumberedSo, AreSameBlocks};

use std::alloc::{AllocError, Global};

/// Blocks, numbered by their least states.
#[derive(Drop)]
pub struct Numbered {
    /// The block of each state.
    pub of_states: Vec<u32>,
    /// The least state of each block.
    pub firsts: Vec<u32>,
}

impl Numbered {
    /// Adds a state of that label, the numbers of labels being those of the blocks so far.
    fn add(&mut self, names: &mut [Option<u32>], label: u32) -> Result<(), AllocError>
        requires label { label < length names.old }
        requires few { length self.old.of_states.items < 2 ^ 32 }
        requires firsts { length self.old.firsts.items < 2 ^ 32 }
        ensures { (labels : List ℕ) → number_at labels (length self.old.of_states.items) ≡ label
            → AreNumberedSo labels (length self.old.of_states.items) names.old self.old.of_states.items self.old.firsts.items
            → OnOk result (AreNumberedSo labels (suc (length self.old.of_states.items)) names.new self.new.of_states.items self.new.firsts.items) }
    {
        if let Some(block) = names[label as usize] {
            self.of_states.push(block)?;
            return Ok(());
        }
        let block = self.firsts.len() as u32;
        let s = self.of_states.len() as u32;
        names[label as usize] = Some(block);
        self.firsts.push(s)?;
        self.of_states.push(block)?;
        Ok(())
    }

    /// The blocks that so many labels tell apart.
    pub(crate) fn of(alloc: Global, labels: &[u32], count: usize) -> Result<Numbered, AllocError>
        requires few { length labels.now < 2 ^ 32 }
        requires labels { All (λ l. l < count) labels.now }
        ensures numbered { IfOk result (λ b. AreNumbered (length labels.now)
            (record { of_states = b.of_states.items; firsts = b.firsts.items })) }
        ensures reported { IfOk result (λ b. AreSameBlocks labels.now b.of_states.items) }
    {
        let mut blocks = Numbered {
            of_states: Vec::with_capacity(alloc, labels.len())?,
            firsts: Vec::new(alloc),
        };
        let mut names = vec![in alloc; None; count]?;
        for label in labels {
            blocks.add(&mut names, *label)?;
        }
        Ok(blocks)
    }
}
