//! The search for the coarsest right partition of a chain, with the test of what it finds.

ghost use Rattle.std.specs.Prelude.{◌≡◌, ◌<◌, length, IfOk, OnOk, IfSome, IfNone};
ghost use Rattle.lift_lump.specs.Splitting.{AreFew};
ghost use Rattle.lift_lump.specs.Finding.{IsAtWork, IsFound};

use crate::arrows::{Arrow, arrows_of};
use crate::compared::{Compared, Quotient, rows_of};
use crate::laws::coarsest_is_one;
use crate::lists::Lists;
use crate::numbered::Numbered;
use crate::partition::Partition;
use crate::split::{Room, search, split_off};
use crate::sums::Sums;
use lift_model::Model;
use lift_poly::coefficients_determine;
use std::alloc::{AllocError, Global};

/// The point at which polynomials are weighed. Any will do.
const POINT: [u64; 16] = [
    0x1598d7c305fdf179,
    0x1174e356ac0504a5,
    0x0971d21df6466d5f,
    0x11cd301d651011cb,
    0x0d16b156d47a9a78,
    0x1c057fe531bfa6af,
    0x0a829ed606d002db,
    0x0ca6317e7b885975,
    0x0fa7b6e10d99ed20,
    0x18f42a5e60ca36fe,
    0x0acfbad383f614dc,
    0x1ba8c2ae6cd44f91,
    0x1bb2ff9c0131d9b6,
    0x1bd6456b9059e86a,
    0x09b1d6b2c8965f78,
    0x0fbb56d6edb6ce2f,
];

/// What the search works on.
#[derive(Drop)]
pub struct Work {
    /// The arrows of the chain.
    pub arrows: Lists<Arrow>,
    /// The blocks so far.
    pub part: Partition,
    /// What a split writes down.
    pub room: Room,
    /// The label of the first block that wasn't taken yet.
    pub next: u32,
}

impl Work {
    /// The search at its beginning.
    fn new(alloc: Global, model: &Model) -> Result<Work, AllocError>
        ensures { IfOk result (IsAtWork model.now) }
    {
        Ok(Work {
            arrows: arrows_of(alloc, &POINT, model)?,
            part: Partition::start(alloc, model)?,
            room: Room::new(alloc, model.states() as usize)?,
            next: 0,
        })
    }

    /// Searches, and tests exactly what is found. States that differ from the least ones of their blocks, which no
    /// mark told apart, get blocks of their own by their rows, and the search has to go on.
    fn turn(&mut self, alloc: Global, model: &Model) -> Result<Option<Quotient>, AllocError>
        requires work { IsAtWork model.now self.old }
        ensures kept { OnOk result (IsAtWork model.now self.new) }
        ensures found { IfOk result (λ found. IfSome found (IsFound model.now)) }
        ensures few { OnOk result (AreFew self.new.part.labels.items (length self.new.part.members)) }
        ensures more { IfOk result (λ found. IfNone found (length self.old.part.members < length self.new.part.members)) }
    {
        coarsest_is_one();
        coefficients_determine();
        search(
            alloc,
            &self.arrows,
            &mut self.part,
            self.next,
            &mut self.room,
        )?;
        let labels = self.part.members.len();
        let blocks = Numbered::of(alloc, &self.part.labels, labels)?;
        let mut sums = Sums::new(alloc, blocks.firsts.len())?;
        let rows = rows_of(alloc, model, &blocks, &mut sums)?;
        let found = Quotient { blocks, rows };
        let compared = Compared::of(alloc, model, &found, &mut sums)?;
        if compared.different.is_empty() {
            return Ok(Some(found));
        }
        self.next = u32::try_from(labels).unwrap_or(u32::MAX);
        split_off(
            alloc,
            &mut self.part,
            &compared.numbers,
            &compared.different,
        )?;
        Ok(None)
    }
}

/// The coarsest right partition of a chain. Each turn of the search that doesn't end it adds labels.
pub(crate) fn find_coarsest(alloc: Global, model: &Model) -> Result<Quotient, AllocError>
    ensures { IfOk result (IsFound model.now) }
{
    let mut work = Work::new(alloc, model)?;
    loop {
        if let Some(found) = work.turn(alloc, model)? {
            return Ok(found);
        }
    }
}
