// What a report says before its nodes, as it is read.
ghost use Rattle.std.specs.Prelude.{◌≡◌};
ghost use Rattle.line_text.specs.Follow.{Follows};
ghost use Rattle.corner_lift.specs.Case.{case_of};
ghost use Rattle.cert_text.specs.Forms.{IsHead};
ghost use Rattle.cert_text.specs.Head.{head_at, least_precision, version};

use crate::head_parts::parts_at;
use crate::precisions::Precisions;
use lift_base::{Lines, Source};
use lift_cert::Bound;
use lift_grid::{Grid, Rect};
use lift_model::Model;
use line_text::FileError;
use std::alloc::Global;

/// The head of a report: its model, root, grid, precisions and bound.
#[derive(Drop)]
pub struct Head {
    model: Model,
    root: Rect,
    grid: Grid,
    precisions: Precisions,
    bound: Bound,
}

impl std::marker::Model for Head {
    ghost use Rattle.corner_lift.specs.Case.{case_of};
    ghost use Rattle.cert_text.specs.Head.{HeadData};
    ghost use Rattle.cert_text.specs.Forms.{IsHead};

    ghost Value = { HeadData };

    ghost view = { λ h. record {
      asked = case_of h.model (record { d = h.grid.d; depth = h.grid.depth; spans = h.root }) h.precisions.w;
      from = h.precisions.from;
      bound = h.bound;
    } };

    ghost invariant = { λ h. IsHead (record {
      asked = case_of h.model (record { d = h.grid.d; depth = h.grid.depth; spans = h.root }) h.precisions.w;
      from = h.precisions.from;
      bound = h.bound;
    }) };
}

impl Head {
    /// The head of these parts.
    pub(crate) fn new(
        model: Model,
        root: Rect,
        grid: Grid,
        precisions: Precisions,
        bound: Bound,
    ) -> Self
        requires { IsHead (record {
          asked = case_of model (record { d = grid.d; depth = grid.depth; spans = root }) precisions.w;
          from = precisions.from;
          bound = bound;
        }) }
        ensures { result ≡ record {
          asked = case_of model (record { d = grid.d; depth = grid.depth; spans = root }) precisions.w;
          from = precisions.from;
          bound = bound;
        } }
    {
        Head {
            model,
            root,
            grid,
            precisions,
            bound,
        }
    }

    /// The model.
    pub fn model(&self) -> &Model
        ensures { result.now ≡ self.now.asked.model }
    {
        &self.model
    }

    /// The root.
    pub fn root(&self) -> &Rect
        ensures { result.now ≡ self.now.asked.root }
    {
        &self.root
    }

    /// The grid, with the depth that was asked for.
    pub fn grid(&self) -> Grid
        ensures d { result.d ≡ self.now.asked.d }
        ensures depth { result.depth ≡ self.now.asked.depth }
    {
        self.grid
    }

    /// The precision; of a range the greatest one.
    pub fn w(&self) -> u32
        ensures value { result ≡ self.now.asked.w }
        ensures head { IsHead self.now }
    {
        self.precisions.w
    }

    /// The least precision of the range; in the first version the precision.
    pub fn from(&self) -> u32
        ensures { result ≡ least_precision self.now }
    {
        match self.precisions.from {
            Some(from) => from,
            None => self.precisions.w,
        }
    }

    /// The version of the report.
    pub fn version(&self) -> u32
        ensures { result ≡ version self.now }
    {
        match self.precisions.from {
            Some(_) => 2,
            None => 1,
        }
    }

    /// The least precision, where the report tells it.
    pub fn reported_from(&self) -> Option<u32>
        ensures { result ≡ self.now.from }
    {
        self.precisions.from
    }

    /// The bound.
    pub fn bound(&self) -> Bound
        ensures { result ≡ self.now.bound }
    {
        self.bound
    }
}

/// Reads the head of a report, whose first line is due.
pub fn read_head<S: Source>(
    alloc: Global,
    lines: &mut Lines,
    src: &mut S,
) -> Result<Head, FileError>
    ensures { Follows S.left S.faults (λ h. h) head_at lines.old lines.new src.old src.new result }
{
    let parts = parts_at(alloc, lines, src)?;
    Ok(parts.into_head())
}
