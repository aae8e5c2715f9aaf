// A report's head and leaves.
ghost use Rattle.std.specs.Prelude.{◌≡◌, ◌≤◌};
ghost use Rattle.view_map.specs.Parts.{MapData};
ghost use Rattle.view_map.specs.Share.{leaf_count_at, leaf_count, share_as, share_of, total_share, whole_volume};

use crate::part::{LeafKind, Part};
use cert_text::Head;
use std::marker::Model;

/// The head of a report, and the leaves of its tree in the report's order. Their shares of the
/// region's volume sum to the whole.
#[derive(Drop)]
pub struct ReportMap {
    head: Head,
    parts: Vec<Part>,
}

impl Model for ReportMap {
    ghost use Rattle.std.specs.Prelude.{◌≡◌};
    ghost use Rattle.view_map.specs.Parts.{MapData};
    ghost use Rattle.view_map.specs.Share.{total_share, whole_volume};

    ghost Value = { MapData };

    ghost view = { λ m. record { head = m.head; parts = m.parts.items } };

    ghost invariant = { λ m. total_share m.parts.items ≡ whole_volume };
}

/// The share of a leaf, where it is of that kind, in units of 1/2^20 of the region's volume.
fn share_as(kind: LeafKind, part: &Part) -> u32
    ensures { result ≡ share_as kind part.now }
{
    if part.kind() == kind {
        2_u32.pow(20 - part.depth())
    } else {
        0
    }
}

impl ReportMap {
    /// The map of these leaves.
    pub(crate) fn new(head: Head, parts: Vec<Part>) -> Self
        requires { total_share parts.items ≡ whole_volume }
        ensures { result ≡ record { head = head; parts = parts.items } }
    {
        ReportMap { head, parts }
    }

    /// The report's head.
    pub fn head(&self) -> &Head
        ensures { result.now ≡ self.now.head }
    {
        &self.head
    }

    /// The leaves.
    pub fn parts(&self) -> &[Part]
        ensures { result.now ≡ self.now.parts }
    {
        &self.parts
    }

    /// The share of the leaves of a kind, in units of 1/2^20 of the region's volume.
    pub fn share_of(&self, kind: LeafKind) -> u32
        ensures share { result ≡ share_of kind self.now.parts }
        ensures within { result ≤ whole_volume }
    {
        let mut share = 0;
        for part in &self.parts {
            share += share_as(kind, part);
        }
        share
    }

    /// How many leaves there are of a kind.
    pub fn leaf_count(&self, kind: LeafKind) -> u64
        ensures { result ≡ leaf_count kind self.now.parts }
    {
        self.parts.iter().filter(|part| part.kind() == kind).count() as u64
    }

    /// How many leaves there are of a kind at a depth.
    pub fn leaf_count_at(&self, kind: LeafKind, depth: u32) -> u64
        ensures { result ≡ leaf_count_at kind depth self.now.parts }
    {
        let is_there = |part: &&Part| part.kind() == kind && part.depth() == depth;
        self.parts.iter().filter(is_there).count() as u64
    }
}
