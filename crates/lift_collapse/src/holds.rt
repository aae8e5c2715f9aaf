//! Whether what a search found is the collapse of a model: it is tested, state by state.

ghost use Rattle.std.specs.Prelude.{◌≡◌, ◌<◌, ℕ, true, false, length, All, IsTrue, slice_index_or};
ghost use Rattle.lift_model.specs.Links.{AreLinks, HasChoice, position, targets_of};
ghost use Rattle.lift_model.specs.Model.{is_goal, row_at};
ghost use Rattle.lift_collapse.specs.Building.{built};
ghost use Rattle.lift_collapse.specs.Collapse.{AreLost, IsCollapse, IsSure, StandsFor, AllTargets, place};

use crate::collapsed::Collapsed;
use lift_model::{Links, Model};

/// The number at a place, and 0 past the end.
pub(crate) fn number_at(numbers: &[u32], place: u32) -> u32
    ensures { result ≡ slice_index_or numbers.now place 0 }
{
    numbers.get(place as usize).copied().unwrap_or(0)
}

/// Whether a state is marked.
pub(crate) fn is_marked(marks: &[bool], s: u32) -> bool
    ensures { result ≡ slice_index_or marks.now s false }
{
    marks.get(s as usize).copied().unwrap_or(false)
}

/// What may be the collapse of a model: a collapsed model, with what a search found that it was built of: for each place
/// the state that is kept there, and which states are taken for lost.
#[derive(Clone, Copy)]
pub(crate) struct Candidate<'a> {
    pub model: &'a Model,
    /// The model's links.
    pub links: &'a Links,
    pub collapsed: &'a Collapsed,
    pub kept: &'a [u32],
    pub lost: &'a [bool],
}

impl Candidate<'_> {
    /// Whether all targets of a row have the state's place, and stand before it.
    fn is_sure_row(&self, s: u32, a: u32) -> bool
        requires links { AreLinks self.now.model.now self.now.links.now }
        requires row { HasChoice self.now.model.now s a }
        ensures { IsTrue result
            → All (λ t. (place self.now.collapsed.now t ≡ place self.now.collapsed.now s)
            × (position self.now.links.now t < position self.now.links.now s))
            (targets_of (row_at self.now.model.now s a)) }
    {
        let collapsed = self.collapsed;
        let place = number_at(&collapsed.places, s);
        let position = self.links.position(s);
        for target in self.links.targets(self.links.place(s, a)) {
            if *target >= self.model.states()
                || number_at(&collapsed.places, *target) != place
                || self.links.position(*target) >= position
            {
                return false;
            }
        }
        true
    }

    /// Whether the state surely leads to its place.
    fn is_sure(&self, s: u32) -> bool
        requires links { AreLinks self.now.model.now self.now.links.now }
        requires state { s < length self.now.model.now.states }
        ensures { IsTrue result → IsSure self.now.model.now self.now.collapsed.now (position self.now.links.now) s }
    {
        if self.model.is_goal(s) {
            return false;
        }
        for a in 0..self.links.choices(s) {
            if !self.is_sure_row(s, a) {
                return false;
            }
        }
        true
    }

    /// Whether all targets of a row are lost, and have the state's place.
    fn is_lost_row(&self, s: u32, a: u32) -> bool
        requires links { AreLinks self.now.model.now self.now.links.now }
        requires row { HasChoice self.now.model.now s a }
        ensures { IsTrue result
            → All (λ t. (slice_index_or self.now.lost.now t false ≡ true)
            × (place self.now.collapsed.now t ≡ place self.now.collapsed.now s))
            (targets_of (row_at self.now.model.now s a)) }
    {
        let _ = self.model.states();
        let collapsed = self.collapsed;
        let place = number_at(&collapsed.places, s);
        for target in self.links.targets(self.links.place(s, a)) {
            if number_at(&collapsed.places, *target) != place || !is_marked(self.lost, *target) {
                return false;
            }
        }
        true
    }

    /// Whether a state is no goal state, and leads only to lost states at its own place.
    fn is_lost(&self, s: u32) -> bool
        requires links { AreLinks self.now.model.now self.now.links.now }
        requires state { s < length self.now.model.now.states }
        ensures goal { IsTrue result → is_goal self.now.model.now s ≡ false }
        ensures targets { IsTrue result
            → AllTargets self.now.model.now (λ t. (slice_index_or self.now.lost.now t false ≡ true)
            × (place self.now.collapsed.now t ≡ place self.now.collapsed.now s)) s }
    {
        if self.model.is_goal(s) {
            return false;
        }
        for a in 0..self.links.choices(s) {
            if !self.is_lost_row(s, a) {
                return false;
            }
        }
        true
    }

    /// Whether what is kept at a state's place stands for it.
    fn stands(&self, s: u32) -> bool
        requires links { AreLinks self.now.model.now self.now.links.now }
        requires state { s < length self.now.model.now.states }
        ensures { IsTrue result
            → StandsFor self.now.model.now self.now.collapsed.now (λ i. slice_index_or self.now.kept.now i 0)
            (λ t. slice_index_or self.now.lost.now t false) (position self.now.links.now) s }
    {
        let collapsed = self.collapsed;
        let other = number_at(self.kept, number_at(&collapsed.places, s));
        if other == s || other >= self.model.states() {
            return other == s;
        }
        self.model.is_goal(s) && self.model.is_goal(other)
            || is_marked(self.lost, s) && is_marked(self.lost, other)
            || self.is_sure(s)
    }

    /// Whether each state has a place, and what is kept there stands for it.
    fn all_stand(&self) -> bool
        requires links { AreLinks self.now.model.now self.now.links.now }
        ensures inside { IsTrue result → (s : ℕ) → s < length self.now.model.now.states
            → place self.now.collapsed.now s < length self.now.kept.now }
        ensures stands { IsTrue result → (s : ℕ) → s < length self.now.model.now.states
            → StandsFor self.now.model.now self.now.collapsed.now (λ i. slice_index_or self.now.kept.now i 0)
            (λ t. slice_index_or self.now.lost.now t false) (position self.now.links.now) s }
    {
        let collapsed = self.collapsed;
        for s in 0..self.model.states() {
            if number_at(&collapsed.places, s) as usize >= self.kept.len() || !self.stands(s) {
                return false;
            }
        }
        true
    }

    /// Whether each state that is taken for lost is.
    fn all_lost_are(&self) -> bool
        requires links { AreLinks self.now.model.now self.now.links.now }
        ensures { IsTrue result → AreLost self.now.model.now self.now.collapsed.now (λ t. slice_index_or self.now.lost.now t false) }
    {
        for s in 0..self.model.states() {
            if is_marked(self.lost, s) && !self.is_lost(s) {
                return false;
            }
        }
        true
    }

    /// Whether each state that is kept is a state, and has the place at which it is kept.
    fn are_kept(&self) -> bool
        ensures { IsTrue result → (i : ℕ) → i < length self.now.kept.now
            → (slice_index_or self.now.kept.now i 0 < length self.now.model.now.states)
            × (place self.now.collapsed.now (slice_index_or self.now.kept.now i 0) ≡ i) }
    {
        let collapsed = self.collapsed;
        for (i, s) in self.kept.iter().enumerate() {
            if *s >= self.model.states() || number_at(&collapsed.places, *s) as usize != i {
                return false;
            }
        }
        true
    }

    /// Whether a collapsed model that was built of the states that are kept is the model's collapse.
    pub(crate) fn is_collapse(&self) -> bool
        requires links { AreLinks self.now.model.now self.now.links.now }
        requires built { self.now.collapsed.now.model ≡ built self.now.model.now self.now.collapsed.now.places self.now.kept.now }
        ensures { IsTrue result → IsCollapse self.now.model.now self.now.collapsed.now }
    {
        let collapsed = self.collapsed;
        let _ = collapsed.model.common();
        if collapsed.places.len() != self.model.states() as usize
            || !self.are_kept()
            || !self.all_stand()
        {
            return false;
        }
        self.all_lost_are()
    }
}
