//! The walk over the tree of a case.

ghost use Rattle.std.specs.Prelude.{◌≡◌, ◌≤◌, ◌<◌, length};
ghost use Rattle.lift_pool.specs.Lanes.{last_lane};
ghost use Rattle.lift_pool.specs.Shapes.{IsSameShape};
ghost use Rattle.lift_grid.specs.Rectangle.{spans_of};
ghost use Rattle.corner_lift.specs.Case.{AreSidesInside, IsCase, IsInside, greatest_depth};
ghost use Rattle.lift_walk.specs.Bases.{LeavesAreOne, OffersOne};
ghost use Rattle.lift_walk.specs.Halved.{preorder_text};
ghost use Rattle.lift_walk.specs.Sides.{IsMadeForSides, SidesStandAt};
ghost use Rattle.lift_walk.specs.Steps.{GoesOn, Steps, StepsAfresh};

use crate::given::Given;
use crate::guide::Guide;
use crate::laws::{sides_go_down, split_axes_are_one};
use crate::sides::{axis_of, take_half, write_root};
use crate::step::{Halving, Step};
use corner_lift::Case;
use lift_grid::rows_are_rectangles;
use lift_pool::Pool;

/// The last lane of sides.
pub(crate) fn last_sides(sides: &Pool<i64>) -> &[i64]
    requires { 0 < length sides.now.lanes }
    ensures { result.now ≡ last_lane sides.now.lanes }
{
    sides.lane(sides.lanes() - 1)
}

/// Where a walk stands.
#[derive(Clone, Copy)]
pub(crate) struct Place {
    pub(crate) depth: u32,
    /// Whether the tree of the rectangle is known beforehand.
    pub(crate) known: bool,
}

/// Walks over the tree of a case.
#[derive(Drop)]
pub struct Walker<'a, G: Guide> {
    pub case: &'a Case<'a>,
    pub guide: &'a G,
}

impl<G: Guide> Walker<'_, G> {
    /// Decides a rectangle of which nothing is known: its leaf is taken, or it is halved.
    fn decide(
        &self,
        depth: u32,
        sides: &[i64],
        room: &mut G::Room,
        out: &mut G::Out,
    ) -> Step<Result<G::Part, G::Fault>>
        requires case { IsCase self.now.case.now }
        requires same { G.case self.now.guide.now ≡ self.now.case.now }
        requires leaves { LeavesAreOne self.now.case.now (G.decides self.now.guide.now) (G.is_open self.now.guide.now) }
        requires depth { depth ≤ greatest_depth self.now.case.now }
        requires sides { AreSidesInside self.now.case.now.root sides.now }
        requires inside { IsInside self.now.case.now.root (spans_of sides.now) }
        requires ready { (made : G.Room) × G.is_ready self.now.guide.now made room.old }
        requires fits { G.fits self.now.guide.now (G.fixed out.old) }
        ensures steps { StepsAfresh (G.decides self.now.guide.now) (G.is_open self.now.guide.now) self.now.case.now (spans_of sides.now)
            depth (G.is_part self.now.guide.now) (preorder_text (G.split_entry self.now.guide.now (G.fixed out.old))
            (G.leaf_entry self.now.guide.now (G.fixed out.old)) (G.unknown_entry self.now.guide.now (G.fixed out.old)))
            G.taken G.faults out.old out.new result }
        ensures ready { (made : G.Room) → G.is_ready self.now.guide.now made room.old
            → G.is_ready self.now.guide.now made room.new }
        ensures fixed { G.fixed out.new ≡ G.fixed out.old }
    {
        match self.guide.decide(room, sides) {
            Some(verdict) => Step::Done(self.guide.take_leaf(room, verdict, out)),
            None if depth == self.case.greatest_depth() => Step::Done(self.guide.take_unknown(out)),
            None => Step::Halve(Halving {
                axis: axis_of(self.case, sides),
                known: false,
            }),
        }
    }

    /// Takes the leaf of a rectangle, or halves it.
    fn step(
        &self,
        place: Place,
        sides: &[i64],
        room: &mut G::Room,
        base: &mut G::Base,
        out: &mut G::Out,
    ) -> Step<Result<G::Part, G::Fault>>
        requires case { IsCase self.now.case.now }
        requires same { G.case self.now.guide.now ≡ self.now.case.now }
        requires leaves { LeavesAreOne self.now.case.now (G.decides self.now.guide.now) (G.is_open self.now.guide.now) }
        requires sides { AreSidesInside self.now.case.now.root sides.now }
        requires inside { IsInside self.now.case.now.root (spans_of sides.now) }
        requires ready { (made : G.Room) × G.is_ready self.now.guide.now made room.old }
        requires fits { G.fits self.now.guide.now (G.fixed out.old) }
        requires base { OffersOne G.first (G.is_ahead self.now.guide.now base.old (G.fixed out.old)) (G.may self.now.guide.now)
            self.now.case.now (spans_of sides.now) place.depth place.known }
        ensures steps { Steps (G.decides self.now.guide.now) (G.is_open self.now.guide.now) (G.may self.now.guide.now) self.now.case.now
            (spans_of sides.now) place.depth place.known G.first (G.is_ahead self.now.guide.now base.old (G.fixed out.old))
            (G.is_ahead self.now.guide.now base.new (G.fixed out.new)) (G.is_part self.now.guide.now)
            (preorder_text (G.split_entry self.now.guide.now (G.fixed out.old))
            (G.leaf_entry self.now.guide.now (G.fixed out.old)) (G.unknown_entry self.now.guide.now (G.fixed out.old)))
            G.taken G.faults out.old out.new result }
        ensures ready { (made : G.Room) → G.is_ready self.now.guide.now made room.old
            → G.is_ready self.now.guide.now made room.new }
        ensures fixed { G.fixed out.new ≡ G.fixed out.old }
        ensures base { G.base_fixed base.new ≡ G.base_fixed base.old }
    {
        split_axes_are_one();
        if !place.known {
            return self.decide(place.depth, sides, room, out);
        }
        match self.guide.next(base, room, sides, out) {
            Given::Split(axis) => Step::Halve(Halving { axis, known: true }),
            Given::Leaf(result) => Step::Done(result),
            Given::Unknown => self.decide(place.depth, sides, room, out),
        }
    }

    /// Walks over the tree of the rectangle that the last lane of sides holds.
    pub(crate) fn walk_at(
        &self,
        place: Place,
        sides: &mut Pool<i64>,
        room: &mut G::Room,
        base: &mut G::Base,
        out: &mut G::Out,
    ) -> Result<G::Part, G::Fault>
        requires case { IsCase self.now.case.now }
        requires same { G.case self.now.guide.now ≡ self.now.case.now }
        requires leaves { LeavesAreOne self.now.case.now (G.decides self.now.guide.now) (G.is_open self.now.guide.now) }
        requires placed { SidesStandAt self.now.case.now place.depth sides.old }
        requires ready { (made : G.Room) × G.is_ready self.now.guide.now made room.old }
        requires fits { G.fits self.now.guide.now (G.fixed out.old) }
        requires base { OffersOne G.first (G.is_ahead self.now.guide.now base.old (G.fixed out.old)) (G.may self.now.guide.now)
            self.now.case.now (spans_of (last_lane sides.old.lanes)) place.depth place.known }
        ensures walks { GoesOn (G.decides self.now.guide.now) (G.is_open self.now.guide.now) (G.may self.now.guide.now) self.now.case.now
            (spans_of (last_lane sides.old.lanes)) place.depth place.known G.first (G.is_ahead self.now.guide.now base.old (G.fixed out.old))
            (G.is_ahead self.now.guide.now base.new (G.fixed out.new)) (G.is_part self.now.guide.now)
            (preorder_text (G.split_entry self.now.guide.now (G.fixed out.old))
            (G.leaf_entry self.now.guide.now (G.fixed out.old)) (G.unknown_entry self.now.guide.now (G.fixed out.old)))
            G.taken G.faults out.old out.new result }
        ensures sides { sides.new ≡ sides.old }
        ensures ready { (made : G.Room) → G.is_ready self.now.guide.now made room.old
            → G.is_ready self.now.guide.now made room.new }
        ensures fixed { G.fixed out.new ≡ G.fixed out.old }
        ensures base { G.base_fixed base.new ≡ G.base_fixed base.old }
    {
        sides_go_down();
        let Halving { axis, known } = match self.step(place, last_sides(sides), room, base, out) {
            Step::Done(result) => return result,
            Step::Halve(halving) => halving,
        };
        self.guide.take_split(out, axis)?;
        let half = Place {
            depth: place.depth + 1,
            known,
        };
        take_half(sides, axis, true);
        let lower = self.walk_at(half, sides, room, base, out);
        sides.give_back();
        let lower = lower?;
        take_half(sides, axis, false);
        let upper = self.walk_at(half, sides, room, base, out);
        sides.give_back();
        self.guide.join(axis, lower, upper?)
    }

    /// Walks over the tree of the case that is known, where it is, and in the place of each of its unknown leaves over
    /// the right tree of its rectangle; where nothing is known, over the case's right tree. The nodes are taken in
    /// preorder, up to the first failure. The pool of sides was made for the case, and after it is as made; so is the
    /// room.
    ///
    /// At Ok there is such a tree, for which stands what is given. Whichever tree is such a one, the entries of all its
    /// nodes were taken, or after an error a part of them, from the front. An error comes only with a fault.
    pub fn walk(
        &self,
        known: bool,
        sides: &mut Pool<i64>,
        room: &mut G::Room,
        base: &mut G::Base,
        out: &mut G::Out,
    ) -> Result<G::Part, G::Fault>
        requires same { G.case self.now.guide.now ≡ self.now.case.now }
        requires leaves { LeavesAreOne self.now.case.now (G.decides self.now.guide.now) (G.is_open self.now.guide.now) }
        requires sides { IsMadeForSides self.now.case.now sides.old }
        requires ready { G.is_ready self.now.guide.now room.old room.old }
        requires fits { G.fits self.now.guide.now (G.fixed out.old) }
        requires base { OffersOne G.first (G.is_ahead self.now.guide.now base.old (G.fixed out.old)) (G.may self.now.guide.now)
            self.now.case.now self.now.case.now.root 0 known }
        ensures walks { GoesOn (G.decides self.now.guide.now) (G.is_open self.now.guide.now) (G.may self.now.guide.now) self.now.case.now
            self.now.case.now.root 0 known G.first (G.is_ahead self.now.guide.now base.old (G.fixed out.old))
            (G.is_ahead self.now.guide.now base.new (G.fixed out.new)) (G.is_part self.now.guide.now)
            (preorder_text (G.split_entry self.now.guide.now (G.fixed out.old))
            (G.leaf_entry self.now.guide.now (G.fixed out.old)) (G.unknown_entry self.now.guide.now (G.fixed out.old)))
            G.taken G.faults out.old out.new result }
        ensures sides { IsSameShape sides.old sides.new }
        ensures ready { G.is_ready self.now.guide.now room.old room.new }
        ensures fixed { G.fixed out.new ≡ G.fixed out.old }
        ensures base { G.base_fixed base.new ≡ G.base_fixed base.old }
    {
        sides_go_down();
        rows_are_rectangles();
        let _ = self.case.w();
        write_root(self.case, sides);
        let place = Place { depth: 0, known };
        self.walk_at(place, sides, room, base, out)
    }
}
