//! The tree of a case for a property, whole.

ghost use Rattle.std.specs.Prelude.{◌≡◌, IfOk};
ghost use Rattle.lift_model.specs.Links.{AreLinks};
ghost use Rattle.lift_walk.specs.Halved.Halved.{leaf};
ghost use Rattle.region_tree.specs.Rooms.{HasPools};
ghost use Rattle.property_tree.specs.Built.{halved_of};
ghost use Rattle.property_tree.specs.Decided.{leaf_in, lower_in, upper_in};
ghost use Rattle.property_tree.specs.Leaves.{IsRightFor};

use crate::decider::PropertyDecider;
use crate::laws::leaves_are_one;
use crate::question::Question;
use crate::sides::is_upper;
use corner_lift::Case;
use lift_cert::Bound;
use lift_grid::{Marks, Values};
use lift_model::Links;
use lower_cert::Rate;
use property_text::Op;
use region_tree::{Lanes, Pools, Room, Side, lanes_keep_their_shape};
use std::alloc::{AllocError, Global};
use tree_writer::{Grower, build_tree};

/// What stands at the top of a tree.
#[derive(Drop)]
pub enum DualBranch {
    /// A split on a parameter, with the trees of the lower and of the upper half.
    Split {
        axis: u32,
        lower: Box<DualBranch>,
        upper: Box<DualBranch>,
    },
    /// A leaf that an upper vector decides: what every scheduler reaches at most, over 2 to the `w`.
    Upper {
        x: Values,
    },
    /// A leaf that an upper vector for one scheduler decides, with its choices, `u32::MAX` standing for none.
    UpperOne {
        x: Values,
        picks: Marks,
    },
    /// A leaf that a lower vector of one scheduler decides, with its rate, and the number, the chosen row and the rank of
    /// each state, `u32::MAX` standing for none.
    Lower {
        e: u32,
        k: u32,
        y: Values,
        picks: Marks,
        ranks: Marks,
    },
    /// A leaf that a lower vector for every scheduler decides, which picks none.
    LowerAll {
        e: u32,
        k: u32,
        y: Values,
        ranks: Marks,
    },
    /// An unknown leaf.
    Unknown,
}

/// The tree of a case for a comparison with a bound.
#[derive(Drop)]
pub struct DualTree {
    top: DualBranch,
}

impl DualTree {
    /// What stands at the top.
    pub fn top(&self) -> &DualBranch
        ensures { result.now ≡ self.now.top }
    {
        &self.top
    }
}

impl Question<'_, '_> {
    /// The leaf that a certificate from above decides.
    fn leaf_above(&self, alloc: Global, pools: &Pools) -> Result<DualBranch, AllocError>
        requires { HasPools self.now.case.now.model pools.now }
        ensures { IfOk result (λ b. halved_of b ≡ leaf (upper_in self.now.op pools.now)) }
    {
        let x = Values::from_slice(alloc, pools.values.lane(0))?;
        Ok(if is_upper(self.op) {
            DualBranch::Upper { x }
        } else {
            DualBranch::UpperOne {
                x,
                picks: Marks::from_slice(alloc, pools.picks.lane(0))?,
            }
        })
    }

    /// The leaf that one from below decides.
    fn leaf_below(&self, alloc: Global, rate: Rate, pools: &Pools) -> Result<DualBranch, AllocError>
        requires { HasPools self.now.case.now.model pools.now }
        ensures { IfOk result (λ b. halved_of b ≡ leaf (lower_in self.now.op pools.now rate.e rate.k)) }
    {
        let Rate { e, k } = rate;
        let y = Values::from_slice(alloc, pools.values.lane(0))?;
        let ranks = Marks::from_slice(alloc, pools.ranks.lane(0))?;
        Ok(if is_upper(self.op) {
            DualBranch::Lower {
                e,
                k,
                y,
                picks: Marks::from_slice(alloc, pools.picks.lane(0))?,
                ranks,
            }
        } else {
            DualBranch::LowerAll { e, k, y, ranks }
        })
    }

    /// The leaf of a verdict, with the certificate that stands in the lanes.
    fn leaf(&self, alloc: Global, verdict: Side, pools: &Pools) -> Result<DualBranch, AllocError>
        requires { HasPools self.now.case.now.model pools.now }
        ensures { IfOk result (λ b. halved_of b ≡ leaf (leaf_in self.now.op pools.now verdict)) }
    {
        match verdict {
            Side::Above => self.leaf_above(alloc, pools),
            Side::Below(rate) => self.leaf_below(alloc, rate, pools),
        }
    }
}

impl Grower for PropertyDecider<'_, '_> {
    type Branch = DualBranch;

    ghost is_right = { λ d spans depth b. IsRightFor d.question.now.case.now d.question.now.op d.question.now.bound
        spans depth (halved_of b) };

    fn grow_leaf(
        &self,
        alloc: Global,
        room: &Lanes,
        verdict: Side,
    ) -> Result<DualBranch, AllocError> {
        self.question.leaf(alloc, verdict, room.pools())
    }

    fn grow_unknown(&self) -> DualBranch {
        DualBranch::Unknown
    }

    fn grow_split(
        &self,
        alloc: Global,
        axis: u32,
        lower: DualBranch,
        upper: DualBranch,
    ) -> Result<DualBranch, AllocError> {
        let lower = Box::new(alloc, lower)?;
        let upper = Box::new(alloc, upper)?;
        Ok(DualBranch::Split { axis, lower, upper })
    }
}

/// Builds the right tree of a case for a comparison with a bound. Memory is taken for a room and for the tree. The
/// program writes trees as it walks; the tests of trees call this.
pub fn build(
    alloc: Global,
    case: &Case,
    links: &Links,
    op: Op,
    bound: Bound,
) -> Result<DualTree, AllocError>
    requires { AreLinks case.now.model links.now }
    ensures { IfOk result (λ t. IsRightFor case.now op bound case.now.root 0 (halved_of t.top)) }
{
    leaves_are_one();
    lanes_keep_their_shape();
    let _ = case.w();
    let mut room = Room::make(alloc, case, links)?;
    room.lanes.forget();
    let question = Question {
        case: &*case,
        links: &*links,
        op,
        bound,
        from: None,
    };
    let decider = PropertyDecider {
        question: &question,
    };
    let top = build_tree(alloc, case, &decider, &mut room.sides, &mut room.lanes)?;
    Ok(DualTree { top })
}
