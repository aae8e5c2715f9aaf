// The tree of a case, whole.
ghost use Rattle.std.specs.List.{AllByRecursion};
ghost use Rattle.std.specs.Prelude.{◌≡◌, [], ◌∷◌, IfOk, List};
ghost use Rattle.std.specs.declared.option.Option.TheVariants.{None};
ghost use Rattle.lift_base.specs.Outside.{last_count};
ghost use Rattle.lift_model.specs.Links.{AreLinks};
ghost use Rattle.lift_range.specs.Range.{Between};
ghost use Rattle.lift_walk.specs.Halved.{Halved};
ghost use Rattle.region_tree.specs.Built.{tree_of};
ghost use Rattle.region_tree.specs.Right.{Decides, Decision, IsOpen, IsRightTree, tree_from};
ghost use Rattle.region_tree.specs.Rooms.{IsMadeFor};
ghost use Rattle.region_tree.specs.Walking.{AreReady, leaf_in};

use crate::laws::certificates_are_one;
use crate::room::{Lanes, Room};
use crate::search::Search;
use crate::side::{Found, Side};
use corner_lift::{Case, lower_precisions_are_cases};
use lift_cert::Bound;
use lift_grid::{Marks, Values};
use lift_model::Links;
use lift_walk::{Given, Guide, Walker};
use lower_cert::Rate;
use std::alloc::{AllocError, Global};

/// What stands at the top of a tree.
#[derive(Drop)]
pub enum Branch {
    /// A split on a parameter, with the trees of the lower and of the upper half.
    Split {
        axis: u32,
        lower: Box<Branch>,
        upper: Box<Branch>,
    },
    /// An accepting leaf, with its precision and the number of each state.
    Accept {
        u: u32,
        x: Values,
    },
    /// A rejecting leaf, with its precision, its rate, and the number, the chosen row and the rank of each state,
    /// `u32::MAX` standing for none.
    Reject {
        u: u32,
        e: u32,
        k: u32,
        y: Values,
        picks: Marks,
        ranks: Marks,
    },
    /// An unknown leaf.
    Unknown,
}

/// The tree of a case.
#[derive(Drop)]
pub struct Tree {
    top: Branch,
}

impl Tree {
    /// What stands at the top.
    pub fn top(&self) -> &Branch
        ensures { result.now ≡ self.now.top }
    {
        &self.top
    }
}

/// Builds the tree of a case. Its nodes go nowhere else, and nothing of it is known beforehand.
#[derive(Drop)]
struct Building<'a> {
    search: Search<'a, Bound>,
    alloc: Global,
}

impl Guide for Building<'_> {
    type Room = Lanes;

    type Verdict = Found;

    type Base = ();

    type Out = ();

    type Part = Branch;

    type Fault = AllocError;

    ghost Leaf = { Decision };

    ghost case = { λ b. b.search.case.now };

    ghost decides = { λ b. Decides b.search.case.now b.search.from b.search.sought };

    ghost is_open = { λ b spans. IsOpen b.search.case.now b.search.from spans b.search.sought };

    ghost may = { λ _ _ _. ⊥ };

    ghost leaf = { λ _ lanes found. leaf_in lanes.pools found };

    ghost is_ready = { λ b. AreReady b.search.case.now b.search.links.now b.search.sought b.search.from };

    ghost Fixed = { Unit {0} };

    ghost fixed = { λ _. tt };

    ghost fits = { λ _ _. Unit {0} };

    ghost taken = { λ _. None };

    ghost faults = { λ _. last_count };

    ghost split_entry = { λ _ _ _. [] };

    ghost leaf_entry = { λ _ _ _. [] };

    ghost unknown_entry = { λ _ _. [] };

    ghost is_part = { λ _ t branch. tree_of branch ≡ tree_from t };

    ghost BaseFixed = { Unit {0} };

    ghost base_fixed = { λ _. tt };

    ghost Rest = { List (Halved Decision) };

    ghost first = { λ t rest. t ∷ rest };

    ghost is_ahead = { λ _ _ _ trees. AllByRecursion (λ t. t ≡ Halved.unknown) trees };

    fn decide(&self, room: &mut Lanes, sides: &[i64]) -> Option<Found> {
        self.search.find(room, sides)
    }

    fn next(
        &self,
        _base: &mut (),
        _room: &mut Lanes,
        _sides: &[i64],
        _out: &mut (),
    ) -> Given<Result<Branch, AllocError>> {
        Given::Unknown
    }

    fn take_split(&self, _out: &mut (), _axis: u32) -> Result<(), AllocError> {
        Ok(())
    }

    fn take_leaf(&self, room: &Lanes, verdict: Found, _out: &mut ()) -> Result<Branch, AllocError> {
        let pools = &room.pools;
        let Found { u, side } = verdict;
        Ok(match side {
            Side::Above => Branch::Accept {
                u,
                x: Values::from_slice(self.alloc, pools.values.lane(0))?,
            },
            Side::Below(Rate { e, k }) => Branch::Reject {
                u,
                e,
                k,
                y: Values::from_slice(self.alloc, pools.values.lane(0))?,
                picks: Marks::from_slice(self.alloc, pools.picks.lane(0))?,
                ranks: Marks::from_slice(self.alloc, pools.ranks.lane(0))?,
            },
        })
    }

    fn take_unknown(&self, _out: &mut ()) -> Result<Branch, AllocError> {
        Ok(Branch::Unknown)
    }

    fn join(&self, axis: u32, lower: Branch, upper: Branch) -> Result<Branch, AllocError> {
        let alloc = self.alloc;
        let lower = Box::new(alloc, lower)?;
        let upper = Box::new(alloc, upper)?;
        Ok(Branch::Split { axis, lower, upper })
    }
}

impl Building<'_> {
    // The tree of the case, in a room that was made for it.
    fn build_in(&self, room: &mut Room) -> Result<Branch, AllocError>
        requires from { Between 1 self.now.search.case.now.w self.now.search.from }
        requires links { AreLinks self.now.search.case.now.model self.now.search.links.now }
        requires made { IsMadeFor self.now.search.case.now self.now.search.links.now room.old }
        ensures { IfOk result (λ b. IsRightTree self.now.search.case.now self.now.search.from self.now.search.sought (tree_of b)) }
    {
        certificates_are_one();
        lower_precisions_are_cases();
        let _ = self.search.case.w();
        room.lanes.forget();
        let walker = Walker {
            case: self.search.case,
            guide: self,
        };
        walker.walk(false, &mut room.sides, &mut room.lanes, &mut (), &mut ())
    }
}

/// Builds the right tree of a case, for the precisions from `from` to its own. Memory is taken for a room and for the
/// tree. The program writes trees as it walks; the tests of trees call this.
pub fn build(
    alloc: Global,
    case: &Case,
    links: &Links,
    bound: Bound,
    from: u32,
) -> Result<Tree, AllocError>
    requires links { AreLinks case.now.model links.now }
    requires from { Between 1 case.now.w from }
    ensures { IfOk result (λ t. IsRightTree case.now from bound (tree_of t.top)) }
{
    let mut room = Room::make(alloc, case, links)?;
    let search = Search {
        case: &*case,
        links: &*links,
        sought: bound,
        from,
    };
    let building = Building { search, alloc };
    let top = building.build_in(&mut room);
    drop(room);
    Ok(Tree { top: top? })
}
