//! The tree of a circle: the window's first place moves on, and the leaves stay at their places.
use crate::circle::{advance, start_after};
use crate::making::{full, height_of};
use crate::node::{Node, now};
use crate::reverting::revert;
use crate::settling::settle;
use crate::standing::Standing;
use job_laws::{Job, Meter, Swaps};
use pin_table::{Caller, Memo};
use record_text::{Kind, Shift};
use sheets::Sheet;
use std::alloc::{AllocError, Global};
use std::marker::Model;
use std::sync::Wait;
use tree_laws::{MergeRecipe, Tree};

/// The leaves of a circular window at the places of a full tree, each node the merge of its halves. It is for jobs whose
/// values may be joined in either order.
#[derive(Drop)]
pub struct RotatingTree<J: Job> {
    setting: u32,
    // How many places the circle has, which are the first places of the tree.
    n: usize,
    width: usize,
    at: Standing,
    draft: Option<Standing>,
    root: Node<J>,
}

impl<J: Job> Model for RotatingTree<J> {
    ghost use Rattle.tree_laws.specs.Pairs.{pair_digest};
    ghost use Rattle.tree_laws.specs.Trees.{Seen};
    ghost use Rattle.rotating_tree.specs.Circles.{seen_of, IsCircle};

    ghost Value = { Seen J.Val };

    ghost view = { λ t. seen_of (pair_digest J.encoded) t.setting t.n t.at t.draft t.root };

    ghost invariant = { λ t. IsCircle J.good J.joined t.setting t.n t.width t.at t.draft t.root };
}

impl<J: Swaps> Tree<J> for RotatingTree<J> {
    ghost use Rattle.std.specs.Prelude.{◌-◌, ◌*◌, true, length};
    ghost use Rattle.record_text.specs.declared.kind.Kind.TheVariants.{Circle};
    ghost use Rattle.tree_laws.specs.Trees.{no_shape};
    ghost use Rattle.rotating_tree.specs.Circles.{changed_of};
    ghost use Rattle.rotating_tree.specs.Levels.{levels};

    const KIND: Kind = Kind::Circle;

    ghost KIND = { Circle };

    ghost view = { λ t. t.tree };

    ghost pins = { λ t. t.pins };

    ghost most = { λ t. length t.tree.leaves.tables - 1 };

    ghost bound = { λ places shape count shift. changed_of shift * levels places };

    ghost tight = { λ t shift news. changed_of shift * levels t.tree.places };

    ghost shaped = { λ shape shift. no_shape };

    ghost is_prepared = { λ t. true };

    ghost ahead_bound = { λ t. 0 };

    fn fresh(alloc: Global, setting: u32, places: u32) -> Result<RotatingTree<J>, AllocError> {
        let n = places as usize;
        let (height, width) = height_of(n);
        let root = full(alloc, height)?;
        Ok(RotatingTree {
            setting,
            n,
            width,
            at: Standing {
                first: 0,
                start: 0,
                count: 0,
            },
            draft: None,
            root,
        })
    }

    fn advance<W: Wait>(
        &mut self,
        alloc: Global,
        rt: &W,
        memo: &Memo<MergeRecipe<J>>,
        caller: &mut Caller<MergeRecipe<J>>,
        job: &J,
        run: u64,
        shift: &Shift,
        fresh: &[Sheet<J>],
        m: &mut J::Meter,
    ) -> Result<(), AllocError> {
        match shift {
            Shift::Slide {
                first,
                gone,
                places,
                fresh: came,
            } => {
                let start = start_after(self.n, self.at.start, *first, *gone, *came);
                let kept = self.at.count - *gone;
                match advance(
                    alloc,
                    rt,
                    memo,
                    caller,
                    job,
                    run,
                    &mut self.root,
                    self.width,
                    self.n,
                    start,
                    kept,
                    places,
                    fresh,
                    m,
                ) {
                    Ok(()) => {
                        self.draft = Some(Standing {
                            first: *first,
                            start,
                            count: kept + *came,
                        });
                        return Ok(());
                    }
                    Err(e) => return Err(e),
                }
            }
            Shift::Splice { .. } => unreachable!(),
        }
    }

    fn settle<W: Wait>(
        &mut self,
        rt: &W,
        memo: &Memo<MergeRecipe<J>>,
        caller: &mut Caller<MergeRecipe<J>>,
    ) {
        match self.draft {
            Some(at) => {
                settle(rt, memo, caller, &mut self.root);
                self.at = at;
                self.draft = None;
                return;
            }
            None => unreachable!(),
        }
    }

    fn revert<W: Wait>(
        &mut self,
        rt: &W,
        memo: &Memo<MergeRecipe<J>>,
        caller: &mut Caller<MergeRecipe<J>>,
    ) {
        match self.draft {
            Some(_) => {
                revert(rt, memo, caller, &mut self.root);
                self.draft = None;
                return;
            }
            None => return,
        }
    }

    fn root(&self) -> Option<&Sheet<J>> {
        now(&self.root)
    }

    fn prepared(&self) -> bool {
        true
    }

    fn ahead<W: Wait>(
        &mut self,
        _alloc: Global,
        _rt: &W,
        _memo: &Memo<MergeRecipe<J>>,
        _caller: &mut Caller<MergeRecipe<J>>,
        _job: &J,
        _run: u64,
        _m: &mut J::Meter,
    ) -> Result<(), AllocError> {
        // Reading the field gives the prover that the tree has few pins.
        let _ = &self.root;
        Ok(())
    }
}
