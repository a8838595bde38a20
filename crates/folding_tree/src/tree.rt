//! The tree of a window of buckets, which folds and doubles over its leaves.
use crate::draft::Draft;
use crate::letting::let_drafts_go;
use crate::level::Level;
use crate::settling::settle;
use crate::standing::Standing;
use crate::tower::advance;
use job_laws::{Job, Meter};
use pin_table::{Caller, Memo};
use record_text::{Kind, Shift};
use sheets::Sheet;
use std::alloc::{AllocError, Global};
use std::collections::VecDeque;
use std::marker::Model;
use std::sync::Wait;
use tree_laws::{MergeRecipe, Tree};

/// The leaves of a window of buckets with the levels of nodes over them, each node the merge of its halves, left with
/// right.
#[derive(Drop)]
pub struct FoldingTree<J: Job> {
    setting: u32,
    places: u32,
    at: Standing,
    // The leaves, then the levels over them; after those of the tree there may be levels without nodes.
    levels: Vec<Level<J>>,
    draft: Option<Standing>,
    // The drafts of the levels, if there is a draft.
    drafts: Vec<Draft<J>>,
}

impl<J: Job> Model for FoldingTree<J> {
    ghost use Rattle.tree_laws.specs.Pairs.{pair_digest};
    ghost use Rattle.folding_tree.specs.Folding.{seen_of, IsFolding};
    ghost use Rattle.tree_laws.specs.Trees.{Seen};

    ghost Value = { Seen J.Val };

    ghost view = { λ t. seen_of (pair_digest J.encoded) t.setting t.places t.at t.draft t.levels.items t.drafts.items };

    ghost invariant = { λ t. IsFolding J.good J.joined t.setting t.at t.draft t.levels.items t.drafts.items };
}

impl<J: Job> Tree<J> for FoldingTree<J> {
    ghost use Rattle.std.specs.Prelude.{◌-◌, true, length};
    ghost use Rattle.record_text.specs.declared.kind.Kind.TheVariants.{Buckets};
    ghost use Rattle.folding_tree.specs.Shapes.{shaped, merges_of};

    const KIND: Kind = Kind::Buckets;

    ghost KIND = { Buckets };

    ghost view = { λ t. t.tree };

    ghost pins = { λ t. t.pins };

    ghost most = { λ t. length t.tree.leaves.tables - 1 };

    ghost bound = { λ places shape count shift. merges_of shape shift };

    ghost tight = { λ t shift news. merges_of t.tree.leaves.shape shift };

    ghost shaped = { shaped };

    ghost is_prepared = { λ t. true };

    ghost ahead_bound = { λ t. 0 };

    fn fresh(alloc: Global, setting: u32, places: u32) -> Result<FoldingTree<J>, AllocError> {
        let mut levels = Vec::new(alloc);
        levels.push(Level {
            low: 0,
            nodes: VecDeque::new(alloc),
        })?;
        Ok(FoldingTree {
            setting,
            places,
            at: Standing {
                first: 0,
                height: 0,
                width: 1,
            },
            levels,
            draft: None,
            drafts: Vec::new(alloc),
        })
    }

    fn advance<W: Wait>(
        &mut self,
        alloc: Global,
        rt: &W,
        memo: &Memo<MergeRecipe<J>>,
        caller: &mut Caller<MergeRecipe<J>>,
        job: &J,
        run: u64,
        shift: &Shift,
        fresh: &[Sheet<J>],
        m: &mut J::Meter,
    ) -> Result<(), AllocError> {
        match shift {
            Shift::Slide {
                first,
                gone,
                places,
                fresh: came,
            } => {
                match advance(
                    alloc,
                    rt,
                    memo,
                    caller,
                    job,
                    run,
                    self.at,
                    &mut self.levels,
                    &mut self.drafts,
                    *first,
                    *gone,
                    places,
                    *came,
                    fresh,
                    m,
                ) {
                    Ok(at) => {
                        self.draft = Some(at);
                        return Ok(());
                    }
                    Err(e) => return Err(e),
                }
            }
            Shift::Splice { .. } => unreachable!(),
        }
    }

    fn settle<W: Wait>(
        &mut self,
        rt: &W,
        memo: &Memo<MergeRecipe<J>>,
        caller: &mut Caller<MergeRecipe<J>>,
    ) {
        match self.draft {
            Some(at) => {
                settle(rt, memo, caller, &mut self.levels, &mut self.drafts);
                self.at = at;
                self.draft = None;
                return;
            }
            None => unreachable!(),
        }
    }

    fn revert<W: Wait>(
        &mut self,
        rt: &W,
        memo: &Memo<MergeRecipe<J>>,
        caller: &mut Caller<MergeRecipe<J>>,
    ) {
        match self.draft {
            Some(_) => {
                let_drafts_go(rt, memo, caller, &mut self.drafts);
                self.draft = None;
                return;
            }
            None => return,
        }
    }

    fn root(&self) -> Option<&Sheet<J>> {
        match self.levels[self.at.height].nodes.front() {
            Some(part) => Some(part.sheet()),
            None => None,
        }
    }

    fn prepared(&self) -> bool {
        true
    }

    fn ahead<W: Wait>(
        &mut self,
        _alloc: Global,
        _rt: &W,
        _memo: &Memo<MergeRecipe<J>>,
        _caller: &mut Caller<MergeRecipe<J>>,
        _job: &J,
        _run: u64,
        _m: &mut J::Meter,
    ) -> Result<(), AllocError> {
        // Reading a field gives the prover the invariant of the tree.
        let _levels = &self.levels;
        Ok(())
    }
}
