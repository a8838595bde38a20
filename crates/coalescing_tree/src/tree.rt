//! The tree keeps a draft's leaves at the end of its own, so that settling takes no memory.
use crate::draft::Draft;
use crate::growing::draft_over;
use crate::root::root_over;
use crate::sharing::share_all;
use job_laws::{Job, Meter};
use pin_table::{Caller, Memo};
use record_text::{Kind, Shift};
use sheets::Sheet;
use std::alloc::{AllocError, Global};
use std::marker::Model;
use std::sync::Wait;
use tree_laws::{Hold, MergeRecipe, Tree, let_all_go, let_some_go};

/// One merge over all leaves of a window that only grows.
#[derive(Drop)]
pub struct CoalescingTree<J: Job> {
    setting: u32,
    places: u32,
    // The leaves, with those of a draft at the end.
    leaves: Vec<Sheet<J>>,
    // How many of them are not of a draft.
    standing: usize,
    // The merge over these, if they are two or more.
    top: Option<Hold<J>>,
    draft: Option<Draft<J>>,
}

impl<J: Job> Model for CoalescingTree<J> {
    ghost use Rattle.tree_laws.specs.Pairs.{pair_digest};
    ghost use Rattle.tree_laws.specs.Trees.{Seen};
    ghost use Rattle.coalescing_tree.specs.Growing.{seen_of, IsSound};

    ghost Value = { Seen J.Val };

    ghost view = { λ t. seen_of (pair_digest J.encoded) t.setting t.places t.leaves.items t.standing t.top t.draft };

    ghost invariant = { λ t. IsSound J.good J.joined t.setting t.leaves.items t.standing t.top t.draft };
}

impl<J: Job> Tree<J> for CoalescingTree<J> {
    ghost use Rattle.std.specs.Prelude.{◌-◌, true, length};
    ghost use Rattle.record_text.specs.declared.kind.Kind.TheVariants.{Growing};
    ghost use Rattle.tree_laws.specs.Trees.{no_shape};
    ghost use Rattle.coalescing_tree.specs.Growing.{fresh_of};

    const KIND: Kind = Kind::Growing;

    ghost KIND = { Growing };

    ghost view = { λ t. t.tree };

    ghost pins = { λ t. t.pins };

    ghost most = { λ t. length t.tree.leaves.tables - 1 };

    ghost bound = { λ places shape count shift. fresh_of shift };

    ghost tight = { λ t shift news. fresh_of shift };

    ghost shaped = { λ shape shift. no_shape };

    ghost is_prepared = { λ t. true };

    ghost ahead_bound = { λ t. 0 };

    fn fresh(alloc: Global, setting: u32, places: u32) -> Result<CoalescingTree<J>, AllocError> {
        Ok(CoalescingTree {
            setting,
            places,
            leaves: Vec::new(alloc),
            standing: 0,
            top: None,
            draft: None,
        })
    }

    fn advance<W: Wait>(
        &mut self,
        alloc: Global,
        rt: &W,
        memo: &Memo<MergeRecipe<J>>,
        caller: &mut Caller<MergeRecipe<J>>,
        job: &J,
        run: u64,
        _shift: &Shift,
        fresh: &[Sheet<J>],
        m: &mut J::Meter,
    ) -> Result<(), AllocError> {
        match share_all(&mut self.leaves, fresh) {
            Ok(()) => (),
            Err(e) => return Err(e),
        }
        match draft_over(
            alloc,
            rt,
            memo,
            caller,
            job,
            run,
            self.leaves.as_slice(),
            self.standing,
            self.top.as_ref(),
            m,
        ) {
            Ok(draft) => {
                self.draft = Some(draft);
                return Ok(());
            }
            Err(e) => {
                self.leaves.truncate(self.standing);
                return Err(e);
            }
        }
    }

    fn settle<W: Wait>(
        &mut self,
        rt: &W,
        memo: &Memo<MergeRecipe<J>>,
        caller: &mut Caller<MergeRecipe<J>>,
    ) {
        match self.draft.take() {
            Some(Draft::Merged(made)) => {
                let mut spare = made;
                let old = self.top.take();
                self.top = spare.pop();
                self.standing = self.leaves.len();
                let_all_go(rt, memo, caller, spare);
                let_some_go(rt, memo, caller, old);
                return;
            }
            Some(Draft::Same) => return,
            None => return,
        }
    }

    fn revert<W: Wait>(
        &mut self,
        rt: &W,
        memo: &Memo<MergeRecipe<J>>,
        caller: &mut Caller<MergeRecipe<J>>,
    ) {
        match self.draft.take() {
            Some(Draft::Merged(made)) => {
                self.leaves.truncate(self.standing);
                let_all_go(rt, memo, caller, made);
                return;
            }
            Some(Draft::Same) => return,
            None => return,
        }
    }

    fn root(&self) -> Option<&Sheet<J>> {
        root_over(&self.leaves[..self.standing], self.top.as_ref())
    }

    fn prepared(&self) -> bool {
        true
    }

    fn ahead<W: Wait>(
        &mut self,
        _alloc: Global,
        _rt: &W,
        _memo: &Memo<MergeRecipe<J>>,
        _caller: &mut Caller<MergeRecipe<J>>,
        _job: &J,
        _run: u64,
        _m: &mut J::Meter,
    ) -> Result<(), AllocError> {
        // Reading a field gives the prover the invariant of the tree.
        let _top = &self.top;
        Ok(())
    }
}
