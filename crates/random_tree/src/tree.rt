//! A tree over the chunks of a document: levels of groups, each with a draft of its own.
use crate::drafting::draft_all;
use crate::level::Level;
use crate::reverting::revert_all;
use crate::root::root_of;
use crate::settling::settle_all;
use job_laws::{Job, Meter};
use pin_table::{Caller, Memo};
use record_text::{Kind, Shift};
use sheets::Sheet;
use std::alloc::{AllocError, Global};
use std::marker::Model;
use std::sync::Wait;
use tree_laws::{MergeRecipe, Tree};

/// The merges over a document's chunks.
#[derive(Drop)]
pub struct RandomTree<J: Job> {
    setting: u32,
    places: u32,
    // The levels from the leaves upwards, at least one; those above the root have no groups.
    levels: Vec<Level<J>>,
    drafted: bool,
}

impl<J: Job> Model for RandomTree<J> {
    ghost use Rattle.tree_laws.specs.Pairs.{pair_digest};
    ghost use Rattle.random_tree.specs.Levels.{seen_of, IsSound};
    ghost use Rattle.tree_laws.specs.Trees.{Seen};

    ghost Value = { Seen J.Val };

    ghost view = { λ t. seen_of (pair_digest J.encoded) t.setting t.places t.levels.items t.drafted };

    ghost invariant = { λ t. IsSound J.good J.joined J.encoded t.setting t.levels.items t.drafted };
}

impl<J: Job> Tree<J> for RandomTree<J> {
    ghost use Rattle.std.specs.Prelude.{◌-◌, true, length};
    ghost use Rattle.record_text.specs.declared.kind.Kind.TheVariants.{Document};
    ghost use Rattle.record_text.specs.Shifts.{shifted};
    ghost use Rattle.tree_laws.specs.Trees.{no_shape};
    ghost use Rattle.random_tree.specs.Inputs.{fresh_inputs};
    ghost use Rattle.random_tree.specs.Levels.{count_after};

    const KIND: Kind = Kind::Document;

    ghost KIND = { Document };

    ghost view = { λ t. t.tree };

    ghost pins = { λ t. t.pins };

    ghost most = { λ t. length t.tree.leaves.tables - 1 };

    ghost bound = { λ places shape count shift. count_after shift count - 1 };

    ghost tight = { λ t shift news. length (fresh_inputs J.encoded J.joined t.tree.setting t.tree.leaves.tables (shifted shift news t.tree.leaves.tables)) };

    ghost shaped = { λ shape shift. no_shape };

    ghost is_prepared = { λ t. true };

    ghost ahead_bound = { λ t. 0 };

    fn fresh(alloc: Global, setting: u32, places: u32) -> Result<RandomTree<J>, AllocError> {
        let mut levels = Vec::new(alloc);
        levels.push(Level::new(alloc))?;
        Ok(RandomTree {
            setting,
            places,
            levels,
            drafted: false,
        })
    }

    fn advance<W: Wait>(
        &mut self,
        alloc: Global,
        rt: &W,
        memo: &Memo<MergeRecipe<J>>,
        caller: &mut Caller<MergeRecipe<J>>,
        job: &J,
        run: u64,
        shift: &Shift,
        fresh: &[Sheet<J>],
        m: &mut J::Meter,
    ) -> Result<(), AllocError> {
        match draft_all(
            alloc,
            rt,
            memo,
            caller,
            job,
            run,
            shift,
            fresh,
            &mut self.levels,
            m,
        ) {
            Ok(()) => {
                self.drafted = true;
                return Ok(());
            }
            Err(e) => {
                revert_all(rt, memo, caller, self.levels.as_mut_slice());
                return Err(e);
            }
        }
    }

    fn settle<W: Wait>(
        &mut self,
        rt: &W,
        memo: &Memo<MergeRecipe<J>>,
        caller: &mut Caller<MergeRecipe<J>>,
    ) {
        settle_all(rt, memo, caller, self.levels.as_mut_slice());
        self.drafted = false;
    }

    fn revert<W: Wait>(
        &mut self,
        rt: &W,
        memo: &Memo<MergeRecipe<J>>,
        caller: &mut Caller<MergeRecipe<J>>,
    ) {
        if !self.drafted {
            return;
        }
        revert_all(rt, memo, caller, self.levels.as_mut_slice());
        self.drafted = false;
    }

    fn root(&self) -> Option<&Sheet<J>> {
        root_of(self.levels.as_slice())
    }

    fn prepared(&self) -> bool {
        true
    }

    fn ahead<W: Wait>(
        &mut self,
        _alloc: Global,
        _rt: &W,
        _memo: &Memo<MergeRecipe<J>>,
        _caller: &mut Caller<MergeRecipe<J>>,
        _job: &J,
        _run: u64,
        _m: &mut J::Meter,
    ) -> Result<(), AllocError> {
        // Reading a field gives the prover the invariant of the tree.
        let _levels = &self.levels;
        Ok(())
    }
}
