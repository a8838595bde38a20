//! How notes become final, and how texts that no leaf uses any more are given up.
ghost use Rattle.std.specs.Prelude.{◌≡◌, ◌<◌, length};
ghost use Rattle.pin_table.specs.Covers.{Covered, Balanced};
ghost use Rattle.map_tasks.specs.Texts.{pins_in};
ghost use Rattle.map_tasks.specs.Table.{texts_in, FinishesOne, FinishesAll};

use crate::held::Finish;
use crate::map_recipe::MapRecipe;
use crate::texts::Texts;
use job_laws::Job;
use pin_table::{Caller, Memo};
use std::sync::Wait;

/// Makes all notes final. It takes no memory, and walks only the texts with notes.
pub(crate) fn finish_texts<J: Job, W: Wait>(
    rt: &W,
    memo: &Memo<MapRecipe<J>>,
    caller: &mut Caller<MapRecipe<J>>,
    texts: &mut Texts<J>,
    how: Finish,
)
    requires of { caller.old.locks ≡ memo.now.locks }
    requires covered { Covered caller.old (pins_in (texts_in texts.old.rows)) }
    ensures finished { FinishesAll how (texts_in texts.old.rows) (texts_in texts.new.rows) }
    ensures pins { Balanced caller.old (pins_in (texts_in texts.old.rows)) caller.new (pins_in (texts_in texts.new.rows)) }
    ensures covered { Covered caller.new (pins_in (texts_in texts.new.rows)) }
{
    'texts: while texts.has_next() {
        finish_one(rt, memo, caller, texts, how);
    }
}

// Makes the notes of one text final.
fn finish_one<J: Job, W: Wait>(
    rt: &W,
    memo: &Memo<MapRecipe<J>>,
    caller: &mut Caller<MapRecipe<J>>,
    texts: &mut Texts<J>,
    how: Finish,
)
    requires of { caller.old.locks ≡ memo.now.locks }
    requires covered { Covered caller.old (pins_in (texts_in texts.old.rows)) }
    requires next { texts.old.calm < length texts.old.rows }
    ensures one { FinishesOne how texts.old texts.new }
    ensures pins { Balanced caller.old (pins_in (texts_in texts.old.rows)) caller.new (pins_in (texts_in texts.new.rows)) }
    ensures covered { Covered caller.new (pins_in (texts_in texts.new.rows)) }
{
    match texts.finish_next(how) {
        None => {}
        Some(held) => match held.into_pin() {
            None => {}
            Some(pin) => memo.give_up(rt, caller, pin),
        },
    }
}
