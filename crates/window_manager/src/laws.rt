//! Laws of the definitions. Each function does nothing: its contract is the law, which a caller gets by the call.
ghost use Rattle.window_manager.specs.OlderRule.{SameWithoutFiles};
ghost use Rattle.window_manager.specs.Since.{ShiftBalances, SinceAnew, SinceNew, SinceOn};
ghost use Rattle.window_manager.specs.Splices.{SplicesJoin};

/// Over commands that name no file the rule of windows is that of windows without files, in leaves and in refusals.
pub fn same_without_files()
    ensures { SameWithoutFiles }
{}

/// If a splice leads from some leaves to others, and a change leads on from these, their composition leads from the
/// first to the last.
pub fn splices_join()
    ensures { SplicesJoin }
{}

/// How a window leads on from the leaves of the last run: from none before the first command, from its own after a run,
/// and from the same leaves as before after each command that it carries out.
pub fn since_laws()
    ensures new { SinceNew }
    ensures anew { SinceAnew }
    ensures on { SinceOn }
{}

/// What is there after a shift, together with what it takes away, is what was there before, together with what it
/// brings.
pub fn shift_balances()
    ensures { ShiftBalances }
{}
