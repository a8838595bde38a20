//! The values of the options of the command line, as `clap` reads them, and the plan that the arguments ask for.
ghost use Rattle.std.specs.Prelude.{◌≡◌, List, IfErr, IfOk, Ok, Some, false, map, string_bytes};
ghost use Rattle.clap.specs.Words.{app_of, rule_of};
ghost use Rattle.program_words.specs.WellFormed.{Item, items_of};
ghost use Rattle.program_words.specs.Plans.{given_by, plan_of, values_as_text, IsWithin};
ghost use Rattle.program_words.specs.Usages.{IsRefusalOf};
ghost use Rattle.program_words.specs.Options.{bare_app, flag_rule, option_rule, slider_app};

use crate::plan::{Field, Plan, Values, plan_by};
use crate::scan::are_well_formed;
use crate::usage::WordsFault;
use clap::{Arg, ArgAction, Command, Error};
use std::alloc::{AllocError, Global};

/// An option that takes one value.
fn option<'a>(alloc: Global, name: &'a str) -> Arg<'a>
    ensures rule { rule_of result ≡ option_rule name.entry.now }
    ensures alone { result.global ≡ false }
{
    Arg::new(alloc, name).long(name)
}

/// A flag, which takes no value.
fn flag<'a>(alloc: Global, name: &'a str) -> Arg<'a>
    ensures rule { rule_of result ≡ flag_rule name.entry.now }
    ensures alone { result.global ≡ false }
{
    Arg::new(alloc, name).long(name).action(ArgAction::SetTrue)
}

/// The command without options.
fn bare_command<'a>(alloc: Global) -> Command<'a>
    ensures { app_of result ≡ bare_app }
{
    Command::new(alloc, "slider")
        .no_binary_name(true)
        .disable_help_flag(true)
}

/// The command with the options, which take one value each, and the flag. It has no positional argument, no help flag,
/// no default, and no relation between options.
fn command<'a>(alloc: Global) -> Result<Command<'a>, AllocError>
    ensures { IfOk result (λ command. app_of command ≡ slider_app) }
{
    bare_command(alloc)
        .arg(option(alloc, "job"))?
        .arg(option(alloc, "k"))?
        .arg(option(alloc, "tree"))?
        .arg(option(alloc, "buckets"))?
        .arg(option(alloc, "parts"))?
        .arg(option(alloc, "workers"))?
        .arg(option(alloc, "shards"))?
        .arg(option(alloc, "keep"))?
        .arg(option(alloc, "gen"))?
        .arg(flag(alloc, "work"))
}

/// The values of the options in a well formed list, and whether it has the flag.
fn values_of<'a>(alloc: Global, words: &'a [String]) -> Result<Values<'a>, Error>
    ensures { (items : List Item) → items_of (map string_bytes words.entry.now) ≡ Some items → IfOk result (λ values. values_as_text values ≡ given_by items) }
{
    let command = command(alloc)?;
    let matches = command.try_get_matches_from(words)?;
    Ok(Values {
        job: matches.get_str("job"),
        k: matches.get_str("k"),
        tree: matches.get_str("tree"),
        buckets: matches.get_str("buckets"),
        parts: matches.get_str("parts"),
        workers: matches.get_str("workers"),
        shards: matches.get_str("shards"),
        keep: matches.get_str("keep"),
        generate: matches.get_str("gen"),
        work: matches.get_flag("work"),
    })
}

/// Reads the arguments: what they ask for, or the first field that they are refused for, in the order words, job, k,
/// tree, buckets, parts, workers, shards, keep, gen, and last tree, for a tree that the job cannot be used with. Only a
/// well formed list goes to `clap`; if `clap` refuses it, that is reported as out of memory. It walks the arguments
/// once.
pub fn read_words(alloc: Global, words: &[String]) -> Result<Plan, WordsFault>
    ensures accepted { IfOk result (λ plan. plan_of (map string_bytes words.now) ≡ Ok plan) }
    ensures within { IfOk result IsWithin }
    ensures refused { IfErr result (IsRefusalOf (plan_of (map string_bytes words.now))) }
{
    match are_well_formed(alloc, words) {
        Ok(true) => {}
        Ok(false) => return Err(WordsFault::Usage(Field::Words)),
        Err(_) => return Err(WordsFault::Mem),
    }
    let Ok(values) = values_of(alloc, words) else {
        return Err(WordsFault::Mem);
    };
    match plan_by(values) {
        Ok(plan) => Ok(plan),
        Err(field) => Err(WordsFault::Usage(field)),
    }
}
