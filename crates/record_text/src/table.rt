//! The table of commands: the word of a command line chooses a row, and its fields fill it.
ghost use Rattle.std.specs.Prelude.{◌≡◌, ◌≢◌, All, IfOk};
ghost use Rattle.record_text.specs.Fields.{IsField, fields_behind};
ghost use Rattle.record_text.specs.Table.{RefusesForm, asked, command_of, row_of};

use crate::fields::{no_field, one_name, one_number, split_field, three_numbers, two_numbers};
use crate::words::{Word, word_of};
use crate::{Command, Name, Records, Why};
use std::alloc::{AllocError, Global};

/// A command without its records.
#[derive(Drop)]
pub enum Head {
    OfBucket,
    OfDrop(u32),
    OfLate(u32),
    OfFile(Name),
    OfRemove(Name),
    OfEdit(u32, u32),
    OfLoad,
    OfRun,
}

impl Head {
    /// The command with its records.
    pub fn command(self, records: Records) -> Command
        ensures { result ≡ command_of self records }
    {
        match self {
            Head::OfBucket => Command::Bucket(records),
            Head::OfDrop(n) => Command::Drop(n),
            Head::OfLate(place) => Command::Late {
                place,
                more: records,
            },
            Head::OfFile(name) => Command::File { name },
            Head::OfRemove(name) => Command::Remove { name },
            Head::OfEdit(at, del) => Command::Edit {
                at,
                del,
                ins: records,
            },
            Head::OfLoad => Command::Load(records),
            Head::OfRun => Command::Run,
        }
    }
}

/// What a command line asks for: a command with a number of record lines, or a fault.
#[derive(Drop)]
pub enum Asked {
    Asks(Head, u32),
    Refuses(Why),
}

/// What a row asks for. Only a name takes memory.
fn ask_row(alloc: Global, word: Word, rest: Option<&[u8]>) -> Result<Asked, AllocError>
    requires { All IsField (fields_behind rest) }
    ensures row { IfOk result (λ asked. asked ≡ row_of word (fields_behind rest.entry)) }
    ensures form { IfOk result RefusesForm }
{
    let asked = match word {
        Word::Bucket => match one_number(rest) {
            Ok(n) => Asked::Asks(Head::OfBucket, n),
            Err(why) => Asked::Refuses(why),
        },
        Word::Drop => match one_number(rest) {
            Ok(n) => Asked::Asks(Head::OfDrop(n), 0),
            Err(why) => Asked::Refuses(why),
        },
        Word::Late => match two_numbers(rest) {
            Ok((place, n)) => Asked::Asks(Head::OfLate(place), n),
            Err(why) => Asked::Refuses(why),
        },
        Word::File => match one_name(alloc, rest)? {
            Ok(name) => Asked::Asks(Head::OfFile(name), 0),
            Err(why) => Asked::Refuses(why),
        },
        Word::Remove => match one_name(alloc, rest)? {
            Ok(name) => Asked::Asks(Head::OfRemove(name), 0),
            Err(why) => Asked::Refuses(why),
        },
        Word::Edit => match three_numbers(rest) {
            Ok((at, del, n)) => Asked::Asks(Head::OfEdit(at, del), n),
            Err(why) => Asked::Refuses(why),
        },
        Word::Load => match one_number(rest) {
            Ok(n) => Asked::Asks(Head::OfLoad, n),
            Err(why) => Asked::Refuses(why),
        },
        Word::Run => match no_field(rest) {
            Ok(()) => Asked::Asks(Head::OfRun, 0),
            Err(why) => Asked::Refuses(why),
        },
    };
    Ok(asked)
}

/// What a command line asks for. Only a name takes memory.
pub fn ask(alloc: Global, line: &[u8]) -> Result<Asked, AllocError>
    requires { All (λ b. b ≢ 10) line.now }
    ensures asked { IfOk result (λ a. a ≡ asked line.now) }
    ensures form { IfOk result RefusesForm }
{
    let (word, rest) = split_field(line);
    match word_of(word) {
        Some(word) => ask_row(alloc, word, rest),
        None => Ok(Asked::Refuses(Why::Unknown)),
    }
}
