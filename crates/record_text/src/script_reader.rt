//! Reads a script command by command while its bytes come in. What it returns depends only on the bytes taken, and it
//! takes no more than the next command needs.
ghost use Rattle.std.specs.Prelude.{◌≡◌, ◌≢◌, ◌<◌, ◌≤◌, ◌+◌, ◌-◌, ◌^◌, ◌++◌, ◌⊎◌, [], ℕ, List, length, take, true, false, IfOk, IfErr, IsErrOf, IsSome, None, Some, Err};
ghost use Rattle.definitions.specs.Outside.{Told, Rose};
ghost use Rattle.record_text.specs.Ahead.{most_piece};
ghost use Rattle.record_text.specs.Script.{commands};
ghost use Rattle.record_text.specs.Reading.{Sound, Uses, LookIs, RecordsAre, CommandIs, NextLineIs, NextTold, NextTaken, LastIs, SamePlace, TakenWhere, Lacks, RecordsLack, NeedsMore, to_come};
ghost use Rattle.record_text.specs.declared.script_fault.ScriptFault.{ScriptFault};
ghost use Rattle.record_text.specs.declared.script_fault.Why.TheVariants.{Read, Mem};

use crate::ahead::Ahead;
use crate::reading::{Found, Reading, look};
use crate::table::{Asked, ask};
use crate::{Command, Records, ScriptFault, Why};
use definitions::MOST_TEXT;
use slider_io::Source;
use std::alloc::Global;

/// Reads the commands of a script from a source, one after the other. It takes from the source only while it does not
/// hold the next line whole, and never after the source's end.
#[derive(Drop)]
pub struct ScriptReader<'a, S: Source> {
    source: &'a mut S,
    reading: Reading,
}

impl<'a, S: Source> ScriptReader<'a, S> {
    ghost use Rattle.record_text.specs.Reader.{reading_of, source_of};

    /// A reader of the script that the source has left, of which only the first `most` bytes count. It takes no memory.
    pub fn new(source: &'a mut S, alloc: Global, most: u64) -> ScriptReader<'a, S>
        requires some { 1 ≤ most }
        requires size { most < 2 ^ 62 }
        ensures same { (source_of result).ghost_name ≡ source.entry.ghost_name }
        ensures now { (source_of result).now ≡ source.old }
        ensures sound { Sound (reading_of result) (S.left source.old) }
        ensures commands { (script : List ℕ) → to_come (reading_of result) script ≡ commands most script }
        ensures ahead { (reading_of result).ahead ≡ [] }
        ensures room { (reading_of result).room ≡ most }
        ensures open { (reading_of result).ended ≡ false }
        ensures line { (reading_of result).line ≡ 0 }
        ensures last { (reading_of result).last ≡ 0 }
        ensures fault { (reading_of result).fault ≡ None }
    {
        let reading = Reading {
            ahead: Ahead::new(alloc),
            room: most,
            ended: false,
            line: 0,
            last: 0,
            fault: None,
        };
        ScriptReader { source, reading }
    }

    /// Gives the source back, with the bytes that were not taken.
    pub fn into_source(self) -> &'a mut S
        ensures same { result.ghost_name ≡ (source_of self.entry).ghost_name }
        ensures now { result.now ≡ (source_of self.entry).now }
    {
        let ScriptReader { source, reading } = self;
        drop(reading);
        source
    }

    /// The line of the last command that was returned, or 0 before the first.
    pub fn line(&self) -> u64
        ensures { result ≡ (reading_of self.now).last }
    {
        self.reading.last
    }

    /// Takes one piece from the source. It fails if the source does, or out of memory.
    fn fill(&mut self) -> Result<(), Why>
        requires room { 0 < self.old.reading.room }
        requires open { self.old.reading.ended ≡ false }
        ensures same { self.new.source.ghost_name ≡ self.old.source.ghost_name }
        ensures bytes { Told (S.left self.old.source.now) (S.left self.new.source.now) (λ l m. self.old.reading.ahead ++ l ≡ self.new.reading.ahead ++ m) }
        ensures end { Told (S.left self.old.source.now) (S.left self.new.source.now) (λ l m. self.new.reading.ended ≡ true → m ≡ []) }
        ensures count { self.new.reading.room + length self.new.reading.ahead ≡ self.old.reading.room + length self.old.reading.ahead }
        ensures on { IfOk result (λ _. self.new.reading.ended ≡ false → self.new.reading.room < self.old.reading.room) }
        ensures off { self.new.reading.ended ≡ true → self.new.reading.room ≡ self.old.reading.room }
        ensures place { SamePlace self.old.reading self.new.reading }
        ensures prefix { IfOk result (λ _. take (length self.old.reading.ahead) self.new.reading.ahead ≡ self.old.reading.ahead) }
        ensures piece { IfOk result (λ _. length self.new.reading.ahead ≤ length self.old.reading.ahead + most_piece) }
        ensures later { S.faults self.old.source.now ≤ S.faults self.new.source.now }
        ensures failed { IsErrOf result Why.Read → Rose (S.faults self.old.source.now) (S.faults self.new.source.now) }
        ensures only { IfErr result (λ why. (why ≡ Read) ⊎ (why ≡ Mem)) }
        ensures stays { IfErr result (λ why. (self.new.reading.ahead ≡ self.old.reading.ahead) × (self.new.reading.room ≡ self.old.reading.room) × (self.new.reading.ended ≡ self.old.reading.ended)) }
    {
        let n = match self
            .reading
            .ahead
            .take_from(&mut *self.source, self.reading.room)
        {
            Ok(n) => n,
            Err(why) => return Err(why),
        };
        self.reading.room -= n as u64;
        self.reading.ended = n == 0;
        Ok(())
    }

    /// Takes pieces until the next line is held, or there is none. It fails if the source does, or out of memory.
    fn look_ahead(&mut self) -> Result<Found, Why>
        requires { Sound self.old.reading (S.left self.old.source.now) }
        ensures same { self.new.source.ghost_name ≡ self.old.source.ghost_name }
        ensures found { LookIs self.new.reading.ended self.new.reading.room self.new.reading.ahead result }
        ensures used { Uses self.old.reading self.new.reading (S.left self.old.source.now) (S.left self.new.source.now) [] }
        ensures sound { Sound self.new.reading (S.left self.new.source.now) }
        ensures place { SamePlace self.old.reading self.new.reading }
        ensures touch { TakenWhere Lacks self.old.source.now self.new.source.now self.old.reading self.new.reading [] }
        ensures later { S.faults self.old.source.now ≤ S.faults self.new.source.now }
        ensures failed { IsErrOf result Why.Read → Rose (S.faults self.old.source.now) (S.faults self.new.source.now) }
    {
        'fills: loop {
            match look(
                &mut self.reading.ahead,
                self.reading.ended,
                self.reading.room,
            ) {
                Found::More => (),
                found => return Ok(found),
            }
            match self.fill() {
                Ok(()) => (),
                Err(why) => return Err(why),
            }
        }
    }

    /// The length of the next line without and with its line end, or `None` at the end.
    fn next_line(&mut self) -> Result<Option<(usize, usize)>, ScriptFault>
        requires { Sound self.old.reading (S.left self.old.source.now) }
        ensures line { NextLineIs self.old.reading.line self.new.reading.ended self.new.reading.room self.new.reading.ahead result }
        ensures used { Uses self.old.reading self.new.reading (S.left self.old.source.now) (S.left self.new.source.now) [] }
        ensures same { self.new.source.ghost_name ≡ self.old.source.ghost_name }
        ensures sound { Sound self.new.reading (S.left self.new.source.now) }
        ensures place { SamePlace self.old.reading self.new.reading }
        ensures touch { TakenWhere Lacks self.old.source.now self.new.source.now self.old.reading self.new.reading [] }
        ensures later { S.faults self.old.source.now ≤ S.faults self.new.source.now }
        ensures failed { IfErr result (λ fault. fault.why ≡ Read → Rose (S.faults self.old.source.now) (S.faults self.new.source.now)) }
        ensures at { IfErr result (λ fault. fault.line ≡ self.new.reading.line + 1) }
    {
        let num = self.reading.line + 1;
        match self.look_ahead() {
            Ok(Found::Line(len, skip)) => Ok(Some((len, skip))),
            Ok(Found::End) => Ok(None),
            Ok(Found::Long) => Err(ScriptFault {
                line: num,
                why: Why::LongLine,
            }),
            Ok(Found::Cut) => Err(ScriptFault {
                line: num,
                why: Why::LongScript,
            }),
            Ok(Found::More) => unreachable!(),
            Err(why) => Err(ScriptFault { line: num, why }),
        }
    }

    /// Reads the record lines of a command.
    fn read_records(&mut self, alloc: Global, n: u32) -> Result<Records, ScriptFault>
        requires { Sound self.old.reading (S.left self.old.source.now) }
        ensures reads { (used : List ℕ) × Uses self.old.reading self.new.reading (S.left self.old.source.now) (S.left self.new.source.now) used
            × RecordsAre self.old.reading.line n self.new.reading.line self.new.reading.ended self.new.reading.room used self.new.reading.ahead result }
        ensures same { self.new.source.ghost_name ≡ self.old.source.ghost_name }
        ensures sound { Sound self.new.reading (S.left self.new.source.now) }
        ensures last { self.new.reading.last ≡ self.old.reading.last }
        ensures fault { self.new.reading.fault ≡ self.old.reading.fault }
        ensures later { S.faults self.old.source.now ≤ S.faults self.new.source.now }
        ensures failed { IfErr result (λ fault. fault.why ≡ Read → Rose (S.faults self.old.source.now) (S.faults self.new.source.now)) }
        ensures at { IfErr result (λ fault. (fault.why ≡ Read) ⊎ (fault.why ≡ Mem) → fault.line ≡ self.new.reading.line + 1) }
        ensures on { self.old.reading.line ≤ self.new.reading.line }
        ensures touch { (used : List ℕ) × Uses self.old.reading self.new.reading (S.left self.old.source.now) (S.left self.new.source.now) used
            × TakenWhere (RecordsLack self.old.reading.line n) self.old.source.now self.new.source.now self.old.reading self.new.reading used }
        ensures count { self.new.reading.line + (self.new.reading.room + length self.new.reading.ahead) ≤ self.old.reading.line + (self.old.reading.room + length self.old.reading.ahead) }
    {
        let at = self.reading.line;
        let mut got = Records::new(alloc);
        'lines: for _ in 0..n {
            let (len, skip) = match self.next_line() {
                Ok(Some(line)) => line,
                Ok(None) => return Err(ScriptFault {
                    line: at,
                    why: Why::ShortInput,
                }),
                Err(fault) => return Err(fault),
            };
            match got.push(self.reading.ahead.prefix(len)) {
                Ok(()) => (),
                Err(_) => return Err(ScriptFault {
                    line: self.reading.line + 1,
                    why: Why::Mem,
                }),
            }
            self.reading.ahead.skip(skip);
            self.reading.line += 1;
            if got.text_len() > MOST_TEXT as u64 {
                return Err(ScriptFault {
                    line: at,
                    why: Why::WindowLarge,
                });
            }
        }
        Ok(got)
    }

    /// Reads the next command; `None` at the end.
    fn command(&mut self, alloc: Global) -> Result<Option<Command>, ScriptFault>
        requires { Sound self.old.reading (S.left self.old.source.now) }
        ensures reads { (used : List ℕ) × Uses self.old.reading self.new.reading (S.left self.old.source.now) (S.left self.new.source.now) used
            × CommandIs self.old.reading.line self.new.reading.line self.new.reading.last self.new.reading.ended self.new.reading.room used self.new.reading.ahead result }
        ensures same { self.new.source.ghost_name ≡ self.old.source.ghost_name }
        ensures sound { Sound self.new.reading (S.left self.new.source.now) }
        ensures fault { self.new.reading.fault ≡ self.old.reading.fault }
        ensures last { LastIs self.old.reading.last self.new.reading.last result }
        ensures later { S.faults self.old.source.now ≤ S.faults self.new.source.now }
        ensures failed { IfErr result (λ fault. fault.why ≡ Read → Rose (S.faults self.old.source.now) (S.faults self.new.source.now)) }
        ensures at { IfErr result (λ fault. (fault.why ≡ Read) ⊎ (fault.why ≡ Mem) → fault.line ≡ self.new.reading.line + 1) }
        ensures moved { IfOk result (λ c. IsSome c → self.old.reading.line < self.new.reading.line) }
        ensures touch { (used : List ℕ) × Uses self.old.reading self.new.reading (S.left self.old.source.now) (S.left self.new.source.now) used
            × TakenWhere (NeedsMore self.old.reading.line) self.old.source.now self.new.source.now self.old.reading self.new.reading used }
        ensures count { self.new.reading.line + (self.new.reading.room + length self.new.reading.ahead) ≤ self.old.reading.line + (self.old.reading.room + length self.old.reading.ahead) }
        ensures behind { IfOk result (λ c. IsSome c → self.new.reading.last ≤ self.new.reading.line) }
    {
        let (len, skip) = match self.next_line() {
            Ok(Some(line)) => line,
            Ok(None) => return Ok(None),
            Err(fault) => return Err(fault),
        };
        let asked = match ask(alloc, self.reading.ahead.prefix(len)) {
            Ok(asked) => asked,
            Err(_) => return Err(ScriptFault {
                line: self.reading.line + 1,
                why: Why::Mem,
            }),
        };
        self.reading.ahead.skip(skip);
        self.reading.line += 1;
        let line = self.reading.line;
        let (head, n) = match asked {
            Asked::Asks(head, n) => (head, n),
            Asked::Refuses(why) => return Err(ScriptFault { line, why }),
        };
        match self.read_records(alloc, n) {
            Ok(got) => {
                self.reading.last = line;
                Ok(Some(head.command(got)))
            }
            Err(fault) => Err(fault),
        }
    }

    /// The next command; `None` at the end of the script and from then on. Each byte is read once. Memory holds the
    /// command with its records, one line, and one piece.
    ///
    /// # Errors
    ///
    /// The fault that ends the script, with its line: one of form, a failed read, or out of memory. Every later call
    /// returns the same fault.
    pub fn next(&mut self, alloc: Global) -> Result<Option<Command>, ScriptFault>
        requires { Sound (reading_of self.old) (S.left (source_of self.old).now) }
        ensures told { Told (S.left (source_of self.old).now) (S.left (source_of self.new).now) (λ l m. NextTold (to_come (reading_of self.old) l) (to_come (reading_of self.new) m) (reading_of self.new).last result) }
        ensures taken { (reading_of self.old).fault ≡ None → (used : List ℕ) × Uses (reading_of self.old) (reading_of self.new) (S.left (source_of self.old).now) (S.left (source_of self.new).now) used
            × NextTaken (reading_of self.old) (reading_of self.new) used result }
        ensures sticky { (fault : ScriptFault) → (reading_of self.old).fault ≡ Some fault → (result ≡ Err fault) × (reading_of self.new ≡ reading_of self.old) × ((source_of self.new).now ≡ (source_of self.old).now) }
        ensures fault { IfErr result (λ fault. (reading_of self.new).fault ≡ Some fault) }
        ensures clear { IfOk result (λ _. (reading_of self.new).fault ≡ None) }
        ensures last { LastIs (reading_of self.old).last (reading_of self.new).last result }
        ensures same { (source_of self.new).ghost_name ≡ (source_of self.old).ghost_name }
        ensures sound { Sound (reading_of self.new) (S.left (source_of self.new).now) }
        ensures later { S.faults (source_of self.old).now ≤ S.faults (source_of self.new).now }
        ensures failed { IfErr result (λ fault. (reading_of self.old).fault ≡ None → fault.why ≡ Read → Rose (S.faults (source_of self.old).now) (S.faults (source_of self.new).now)) }
        ensures at { IfErr result (λ fault. (reading_of self.old).fault ≡ None → (fault.why ≡ Read) ⊎ (fault.why ≡ Mem) → fault.line ≡ (reading_of self.new).line + 1) }
        ensures moved { IfOk result (λ c. IsSome c → (reading_of self.old).line < (reading_of self.new).line) }
        ensures touch { (used : List ℕ) × Uses (reading_of self.old) (reading_of self.new) (S.left (source_of self.old).now) (S.left (source_of self.new).now) used
            × TakenWhere (NeedsMore (reading_of self.old).line) (source_of self.old).now (source_of self.new).now (reading_of self.old) (reading_of self.new) used }
        ensures count { (reading_of self.new).line + ((reading_of self.new).room + length (reading_of self.new).ahead) ≤ (reading_of self.old).line + ((reading_of self.old).room + length (reading_of self.old).ahead) }
        ensures behind { IfOk result (λ c. IsSome c → (reading_of self.new).last ≤ (reading_of self.new).line) }
    {
        if let Some(fault) = self.reading.fault {
            return Err(fault);
        }
        match self.command(alloc) {
            Ok(found) => Ok(found),
            Err(fault) => {
                self.reading.fault = Some(fault);
                Err(fault)
            }
        }
    }
}
