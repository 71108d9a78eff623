// A script that is read line by line.
ghost use Rattle.std.specs.Prelude.{◌≡◌, ◌+◌, ◌^◌, ◌<◌, length, Ok, MatchResult};
ghost use Rattle.script.specs.Cuts.{first_line, later_lines};
ghost use Rattle.script.specs.Says.{Says};
ghost use Rattle.script.specs.Order.{role, follows};
ghost use Rattle.script.specs.Script.{Stops, CountedReader, Next};
ghost use Rattle.script.specs.declared.order.Phase.TheVariants.{SettingUp};

use crate::cuts::part;
use crate::fault::{Fault, ScriptError};
use crate::line::{Line, Numbered, read_line};
use crate::order::Phase;
use std::alloc::Global;
use std::marker::Model;

/// The first line of a script, without its line feed, and the bytes after it.
#[tactic(auto, using(crate::proofs::Cutting::later_shorter))]
pub fn split_line(script: &[u8]) -> (&[u8], &[u8])
    ensures line { result.0.now ≡ first_line script.now }
    ensures rest { result.1.now ≡ later_lines script.now }
    ensures len { 0 < length script.now → length result.1.now < length script.now }
{
    part(b'\n', script)
}

/// What a line says in a phase of the writer, and the phase after it.
pub fn read_in_phase(heap: Global, phase: Phase, text: &[u8]) -> Result<(Line, Phase), Fault>
    ensures cases { MatchResult result (λ x. Says x.0 text.now × (follows phase (role x.0) ≡ Ok x.1)) (λ e. Stops e phase text.now) }
{
    let line = read_line(heap, text)?;
    let after = phase.follow(line.role())?;
    Ok((line, after))
}

/// What is left of a script.
#[derive(Drop)]
pub struct Script<'s> {
    rest: &'s [u8],
    read: usize,
    phase: Phase,
    ghost counts: { read + length rest.now < 2 ^ 64 },
}

// The fact is a ghost field and no `invariant`, so that `view` hands it on: each caller has it, of any script.
impl<'s> Model for Script<'s> {
    ghost Value = { CountedReader };

    ghost view = { λ s. record { reader = record { rest = s.rest.now; read = s.read; phase = s.phase }; counts = s.counts } };
}

impl<'s> Script<'s> {
    pub fn new(script: &'s [u8]) -> Script<'s>
        ensures rest { result.reader.rest ≡ script.now }
        ensures read { result.reader.read ≡ 0 }
        ensures phase { result.reader.phase ≡ SettingUp }
    {
        Script {
            rest: script,
            read: 0,
            phase: Phase::SettingUp,
        }
    }

    // A method and no `Iterator`, since each call is lent the heap.
    /// The next line with its number, counted from 1, or nothing at the end.
    /// An error is told with its line, and the line counts as read.
    pub fn next_line(&mut self, heap: Global) -> Result<Option<Numbered>, ScriptError>
        ensures next { Next result self.old.reader self.new.reader }
    {
        if self.rest.is_empty() {
            return Ok(None);
        }
        let (text, rest) = split_line(self.rest);
        self.rest = rest;
        self.read += 1;
        let number = self.read;
        let at_line = |fault: Fault| fault.at_line(number);
        let (line, phase) = read_in_phase(heap, self.phase, text).map_err(at_line)?;
        self.phase = phase;
        Ok(Some(Numbered { number, line }))
    }
}
