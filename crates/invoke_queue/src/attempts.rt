//! The attempts, with the set of those that live.
ghost use Rattle.std.specs.Prelude.{◌≡◌, ◌<◌, ℕ, [], ◌∷◌, ◌++◌, length, slice_get, slice_set, Some, OnOk, OnErr};
ghost use Rattle.std.specs.Option.{option_copied, option_map};
ghost use Rattle.world_types.specs.declared.queue.Attempt.{Attempt};
ghost use Rattle.invoke_queue.specs.Queue.{live_numbers, first_attempt, atts_with, attempt_after_end, attempt_after_step, attempt_after_move, attempt_at};

use crate::lists::push_within;
use crate::numbers::Numbers;
use std::alloc::Global;
use std::marker::Model;
use std::mem;
use unum_json::NoMemory;
use world_types::{Attempt, Phase};

/// The attempts. Contracts see the list of them.
#[derive(Drop)]
pub struct Attempts {
    items: Vec<Attempt>,
    /// The attempts that live.
    live: Numbers,
}

impl Model for Attempts {
    ghost use Rattle.std.specs.Prelude.{List};
    ghost use Rattle.std.specs.Coded.{codes};
    ghost use Rattle.unum_json.specs.contracts.kept.Json as json;
    ghost use Rattle.world_types.specs.declared.queue.Attempt.{Attempt};
    ghost use Rattle.invoke_queue.specs.Numbers.{IsNumbered};

    ghost Value = { List Attempt };

    ghost coded = { Prim.hlevel (codes, json.the_row.coded) };

    ghost view = { λ s. s.items.items };

    ghost invariant = { λ s. IsNumbered (λ a (t : Attempt). t.live) s.items.items s.live };
}

impl Attempts {
    /// No attempt, which takes no memory.
    pub fn new(alloc: Global) -> Attempts
        ensures { result ≡ [] }
    {
        Attempts {
            items: Vec::new(alloc),
            live: Numbers::new(alloc),
        }
    }

    /// How many attempts there are.
    pub fn len(&self) -> usize
        ensures { result ≡ length self.now }
    {
        self.items.len()
    }

    /// An attempt, or `None` exactly where there is no such number.
    pub fn get(&self, attempt: u32) -> Option<&Attempt>
        ensures { option_copied result ≡ slice_get self.now attempt }
    {
        self.items.get(attempt as usize)
    }

    /// One attempt more, of that invocation.
    pub fn push(&mut self, inv: u32) -> Result<(), NoMemory>
        requires { length self.old < 4294967295 }
        ensures ok { OnOk result (self.new ≡ self.old ++ first_attempt inv ∷ []) }
        ensures err { OnErr result (self.new ≡ self.old) }
    {
        self.items.reserve(1)?;
        self.live.grow()?;
        let number = self.items.len() as u32;
        self.live.insert(number);
        let first = Attempt {
            inv,
            live: true,
            steps: 0,
            phase: Phase::Looking,
        };
        push_within(&mut self.items, first);
        Ok(())
    }

    /// Ends an attempt.
    pub fn end(&mut self, attempt: u32)
        requires { attempt < length self.old }
        ensures { self.new ≡ atts_with self.old attempt attempt_after_end (slice_get self.old attempt) }
    {
        self.live.remove(attempt);
        let t = &mut self.items[attempt as usize];
        t.live = false;
    }

    /// Counts a step of an attempt.
    pub fn tick(&mut self, attempt: u32)
        requires there { attempt < length self.old }
        requires few { (t : Attempt) → slice_get self.old attempt ≡ Some t → t.steps < 4294967295 }
        ensures { self.new ≡ atts_with self.old attempt attempt_after_step (slice_get self.old attempt) }
    {
        let t = &mut self.items[attempt as usize];
        t.steps += 1;
    }

    /// Puts another phase in place of an attempt's own, which it answers.
    pub fn put_phase(&mut self, attempt: u32, phase: Phase) -> Phase
        requires { attempt < length self.old }
        ensures changed { self.new ≡ atts_with self.old attempt (attempt_at phase) (slice_get self.old attempt) }
        ensures before { option_map (λ (t : Attempt). t.phase) (slice_get self.old attempt) ≡ Some result }
    {
        let t = &mut self.items[attempt as usize];
        mem::replace(&mut t.phase, phase)
    }

    /// Counts a step of an attempt, and puts another phase in place of its own, which it answers.
    pub fn advance(&mut self, attempt: u32, phase: Phase) -> Phase
        requires there { attempt < length self.old }
        requires few { (t : Attempt) → slice_get self.old attempt ≡ Some t → t.steps < 4294967295 }
        ensures changed { self.new ≡ atts_with self.old attempt (attempt_after_move phase) (slice_get self.old attempt) }
        ensures before { option_map (λ (t : Attempt). t.phase) (slice_get self.old attempt) ≡ Some result }
    {
        let t = &mut self.items[attempt as usize];
        t.steps += 1;
        mem::replace(&mut t.phase, phase)
    }

    /// How many attempts live.
    pub fn live_len(&self) -> usize
        ensures { result ≡ length (live_numbers self.now) }
    {
        self.live.len()
    }

    /// The live attempt with an index, by rising number, or `None` exactly past the end.
    pub fn live_at(&self, index: usize) -> Option<u32>
        ensures { result ≡ slice_get (live_numbers self.now) index }
    {
        self.live.at(index)
    }
}
