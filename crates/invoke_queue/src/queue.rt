//! The queue: messages, what is known of each, and their attempts.
ghost use Rattle.std.specs.Prelude.{◌≡◌, ◌<◌, ◌↔◌, ℕ, true, [], ◌∷◌, ◌++◌, length, slice_get, Some, Err, IfOk, OnOk, OnErr, IsFalse, vec_len, vec_capacity};
ghost use Rattle.std.specs.Option.{option_copied, option_map};
ghost use Rattle.world_types.specs.declared.queue.InvState.{InvState};
ghost use Rattle.world_types.specs.declared.queue.Attempt.{Attempt};
ghost use Rattle.world_model.specs.AnyCode.World.{fresh_state, state_after_ack, state_after_crash, state_lets, lives};
ghost use Rattle.world_plans.specs.Chooser.{can_deliver, can_give_up, latest};
ghost use Rattle.invoke_queue.specs.Queue.{live_numbers, open_numbers, with_invocation, with_delivery, with_end, with_giving_up, with_attempt, state_after_attempt, attempt_after_step, attempt_after_move, attempt_at, live_inv};

use crate::attempts::Attempts;
use crate::lists::push_within;
use crate::states::States;
use std::alloc::Global;
use std::marker::Model;
use unum_json::NoMemory;
use world_types::{Attempt, InvState, Invocation, Phase};

/// The messages that were sent, what is known of each, and their attempts. Messages and attempts are numbered from 0 in the
/// order of making. It knows which attempts live, which messages are open, and the latest attempt of each message.
#[derive(Drop)]
pub struct Queue {
    invs: Vec<Invocation<u32>>,
    states: States,
    attempts: Attempts,
    /// The latest attempt of each invocation.
    last: Vec<Option<u32>>,
}

/// Why a delivery did not happen.
#[derive(Clone, Copy)]
pub enum QueueError {
    /// There is no such invocation, it is acknowledged or given up, or it was delivered 8 times.
    NotEnabled,
    /// Memory ran out.
    NoMemory,
}

/// A call that is not enabled. Nothing changed.
#[derive(Clone, Copy)]
pub struct NotEnabled;

impl Model for Queue {
    ghost use Rattle.std.specs.Coded.{codes};
    ghost use Rattle.unum_json.specs.contracts.kept.Json as json;
    ghost use Rattle.invoke_queue.specs.Queue.{Lists, IsQueue};

    ghost Value = { Lists };

    ghost coded = { Prim.hlevel (codes, json.the_row.coded) };

    ghost view = { λ q. record { invs = q.invs.items; states = q.states; atts = q.attempts } };

    ghost invariant = { λ q. IsQueue q.invs.items q.states q.attempts q.last.items };
}

/// One invocation more in the list of states, and room for it in two others.
fn prepare(
    invs: &mut Vec<Invocation<u32>>,
    states: &mut States,
    last: &mut Vec<Option<u32>>,
) -> Result<(), NoMemory>
    requires { length states.old < 4294967295 }
    ensures invs { invs.new.items ≡ invs.old.items }
    ensures last { last.new.items ≡ last.old.items }
    ensures states { OnOk result (states.new ≡ states.old ++ fresh_state ∷ []) }
    ensures err { OnErr result (states.new ≡ states.old) }
    ensures invs_room { OnOk result (vec_len invs.new < vec_capacity invs.new) }
    ensures last_room { OnOk result (vec_len last.new < vec_capacity last.new) }
{
    invs.reserve(1)?;
    last.reserve(1)?;
    states.push(InvState {
        tries: 0,
        live: 0,
        acked: false,
        dead: false,
    })
}

/// The invocation of an attempt that lives.
fn live_inv(attempt: Option<&Attempt>) -> Option<u32>
    ensures { result ≡ live_inv (option_copied attempt.entry) }
{
    match attempt {
        Some(t) => { if t.live { Some(t.inv) } else { None } }
        None => None,
    }
}

impl Queue {
    /// A queue without an invocation, which takes no memory.
    pub fn new(alloc: Global) -> Queue
        ensures { result ≡ record { invs = []; states = []; atts = [] } }
    {
        Queue {
            invs: Vec::new(alloc),
            states: States::new(alloc),
            attempts: Attempts::new(alloc),
            last: Vec::new(alloc),
        }
    }

    /// How many invocations were made.
    pub fn invocations(&self) -> usize
        ensures { result ≡ length self.now.invs }
    {
        self.invs.len()
    }

    /// How many attempts were made.
    pub fn attempts(&self) -> usize
        ensures { result ≡ length self.now.atts }
    {
        self.attempts.len()
    }

    /// An invocation, or `None` exactly where the number is not there.
    pub fn invocation(&self, inv: u32) -> Option<&Invocation<u32>>
        ensures { option_copied result ≡ slice_get self.now.invs inv }
    {
        self.invs.get(inv as usize)
    }

    /// What is known of an invocation, or `None` exactly where the number is not there.
    pub fn state(&self, inv: u32) -> Option<InvState>
        ensures { result ≡ slice_get self.now.states inv }
    {
        self.states.get(inv)
    }

    /// An attempt, or `None` exactly where the number is not there.
    pub fn attempt(&self, attempt: u32) -> Option<&Attempt>
        ensures { option_copied result ≡ slice_get self.now.atts attempt }
    {
        self.attempts.get(attempt)
    }

    /// Whether an invocation may be delivered: it is there, neither acknowledged nor given up, and had fewer than 8 tries.
    pub fn can_deliver(&self, inv: u32) -> bool
        ensures { result ≡ state_lets can_deliver (slice_get self.now.states inv) }
    {
        self.states.can_deliver(inv)
    }

    /// Whether an invocation may be given up: it had 8 tries, none of which lives, and is neither acknowledged nor given up.
    pub fn can_give_up(&self, inv: u32) -> bool
        ensures { result ≡ state_lets can_give_up (slice_get self.now.states inv) }
    {
        self.states.can_give_up(inv)
    }

    /// Whether an attempt is there and lives.
    pub fn lives(&self, attempt: u32) -> bool
        ensures { result ≡ lives (slice_get self.now.atts attempt) }
    {
        match self.attempts.get(attempt) {
            Some(t) => t.live,
            None => false,
        }
    }

    /// How many attempts live.
    pub fn live_len(&self) -> usize
        ensures { result ≡ length (live_numbers self.now.atts) }
    {
        self.attempts.live_len()
    }

    /// The live attempt with an index, by rising number, or `None` exactly past the end.
    pub fn live_at(&self, index: usize) -> Option<u32>
        ensures { result ≡ slice_get (live_numbers self.now.atts) index }
    {
        self.attempts.live_at(index)
    }

    /// How many invocations are open: neither acknowledged nor given up, and without a live attempt.
    pub fn open_len(&self) -> usize
        ensures { result ≡ length (open_numbers self.now.states) }
    {
        self.states.open_len()
    }

    /// The open invocation with an index, by rising number, or `None` exactly past the end.
    pub fn open_at(&self, index: usize) -> Option<u32>
        ensures { result ≡ slice_get (open_numbers self.now.states) index }
    {
        self.states.open_at(index)
    }

    /// The latest attempt of an invocation, or `None` exactly where it has none.
    pub fn latest_of(&self, inv: u32) -> Option<u32>
        ensures { result ≡ latest 0 inv self.now.atts }
    {
        match self.last.get(inv as usize) {
            Some(attempt) => *attempt,
            None => None,
        }
    }

    /// Adds an invocation with no tries, and answers its number.
    pub fn invoke(&mut self, invocation: Invocation<u32>) -> Result<u32, NoMemory>
        requires { length self.old.invs < 4294967295 }
        ensures ok { OnOk result (self.new ≡ with_invocation self.old invocation) }
        ensures number { IfOk result (λ n. n ≡ length self.old.invs) }
        ensures err { OnErr result (self.new ≡ self.old) }
    {
        let number = self.invs.len() as u32;
        prepare(&mut self.invs, &mut self.states, &mut self.last)?;
        push_within(&mut self.invs, invocation);
        push_within(&mut self.last, None);
        Ok(number)
    }

    /// Begins a new attempt of an invocation, at its first look, and answers its number.
    pub fn deliver(&mut self, inv: u32) -> Result<u32, QueueError>
        requires { length self.old.atts < 4294967295 }
        ensures ok { OnOk result (self.new ≡ with_delivery self.old inv (slice_get self.old.states inv)) }
        ensures number { IfOk result (λ n. n ≡ length self.old.atts) }
        ensures err { OnErr result (self.new ≡ self.old) }
        ensures refused { (result ≡ Err QueueError.NotEnabled) ↔ IsFalse (state_lets can_deliver (slice_get self.old.states inv)) }
    {
        if !self.states.can_deliver(inv) {
            return Err(QueueError::NotEnabled);
        }
        let number = self.attempts.len() as u32;
        if self.attempts.push(inv).is_err() {
            return Err(QueueError::NoMemory);
        }
        self.states.deliver(inv);
        self.last[inv as usize] = Some(number);
        Ok(number)
    }

    /// Ends a live attempt, and acknowledges its invocation if asked to.
    fn end(&mut self, attempt: u32, acks: bool) -> Result<(), NotEnabled>
        ensures ok { OnOk result (self.new ≡ with_end self.old attempt (state_after_attempt acks) (slice_get self.old.atts attempt)) }
        ensures err { OnErr result (self.new ≡ self.old) }
        ensures refused { (result ≡ Err (record {})) ↔ IsFalse (lives (slice_get self.old.atts attempt)) }
    {
        let Some(inv) = live_inv(self.attempts.get(attempt)) else {
            return Err(NotEnabled);
        };
        self.attempts.end(attempt);
        self.states.end_attempt(inv, acks);
        Ok(())
    }

    /// Ends a live attempt.
    pub fn crash(&mut self, attempt: u32) -> Result<(), NotEnabled>
        ensures ok { OnOk result (self.new ≡ with_end self.old attempt state_after_crash (slice_get self.old.atts attempt)) }
        ensures err { OnErr result (self.new ≡ self.old) }
        ensures refused { (result ≡ Err (record {})) ↔ IsFalse (lives (slice_get self.old.atts attempt)) }
    {
        self.end(attempt, false)
    }

    /// Ends a live attempt, and acknowledges its invocation.
    pub fn ack(&mut self, attempt: u32) -> Result<(), NotEnabled>
        ensures ok { OnOk result (self.new ≡ with_end self.old attempt state_after_ack (slice_get self.old.atts attempt)) }
        ensures err { OnErr result (self.new ≡ self.old) }
        ensures refused { (result ≡ Err (record {})) ↔ IsFalse (lives (slice_get self.old.atts attempt)) }
    {
        self.end(attempt, true)
    }

    /// Gives an invocation up.
    pub fn give_up(&mut self, inv: u32) -> Result<(), NotEnabled>
        ensures ok { OnOk result (self.new ≡ with_giving_up self.old inv) }
        ensures err { OnErr result (self.new ≡ self.old) }
        ensures refused { (result ≡ Err (record {})) ↔ IsFalse (state_lets can_give_up (slice_get self.old.states inv)) }
    {
        if !self.states.can_give_up(inv) {
            return Err(NotEnabled);
        }
        self.states.give_up(inv);
        Ok(())
    }

    /// Counts a step of a live attempt.
    pub fn tick(&mut self, attempt: u32) -> Result<(), NotEnabled>
        requires { (t : Attempt) → slice_get self.old.atts attempt ≡ Some t → t.live ≡ true → t.steps < 4294967295 }
        ensures ok { OnOk result (self.new ≡ with_attempt self.old attempt attempt_after_step) }
        ensures err { OnErr result (self.new ≡ self.old) }
        ensures refused { (result ≡ Err (record {})) ↔ IsFalse (lives (slice_get self.old.atts attempt)) }
    {
        if live_inv(self.attempts.get(attempt)).is_none() {
            return Err(NotEnabled);
        }
        self.attempts.tick(attempt);
        Ok(())
    }

    /// Puts another phase in place of a live attempt's own, which it answers.
    pub fn put_phase(&mut self, attempt: u32, phase: Phase) -> Result<Phase, NotEnabled>
        ensures ok { OnOk result (self.new ≡ with_attempt self.old attempt (attempt_at phase)) }
        ensures before { IfOk result (λ before. option_map (λ (t : Attempt). t.phase) (slice_get self.old.atts attempt) ≡ Some before) }
        ensures err { OnErr result (self.new ≡ self.old) }
        ensures refused { (result ≡ Err (record {})) ↔ IsFalse (lives (slice_get self.old.atts attempt)) }
    {
        if live_inv(self.attempts.get(attempt)).is_none() {
            drop(phase);
            return Err(NotEnabled);
        }
        Ok(self.attempts.put_phase(attempt, phase))
    }

    /// Counts a step of a live attempt, and puts another phase in place of its own, which it answers.
    pub fn advance(&mut self, attempt: u32, phase: Phase) -> Result<Phase, NotEnabled>
        requires { (t : Attempt) → slice_get self.old.atts attempt ≡ Some t → t.live ≡ true → t.steps < 4294967295 }
        ensures ok { OnOk result (self.new ≡ with_attempt self.old attempt (attempt_after_move phase)) }
        ensures before { IfOk result (λ before. option_map (λ (t : Attempt). t.phase) (slice_get self.old.atts attempt) ≡ Some before) }
        ensures err { OnErr result (self.new ≡ self.old) }
        ensures refused { (result ≡ Err (record {})) ↔ IsFalse (lives (slice_get self.old.atts attempt)) }
    {
        if live_inv(self.attempts.get(attempt)).is_none() {
            drop(phase);
            return Err(NotEnabled);
        }
        Ok(self.attempts.advance(attempt, phase))
    }
}
