//! What the queue knows of each invocation, with the set of those that are open.
ghost use Rattle.std.specs.Prelude.{◌≡◌, ◌<◌, [], ◌∷◌, ◌++◌, length, slice_get, slice_set, Some, OnOk, OnErr};
ghost use Rattle.world_plans.specs.Three.{is_open};
ghost use Rattle.invoke_queue.specs.Queue.{open_numbers, state_after_delivery, state_after_attempt, state_after_end};
ghost use Rattle.world_model.specs.AnyCode.World.{states_with, state_lets};
ghost use Rattle.world_plans.specs.Chooser.{can_deliver, can_give_up};
ghost use Rattle.world_types.specs.declared.queue.InvState.{InvState};

use crate::lists::push_within;
use crate::numbers::Numbers;
use std::alloc::Global;
use std::marker::Model;
use unum_json::NoMemory;
use world_types::InvState;

/// What the queue knows of each invocation. Contracts see the list of it.
#[derive(Drop)]
pub struct States {
    items: Vec<InvState>,
    /// The invocations that are open.
    waiting: Numbers,
}

impl Model for States {
    ghost use Rattle.std.specs.Prelude.{List};
    ghost use Rattle.world_types.specs.declared.queue.InvState.{InvState};
    ghost use Rattle.world_plans.specs.Three.{is_open};
    ghost use Rattle.invoke_queue.specs.Numbers.{IsNumbered};

    ghost Value = { List InvState };

    ghost view = { λ s. s.items.items };

    ghost invariant = { λ s. IsNumbered (λ k t. is_open t) s.items.items s.waiting };
}

/// Whether the invocation is neither acknowledged nor given up, and no attempt of it lives.
fn is_open(s: &InvState) -> bool
    ensures { result ≡ is_open s.now }
{
    !s.acked && !s.dead && s.live == 0
}

/// Whether the invocation is neither acknowledged nor given up, and had fewer than 8 tries.
pub fn is_deliverable(s: &InvState) -> bool
    ensures { result ≡ can_deliver s.now }
{
    !s.acked && !s.dead && s.tries < 8
}

/// Whether the invocation is neither acknowledged nor given up, had 8 tries, and none of its attempts lives.
fn is_spent(s: &InvState) -> bool
    ensures { result ≡ can_give_up s.now }
{
    !s.acked && !s.dead && s.tries == 8 && s.live == 0
}

/// What is known of an invocation after an attempt of it ended.
fn after_attempt(s: InvState, acks: bool) -> InvState
    ensures { result ≡ state_after_attempt acks s }
{
    InvState {
        tries: s.tries,
        live: s.live.saturating_sub(1),
        acked: s.acked || acks,
        dead: s.dead,
    }
}

impl States {
    /// No invocation, which takes no memory.
    pub fn new(alloc: Global) -> States
        ensures { result ≡ [] }
    {
        States {
            items: Vec::new(alloc),
            waiting: Numbers::new(alloc),
        }
    }

    /// What is known of an invocation, or `None` exactly where there is no such number.
    pub fn get(&self, inv: u32) -> Option<InvState>
        ensures { result ≡ slice_get self.now inv }
    {
        self.items.get(inv as usize).copied()
    }

    /// Whether an invocation is there and may be delivered.
    pub fn can_deliver(&self, inv: u32) -> bool
        ensures { result ≡ state_lets can_deliver (slice_get self.now inv) }
    {
        match self.get(inv) {
            Some(s) => is_deliverable(&s),
            None => false,
        }
    }

    /// Whether an invocation is there and may be given up.
    pub fn can_give_up(&self, inv: u32) -> bool
        ensures { result ≡ state_lets can_give_up (slice_get self.now inv) }
    {
        match self.get(inv) {
            Some(s) => is_spent(&s),
            None => false,
        }
    }

    /// One invocation more.
    pub fn push(&mut self, state: InvState) -> Result<(), NoMemory>
        requires { length self.old < 4294967295 }
        ensures ok { OnOk result (self.new ≡ self.old ++ state ∷ []) }
        ensures err { OnErr result (self.new ≡ self.old) }
    {
        self.items.reserve(1)?;
        self.waiting.grow()?;
        let number = self.items.len() as u32;
        self.waiting.put(number, is_open(&state));
        push_within(&mut self.items, state);
        Ok(())
    }

    /// Puts another state in place of what is known of an invocation.
    pub fn set(&mut self, inv: u32, state: InvState)
        requires { inv < length self.old }
        ensures { self.new ≡ slice_set self.old inv state }
    {
        self.waiting.put(inv, is_open(&state));
        self.items[inv as usize] = state;
    }

    /// Counts one try more, and one live attempt more.
    pub fn deliver(&mut self, inv: u32)
        requires { (s : InvState) → slice_get self.old inv ≡ Some s → (s.tries < 8) × (s.live < 8) }
        ensures { self.new ≡ states_with self.old inv state_after_delivery (slice_get self.old inv) }
    {
        if let Some(s) = self.get(inv) {
            let after = InvState {
                tries: s.tries + 1,
                live: s.live + 1,
                acked: s.acked,
                dead: s.dead,
            };
            self.set(inv, after);
        }
    }

    /// An attempt of an invocation lives no more, and the invocation is acknowledged if asked to.
    pub fn end_attempt(&mut self, inv: u32, acks: bool)
        ensures { self.new ≡ states_with self.old inv (state_after_attempt acks) (slice_get self.old inv) }
    {
        if let Some(s) = self.get(inv) {
            self.set(inv, after_attempt(s, acks));
        }
    }

    /// Gives an invocation up.
    pub fn give_up(&mut self, inv: u32)
        ensures { self.new ≡ states_with self.old inv state_after_end (slice_get self.old inv) }
    {
        if let Some(s) = self.get(inv) {
            let after = InvState {
                tries: s.tries,
                live: s.live,
                acked: s.acked,
                dead: true,
            };
            self.set(inv, after);
        }
    }

    /// How many invocations are open.
    pub fn open_len(&self) -> usize
        ensures { result ≡ length (open_numbers self.now) }
    {
        self.waiting.len()
    }

    /// The open invocation with an index, by rising number, or `None` exactly past the end.
    pub fn open_at(&self, index: usize) -> Option<u32>
        ensures { result ≡ slice_get (open_numbers self.now) index }
    {
        self.waiting.at(index)
    }
}
