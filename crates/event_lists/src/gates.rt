//! Gates that watch the calls of functions.

use crate::fault::Fault;
use std::alloc::Global;
use std::sync::atomic::{AtomicU64, Ordering};
use std::time::{Clock, Duration};
use worker_gate::Gate;

/// How many turns a call is held at most.
const TURNS: u64 = 1_000_000_000;

/// How many tickets a gate knows.
const TICKETS: usize = 4_096;

/// Tickets that were told: a flag for each, how often one was told that was told before, and how many calls there were.
#[derive(Drop)]
pub struct Told {
    flags: Vec<AtomicU64>,
    again: AtomicU64,
    calls: AtomicU64,
}

impl Told {
    fn new(alloc: Global) -> Result<Told, Fault> {
        let mut flags = Vec::with_capacity(alloc, TICKETS)?;
        for _ in 0..TICKETS {
            flags.push(AtomicU64::new(0))?;
        }
        Ok(Told {
            flags,
            again: AtomicU64::new(0),
            calls: AtomicU64::new(0),
        })
    }

    /// Notes a ticket. Answers how many calls were told before.
    fn note(&self, ticket: u32) -> u64 {
        let again = match self.flags.get(ticket as usize) {
            Some(flag) => flag.fetch_add(1, Ordering::SeqCst),
            None => 1,
        };
        self.again.fetch_add(again, Ordering::SeqCst);
        self.calls.fetch_add(1, Ordering::SeqCst)
    }

    /// How many calls were told, where no ticket was told twice.
    pub fn calls(&self) -> Option<u64> {
        if self.again.load(Ordering::SeqCst) == 0 {
            Some(self.calls.load(Ordering::SeqCst))
        } else {
            None
        }
    }

    /// Whether that ticket was told.
    pub fn has(&self, ticket: u32) -> bool {
        match self.flags.get(ticket as usize) {
            Some(flag) => flag.load(Ordering::SeqCst) > 0,
            None => false,
        }
    }
}

/// Notes the tickets of all calls, before and after, and may hold the first call until another is answered.
#[derive(Drop)]
pub struct Notes {
    pub before: Told,
    pub after: Told,
    holds: bool,
    gave_up: AtomicU64,
}

impl Notes {
    pub fn new(alloc: Global, holds: bool) -> Result<Notes, Fault> {
        let before = Told::new(alloc)?;
        let after = Told::new(alloc)?;
        Ok(Notes {
            before,
            after,
            holds,
            gave_up: AtomicU64::new(0),
        })
    }

    /// Whether the first call was held until the gate gave up.
    pub fn gave_up(&self) -> bool {
        self.gave_up.load(Ordering::SeqCst) > 0
    }

    fn hold(&self) {
        for _ in 0..TURNS {
            if self.after.calls.load(Ordering::SeqCst) > 0 {
                return;
            }
        }
        self.gave_up.store(1, Ordering::SeqCst);
    }
}

impl Gate for Notes {
    fn before_call(&self, ticket: u32) {
        let before = self.before.note(ticket);
        if self.holds && before == 0 {
            self.hold();
        }
    }

    fn after_call(&self, ticket: u32) {
        self.after.note(ticket);
    }
}

/// A gate that makes each call take a millisecond longer.
#[derive(Drop)]
pub struct Slow<'a, C: Clock> {
    pub clock: &'a C,
}

impl<C: Clock> Gate for Slow<'_, C> {
    fn before_call(&self, ticket: u32) {
        let _ = ticket;
        self.clock.sleep(Duration::from_millis(1));
    }

    fn after_call(&self, ticket: u32) {
        let _ = ticket;
    }
}
