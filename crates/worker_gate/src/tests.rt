//! Workers over engines that give out a number of calls.
use super::*;
use fn_table::{Answered, BuiltIns, FnKind, Functions};
use seat_lock::{Logged, SeatLock};
use std::alloc::Global;
use std::sync::atomic::{AtomicU64, Ordering};
use std::test::*;
use unum_json::{Json, NoMemory};

/// How many turns the gate holds a call at most.
const TURNS: u64 = 1_000_000_000;

/// How many calls are wanted, and how many entries the log can have.
#[derive(Clone, Copy, Drop)]
struct Bounds {
    wanted: u32,
    most: usize,
}

/// Gives out the calls one by one. Its log has the ticket of each call that was answered.
#[derive(Drop)]
struct Calls {
    bounds: Bounds,
    given: u32,
    items: Vec<u64>,
}

impl Logged for Calls {
    type Opening = Bounds;

    ghost opening = { λ c. c.bounds };

    ghost log = { λ c. c.items.items };

    fn length(&self) -> u64 {
        self.items.len() as u64
    }
}

impl Engine for Calls {
    ghost use Rattle.std.specs.Prelude.{◌≡◌, ◌≤◌, ◌⊎◌, ◌++◌, ◌∷◌, [], length};

    ghost idle = { λ o log. o.wanted ≤ length log };

    ghost full = { λ o log. o.most ≤ length log };

    ghost picked = { λ o before mine answer after. after ≡ before };

    ghost handed = { λ o before call answer after. (after ≡ before) ⊎ (after ≡ before ++ call.ticket ∷ []) };

    fn pick(&mut self, mine: Option<u32>) -> Pick {
        if let Some(ticket) = mine {
            return Pick::Call {
                kind: FnKind::Ticket,
                input: Json::null(),
                ticket,
            };
        }
        if self.items.len() >= self.bounds.wanted as usize {
            return Pick::Idle;
        }
        if self.given >= self.bounds.wanted {
            return Pick::Free;
        }
        self.given += 1;
        Pick::Mine(self.given - 1)
    }

    fn hand(&mut self, done: &Answered) -> Pick {
        if self.items.len() >= self.bounds.most {
            return Pick::Spent;
        }
        match self.items.push(u64::from(done.ticket())) {
            Ok(()) => Pick::Free,
            Err(_) => Pick::NoMemory,
        }
    }
}

/// Gives out one call, and once that is answered the others. Its log has the ticket of each call as it is given out, and
/// again as it is answered.
#[derive(Drop)]
struct Fan {
    bounds: Bounds,
    given: u32,
    items: Vec<u64>,
}

impl Logged for Fan {
    type Opening = Bounds;

    ghost opening = { λ f. f.bounds };

    ghost log = { λ f. f.items.items };

    fn length(&self) -> u64 {
        self.items.len() as u64
    }
}

impl Engine for Fan {
    ghost use Rattle.std.specs.Prelude.{◌≡◌, ◌<◌, ◌≤◌, ◌⊎◌, ◌++◌, ◌∷◌, [], length};

    ghost idle = { λ o log. (length log ≡ 1) ⊎ (o.wanted < length log) };

    ghost full = { λ o log. o.most ≤ length log };

    ghost picked = { λ o before mine answer after. Unit {0} };

    ghost handed = { λ o before call answer after. (after ≡ before) ⊎ (after ≡ before ++ call.ticket ∷ []) };

    fn pick(&mut self, mine: Option<u32>) -> Pick {
        if let Some(ticket) = mine {
            return Pick::Call {
                kind: FnKind::Ticket,
                input: Json::null(),
                ticket,
            };
        }
        let entries = self.items.len();
        if entries == 1
            || (self.given >= self.bounds.wanted && entries > self.bounds.wanted as usize)
        {
            return Pick::Idle;
        }
        if entries >= self.bounds.most {
            return Pick::Spent;
        }
        if self.items.push(u64::from(self.given)).is_err() {
            return Pick::NoMemory;
        }
        let ticket = self.given;
        self.given = ticket.saturating_add(1);
        Pick::Mine(ticket)
    }

    fn hand(&mut self, done: &Answered) -> Pick {
        if self.items.len() >= self.bounds.most {
            return Pick::Spent;
        }
        match self.items.push(u64::from(done.ticket())) {
            Ok(()) => Pick::Free,
            Err(_) => Pick::NoMemory,
        }
    }
}

/// Finds no memory for any answer.
#[derive(Drop)]
struct Broke;

impl Functions for Broke {
    fn answer(&self, kind: &FnKind, input: &Json, ticket: u32) -> Result<Answered, NoMemory> {
        let _ = kind;
        let _ = input;
        let _ = ticket;
        Err(NoMemory)
    }
}

/// Finds no memory for one call: the one after so many others.
#[derive(Drop)]
struct OnceBroke {
    works: BuiltIns,
    before: AtomicU64,
}

impl OnceBroke {
    fn new(alloc: Global, before: u64) -> OnceBroke {
        OnceBroke {
            works: BuiltIns::new(alloc),
            before: AtomicU64::new(before),
        }
    }
}

impl Functions for OnceBroke {
    fn answer(&self, kind: &FnKind, input: &Json, ticket: u32) -> Result<Answered, NoMemory> {
        if self.before.fetch_sub(1, Ordering::SeqCst) == 0 {
            return Err(NoMemory);
        }
        self.works.answer(kind, input, ticket)
    }
}

/// Holds one call until another is answered, and adds up the tickets.
#[derive(Drop)]
struct Held {
    /// The place of the call that is held.
    held: u64,
    calls: AtomicU64,
    answered: AtomicU64,
    tickets: [AtomicU64; 2],
    gave_up: AtomicU64,
}

impl Held {
    fn new(held: u64) -> Held {
        Held {
            held,
            calls: AtomicU64::new(0),
            answered: AtomicU64::new(0),
            tickets: [AtomicU64::new(0), AtomicU64::new(0)],
            gave_up: AtomicU64::new(0),
        }
    }
}

impl Gate for Held {
    fn before_call(&self, ticket: u32) {
        self.tickets[0].fetch_add(u64::from(ticket), Ordering::SeqCst);
        if self.calls.fetch_add(1, Ordering::SeqCst) != self.held {
            return;
        }
        for _ in 0..TURNS {
            if self.answered.load(Ordering::SeqCst) > self.held {
                return;
            }
        }
        self.gave_up.store(1, Ordering::SeqCst);
    }

    fn after_call(&self, ticket: u32) {
        self.tickets[1].fetch_add(u64::from(ticket), Ordering::SeqCst);
        self.answered.fetch_add(1, Ordering::SeqCst);
    }
}

fn new_calls(alloc: Global, wanted: u32, most: usize) -> Result<Calls, Fail> {
    Ok(Calls {
        bounds: Bounds { wanted, most },
        given: 0,
        items: Vec::with_capacity(alloc, most)?,
    })
}

fn new_fan(alloc: Global, wanted: u32, most: usize) -> Result<Fan, Fail> {
    Ok(Fan {
        bounds: Bounds { wanted, most },
        given: 0,
        items: Vec::with_capacity(alloc, most)?,
    })
}

/// Whether the log has the 40 tickets from 0 to 39.
fn has_each(calls: &Calls) -> bool {
    let mut sum = 0;
    for ticket in calls.items.iter() {
        sum = *ticket ^ sum;
    }
    calls.items.len() == 40 && sum == 0
}

/// Whether the gate was called before and after each of so many calls, whose tickets have this sum, and none was held too long.
fn saw_each(gate: &Held, calls: u64, sum: u64) -> bool {
    gate.gave_up.load(Ordering::SeqCst) == 0
        && gate.calls.load(Ordering::SeqCst) == calls
        && gate.answered.load(Ordering::SeqCst) == calls
        && gate.tickets[0].load(Ordering::SeqCst) == sum
        && gate.tickets[1].load(Ordering::SeqCst) == sum
}

#[test]
fn two_calls_at_a_time(rt: HostRuntime) -> Result<(), Fail> {
    let calls = new_calls(rt.alloc(), 40, 100)?;
    let (lock, seat) = SeatLock::new(rt.alloc(), calls, 4).ok().ok_or("memory")?;
    let gate = Held::new(0);
    let Worked { seat, ended } = work_all(&rt, &lock, seat, &BuiltIns::new(rt.alloc()), &gate);
    assert!(rt; ended == WorkEnd::Idle && seat.share() == 4);
    let calls = lock.close(seat);
    assert!(rt; has_each(&calls) && saw_each(&gate, 40, 780));
    Ok(())
}

/// The first call of the fan is held until another one is answered, so a worker that was idle has to be there still.
#[test]
fn a_fan_that_opens_late(rt: HostRuntime) -> Result<(), Fail> {
    let fan = new_fan(rt.alloc(), 41, 100)?;
    let (lock, seat) = SeatLock::new(rt.alloc(), fan, 4).ok().ok_or("memory")?;
    let gate = Held::new(1);
    let Worked { seat, ended } = work_all(&rt, &lock, seat, &BuiltIns::new(rt.alloc()), &gate);
    assert!(rt; ended == WorkEnd::Idle && seat.share() == 4 && seat.seen() == 82);
    assert!(rt; saw_each(&gate, 41, 820));
    Ok(())
}

#[test]
fn one_worker_with_no_memory(rt: HostRuntime) -> Result<(), Fail> {
    for (before, entries) in [(0, 1), (9, 81), (40, 81)] {
        let fan = new_fan(rt.alloc(), 41, 100)?;
        let (lock, seat) = SeatLock::new(rt.alloc(), fan, 4).ok().ok_or("memory")?;
        let worked = work_all(&rt, &lock, seat, &OnceBroke::new(rt.alloc(), before), &Open);
        assert!(rt; worked.ended == WorkEnd::NoMemory && worked.seat.seen() == entries);
    }
    Ok(())
}

#[test]
fn four_workers_and_a_full_log(rt: HostRuntime) -> Result<(), Fail> {
    let fan = new_fan(rt.alloc(), 41, 30)?;
    let (lock, seat) = SeatLock::new(rt.alloc(), fan, 4).ok().ok_or("memory")?;
    let worked = work_all(&rt, &lock, seat, &BuiltIns::new(rt.alloc()), &Open);
    assert!(rt; worked.ended == WorkEnd::Spent && worked.seat.seen() == 30);
    Ok(())
}

#[test]
fn a_full_log(rt: HostRuntime) -> Result<(), Fail> {
    let calls = new_calls(rt.alloc(), 9, 2)?;
    let (lock, seat) = SeatLock::new(rt.alloc(), calls, 1).ok().ok_or("memory")?;
    let worked = work(&rt, &lock, seat, &BuiltIns::new(rt.alloc()), &Open);
    assert!(rt; worked.ended == WorkEnd::Spent && worked.seat.seen() == 2);
    Ok(())
}

#[test]
fn a_function_with_no_memory(rt: HostRuntime) -> Result<(), Fail> {
    let calls = new_calls(rt.alloc(), 9, 2)?;
    let (lock, seat) = SeatLock::new(rt.alloc(), calls, 1).ok().ok_or("memory")?;
    let worked = work(&rt, &lock, seat, &Broke, &Open);
    assert!(rt; worked.ended == WorkEnd::NoMemory && worked.seat.seen() == 0);
    Ok(())
}
