//! Who of the workers is at the engine, and who waits. It only says who comes next, and no clause stands on it.
use std::sync::atomic::{AtomicU64, Ordering};
use std::sync::{Condvar, Mutex, MutexGuard, Wait};
use std::time::Duration;

/// How many turns a worker takes at most before it lets another one come.
const TURNS: u32 = 64;

/// How many microseconds the one on the lookout naps between two looks.
const NAP: u64 = 100;

/// How often a worker looks at the engine before it sleeps, or takes it to be free: some ten microseconds.
const LOOKS: u32 = 8_000;

/// How often in a row a worker comes back late before it stands by.
const LATE: u32 = 2;

/// Who looks whether the engine is free because all who are awake call functions.
#[derive(Clone, Copy, PartialEq, Eq, Drop)]
enum Lookout {
    /// Nobody does.
    Nobody,
    /// One of those who sleep was woken for it.
    Called,
    /// One worker does.
    Somebody,
}

/// How the workers stand.
#[derive(Drop)]
struct Stand {
    /// How many are at work: at the engine, on their way to it, or calling a function.
    at_work: u32,
    /// How many sleep until they are woken.
    asleep: u32,
    /// Who looks whether the engine is free.
    lookout: Lookout,
}

/// The workers of one lock. One at a time is at the engine.
///
/// A worker that finds nothing to do sleeps, and costs no time while no turn is taken. While turns are taken, one of those
/// without work is on the lookout: it takes the engine over where nobody comes to it for some time. So a function that
/// returns at once wakes nobody, and while one takes long, the others go on. A worker that keeps coming back late stands by
/// once it has no attempt, since the others keep the engine busy.
#[derive(Drop)]
pub(crate) struct Crew {
    stand: Mutex<Stand>,
    bell: Condvar,
    /// How often somebody came to the engine or left it: it is odd while somebody is there.
    steps: AtomicU64,
}

/// A worker's time at the engine. Nobody else is there until it is over.
pub(crate) struct Shift<'a> {
    stand: MutexGuard<'a, Stand>,
    /// How many turns it took since another one could come.
    turns: u32,
    /// How many calls in a row the worker came back from late: it had to wait long for the engine.
    late: u32,
}

/// A worker's time away from the engine, for a call.
pub(crate) struct Away {
    late: u32,
}

impl<'a> Shift<'a> {
    /// How the workers stand, for the worker to say what it does next.
    fn over(self) -> MutexGuard<'a, Stand> {
        let Shift {
            stand,
            turns: _,
            late: _,
        } = self;
        stand
    }
}

impl Crew {
    /// A crew of which nobody is at work yet.
    pub(crate) fn new() -> Crew {
        let stand = Stand {
            at_work: 0,
            asleep: 0,
            lookout: Lookout::Nobody,
        };
        Crew {
            stand: Mutex::new(stand),
            bell: Condvar::new(),
            steps: AtomicU64::new(0),
        }
    }

    /// A worker's first shift: at once where nobody is at work, and else when it is needed.
    pub(crate) fn begin<R: Wait>(&self, rt: &R) -> Shift<'_> {
        let mut stand = self.stand.lock(rt);
        if stand.at_work == 0 {
            stand.at_work = 1;
            return self.enter(stand, 0);
        }
        self.stand_by(rt, stand)
    }

    /// A worker goes to call a function.
    pub(crate) fn leave(&self, shift: Shift<'_>) -> Away {
        let late = shift.late;
        self.exit(shift.over());
        Away { late }
    }

    /// A worker comes back from a call.
    pub(crate) fn come_back<R: Wait>(&self, rt: &R, away: Away) -> Shift<'_> {
        let Away { late } = away;
        let late = if self.gets_free() {
            0
        } else {
            late.saturating_add(1)
        };
        self.enter(self.stand.lock(rt), late)
    }

    /// A worker with an attempt goes on, and lets others come from time to time.
    pub(crate) fn go_on<'a, R: Wait>(&'a self, rt: &R, shift: Shift<'a>) -> Shift<'a> {
        let Shift { stand, turns, late } = shift;
        if turns < TURNS {
            let turns = turns + 1;
            return Shift { stand, turns, late };
        }
        self.step();
        drop(stand);
        self.enter(self.stand.lock(rt), late)
    }

    /// A worker without an attempt goes on. Where it keeps coming back late, and another one is at work, it stands by first.
    pub(crate) fn go_on_free<'a, R: Wait>(&'a self, rt: &R, shift: Shift<'a>) -> Shift<'a> {
        if shift.late < LATE || shift.stand.at_work < 2 {
            return self.go_on(rt, shift);
        }
        let mut stand = shift.over();
        stand.at_work = stand.at_work.saturating_sub(1);
        self.step();
        self.stand_by(rt, stand)
    }

    /// A worker that finds nothing to do sleeps until it is needed. There is no next shift where nobody else is at work.
    pub(crate) fn rest<'a, R: Wait>(&'a self, rt: &R, shift: Shift<'a>) -> Option<Shift<'a>> {
        if shift.stand.at_work < 2 {
            self.end(shift);
            return None;
        }
        let mut stand = shift.over();
        stand.at_work = stand.at_work.saturating_sub(1);
        self.step();
        Some(self.sleep(rt, stand))
    }

    /// A worker ends its work. All who sleep are woken where it was the last at work.
    pub(crate) fn end(&self, shift: Shift<'_>) {
        let mut stand = shift.over();
        stand.at_work = stand.at_work.saturating_sub(1);
        let is_last = stand.at_work == 0;
        self.exit(stand);
        if is_last {
            self.bell.notify_all();
        }
    }

    /// Is on the lookout where nobody is, and else sleeps.
    fn stand_by<'a, R: Wait>(&'a self, rt: &R, mut stand: MutexGuard<'a, Stand>) -> Shift<'a> {
        if stand.lookout != Lookout::Nobody {
            return self.sleep(rt, stand);
        }
        stand.lookout = Lookout::Somebody;
        drop(stand);
        self.look_out(rt)
    }

    /// Sleeps until it is called to be on the lookout, or nobody is at work.
    fn sleep<'a, R: Wait>(&'a self, rt: &R, mut stand: MutexGuard<'a, Stand>) -> Shift<'a> {
        stand.asleep = stand.asleep.saturating_add(1);
        for _ in rt.forever() {
            stand = self.bell.wait(rt, stand);
            if stand.lookout == Lookout::Called || stand.at_work == 0 {
                break;
            }
        }
        stand.asleep = stand.asleep.saturating_sub(1);
        if stand.lookout == Lookout::Called {
            stand.lookout = Lookout::Somebody;
            drop(stand);
            return self.look_out(rt);
        }
        stand.at_work = stand.at_work.saturating_add(1);
        self.enter(stand, 0)
    }

    /// Looks from time to time whether the engine is free, and comes to it then.
    fn look_out<R: Wait>(&self, rt: &R) -> Shift<'_> {
        for _ in rt.forever() {
            self.bell
                .sleep(rt, self.bell.notifications(), Duration::from_micros(NAP));
            if self.stays_free() {
                break;
            }
        }
        let mut stand = self.stand.lock(rt);
        stand.lookout = Lookout::Nobody;
        stand.at_work = stand.at_work.saturating_add(1);
        self.enter(stand, 0)
    }

    /// Whether nobody is at the engine, and nobody comes to it soon.
    fn stays_free(&self) -> bool {
        let before = self.steps.load(Ordering::SeqCst);
        if before % 2 == 1 {
            return false;
        }
        for _ in 0..LOOKS {
            if self.steps.load(Ordering::SeqCst) != before {
                return false;
            }
        }
        true
    }

    /// Whether nobody is at the engine now, or somebody leaves it soon.
    fn gets_free(&self) -> bool {
        for _ in 0..LOOKS {
            if self.steps.load(Ordering::SeqCst) % 2 == 0 {
                return true;
            }
        }
        false
    }

    /// Notes that somebody comes to the engine, or leaves it.
    fn step(&self) {
        self.steps.fetch_add(1, Ordering::SeqCst);
    }

    fn enter<'a>(&'a self, stand: MutexGuard<'a, Stand>, late: u32) -> Shift<'a> {
        self.step();
        Shift {
            stand,
            turns: 0,
            late,
        }
    }

    /// Leaves the engine, and calls one of those who sleep where somebody is at work and nobody is on the lookout.
    fn exit(&self, mut stand: MutexGuard<'_, Stand>) {
        let calls = stand.at_work > 0 && stand.asleep > 0 && stand.lookout == Lookout::Nobody;
        if calls {
            stand.lookout = Lookout::Called;
        }
        self.step();
        drop(stand);
        if calls {
            self.bell.notify_one();
        }
    }
}
