//! That all attempts crash.
ghost use Rattle.std.specs.Prelude.{◌≡◌, ◌≤◌, ◌<◌, ◌+◌, ◌-◌, length, take, slice_get, IfOk, IfErr, OnErr, MatchResult};
ghost use Rattle.unum_world.specs.AllCrash.{living, after_crashes};
ghost use Rattle.unum_world.specs.Sound.{IsSound};
ghost use Rattle.unum_world.specs.Traces.{IsRun};

use crate::refusal::{ApplyError, Full};
use crate::world::World;
use world_types::Event;

impl World {
    /// Crashes each attempt that lives, by rising number, and answers how many. `Full` comes exactly where the history has no
    /// room for so many: then the first of them have crashed, and it is full. It takes no memory.
    pub fn crash_all(&mut self) -> Result<u32, Full>
        ensures all { IfOk result (λ n. (n ≡ length (living self.old)) × (self.new ≡ after_crashes self.old (living self.old))) }
        ensures full { IfErr result (λ f. (f.len ≡ self.old.limit) × (length self.new.history ≡ self.old.limit)) }
        ensures first { OnErr result (self.new ≡ after_crashes self.old (take (self.old.limit - length self.old.history) (living self.old))) }
        ensures room { MatchResult result (λ _. length self.old.history + length (living self.old) ≤ self.old.limit) (λ _. self.old.limit < length self.old.history + length (living self.old)) }
        ensures sound { IsSound self.new }
    {
        let before = self.length();
        while let Some(attempt) = self.first_living() {
            match self.apply(Event::Crash(attempt)) {
                Ok(()) => (),
                Err(ApplyError::Spent { len }) => return Err(Full { len }),
                Err(ApplyError::NotEnabled { event: _ }) => unreachable!(),
                Err(ApplyError::NoMemory) => unreachable!(),
            }
        }
        self.is_sound();
        Ok((self.length() - before) as u32)
    }

    /// The first attempt that lives.
    fn first_living(&self) -> Option<u32>
        ensures first { result ≡ slice_get (living self.now) 0 }
        ensures happened { IsRun self.now }
        ensures within { length self.now.history ≤ self.now.limit }
        ensures limit { self.now.limit ≤ 10000000 }
    {
        self.state.hub.queue.live_at(0)
    }
}
