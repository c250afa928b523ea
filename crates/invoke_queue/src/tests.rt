//! A message with an attempt, and a set of numbers over several blocks.
ghost use Rattle.std.specs.Prelude.{◌≡◌, IfOk};

use super::*;
use place_name::{Kind, Name, Place, Trail};
use std::alloc::Global;
use std::test::*;
use unum_json::NoMemory;
use world_types::{Event, Invocation};

/// The first message of session 0.
fn first_message() -> Invocation<u32> {
    Invocation {
        name: Name {
            place: Place {
                session: 0,
                trail: Trail::new(),
                hop: 0,
            },
            kind: Kind::Enter,
        },
        site: 7,
    }
}

/// Every third number below 700.
fn every_third(alloc: Global) -> Result<Numbers, NoMemory>
    ensures { IfOk result (λ s. s.room ≡ 700) }
{
    let mut numbers = Numbers::new(alloc);
    for number in 0..700u32 {
        numbers.grow()?;
        numbers.put(number, number % 3 == 0);
    }
    Ok(numbers)
}

#[test]
fn a_message(rt: HostRuntime) -> Result<(), Fail> {
    let mut queue = Queue::new(rt.alloc());
    let inv = queue.invoke(first_message()).ok().ok_or("memory")?;
    assert!(rt; queue.open_at(0) == Some(inv));
    let attempt = queue.deliver(inv).ok().ok_or("memory")?;
    assert!(rt; queue.live_at(0) == Some(attempt) && queue.open_len() == 0);
    assert!(rt; queue.latest_of(inv) == Some(attempt));
    assert!(rt; queue.crash(attempt).is_ok() && queue.ack(attempt).is_err());
    assert!(rt; queue.open_at(0) == Some(inv) && queue.live_len() == 0);
    assert!(rt; event_of(event_code(Event::Answer(3))) == Some(Event::Answer(3)));
    Ok(())
}

#[test]
fn numbers_over_blocks(rt: HostRuntime) -> Result<(), Fail> {
    let mut numbers = every_third(rt.alloc()).ok().ok_or("memory")?;
    assert!(rt; numbers.len() == 234 && numbers.at(200) == Some(600));
    assert!(rt; numbers.at(234).is_none());
    numbers.remove(300);
    assert!(rt; numbers.at(100) == Some(303) && !numbers.contains(300));
    Ok(())
}
