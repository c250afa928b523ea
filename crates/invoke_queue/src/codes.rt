//! Events as numbers.
ghost use Rattle.std.specs.Prelude.{◌≡◌, ◌<◌, ◌^◌, Some, IfSome};
ghost use Rattle.world_types.specs.declared.queue.Event.{Event};
ghost use Rattle.invoke_queue.specs.Codes.{event_code, event_number};

use world_types::Event;

/// How many numbers each kind of event has.
const NUMBERS: u64 = 4_294_967_296;

/// The kind of an event, 0 to 4, times 4,294,967,296, and the number that it names.
pub fn event_code(event: Event) -> u64
    ensures { result ≡ event_code event }
{
    match event {
        Event::Deliver(number) => u64::from(number),
        Event::Crash(number) => NUMBERS + u64::from(number),
        Event::Step(number) => 2 * NUMBERS + u64::from(number),
        Event::Answer(number) => 3 * NUMBERS + u64::from(number),
        Event::GiveUp(number) => 4 * NUMBERS + u64::from(number),
    }
}

/// The event with that code, or `None` exactly where no event has it.
pub fn event_of(code: u64) -> Option<Event>
    ensures has { IfSome result (λ e. event_code e ≡ code) }
    ensures only { (e : Event) → event_number e < 2 ^ 32 → event_code e ≡ code → result ≡ Some e }
{
    let number = (code % NUMBERS) as u32;
    match code / NUMBERS {
        0 => Some(Event::Deliver(number)),
        1 => Some(Event::Crash(number)),
        2 => Some(Event::Step(number)),
        3 => Some(Event::Answer(number)),
        4 => Some(Event::GiveUp(number)),
        _ => None,
    }
}
