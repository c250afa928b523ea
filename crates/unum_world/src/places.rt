//! Attempts and their invocations.
ghost use Rattle.std.specs.Prelude.{◌≡◌};
ghost use Rattle.unum_world.specs.Instances.{HasMessage, IsMessageOf};

use invoke_queue::Queue;
use world_types::Invocation;

/// The invocation of an attempt: its number, and the message once more.
pub fn message_of(queue: &Queue, attempt: u32) -> (u32, Invocation<u32>)
    requires { HasMessage queue.now attempt }
    ensures { IsMessageOf queue.now attempt result.0 result.1 }
{
    let Some(t) = queue.attempt(attempt) else {
        unreachable!();
    };
    let inv = t.inv;
    let Some(i) = queue.invocation(inv) else {
        unreachable!();
    };
    let message = Invocation {
        name: i.name,
        site: i.site,
    };
    (inv, message)
}

/// The session of a message.
pub fn session_of(message: &Invocation<u32>) -> u32
    ensures { result ≡ message.now.name.place.session }
{
    message.name.place.session
}
