//! Worlds: sessions of whole machines that run over a store, a queue and bitmaps, with every mishap.
#![tactic(auto)]

mod answers;
mod calls;
mod chooser;
mod crash_all;
mod engine;
mod events;
mod first_state;
mod flat;
mod mishaps;
mod opening;
mod places;
mod planned;
mod prepared;
mod refusal;
mod session;
mod settled;
mod status;
mod steps;
mod turns;
mod twins;
mod world;
mod world_state;

pub use engine::{Start, logs_have_one_trace};
pub use opening::{Opening, Session};
pub use planned::Planned;
pub use refusal::{ApplyError, Full};
pub use session::SessionState;
pub use settled::Settled;
pub use world::World;
