//! State machines in a profile of the Amazon States Language, and what runs of them are.
#![tactic(auto)]

mod copying;
mod counting;
mod laws;
mod machine;
mod shapes;
mod shown;
mod validity;
mod worked;

pub use copying::{
    copy_errors, copy_item_template, copy_map_shape, copy_pass_shape, copy_path_shape,
    copy_retriers,
};
pub use counting::count_states;
pub use laws::{central_runs, lawful, numbers, runs, sequential, stops, valid};
pub use machine::{After, Block, Care, Catcher, Machine, Retrier, State, TopRule};
pub use shapes::{ItemTemplate, MapShape, PassShape, PathShape};
pub use shown::{examples, failures, limits_of_validity};
pub use validity::{BrokenRule, VRule};
pub use worked::{flows, limits};
