//! The flat form of a state machine: nodes, functions and scopes by their numbers, what is read off it, and how it is walked.
//!
//! What a state does is code here alone: its data flow, the inputs of a fan, its errors, retriers and catchers.
#![tactic(auto)]

mod asking;
mod beginning;
mod care;
mod care_tests;
mod combining;
mod finishing;
mod flow;
mod func_tests;
mod inputs;
mod ir;
mod laws;
mod matching;
mod node_tests;
mod onward;
mod rules;
mod scope_tests;
mod stop;
mod trouble;
mod walks;
mod well_formed;

pub use asking::{
    combine, effective, enter_of, input_given, input_of, parent_of, resource_of, retriers, width,
};
pub use beginning::begin;
pub use finishing::finish;
pub use flow::{failure, hand_on, prepare, put_error, put_out};
pub use inputs::{map_inputs, parallel_inputs};
pub use ir::{Func, Ir, Node, NodeCare, NodeCatcher, NodeRule, Op, Scope};
pub use laws::tables;
pub use matching::{match_error, retry};
pub use onward::{Begun, Onward, Used};
pub use stop::{Child, Stop};
pub use trouble::{FlowError, StateError};
pub use walks::{resume, walk};
pub use well_formed::is_well_formed;
