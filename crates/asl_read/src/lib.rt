//! State machines from JSON: the machine that a value spells, or the first rule of reading that it breaks.
//!
//! A value is read twice. The first walk goes by the table of fields alone and finds the first broken rule, and the
//! second makes the machine of a value that breaks none. So neither holds parts of a machine while it may refuse.
#![tactic(auto)]

mod checking;
mod fault;
mod leaves;
mod machines;
mod malformed;
mod objects;
mod parts;
mod rows;
mod rules;
mod shapes;
mod shown;
mod table;
mod values;

pub use checking::{check, check_fields};
pub use fault::{LRule, ReadFault, refused, refused_at, under_index, under_key};
pub use machines::{machine_of, read_machine};
pub use objects::{LeftOut, Need, Row, check_keys, check_required, how_of};
pub use rules::rule_of;
pub use shapes::{
    item_template_at, map_shape_in, pass_shape_in, path_at, path_if, path_in, path_shape_in,
    shape_in,
};
pub use shown::examples;
pub use table::{How, Kind, StateType};
pub use values::{json_of, list_in, number_in, text_in, text_of, texts_in, whole_of};
