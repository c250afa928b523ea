//! The text of flat code: what a flat form is printed as, and the flat form that a value is the printed form of, or the first of
//! the rules I1 to I4 that it breaks.
//!
//! The flat form that a value spells is built, printed again and compared with the value. Only where they differ, or where the flat
//! form is not well formed, is the fault looked for: one walk goes by the table of fields and finds what is malformed, then what
//! stands otherwise than it is printed is not in its canonical form, and a last walk by the same table finds the numbers out of
//! range.
#![tactic(auto)]

mod fault;
mod kinds;
mod laws;
mod nodes;
mod objects;
mod parts;
mod printing;
mod ranges;
mod reading;
mod rows;
mod rules;
mod spelling;
mod texts;
mod walk;

pub use fault::{IRule, IrError};
pub use laws::flat_forms_read_back;
pub use printing::print;
pub use reading::read;
