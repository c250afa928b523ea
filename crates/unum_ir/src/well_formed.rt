//! Whether a flat form is well formed.

ghost use Rattle.std.specs.Prelude.{◌↔◌, IsTrue};
ghost use Rattle.unum_ir.specs.WellFormed.{IsWellFormed};

use crate::care_tests::ops_fit;
use crate::func_tests::funcs_fit;
use crate::ir::Ir;
use crate::node_tests::{names_fit, nexts_fit, nodes_follow, starts_fit};
use crate::scope_tests::{parents_fit, scopes_follow};

/// The most nodes of a flat form.
const MOST_NODES: usize = 1000;

/// Whether a flat form is well formed: the numbering of scopes, nodes and functions, where nodes lead, names, and what each
/// operation has.
///
/// The tests that bound the work of the later ones come first.
pub fn is_well_formed(ir: &Ir) -> bool
    ensures { IsTrue result ↔ IsWellFormed ir.now }
{
    ir.nodes.len() <= MOST_NODES
        && starts_fit(ir)
        && nodes_follow(ir)
        && ops_fit(ir)
        && nexts_fit(ir)
        && parents_fit(ir)
        && scopes_follow(ir)
        && funcs_fit(ir)
        && names_fit(ir)
}
