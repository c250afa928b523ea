//! The flat forms that sessions run.
ghost use Rattle.std.specs.Prelude.{◌≡◌, ◌<◌, length};
ghost use Rattle.std.specs.List.{AllByRecursion};
ghost use Rattle.asl_model.specs.Tree.{tree_of};
ghost use Rattle.asl_model.specs.Valid.{IsValid};
ghost use Rattle.asl_model.specs.Walked.{HasRisingNames};
ghost use Rattle.world_model.specs.Flat.{block_of};
ghost use Rattle.continuation_gen.specs.Numbering.{flat_form};
ghost use Rattle.unum_world.specs.Openings.{opening_as, AreAllValid, Fits};

use crate::opening::Opening;
use continuation_gen::Compiled;
use unum_ir::Ir;
use unum_json::Fields;

/// The flat form that a session runs.
pub fn form_of(o: &Opening, session: u32) -> &Ir
    requires fits { Fits o.now }
    requires there { session < length o.now.sessions }
    ensures { result.now ≡ flat_form (block_of (opening_as o.now) session) }
{
    let Some(session) = o.sessions.get(session as usize) else {
        unreachable!();
    };
    match o.machines.as_slice().get(session.machine as usize) {
        Some(row) => row.1.ir(),
        None => unreachable!(),
    }
}

/// Each machine is valid, since its flat form was made.
pub fn machines_are_valid(machines: &Fields<Compiled>)
    ensures { AreAllValid machines.now }
{
    for row in machines.as_slice() {
        let _machine = row.1.machine();
    }
}
