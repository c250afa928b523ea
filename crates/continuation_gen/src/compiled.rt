//! A machine with its flat form.

ghost use Rattle.std.specs.Prelude.{◌≡◌};
ghost use Rattle.asl_model.specs.Tree.{tree_of};
ghost use Rattle.asl_model.specs.Valid.{IsValid};
ghost use Rattle.asl_model.specs.Walked.{HasRisingNames};
ghost use Rattle.unum_ir.specs.WellFormed.{IsWellFormed};
ghost use Rattle.continuation_gen.specs.Numbering.{flat_form};
ghost use Rattle.continuation_gen.specs.Laws.{IsShort, KeepsMachine};

use asl_model::Machine;
use std::marker::Model;
use unum_ir::Ir;

/// A valid machine with its flat form. Contracts see it as the machine.
#[derive(Drop)]
pub struct Compiled {
    machine: Machine,
    ir: Ir,
}

impl Model for Compiled {
    ghost use Rattle.asl_model.specs.declared.machine.Machine as spec;
    ghost use Rattle.asl_model.specs.contracts.machine.Machine as row;
    ghost use Rattle.asl_model.specs.Tree.{tree_of};
    ghost use Rattle.continuation_gen.specs.Compiling.{IsFormOf};

    ghost Value = { spec.Machine };

    ghost coded = { row.the_row.coded };

    ghost view = { λ c. c.machine };

    ghost invariant = { λ c. IsFormOf (tree_of c.machine) c.ir };
}

impl Compiled {
    /// A valid machine and its flat form, which are taken over.
    pub(crate) fn from_parts(machine: Machine, ir: Ir) -> Compiled
        requires valid { IsValid (tree_of machine) }
        requires rising { HasRisingNames (tree_of machine) }
        requires form { ir ≡ flat_form (tree_of machine) }
        ensures { result ≡ machine }
    {
        Compiled { machine, ir }
    }

    /// The machine.
    pub fn machine(&self) -> &Machine
        ensures value { result.now ≡ self.now }
        ensures valid { IsValid (tree_of self.now) }
        ensures rising { HasRisingNames (tree_of self.now) }
    {
        &self.machine
    }

    /// Its flat form.
    pub fn ir(&self) -> &Ir
        ensures form { result.now ≡ flat_form (tree_of self.now) }
        ensures well { IsWellFormed result.now }
        ensures short { IsShort result.now }
        ensures keeps { KeepsMachine (tree_of self.now) }
    {
        &self.ir
    }
}
