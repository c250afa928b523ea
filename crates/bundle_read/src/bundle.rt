//! Bundles that are accepted.

ghost use Rattle.std.specs.Prelude.{◌≡◌, [], IfOk};
ghost use Rattle.std.specs.List.{AllByRecursion};
ghost use Rattle.asl_model.specs.Tree.{tree_of};
ghost use Rattle.asl_model.specs.Valid.{broken};
ghost use Rattle.unum_world.specs.Openings.{Fits};
ghost use Rattle.bundle_read.specs.Accepted.{IsAccepted, opening_of};

use asl_model::{Machine, valid};
use continuation_gen::{Compiled, compile};
use fn_table::Table;
use std::alloc::Global;
use std::marker::Model;
use unum_json::{Fields, Items, NoMemory};
use unum_world::{Opening, Session};
use world_plans::Plan;

/// A bundle: machines by rising names, functions, sessions and a plan of mishaps. Contracts see it as the record of these.
///
/// Every machine is valid, each of its Tasks calls one of the functions, there are at most 1,000 sessions, each session has the
/// number of its machine in the list, and the plan's lists rise.
#[derive(Drop)]
pub struct Bundle {
    machines: Fields<Machine>,
    functions: Table,
    sessions: Items<Session>,
    plan: Plan,
}

impl Model for Bundle {
    ghost use Rattle.std.specs.Coded.{codes};
    ghost use Rattle.asl_model.specs.contracts.machine.Block as block;
    ghost use Rattle.unum_json.specs.contracts.value.Json as json;
    ghost use Rattle.bundle_read.specs.Accepted.{Accepted, IsAccepted};

    ghost Value = { Accepted };

    ghost coded = { Prim.hlevel (codes, json.the_row.coded, block.the_row.coded) };

    ghost view = { λ b. record { machines = b.machines; functions = b.functions; sessions = b.sessions; plan = b.plan } };

    ghost invariant = { λ b. IsAccepted (record { machines = b.machines; functions = b.functions; sessions = b.sessions; plan = b.plan }) };
}

impl Bundle {
    /// The bundle of these parts.
    pub(crate) fn new(
        machines: Fields<Machine>,
        functions: Table,
        sessions: Items<Session>,
        plan: Plan,
    ) -> Bundle
        requires { IsAccepted (record { machines = machines; functions = functions; sessions = sessions; plan = plan }) }
        ensures { result ≡ record { machines = machines; functions = functions; sessions = sessions; plan = plan } }
    {
        Bundle {
            machines,
            functions,
            sessions,
            plan,
        }
    }

    /// The machines, by rising names.
    pub fn machines(&self) -> &Fields<Machine>
        ensures value { result.now ≡ self.now.machines }
        ensures accepted { IsAccepted self.now }
    {
        &self.machines
    }

    /// The functions.
    pub fn functions(&self) -> &Table
        ensures { result.now ≡ self.now.functions }
    {
        &self.functions
    }

    /// The sessions, each with the number of its machine.
    pub fn sessions(&self) -> &Items<Session>
        ensures value { result.now ≡ self.now.sessions }
        ensures accepted { IsAccepted self.now }
    {
        &self.sessions
    }

    /// The plan of mishaps.
    pub fn plan(&self) -> &Plan
        ensures value { result.now ≡ self.now.plan }
        ensures accepted { IsAccepted self.now }
    {
        &self.plan
    }
}

/// A valid machine with its flat form.
fn compiled(alloc: Global, machine: Machine) -> Result<Compiled, NoMemory>
    requires { broken (tree_of machine) ≡ [] }
    ensures { IfOk result (λ c. c ≡ machine) }
{
    valid();
    compile(alloc, machine)
}

/// Valid machines by rising names, each with its flat form.
fn all_compiled(alloc: Global, machines: Fields<Machine>) -> Result<Fields<Compiled>, NoMemory>
    requires { AllByRecursion (λ m. broken (tree_of m.1) ≡ []) machines }
    ensures { IfOk result (λ cs. cs ≡ machines) }
{
    let count = machines.as_slice().len();
    let mut all = Fields::with_room(alloc, count)?;
    for row in machines.into_vec() {
        let (name, machine) = row;
        all.push(name, compiled(alloc, machine)?)?;
    }
    Ok(all)
}

/// How the world of a bundle begins: with the same machines, each with its flat form, and the same functions, sessions and plan.
pub fn open_bundle(alloc: Global, bundle: Bundle) -> Result<Opening, NoMemory>
    ensures value { IfOk result (λ o. o ≡ opening_of bundle) }
    ensures fits { IfOk result Fits }
    ensures accepted { IsAccepted bundle }
{
    let Bundle {
        machines,
        functions,
        sessions,
        plan,
    } = bundle;
    match all_compiled(alloc, machines) {
        Ok(machines) => Ok(Opening {
            machines,
            table: functions,
            sessions,
            plan,
        }),
        Err(NoMemory) => Err(NoMemory),
    }
}
