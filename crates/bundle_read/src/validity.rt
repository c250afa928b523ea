//! Whether machines are valid.

ghost use Rattle.std.specs.Prelude.{◌≡◌, map, IfOk};
ghost use Rattle.bundle_read.specs.Bounds.{pair_of, broken_machine, broken_machines};
ghost use Rattle.bundle_read.specs.Checked.{Checks};

use crate::refusal::{BrokenPair, BundleError, Refusal};
use asl_model::{BrokenRule, Machine};
use asl_valid::{CheckError, check};
use std::alloc::Global;
use unum_json::{Items, NoMemory, Text, copy_text};

/// What a machine of that name breaks.
fn pairs_of(
    alloc: Global,
    name: &Text,
    rules: Items<BrokenRule>,
) -> Result<Items<BrokenPair>, NoMemory>
    ensures { IfOk result (λ pairs. pairs ≡ map (pair_of name.now) rules) }
{
    let mut pairs = Items::new(alloc);
    for BrokenRule { rule, state } in rules.into_vec() {
        let machine = copy_text(alloc, name)?;
        pairs.push(BrokenPair {
            rule,
            machine,
            state,
        })?;
    }
    Ok(pairs)
}

/// Refuses a machine that is not valid.
fn check_machine(alloc: Global, machine: &(Text, Machine)) -> Result<(), BundleError>
    ensures { Checks result (broken_machine machine.now) }
{
    match check(alloc, &machine.1) {
        Ok(()) => Ok(()),
        Err(CheckError::Broken(rules)) => {
            let pairs = pairs_of(alloc, &machine.0, rules)?;
            Err(BundleError::Refused(Refusal::Many(pairs)))
        }
        Err(CheckError::NoMemory) => Err(BundleError::NoMemory),
    }
}

/// Refuses the first machine that is not valid.
pub fn check_machines(alloc: Global, machines: &[(Text, Machine)]) -> Result<(), BundleError>
    ensures { Checks result (broken_machines machines.now) }
{
    for machine in machines {
        check_machine(alloc, machine)?;
    }
    Ok(())
}
