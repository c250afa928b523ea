//! What `validate` tells of a bundle.

ghost use Rattle.std.specs.Prelude.{◌≡◌, [], sum_by, IfOk};
ghost use Rattle.std.specs.List.{AllByRecursion};
ghost use Rattle.asl_model.specs.Tree.{tree_of};
ghost use Rattle.asl_model.specs.Valid.{broken};
ghost use Rattle.unum_cli.specs.Valid.{states_in, valid_text};

use asl_model::{Machine, count_states, valid};
use bundle_read::Bundle;
use session_report::push_number;
use std::alloc::Global;
use unum_json::{NoMemory, Text};

/// How many states a valid machine has.
fn states_in(machine: &(Text, Machine)) -> u64
    requires { broken (tree_of machine.now.1) ≡ [] }
    ensures { result ≡ states_in machine.now }
{
    valid();
    count_states(&machine.1)
}

/// How many states valid machines have together.
fn states_of(machines: &[(Text, Machine)]) -> Result<u64, NoMemory>
    requires { AllByRecursion (λ m. broken (tree_of m.1) ≡ []) machines.now }
    ensures { IfOk result (λ n. n ≡ sum_by states_in machines.now) }
{
    let mut total: u64 = 0;
    for machine in machines {
        match total.checked_add(states_in(machine)) {
            Some(sum) => total = sum,
            // So many states fit into no memory.
            None => return Err(NoMemory),
        }
    }
    Ok(total)
}

/// The line that tells how much is in a bundle.
#[tactic(auto, unfolding(crate::specs::Valid::valid_text))]
pub fn valid_text(alloc: Global, bundle: &Bundle) -> Result<Text, NoMemory>
    ensures { IfOk result (λ t. t ≡ valid_text bundle.now) }
{
    let machines = bundle.machines();
    let states = states_of(machines.as_slice())?;
    let mut out = String::new(alloc);
    push_number(&mut out, "valid machines ", machines.len() as u64)?;
    push_number(&mut out, " states ", states)?;
    push_number(&mut out, " sessions ", bundle.sessions().len() as u64)?;
    out.push_str("\n")?;
    Ok(Text::from_string(out)?)
}
