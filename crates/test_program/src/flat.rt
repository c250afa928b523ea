//! Cases of the machine's flat code.

use crate::fault::Fault;
use crate::given::{number, parted};
use crate::machine::block;
use crate::parts::{Had, json, push_json, push_outcomes, push_over, push_stop, read_had};
use asl_model::{Machine, valid};
use asl_valid::check;
use continuation_gen::{Compiled, compile};
use std::alloc::Global;
use unum_ir::{
    Child, Func, Ir, Stop, combine, enter_of, input_of, is_well_formed, parent_of, resource_of,
    resume, retriers, walk, width,
};
use unum_json::{Items, Json, Outcome};

/// The machine of the states, compiled.
fn compiled(alloc: Global) -> Result<Compiled, Fault> {
    let machine = Machine {
        root: block(alloc)?,
    };
    if let Err(error) = check(alloc, &machine) {
        drop(error);
        drop(machine);
        return Err(Fault::NotRead);
    }
    valid();
    Ok(compile(alloc, machine)?)
}

/// The name of a node, and `-` past the table.
fn node_name(ir: &Ir, node: u32) -> &str {
    match ir.nodes.get(node as usize) {
        Some(node) => node.name.as_str(),
        None => "-",
    }
}

/// The name of a function's node, and `-` for an Enter.
fn func_name(ir: &Ir, func: u32) -> &str {
    match ir.funcs.get(func as usize) {
        Some(Func::Task { node, .. }) => node_name(ir, *node),
        Some(Func::Join { node }) => node_name(ir, *node),
        _ => "-",
    }
}

/// The first function of that name: `-` is the Enter of the root.
fn func_named(ir: &Ir, name: &str) -> Result<u32, Fault> {
    for (index, _func) in ir.funcs.as_slice().iter().enumerate() {
        let func = u32::try_from(index).ok().ok_or(Fault::NotRead)?;
        if func_name(ir, func) == name {
            return Ok(func);
        }
    }
    Err(Fault::NotRead)
}

fn push_children(alloc: Global, out: &mut String, children: &Items<Child>) -> Result<(), Fault> {
    out.push_str(", inputs")?;
    for child in children.as_slice() {
        out.push_str(" ")?;
        push_json(alloc, out, &child.input)?;
    }
    Ok(())
}

fn tell_stop(alloc: Global, out: &mut String, ir: &Ir, stop: &Stop) -> Result<(), Fault> {
    match stop {
        Stop::End(outcome) => push_over(alloc, out, outcome),
        Stop::Call {
            func,
            hop,
            raw,
            used,
        } => {
            out.push_str("call ")?;
            push_stop(alloc, out, func_name(ir, *func), *hop, raw, used)
        }
        Stop::Fan {
            func,
            hop,
            raw,
            used,
            children,
        } => {
            out.push_str("fan ")?;
            push_stop(alloc, out, func_name(ir, *func), *hop, raw, used)?;
            push_children(alloc, out, children)
        }
    }
}

fn tell_resumed(
    alloc: Global,
    out: &mut String,
    ir: &Ir,
    func: u32,
    hop: u32,
    had: &Had,
) -> Result<(), Fault> {
    let stop = resume(alloc, ir, func, hop, &had.raw, &had.used, &had.answer)?;
    let told = tell_stop(alloc, out, ir, &stop);
    drop(stop);
    told
}

fn flat_case(alloc: Global, out: &mut String, ir: &Ir, words: &str) -> Result<(), Fault> {
    let (name, words) = parted(words, " ")?;
    let (hop, words) = parted(words, " ")?;
    let hop = number(hop)?;
    let func = func_named(ir, name)?;
    let had = read_had(alloc, words)?;
    let told = tell_resumed(alloc, out, ir, func, hop, &had);
    drop(had);
    told
}

fn walk_case(alloc: Global, out: &mut String, ir: &Ir, words: &str) -> Result<(), Fault> {
    let (label, words) = parted(words, " ")?;
    let (hop, words) = parted(words, " ")?;
    let label = number(label)?;
    let hop = number(hop)?;
    let value = json(alloc, words)?;
    let stop = walk(alloc, ir, label, hop, value)?;
    let told = tell_stop(alloc, out, ir, &stop);
    drop(stop);
    told
}

/// The inputs of the first three branches, as far as there are so many.
fn push_inputs(
    alloc: Global,
    out: &mut String,
    ir: &Ir,
    func: u32,
    raw: &Json,
) -> Result<(), Fault> {
    for index in 0..3 {
        if let Some(input) = input_of(alloc, ir, func, index, raw)? {
            out.push_str(" ")?;
            let pushed = push_json(alloc, out, &input);
            drop(input);
            pushed?;
        }
    }
    Ok(())
}

fn tell_func(alloc: Global, out: &mut String, ir: &Ir, func: u32, raw: &Json) -> Result<(), Fault> {
    let (enter, parent) = (enter_of(ir, func), parent_of(ir, func));
    let (retriers, width) = (retriers(ir, func), width(ir, func));
    write!(out, "{func} {}: enter {enter}", func_name(ir, func))?;
    write!(
        out,
        ", parent {parent:?}, retriers {retriers}, width {width}"
    )?;
    if let Some(resource) = resource_of(ir, func) {
        out.push_str(", resource ")?;
        out.push_str(resource.as_str())?;
    }
    out.push_str(", inputs")?;
    push_inputs(alloc, out, ir, func, raw)?;
    out.push_str("\n")?;
    Ok(())
}

fn code_case(alloc: Global, out: &mut String, ir: &Ir, words: &str) -> Result<(), Fault> {
    let raw = json(alloc, words)?;
    for (index, _func) in ir.funcs.as_slice().iter().enumerate() {
        let func = u32::try_from(index).ok().ok_or(Fault::NotRead)?;
        tell_func(alloc, out, ir, func, &raw)?;
    }
    drop(raw);
    write!(out, "well formed: {}", is_well_formed(ir))?;
    Ok(())
}

fn joined_case(alloc: Global, out: &mut String, ir: &Ir, words: &str) -> Result<(), Fault> {
    let func = func_named(ir, "Each")?;
    let mut outcomes: Vec<Outcome> = Vec::new(alloc);
    push_outcomes(alloc, &mut outcomes, words)?;
    let joined = combine(alloc, ir, func, Items::from_vec(outcomes))?;
    let told = push_over(alloc, out, &joined);
    drop(joined);
    told
}

/// What the flat code of the machine does, or what its functions are.
pub fn code(alloc: Global, out: &mut String, word: &str, words: &str) -> Result<(), Fault> {
    let compiled = compiled(alloc)?;
    let ir = compiled.ir();
    let told = match word {
        "flat" => flat_case(alloc, out, ir, words),
        "walk" => walk_case(alloc, out, ir, words),
        "joined" => joined_case(alloc, out, ir, words),
        _ => code_case(alloc, out, ir, words),
    };
    drop(compiled);
    out.push_str("\n")?;
    told
}
