//! Equal copies of paths and templates.

ghost use Rattle.std.specs.Prelude.{◌≡◌, IfOk};

use crate::adding::add_field;
use crate::path::{Path, PathStep};
use crate::template::{Part, Template};
use std::alloc::Global;
use unum_json::{Fields, Items, NoMemory, copy, copy_text};

fn copy_step(alloc: Global, step: &PathStep) -> Result<PathStep, NoMemory>
    ensures { IfOk result (λ s. s ≡ step.now) }
{
    match step {
        PathStep::Field(name) => Ok(PathStep::Field(copy_text(alloc, name)?)),
        PathStep::Index(index) => Ok(PathStep::Index(*index)),
    }
}

/// An equal path.
pub fn copy_path(alloc: Global, path: &Path) -> Result<Path, NoMemory>
    ensures { IfOk result (λ p. p ≡ path.now) }
{
    let mut steps = Vec::new(alloc);
    for step in path.steps() {
        steps.push(copy_step(alloc, step)?)?;
    }
    Ok(Path::from_steps(steps))
}

#[cycle(copy)]
fn copy_part(alloc: Global, part: &Part) -> Result<Part, NoMemory>
    ensures { IfOk result (λ p. p ≡ part.now) }
{
    match part {
        Part::Constant(value) => Ok(Part::Constant(copy(alloc, value)?)),
        Part::Found(path) => Ok(Part::Found(copy_path(alloc, path)?)),
        Part::ItemIndex => Ok(Part::ItemIndex),
        Part::ItemValue(path) => Ok(Part::ItemValue(copy_path(alloc, path)?)),
        Part::Array(parts) => Ok(Part::Array(copy_parts(alloc, parts)?)),
        Part::Object(fields) => Ok(Part::Object(copy_part_fields(alloc, fields)?)),
    }
}

#[cycle(copy)]
fn copy_parts(alloc: Global, parts: &Items<Part>) -> Result<Items<Part>, NoMemory>
    ensures { IfOk result (λ p. p ≡ parts.now) }
{
    let mut copies = Items::new(alloc);
    for part in parts.as_slice() {
        copies.push(copy_part(alloc, part)?)?;
    }
    Ok(copies)
}

#[cycle(copy)]
fn copy_part_fields(alloc: Global, fields: &Fields<Part>) -> Result<Fields<Part>, NoMemory>
    ensures { IfOk result (λ f. f ≡ fields.now) }
{
    let mut copies = Fields::new(alloc);
    for field in fields.as_slice() {
        let part = copy_part(alloc, &field.1)?;
        add_field(alloc, &mut copies, &field.0, part)?;
    }
    Ok(copies)
}

/// An equal template.
pub fn copy_template(alloc: Global, template: &Template) -> Result<Template, NoMemory>
    ensures { IfOk result (λ t. t ≡ template.now) }
{
    let source = copy(alloc, template.source())?;
    match copy_part_fields(alloc, template.fields()) {
        Ok(fields) => Ok(Template::from_parts(fields, template.item(), source)),
        Err(refused) => {
            drop(source);
            Err(refused)
        }
    }
}
