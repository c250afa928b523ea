//! Equal copies of shapes.

ghost use Rattle.std.specs.Prelude.{◌≡◌, IfOk};

use crate::shape::Shape;
use asl_paths::{Path, Template, copy_path, copy_template};
use std::alloc::Global;
use unum_json::NoMemory;

fn copy_path_if(alloc: Global, path: &Option<Path>) -> Result<Option<Path>, NoMemory>
    ensures { IfOk result (λ p. p ≡ path.now) }
{
    match path {
        Some(path) => Ok(Some(copy_path(alloc, path)?)),
        None => Ok(None),
    }
}

fn copy_template_if(
    alloc: Global,
    template: &Option<Template>,
) -> Result<Option<Template>, NoMemory>
    ensures { IfOk result (λ t. t ≡ template.now) }
{
    match template {
        Some(template) => Ok(Some(copy_template(alloc, template)?)),
        None => Ok(None),
    }
}

/// An equal shape.
pub fn copy_shape(alloc: Global, shape: &Shape) -> Result<Shape, NoMemory>
    ensures { IfOk result (λ s. s ≡ shape.now) }
{
    let input = copy_path_if(alloc, &shape.input)?;
    let parameters = copy_template_if(alloc, &shape.parameters)?;
    let selector = copy_template_if(alloc, &shape.selector)?;
    let result = copy_path_if(alloc, &shape.result)?;
    let output = copy_path_if(alloc, &shape.output)?;
    Ok(Shape {
        input,
        parameters,
        selector,
        result,
        output,
    })
}
