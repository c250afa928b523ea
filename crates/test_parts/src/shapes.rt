//! Cases of the data flow round a state. A path that is none is null, and a template that is none is missing.
//!
//! - `shape prep INPUT, PATH, PARAMETERS`: what the state is given of an input;
//! - `shape post INPUT, SELECTOR, RESULT-PATH, OUTPUT-PATH, RESULT`: what it hands on.
ghost use Rattle.std.specs.Prelude.{◌≡◌, IsTrue};
ghost use Rattle.asl_shape.specs.Stages.{is_plain};

use crate::cells::{said, shown};
use crate::refused::{Refused, Told};
use asl_paths::{Path, Template};
use asl_shape::{Shape, ShapeError, copy_shape, post, prep};
use std::alloc::Global;
use unum_json::{Json, Seen};

fn told(alloc: Global, answer: Result<Json, ShapeError>) -> Told {
    match answer {
        Ok(value) => shown(alloc, value),
        Err(error) => said(alloc, error.name().unwrap_or("NoMemory")),
    }
}

fn path(alloc: Global, cell: &Json) -> Option<Path> {
    match cell.seen() {
        Seen::Str(text) => Path::parse(alloc, text.as_bytes()).ok(),
        _ => None,
    }
}

fn template(alloc: Global, cell: &Json) -> Option<Template>
    ensures { IsTrue (is_plain result) }
{
    match Template::read(alloc, cell, false) {
        Ok(template) => Some(template),
        Err(_) => None,
    }
}

fn prepared(alloc: Global, raw: &Json, input: &Json, parameters: &Json) -> Told {
    let shape = Shape {
        input: path(alloc, input),
        parameters: template(alloc, parameters),
        selector: None,
        result: None,
        output: None,
    };
    let copy = copy_shape(alloc, &shape);
    drop(shape);
    let copy = copy?;
    let answer = prep(alloc, &copy, raw);
    drop(copy);
    told(alloc, answer)
}

fn handed_on(alloc: Global, raw: &Json, shape: Shape, made: &Json) -> Told {
    let copy = copy_shape(alloc, &shape);
    drop(shape);
    let copy = copy?;
    let answer = post(alloc, &copy, raw, made);
    drop(copy);
    told(alloc, answer)
}

/// The shape with this selector and these paths.
fn second_half(alloc: Global, selector: &Json, into: &Json, output: &Json) -> Shape {
    Shape {
        input: None,
        parameters: None,
        selector: template(alloc, selector),
        result: path(alloc, into),
        output: path(alloc, output),
    }
}

/// What a case of shapes comes to.
pub fn shape(alloc: Global, verb: &str, cells: &[Json]) -> Told {
    match (verb, cells) {
        ("prep", [raw, input, parameters]) => prepared(alloc, raw, input, parameters),
        ("post", [raw, selector, into, output, made]) => {
            handed_on(alloc, raw, second_half(alloc, selector, into, output), made)
        }
        _ => Err(Refused::NoCase),
    }
}
