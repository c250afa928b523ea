//! Cases of paths and templates:
//!
//! - `path parse BYTES`: the canonical text of a copy of the path;
//! - `path steps PATH`: how many steps it has;
//! - `path get PATH, VALUE`: what it finds;
//! - `path put PATH, VALUE, VALUE`: what comes of putting the second value where it leads in the first;
//! - `template plain VALUE`, `template item VALUE`: whether it is a template, without or with the paths into an item;
//! - `template fill VALUE, VALUE`: what a copy of a plain template is filled to from a value;
//! - `template fill-plain VALUE, VALUE, VALUE, INDEX`, `template fill-item ..`: so too from a value and an item.

use crate::cells::{bytes, formatted, number, quoted, said, shown, text_in};
use crate::refused::{Refused, Told};
use asl_paths::{Item, Path, Template, TemplateError, copy_path, copy_template};
use std::alloc::Global;
use unum_json::{Json, to_text};

/// The path that a text spells.
pub fn path_in(alloc: Global, cell: &Json) -> Result<Path, Refused> {
    Ok(Path::parse(alloc, text_in(cell)?.as_bytes())?)
}

fn spelled(alloc: Global, path: &Path) -> Told {
    let copied = copy_path(alloc, path)?;
    let text = copied.spell(alloc);
    drop(copied);
    Ok(text?)
}

fn parsed(alloc: Global, cell: &Json) -> Told {
    let bytes = bytes(alloc, cell)?;
    let path = Path::parse(alloc, bytes.as_slice());
    drop(bytes);
    let path = path?;
    let told = spelled(alloc, &path);
    drop(path);
    told
}

fn steps(alloc: Global, cell: &Json) -> Told {
    let path = path_in(alloc, cell)?;
    let count = path.steps().len();
    drop(path);
    formatted(count.to_string(alloc))
}

fn got(alloc: Global, path: &Json, value: &Json) -> Told {
    let path = path_in(alloc, path)?;
    let found = path.get(value);
    drop(path);
    match found {
        Some(found) => Ok(to_text(alloc, found)?),
        None => Err(Refused::Nothing),
    }
}

fn put(alloc: Global, path: &Json, raw: &Json, made: &Json) -> Told {
    let path = path_in(alloc, path)?;
    let value = path.put(alloc, raw, made);
    drop(path);
    shown(alloc, value?)
}

/// What a case of paths comes to.
pub fn path(alloc: Global, verb: &str, cells: &[Json]) -> Told {
    match (verb, cells) {
        ("parse", [cell]) => parsed(alloc, cell),
        ("steps", [path]) => steps(alloc, path),
        ("get", [path, value]) => got(alloc, path, value),
        ("put", [path, raw, made]) => put(alloc, path, raw, made),
        _ => Err(Refused::NoCase),
    }
}

fn is_template(alloc: Global, value: &Json, item: bool) -> Told {
    match Template::read(alloc, value, item) {
        Ok(template) => {
            drop(template);
            said(alloc, "a template")
        }
        Err(TemplateError::BadTemplate { at }) => quoted(alloc, "BadTemplate at ", at),
        Err(TemplateError::NoMemory) => Err(Refused::NoMemory),
    }
}

/// A copy of the template that a value is.
fn template_in(alloc: Global, value: &Json, item: bool) -> Result<Template, Refused> {
    let template = Template::read(alloc, value, item)?;
    let copy = copy_template(alloc, &template);
    drop(template);
    Ok(copy?)
}

fn fill(alloc: Global, template: &Template, value: &Json, item: Option<Item<'_>>) -> Told {
    if template.item() && item.is_none() {
        return Err(Refused::NoCase);
    }
    shown(alloc, template.fill(alloc, value, item)?)
}

fn filled(alloc: Global, template: &Json, value: &Json) -> Told {
    let template = template_in(alloc, template, false)?;
    let told = fill(alloc, &template, value, None);
    drop(template);
    told
}

fn filled_with(
    alloc: Global,
    item: bool,
    template: &Json,
    from: &Json,
    inner: (&Json, &Json),
) -> Told {
    let (value, index) = inner;
    let index = number(index)?;
    let template = template_in(alloc, template, item)?;
    let told = fill(alloc, &template, from, Some(Item { value, index }));
    drop(template);
    told
}

/// What a case of templates comes to.
pub fn template(alloc: Global, verb: &str, cells: &[Json]) -> Told {
    match (verb, cells) {
        ("plain", [value]) => is_template(alloc, value, false),
        ("item", [value]) => is_template(alloc, value, true),
        ("fill", [template, value]) => filled(alloc, template, value),
        (_, [template, from, value, index]) => {
            filled_with(alloc, verb == "fill-item", template, from, (value, index))
        }
        _ => Err(Refused::NoCase),
    }
}
