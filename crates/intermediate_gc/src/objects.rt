//! The objects that are due once all acts of a name are done.
ghost use Rattle.std.specs.Prelude.{◌≡◌, ◌<◌, ◌≤◌, ◌↔◌, ◌++◌, ◌∷◌, [], length, slice_get, IsTrue};
ghost use Rattle.place_name.specs.declared.kind.Kind.TheVariants as kind;
ghost use Rattle.place_name.specs.declared.obj.Obj.TheVariants as object;
ghost use Rattle.place_name.specs.Names.{scope_of};
ghost use Rattle.world_model.specs.AnyCode.Names.{parent_of};
ghost use Rattle.world_model.specs.AnyCode.Acts.{due_objects, due_by_kind, due_at_enter, bits_objects};

use place_name::{Kind, MOST_BRANCHES, MOST_SEGS, Name, Obj, child};

/// What a name has of its own: the data that it was entered with, and its checkpoint.
fn own_objects(name: &Name, index: u32) -> Option<Obj>
    ensures { result ≡ slice_get (object.Arg name.now ∷ object.Check name.now ∷ []) index }
{
    match index {
        0 => Some(Obj::Arg(*name)),
        1 => Some(Obj::Check(*name)),
        _ => None,
    }
}

/// The name's checkpoint alone.
fn own_check(name: &Name, index: u32) -> Option<Obj>
    ensures { result ≡ slice_get (object.Check name.now ∷ []) index }
{
    match index {
        0 => Some(Obj::Check(*name)),
        _ => None,
    }
}

/// Whether the name is in a session's own scope, and not in a branch of a fan.
fn is_of_session(name: &Name) -> bool
    ensures { IsTrue result ↔ (name.now.place.trail ≡ []) }
{
    name.place.trail.is_empty()
}

/// What an Enter collects: its data only where it is a session's first one, since a branch's Enter reads its fan's.
fn due_of_enter(name: &Name, index: u32) -> Option<Obj>
    ensures { result ≡ slice_get (due_at_enter name.now (parent_of (scope_of name.now.place))) index }
{
    if is_of_session(name) {
        own_objects(name, index)
    } else {
        own_check(name, index)
    }
}

/// What a Join collects beside the outcomes of its branches. A fan with no branch has no bitmap.
fn after_outcomes(name: &Name, count: u32, index: u32) -> Option<Obj>
    ensures { result ≡ slice_get (object.Saved name.now.place ∷ (bits_objects name.now.place count ++ object.Check name.now ∷ [])) index }
{
    match (index, count) {
        (0, _) => Some(Obj::Saved(name.place)),
        (1, 0) => Some(Obj::Check(*name)),
        (1, _) => Some(Obj::Bits(name.place, count)),
        (2, 1..) => Some(Obj::Check(*name)),
        _ => None,
    }
}

/// What a Join collects.
fn due_of_join(name: &Name, count: u32, index: u32) -> Option<Obj>
    requires room { length name.now.place.trail < MOST_SEGS }
    requires within { count ≤ MOST_BRANCHES }
    ensures { result ≡ slice_get (due_by_kind name.now count kind.Join) index }
{
    if index < count {
        return Some(Obj::Out(child(&name.place, index, count).scope()));
    }
    after_outcomes(name, count, index - count)
}

/// The object with that number among those that nobody reads once all acts of a name are done: its own checkpoint is the last.
/// `count` is how many branches the fan of a Join has. `None` comes exactly past the end.
pub fn due(name: &Name, count: u32, index: u32) -> Option<Obj>
    requires room { name.now.kind ≡ kind.Join → length name.now.place.trail < MOST_SEGS }
    requires within { name.now.kind ≡ kind.Join → count ≤ MOST_BRANCHES }
    ensures { result ≡ slice_get (due_objects name.now count) index }
{
    match name.kind {
        Kind::Enter => due_of_enter(name, index),
        Kind::Task => own_objects(name, index),
        Kind::Join => due_of_join(name, count, index),
    }
}
