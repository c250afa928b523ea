//! The name of an object, as the key of a hash map.
ghost use Rattle.std.specs.Prelude.{◌≡◌, ◌++◌, fold};
ghost use Rattle.checkpoint_store.specs.Writes.{scope_writes, place_writes};

use place_name::{Obj, Place, Trail};
use std::hash::{Hash, Hasher};

/// An object's name.
#[derive(Clone, Copy)]
pub struct Key {
    /// The object.
    pub object: Obj,
}

impl PartialEq for Key {
    ghost use Rattle.std.specs.Cmp.{partial_equiv_from_equiv};
    ghost use Rattle.checkpoint_store.specs.Keys.{key_same, keys_equiv};

    ghost eq = { key_same };

    ghost laws = { partial_equiv_from_equiv keys_equiv };

    fn eq(&self, other: &Key) -> bool {
        self.object.same(&other.object)
    }
}

impl Eq for Key {
    ghost use Rattle.checkpoint_store.specs.Keys.{keys_equiv};

    ghost laws = { keys_equiv };
}

impl Hash for Key {
    ghost use Rattle.checkpoint_store.specs.Keys.{key_writes, keys_alike};

    ghost hash_input = { key_writes };

    ghost respects_eq = { keys_alike };

    fn hash<H: Hasher>(&self, state: &mut H) {
        match &self.object {
            Obj::Check(name) => feed_place(0, &name.place, state),
            Obj::Out(scope) => feed_scope(1, scope.session, &scope.trail, state),
            Obj::Saved(place) => feed_place(2, place, state),
            Obj::Bits(place, _) => feed_place(3, place, state),
            Obj::Arg(name) => feed_place(4, &name.place, state),
        }
    }
}

/// Feeds the number of an object's kind, and a scope.
fn feed_scope<H: Hasher>(kind: u8, session: u32, trail: &Trail, state: &mut H)
    ensures { state.new ≡ fold H.write state.old (scope_writes kind session trail.now) }
{
    state.write_u8(kind);
    state.write_u32(session);
    for seg in trail.as_slice() {
        state.write_u32(seg.hop);
        state.write_u32(seg.index);
        state.write_u32(seg.count);
    }
}

/// Feeds the number of an object's kind, and a place.
fn feed_place<H: Hasher>(kind: u8, place: &Place, state: &mut H)
    ensures { state.new ≡ fold H.write state.old (place_writes kind place.now) }
{
    feed_scope(kind, place.session, &place.trail, state);
    state.write_u32(place.hop);
}
