//! Changes of a store's entries, each with its count.
ghost use Rattle.std.specs.Prelude.{◌≡◌, ◌≢◌, OnOk, OnErr};
ghost use Rattle.world_model.specs.AnyCode.Operations.{Absent, Live, Tombstone};
ghost use Rattle.world_model.specs.AnyCode.World.{objects_with};
ghost use Rattle.checkpoint_store.specs.Entries.{objects_of, session_of as session_of_object, condition_of, IsOfKind, IsLive, IsPut, Keeps};

use crate::counts::{add_one, make_room, take_one};
use crate::key::Key;
use crate::slot::Slot;
use fanin_bitmap::Bitmap;
use indexmap::IndexMap;
use place_name::Obj;
use unum_json::NoMemory;
use world_types::Held;

/// The session that an object is of.
pub fn session_of(object: &Obj) -> u32
    ensures { result ≡ session_of_object object.now }
{
    match object {
        Obj::Check(name) => name.place.session,
        Obj::Out(scope) => scope.session,
        Obj::Saved(place) => place.session,
        Obj::Bits(place, _) => place.session,
        Obj::Arg(name) => name.place.session,
    }
}

/// Changes the slot of an object that is not absent.
fn put(objects: &mut IndexMap<Key, Slot>, object: &Obj, slot: Slot)
    requires { objects_of objects.old.entries object.now ≢ Absent }
    ensures { IsPut objects.old.entries objects.new.entries object.now slot }
{
    match objects.insert(Key { object: *object }, slot) {
        Ok(before) => drop(before),
        Err(_) => unreachable!(),
    }
}

/// Makes an absent object live, and counts it.
pub fn add(
    objects: &mut IndexMap<Key, Slot>,
    live: &mut Vec<u64>,
    object: &Obj,
    held: Held<Bitmap>,
) -> Result<(), NoMemory>
    requires kept { Keeps objects.old.entries live.old.items }
    requires absent { objects_of objects.old.entries object.now ≡ Absent }
    requires kind { IsOfKind object.now held }
    ensures kept { Keeps objects.new.entries live.new.items }
    ensures ok { OnOk result (objects_of objects.new.entries ≡ objects_with object.now (Live held) (objects_of objects.old.entries)) }
    ensures err { OnErr result (objects.new.entries ≡ objects.old.entries) }
{
    let session = session_of(object);
    if make_room(live, session).is_err() {
        drop(held);
        return Err(NoMemory);
    }
    // Fewer than 2^63 objects fit into memory, so each count is below that.
    let _number = objects.len();
    match objects.insert(Key { object: *object }, Slot::Live(held)) {
        Ok(before) => {
            drop(before);
            add_one(live, session);
            Ok(())
        }
        Err(refused) => {
            drop(refused);
            Err(NoMemory)
        }
    }
}

/// Makes a live object a tombstone, which no longer counts.
pub fn bury(objects: &mut IndexMap<Key, Slot>, live: &mut Vec<u64>, object: &Obj)
    requires kept { Keeps objects.old.entries live.old.items }
    requires live { IsLive (objects_of objects.old.entries object.now) }
    ensures kept { Keeps objects.new.entries live.new.items }
    ensures buried { objects_of objects.new.entries ≡ objects_with object.now Tombstone (objects_of objects.old.entries) }
{
    put(objects, object, Slot::Tombstone);
    take_one(live, session_of(object));
}

/// Changes what a live object holds.
pub fn replace(objects: &mut IndexMap<Key, Slot>, live: &[u64], object: &Obj, held: Held<Bitmap>)
    requires kept { Keeps objects.old.entries live.now }
    requires live { IsLive (objects_of objects.old.entries object.now) }
    requires kind { IsOfKind object.now held }
    ensures kept { Keeps objects.new.entries live.now }
    ensures replaced { objects_of objects.new.entries ≡ objects_with object.now (Live held) (objects_of objects.old.entries) }
{
    put(objects, object, Slot::Live(held));
}
