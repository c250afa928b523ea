//! Objects by their names.
use crate::answers::{Bit, Made};
use crate::counts::count_of;
use crate::entries::{add, bury, replace};
use crate::key::Key;
use crate::reading::{bit_of, made_by, with_bit};
use crate::slot::Slot;
use fanin_bitmap::Bitmap;
use indexmap::IndexMap;
use place_name::{MOST_BRANCHES, Obj, Place, WasMarked};
use std::alloc::Global;
use std::marker::Model;
use unum_json::NoMemory;
use world_types::Held;

/// Objects by their names: each is absent, live with what it holds, or collected. A look costs the same whatever the number of
/// objects, and so does the number of a session's live ones.
#[derive(Drop)]
pub struct Store {
    objects: IndexMap<Key, Slot>,
    live: Vec<u64>,
}

impl Model for Store {
    ghost use Rattle.std.specs.Coded.{coded_list, coded×};
    ghost use Rattle.checkpoint_store.specs.contracts.key.Key as key;
    ghost use Rattle.checkpoint_store.specs.contracts.slot.Slot as slot;
    ghost use Rattle.checkpoint_store.specs.Entries.{Entries, Keeps};

    ghost Value = { Entries };

    ghost coded = { coded_list (coded× key.the_row.coded slot.the_row.coded) };

    ghost view = { λ s. s.objects.entries };

    ghost invariant = { λ s. Keeps s.objects.entries s.live.items };
}

impl Store {
    ghost use Rattle.std.specs.Prelude.{◌≡◌, ◌<◌, ◌≤◌, IfOk, OnOk, OnErr};
    ghost use Rattle.std.specs.Option.{option_copied};
    ghost use Rattle.place_name.specs.declared.obj.Obj.TheVariants as object;
    ghost use Rattle.world_model.specs.AnyCode.Code.{flags};
    ghost use Rattle.world_model.specs.AnyCode.Operations.{Absent};
    ghost use Rattle.world_model.specs.AnyCode.World.{created_objects, marked_objects, bit_objects, set_reply, mark_reply};
    ghost use Rattle.checkpoint_store.specs.Entries.{objects_of, condition_in, live_in, IsOfKind, AreApart, AreOfKinds};
    ghost use Rattle.checkpoint_store.specs.Answers.{made_of, reply_of_bit, reply_of_mark};

    /// A store in which every object is absent. It takes no memory.
    pub fn new(alloc: Global) -> Store
        ensures { (object : Obj) → objects_of result object ≡ Absent }
    {
        Store {
            objects: IndexMap::new(alloc),
            live: Vec::new(alloc),
        }
    }

    /// What is there of an object: nothing where it is absent. What is live holds what its kind does.
    pub fn look(&self, object: &Obj) -> Option<&Slot>
        ensures found { condition_in (option_copied result) ≡ objects_of self.now object.now }
        ensures kinds { AreOfKinds (objects_of self.now) }
    {
        self.objects.get(&Key { object: *object })
    }

    /// How many objects of a session are live. It reads a count that is kept.
    pub fn live_of(&self, session: u32) -> u64
        ensures live { result ≡ live_in session self.now }
        ensures apart { AreApart self.now }
    {
        count_of(self.live.as_slice(), session)
    }

    /// Makes an absent object live with that. Where it is not absent, and where memory runs out, what was to be held is dropped, and
    /// nothing changes.
    pub fn create(&mut self, object: &Obj, held: Held<Bitmap>) -> Result<Made, NoMemory>
        requires kind { IsOfKind object.now held }
        ensures ok { OnOk result
            (objects_of self.new ≡ created_objects (objects_of self.old) object.now held (objects_of self.old object.now)) }
        ensures made { IfOk result (λ m. m ≡ made_of (objects_of self.old object.now)) }
        ensures err { OnErr result (self.new ≡ self.old) }
        ensures memory { OnErr result (objects_of self.old object.now ≡ Absent) }
    {
        let made = made_by(self.look(object));
        match made {
            Made::Won => add(&mut self.objects, &mut self.live, object, held)?,
            Made::Had => drop(held),
            Made::HadTombstone => drop(held),
        }
        Ok(made)
    }

    /// Makes an object that is not absent a tombstone, from which nothing leads away. It takes no memory.
    pub fn mark(&mut self, object: &Obj) -> WasMarked
        ensures objects { objects_of self.new ≡ marked_objects (objects_of self.old) object.now (objects_of self.old object.now) }
        ensures was { reply_of_mark result ≡ mark_reply (objects_of self.old object.now) }
    {
        match self.look(object) {
            None => WasMarked::Absent,
            Some(Slot::Tombstone) => WasMarked::Done,
            Some(Slot::Live(_)) => {
                bury(&mut self.objects, &mut self.live, object);
                WasMarked::Done
            }
        }
    }

    /// Sets the bit of a branch in the bitmap of the fan at that place, which has so many branches. Where none is, one without a
    /// bit is made first; that alone takes memory.
    pub fn set(&mut self, place: &Place, index: u32, count: u32) -> Result<Bit, NoMemory>
        requires below { index < count }
        requires within { count ≤ MOST_BRANCHES }
        ensures ok { OnOk result
            (objects_of self.new ≡ bit_objects flags (objects_of self.old) place.now index count
            (objects_of self.old (object.Bits place.now count))) }
        ensures bit { IfOk result (λ b. reply_of_bit b ≡ set_reply flags index count (objects_of self.old (object.Bits place.now count))) }
        ensures err { OnErr result (self.new ≡ self.old) }
        ensures memory { OnErr result (objects_of self.old (object.Bits place.now count) ≡ Absent) }
    {
        let object = Obj::Bits(*place, count);
        let slot = self.look(&object);
        let bits = with_bit(slot, index, count);
        let bit = bit_of(&bits);
        match made_by(slot) {
            Made::Won => {
                add(&mut self.objects, &mut self.live, &object, Held::Bits(bits))?;
                Ok(bit)
            }
            Made::Had => {
                replace(
                    &mut self.objects,
                    self.live.as_slice(),
                    &object,
                    Held::Bits(bits),
                );
                Ok(bit)
            }
            Made::HadTombstone => Ok(Bit::Tombstone),
        }
    }
}
