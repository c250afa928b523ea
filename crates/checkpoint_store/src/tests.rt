//! Each call of a store once, with ample memory.
ghost use Rattle.std.specs.Prelude.{◌<◌};

use super::*;
use place_name::{Kind, Name, Obj, Place, Trail, WasMarked};
use std::test::*;
use unum_json::{Items, Json, Outcome};
use world_types::{Held, Kept};

/// A place of a session's own scope.
fn place_at(session: u32) -> Place
    requires { session < 1000 }
{
    Place {
        session,
        trail: Trail::new(),
        hop: 1,
    }
}

#[test]
fn objects_come_and_go(rt: HostRuntime) -> Result<(), Fail> {
    let mut store = Store::new(rt.alloc());
    let place = place_at(7);
    let check = Obj::Check(Name {
        place,
        kind: Kind::Task,
    });
    let kept = Kept {
        raw: Json::null(),
        used: Items::new(rt.alloc()),
        answer: Outcome::Done(Json::whole(5)),
        ticket: 0,
        count: 0,
    };
    assert_eq!(rt;
        store.create(&check, Held::Kept(kept)).ok(),
        Some(Made::Won)
    );
    assert_eq!(rt; (store.live_of(7), store.live_of(8)), (1, 0));
    assert!(rt; matches!(store.look(&check), Some(Slot::Live(Held::Kept(_)))));
    assert_eq!(rt; store.set(&place, 1, 2).ok(), Some(Bit::NotFull));
    assert_eq!(rt; store.set(&place, 0, 2).ok(), Some(Bit::Full));
    assert_eq!(rt; store.live_of(7), 2);
    assert_eq!(rt; store.mark(&check), WasMarked::Done);
    assert_eq!(rt; store.mark(&Obj::Saved(place)), WasMarked::Absent);
    assert!(rt; matches!(store.look(&check), Some(Slot::Tombstone)));
    assert_eq!(rt; store.live_of(7), 1);
    Ok(())
}
