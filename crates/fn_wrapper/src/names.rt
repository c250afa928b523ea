//! The invocations that an instance sends, by their places.
ghost use Rattle.std.specs.Prelude.{◌≡◌, ◌<◌, ◌≤◌, length, IfSome};
ghost use Rattle.place_name.specs.Names.{IsParent};
ghost use Rattle.world_model.specs.AnyCode.Names.{at_hop, parent_of};
ghost use Rattle.world_model.specs.AnyCode.Acts.{join_at, task_at, enter_at};

use place_name::{HOPS, Kind, MOST_BRANCHES, MOST_SEGS, Name, Parent, Place, Scope, child, up};
use world_types::Invocation;

/// The place in that scope at that hop.
pub fn place_at(scope: &Scope, hop: u32) -> Place
    requires { hop < HOPS }
    ensures { result ≡ at_hop scope.now hop }
{
    Place {
        session: scope.session,
        trail: scope.trail,
        hop,
    }
}

/// The Task of that function at that hop of the scope.
pub fn task_at(func: u32, scope: &Scope, hop: u32) -> Invocation<u32>
    requires { hop < HOPS }
    ensures { result ≡ task_at func scope.now hop }
{
    Invocation {
        name: Name {
            place: place_at(scope, hop),
            kind: Kind::Task,
        },
        site: func,
    }
}

/// The Join of that function at that place.
pub fn join_at(func: u32, place: &Place) -> Invocation<u32>
    ensures { result ≡ join_at func place.now }
{
    let _hop = place.hop;
    Invocation {
        name: Name {
            place: *place,
            kind: Kind::Join,
        },
        site: func,
    }
}

/// The Enter of that function, of a branch of the fan at that place.
pub fn enter_at(func: u32, place: &Place, index: u32, count: u32) -> Invocation<u32>
    requires room { length place.now.trail < MOST_SEGS }
    requires below { index < count }
    requires within { count ≤ MOST_BRANCHES }
    ensures { result ≡ enter_at func place.now index count }
{
    Invocation {
        name: Name {
            place: child(place, index, count),
            kind: Kind::Enter,
        },
        site: func,
    }
}

/// The branch that a scope is. `None` comes exactly for a session's own scope.
pub fn parent_of(scope: &Scope) -> Option<Parent>
    ensures branch { result ≡ parent_of scope.now }
    ensures is_parent { IfSome result (λ q. IsParent q) }
    ensures room { IfSome result (λ q. length q.place.trail < MOST_SEGS) }
{
    let _len = scope.trail.len();
    up(scope)
}
