//! The members of an object that is being read.

ghost use Rattle.std.specs.Prelude.{◌≡◌, ◌++◌, ◌∷◌, [], IfOk, IsTrue};
ghost use Rattle.std.specs.Map.{keys_of};
ghost use Rattle.serde_json.specs.Data.{no_members, put};
ghost use Rattle.unum_json.specs.Gathered.{gathered, tree_view};
ghost use Rattle.unum_json.specs.Keys.{IsRising};
ghost use Rattle.unum_json.specs.Parsed.{view, members_view};

use crate::fields::Fields;
use crate::memory::NoMemory;
use crate::parsed::Value;
use crate::text::Text;
use std::alloc::Global;
use std::cmp::Ordering;
use std::collections::BTreeMap;

/// How many members are kept as pairs where their keys do not rise. So many are moved for a new one at most.
const FEW: usize = 64;

/// Members, each key once. Of a key that stands twice the last value counts.
#[derive(Drop)]
pub(crate) enum Gathered {
    /// Few of them, or any number whose keys came in rising order.
    Few(Fields<Value>),
    /// Many of them, whose keys came in any order.
    Many(BTreeMap<String, Value>),
}

impl Gathered {
    /// No members, which takes no memory.
    pub(crate) fn new(alloc: Global) -> Gathered
        ensures { gathered result ≡ no_members }
    {
        Gathered::Few(Fields::new(alloc))
    }

    /// These members and one more.
    pub(crate) fn with(self, alloc: Global, key: &str, value: Value) -> Result<Gathered, NoMemory>
        ensures { IfOk result (λ more. gathered more ≡ put key.now (view value) (gathered self)) }
    {
        match self {
            Gathered::Few(mut members) => {
                if is_above(&members, key) {
                    members.push(Text::from_str(alloc, key)?, value)?;
                    return Ok(Gathered::Few(members));
                }
                if members.len() < FEW {
                    members.insert(Text::from_str(alloc, key)?, value)?;
                    return Ok(Gathered::Few(members));
                }
                let mut tree = tree_of(alloc, members)?;
                drop(tree.insert(String::from_str(alloc, key)?, value)?);
                Ok(Gathered::Many(tree))
            }
            Gathered::Many(mut tree) => {
                drop(tree.insert(String::from_str(alloc, key)?, value)?);
                Ok(Gathered::Many(tree))
            }
        }
    }

    /// The members as pairs.
    pub(crate) fn into_fields(self, alloc: Global) -> Result<Fields<Value>, NoMemory>
        ensures { IfOk result (λ members. members_view members ≡ gathered self) }
    {
        match self {
            Gathered::Few(members) => Ok(members),
            Gathered::Many(tree) => fields_of(alloc, tree),
        }
    }
}

/// Whether the key is above the last one. Nothing is lost where it answers false.
fn is_above(members: &Fields<Value>, key: &str) -> bool
    ensures rising { IsRising (keys_of members.now) }
    ensures above { IsTrue result → IsRising (keys_of members.now ++ key.now ∷ []) }
{
    let Some(last) = members.as_slice().last() else {
        return true;
    };
    match last.0.as_bytes().cmp(key.as_bytes()) {
        Ordering::Less => true,
        _ => false,
    }
}

/// The members as a tree.
fn tree_of(alloc: Global, members: Fields<Value>) -> Result<BTreeMap<String, Value>, NoMemory>
    requires { IsRising (keys_of members) }
    ensures { IfOk result (λ tree. tree_view tree.entries ≡ members_view members) }
{
    let mut tree = BTreeMap::new(alloc);
    for (key, value) in members.into_vec() {
        drop(tree.insert(String::from_str(alloc, key.as_str())?, value)?);
    }
    Ok(tree)
}

/// The members of a tree as pairs.
fn fields_of(alloc: Global, tree: BTreeMap<String, Value>) -> Result<Fields<Value>, NoMemory>
    ensures { IfOk result (λ members. members_view members ≡ tree_view tree.entries) }
{
    let mut members = Fields::with_room(alloc, tree.len())?;
    for (key, value) in tree {
        members.push(Text::from_string(key)?, value)?;
    }
    Ok(members)
}
