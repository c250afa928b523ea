//! The table of functions.

ghost use Rattle.std.specs.Prelude.{◌≡◌, ◌↔◌, [], IsNone, OnOk, OnErr};
ghost use Rattle.std.specs.List.{Contains};
ghost use Rattle.std.specs.Map.{keys_of};
ghost use Rattle.std.specs.Option.{option_copied};
ghost use Rattle.unum_json.specs.Keys.{IsRising, find_key, with_key};

use crate::kind::FnKind;
use std::alloc::Global;
use std::marker::Model;
use unum_json::{Fields, NoMemory, Text};

/// The functions by their resources, whose names rise strictly by bytes.
#[derive(Drop)]
pub struct Table {
    rows: Fields<FnKind>,
}

impl Model for Table {
    ghost use Rattle.std.specs.Prelude.{List, ℕ};
    ghost use Rattle.fn_table.specs.declared.kind.FnKind.{FnKind};
    ghost use Rattle.std.specs.Coded.{codes};
    ghost use Rattle.unum_json.specs.contracts.value.Json as json;

    ghost Value = { List (List ℕ × FnKind) };

    ghost coded = { Prim.hlevel (codes, json.the_row.coded) };

    ghost view = { λ t. t.rows };
}

impl Table {
    /// A table with no function.
    pub fn new(alloc: Global) -> Table
        ensures { result ≡ [] }
    {
        Table {
            rows: Fields::new(alloc),
        }
    }

    /// The table of these functions.
    pub fn from_fields(rows: Fields<FnKind>) -> Table
        ensures { result ≡ rows }
    {
        Table { rows }
    }

    /// The functions with their resources, by rising names.
    pub fn rows(&self) -> &[(Text, FnKind)]
        ensures value { result.now ≡ self.now }
        ensures rising { IsRising (keys_of self.now) }
    {
        self.rows.as_slice()
    }

    /// Sets the function of a resource. Where memory ran out, nothing changed.
    pub fn insert(&mut self, resource: Text, kind: FnKind) -> Result<(), NoMemory>
        ensures ok { OnOk result (self.new ≡ with_key resource kind self.old) }
        ensures err { OnErr result (self.new ≡ self.old) }
    {
        self.rows.insert(resource, kind)?;
        Ok(())
    }

    /// The function of a resource. `None` comes exactly where the table does not have that name.
    pub fn find(&self, resource: &[u8]) -> Option<&FnKind>
        ensures found { option_copied result ≡ find_key resource.now self.now }
        ensures none { IsNone result ↔ ¬ Contains (keys_of self.now) resource.now }
    {
        self.rows.get(resource)
    }
}
