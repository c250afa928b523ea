//! Names in lists whose names rise.

ghost use Rattle.std.specs.Prelude.{◌≡◌};
ghost use Rattle.std.specs.Map.{keys_of};
ghost use Rattle.unum_json.specs.Keys.{IsRising};
ghost use Rattle.bundle_read.specs.Bounds.{knows, number_of};

use std::cmp::Ordering;
use unum_json::Text;

/// The number of a name, or else the length of the list. The list is halved each time.
pub fn number_of<V>(named: &[(Text, V)], name: &[u8]) -> usize
    requires { IsRising (keys_of named.now) }
    ensures { result ≡ number_of named.now name.now }
{
    let mut low = 0;
    let mut high = named.len();
    while low < high {
        let middle = low + (high - low) / 2;
        match name.cmp(named[middle].0.as_bytes()) {
            Ordering::Less => high = middle,
            Ordering::Equal => return middle,
            Ordering::Greater => low = middle + 1,
        }
    }
    named.len()
}

/// Whether the name is there.
pub fn knows<V>(named: &[(Text, V)], name: &[u8]) -> bool
    requires { IsRising (keys_of named.now) }
    ensures { result ≡ knows named.now name.now }
{
    number_of(named, name) < named.len()
}
