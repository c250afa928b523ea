//! Lists of one or more.

ghost use Rattle.std.specs.Prelude.{◌≡◌, ◌<◌, length, vec_len};

use std::marker::Model;

/// A list of one or more.
#[derive(Debug, Drop)]
pub struct NonEmpty<T> {
    items: Vec<T>,
}

impl<T> Model for NonEmpty<T> {
    ghost use Rattle.std.specs.Prelude.{List, ◌<◌, length};
    ghost use Rattle.std.specs.Coded.{coded_list};

    ghost Value = { List T };

    ghost coded = { coded_list T.code };

    ghost view = { λ list. list.items.items };

    ghost invariant = { λ list. 0 < length list.items.items };
}

impl<T> NonEmpty<T> {
    /// The elements of a `Vec`, which is taken over and is not empty.
    pub fn from_vec(items: Vec<T>) -> NonEmpty<T>
        requires { 0 < vec_len items }
        ensures { result ≡ items.items }
    {
        NonEmpty { items }
    }

    /// The elements, in order.
    pub fn as_slice(&self) -> &[T]
        ensures value { result.now ≡ self.now }
        ensures filled { 0 < length self.now }
    {
        self.items.as_slice()
    }
}
