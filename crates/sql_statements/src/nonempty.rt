//! Lists that have an element.

ghost use Rattle.std.specs.Prelude.{◌≡◌, ◌<◌, length};

use period_core::Items;
use std::marker::Model;

/// A list of one element or more, which contracts see as its elements.
#[derive(Drop)]
pub struct NonEmpty<T> {
    items: Items<T>,
}

impl<T> Model for NonEmpty<T> {
    ghost use Rattle.std.specs.Prelude.{◌<◌, List, length};

    ghost Value = { List T };

    ghost view = { λ a. a.items };

    ghost invariant = { λ a. 0 < length a.items };
}

impl<T> NonEmpty<T> {
    /// The list of a vector that has an element.
    pub fn from_vec(items: Vec<T>) -> NonEmpty<T>
        requires { 0 < length items.items }
        ensures { result ≡ items.items }
    {
        NonEmpty {
            items: Items::from_vec(items),
        }
    }

    /// The elements.
    pub fn as_slice(&self) -> &[T]
        ensures value { result.now ≡ self.now }
        ensures filled { 0 < length result.now }
    {
        self.items.as_slice()
    }

    /// The number of elements.
    pub fn len(&self) -> usize
        ensures { result ≡ length self.now }
    {
        self.items.len()
    }
}
