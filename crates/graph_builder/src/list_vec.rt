ghost use Rattle.std.specs.Prelude.{◌≡◌, ◌==◌, [], ◌∷◌, ◌++◌, length, OnOk, OnErr};

use std::alloc::{AllocError, Global};
use std::marker::Model;

/// A `Vec` that contracts see as the list of its elements, and that gives it back.
#[derive(Drop)]
pub(crate) struct ListVec<T> {
    items: Vec<T>,
}

impl<T> Model for ListVec<T> {
    ghost use Rattle.std.specs.Prelude.{List};
    ghost use Rattle.std.specs.Coded.{coded_list};

    ghost Value = { List T };

    ghost coded = { coded_list T.code };

    ghost view = { λ r. r.items.items };
}

impl<T> ListVec<T> {
    /// No elements; takes no memory.
    pub(crate) fn new(alloc: Global) -> ListVec<T>
        ensures { result ≡ [] }
    {
        ListVec {
            items: Vec::new(alloc),
        }
    }

    /// The elements of a `Vec`.
    pub(crate) fn from_vec(items: Vec<T>) -> ListVec<T>
        ensures { result ≡ items.items }
    {
        ListVec { items }
    }

    /// The `Vec` of the elements.
    pub(crate) fn into_vec(self) -> Vec<T>
        ensures { result.items ≡ self }
    {
        self.items
    }

    /// The elements as a slice.
    pub(crate) fn as_slice(&self) -> &[T]
        ensures { result.now ≡ self.now }
    {
        self.items.as_slice()
    }

    /// The number of elements.
    pub(crate) fn len(&self) -> usize
        ensures { result ≡ length self.now }
    {
        self.items.len()
    }

    /// Whether there is no element.
    pub(crate) fn is_empty(&self) -> bool
        ensures { result ≡ (length self.now == 0) }
    {
        self.items.len() == 0
    }
}

impl<T: Drop> ListVec<T> {
    /// Puts an element after the others; they stay as they are where memory runs out.
    pub(crate) fn push(&mut self, item: T) -> Result<(), AllocError>
        ensures ok { OnOk result (self.new ≡ self.old ++ item ∷ []) }
        ensures err { OnErr result (self.new ≡ self.old) }
    {
        self.items.push(item)?;
        Ok(())
    }
}
