//! Texts and lists that a contract sees by value.
ghost use Rattle.std.specs.Prelude.{◌≡◌, ◌++◌, [], ◌∷◌, length, OnOk, OnErr, IfOk, option_copied, slice_get};

use crate::heap::Heap;
use std::alloc::AllocError;
use std::marker::Model;

/// A text that its owner keeps. A contract sees its bytes.
#[derive(Debug, Drop)]
pub struct Text<A: Heap> {
    string: String<A>,
}

impl<A: Heap> Model for Text<A> {
    ghost use Rattle.std.specs.Prelude.{List, ℕ, string_bytes};

    ghost Value = { List ℕ };

    ghost view = { λ a. string_bytes a.string };
}

impl<A: Heap> Text<A> {
    /// A copy of a text.
    pub fn new(alloc: A, text: &str) -> Result<Text<A>, AllocError>
        ensures { IfOk result (λ t. t ≡ text.now) }
    {
        Ok(Text {
            string: String::from_str(alloc, text)?,
        })
    }

    /// The text.
    pub fn as_str(&self) -> &str
        ensures { result.now ≡ self.now }
    {
        self.string.as_str()
    }
}

impl<A: Heap> From<String<A>> for Text<A> {
    ghost use Rattle.std.specs.Prelude.{◌≡◌, string_bytes};

    ghost from_gives = { λ s t. t ≡ string_bytes s };

    fn from(string: String<A>) -> Text<A> {
        Text { string }
    }
}

/// A list. A contract sees its items.
#[derive(Debug, Drop)]
pub struct Items<T, A: Heap> {
    items: Vec<T, A>,
}

impl<T, A: Heap> Model for Items<T, A> {
    ghost use Rattle.std.specs.Prelude.{List};

    ghost Value = { List T };

    ghost view = { λ a. a.items.items };
}

impl<T, A: Heap> From<Vec<T, A>> for Items<T, A> {
    ghost use Rattle.std.specs.Prelude.{◌≡◌};

    ghost from_gives = { λ v r. r ≡ v.items };

    fn from(items: Vec<T, A>) -> Items<T, A> {
        Items { items }
    }
}

impl<T, A: Heap> Items<T, A> {
    /// An empty list.
    pub fn new(alloc: A) -> Items<T, A>
        ensures { result ≡ [] }
    {
        Items {
            items: Vec::new(alloc),
        }
    }

    /// The items.
    pub fn as_slice(&self) -> &[T]
        ensures { result.now ≡ self.now }
    {
        self.items.as_slice()
    }

    /// The number of items.
    pub fn len(&self) -> usize
        ensures { result ≡ length self.now }
    {
        self.items.len()
    }

    /// The item at an index.
    pub fn get(&self, i: usize) -> Option<&T>
        ensures { option_copied result ≡ slice_get self.now i }
    {
        self.items.get(i)
    }

    /// The items, as a `Vec`.
    pub fn into_vec(self) -> Vec<T, A>
        ensures { result.items ≡ self }
    {
        self.items
    }
}

impl<T: Drop, A: Heap> Items<T, A> {
    /// One more item at the end, or none. Where memory is refused, the item is dropped here and not in the caller,
    /// whose proof would contain its whole drop.
    pub fn push(&mut self, item: T) -> Result<(), AllocError>
        ensures ok { OnOk result (self.new ≡ self.old ++ item ∷ []) }
        ensures err { OnErr result (self.new ≡ self.old) }
    {
        self.items.push(item)?;
        Ok(())
    }
}
