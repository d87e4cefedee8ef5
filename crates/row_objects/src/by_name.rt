//! Things by name, in order of creation.

ghost use Rattle.std.specs.Prelude.{◌≡◌, ◌++◌, ◌<◌, [], ◌∷◌, length, None, OnOk, OnErr, IfSome, option_copied, option_map, slice_get, Some, map};
ghost use Rattle.std.specs.Borrow.{sem};
ghost use Rattle.row_objects.specs.Lends.{lends_thing};
ghost use Rattle.row_objects.specs.Named.{entry_named, index_named};

use indexmap::IndexMap;
use memory::Heap;
use std::alloc::AllocError;
use std::hash::{BuildHasherDefault, FoldHasher};
use std::marker::Model;

/// Things by name, in order of creation. A contract sees the names with their things.
#[derive(Drop)]
pub struct ByName<V, A: Heap> {
    entries: IndexMap<String<A>, V, BuildHasherDefault<FoldHasher>, A>,
}

impl<V, A: Heap> Model for ByName<V, A> {
    ghost use Rattle.std.specs.Prelude.{List, ℕ, map, string_bytes};

    ghost Value = { List (List ℕ × V) };

    ghost view = { λ a. map (λ e. (string_bytes e.0, e.1)) a.entries.entries };
}

impl<V, A: Heap> ByName<V, A> {
    /// Nothing by any name.
    pub fn new(alloc: A) -> ByName<V, A>
        ensures { result ≡ [] }
    {
        ByName {
            entries: IndexMap::new(alloc),
        }
    }

    /// The number of things.
    pub fn len(&self) -> usize
        ensures { result ≡ length self.now }
    {
        self.entries.len()
    }

    /// The thing of that name.
    pub fn get(&self, name: &str) -> Option<&V>
        ensures { option_copied result ≡ option_map (λ e. e.1) (entry_named name.now self.now) }
    {
        self.entries.get(name)
    }

    /// The index of the thing of that name.
    pub fn index(&self, name: &str) -> Option<usize>
        ensures index { result ≡ index_named name.now self.now }
        ensures within { IfSome result (λ i. i < length self.now) }
    {
        self.entries.get_index_of(name)
    }

    /// The index of the thing of that name, the name as it is kept, and the thing.
    pub fn get_full(&self, name: &str) -> Option<(usize, &str, &V)>
        ensures index { option_map (λ p. p.0) result ≡ index_named name.now self.now }
        ensures within { IfSome result (λ p. p.0 < length self.now) }
        ensures entry { option_map (λ p. (p.1.now, p.2.now)) result ≡ entry_named name.now self.now }
    {
        match self.entries.get_full(name) {
            Some((index, key, thing)) => Some((index, key.as_str(), thing)),
            None => None,
        }
    }

    /// The name at an index, and the thing.
    pub fn entry_at(&self, index: usize) -> Option<(&str, &V)>
        ensures { option_map (λ p. (p.0.now, p.1.now)) result ≡ slice_get self.now index }
    {
        match self.entries.as_slice().get_index(index) {
            Some((key, thing)) => Some((key.as_str(), thing)),
            None => None,
        }
    }
}

impl<V, A: Heap> ByName<V, A> {
    /// The thing at an index.
    pub fn at(&self, index: usize) -> &V
        requires { index < length self.now }
        ensures { slice_get (map (λ e. e.1) self.now) index ≡ Some result.now }
    {
        &self.entries[index]
    }

    /// The thing at an index, to write.
    pub fn at_mut(&mut self, index: usize) -> &mut V
        requires { index < length self.old }
        ensures* writes_back { sem 𝓛 (lends_thing V.row A.row A.Allocator self.entry index result) }
        ensures value { slice_get (map (λ e. e.1) self.old) index ≡ Some result.now }
    {
        &mut self.entries[index]
    }
}

impl<V: Drop, A: Heap> ByName<V, A> {
    /// One more thing at the end, under a name that none has.
    pub fn insert(&mut self, alloc: A, name: &str, thing: V) -> Result<(), AllocError>
        requires { entry_named name.now self.old ≡ None }
        ensures ok { OnOk result (self.new ≡ self.old ++ (name.now, thing) ∷ []) }
        ensures err { OnErr result (self.new ≡ self.old) }
    {
        let key = String::from_str(alloc, name)?;
        self.entries.insert(key, thing)?;
        Ok(())
    }
}
