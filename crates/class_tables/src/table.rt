ghost use Rattle.std.specs.Prelude.{◌≡◌, [], OnOk, OnErr, slice_get};
ghost use Rattle.std.specs.Option.{option_copied};
ghost use Rattle.class_tables.specs.Tables.{under, put, keys};

use indexmap::IndexMap;
use std::alloc::Global;
use std::hash::Hash;
use std::marker::Model;
use wire_core::NoMemory;

/// What was learnt last under each key. Contracts see the keys with their values, in the order in which the keys came.
#[derive(Debug, Drop)]
pub(crate) struct Table<K: Eq + Hash, V> {
    entries: IndexMap<K, V>,
}

impl<K: Eq + Hash, V> Model for Table<K, V> {
    ghost use Rattle.std.specs.Prelude.{List};

    ghost Value = { List (K × V) };

    ghost view = { λ t. t.entries.entries };
}

impl<K: Eq + Hash + Copy, V> Table<K, V> {
    /// A table with no key, which takes no memory.
    pub(crate) fn new(alloc: Global) -> Table<K, V>
        ensures { result ≡ [] }
    {
        Table {
            entries: IndexMap::new(alloc),
        }
    }

    /// Puts a value under a key, in place of the one that was there; where memory is refused the table stays.
    #[tactic(auto, using(crate::proofs::TableLaws::inserted))]
    pub(crate) fn put(&mut self, key: K, value: V) -> Result<(), NoMemory>
    where
        V: Drop,
        ensures ok { OnOk result (self.new ≡ put K.eq key value self.old) }
        ensures err { OnErr result (self.new ≡ self.old) }
    {
        self.entries.insert(key, value)?;
        Ok(())
    }

    /// The value under a key.
    #[tactic(auto, using(crate::proofs::TableLaws::looked_up))]
    pub(crate) fn get(&self, key: K) -> Option<&V>
        ensures { option_copied result ≡ under K.eq key self.now }
    {
        self.entries.get(&key)
    }

    /// The key at a place.
    pub(crate) fn key_at(&self, place: usize) -> Option<K>
        ensures { result ≡ slice_get (keys self.now) place }
    {
        let (key, _) = self.entries.get_index(place)?;
        Some(*key)
    }
}
