//! A table of joins.
ghost use Rattle.std.specs.Prelude.{◌≡◌, ◌↔◌, IsTrue, List, [], OnOk};
ghost use Rattle.std.specs.Option.{option_copied};
ghost use Rattle.zknow.specs.Tables.Join.{IsUnion, IsPartOfUnion};
ghost use Rattle.zknow.specs.Tables.Table.{IsAtKey, HasItem, IsLawfulTable, value_at_key};

use crate::tables::join::{Join, Key};
use std::alloc::{AllocError, Global};
use std::collections::BTreeMap;
use std::collections::btree_map::Iter;
use std::marker::Model;

/// A table of joins: keys in order, each with a value that has an item.
#[derive(Drop)]
pub(crate) struct Table<K: Key, J: Join> {
    alloc: Global,
    map: BTreeMap<K, J, Global>,
}

impl<K: Key, J: Join> Model for Table<K, J> {
    ghost Value = { List (K × J) };

    ghost view = { λ t. t.map.entries };

    ghost invariant = { λ t. IsLawfulTable K.cmp J.holds J.is_lawful t.map.entries };
}

impl<K: Key, J: Join> Table<K, J> {
    /// Returns a table without keys. It takes no memory yet.
    pub(crate) fn new(alloc: Global) -> Self
        ensures { (x : K × J.Item) → HasItem K.cmp J.holds result x → ⊥ }
    {
        Table {
            alloc,
            map: BTreeMap::new(alloc),
        }
    }

    /// Returns the allocator of the table.
    pub(crate) fn allocator(&self) -> Global {
        self.alloc
    }

    /// Returns the value at a key, or `None` if there is none.
    pub(crate) fn get(&self, key: &K) -> Option<&J>
        ensures { option_copied result ≡ value_at_key K.cmp self.now key.now }
    {
        self.map.get(key)
    }

    /// Whether there are no keys.
    pub(crate) fn is_empty(&self) -> bool
        ensures { IsTrue result ↔ (self.now ≡ []) }
    {
        self.map.is_empty()
    }

    /// Returns an iterator over the keys in order, each with its value.
    pub(crate) fn iter(&self) -> Iter<'_, K, J>
        ensures entries { result ≡ self.now }
        ensures lawful { IsLawfulTable K.cmp J.holds J.is_lawful result }
    {
        self.map.iter()
    }

    /// Adds an item at a key. Memory is as for `add`.
    pub(crate) fn add_at(&mut self, key: K, item: &J::Item) -> Result<(), AllocError>
        requires { J.can_add item.now }
        ensures ok { OnOk result (IsUnion (HasItem K.cmp J.holds self.old) (IsAtKey key (λ x. x ≡ item.now))
            (HasItem K.cmp J.holds self.new)) }
        ensures part { IsPartOfUnion (HasItem K.cmp J.holds self.old) (IsAtKey key (λ x. x ≡ item.now))
            (HasItem K.cmp J.holds self.new) }
    {
        if let Some(value) = self.map.get_mut(&key) {
            let added = value.add(item);
            value.lawful();
            return added;
        }
        let mut fresh = J::empty(self.alloc);
        fresh.add(item)?;
        fresh.lawful();
        self.map.insert(key, fresh)?;
        Ok(())
    }

    /// Joins a value that has an item into the value at a key. Memory is as for `absorb`.
    fn absorb_at(&mut self, key: K, other: &J) -> Result<(), AllocError>
        requires { (x : J.Item) × J.holds other.now x }
        ensures ok { OnOk result (IsUnion (HasItem K.cmp J.holds self.old) (IsAtKey key (J.holds other.now))
            (HasItem K.cmp J.holds self.new)) }
        ensures part { IsPartOfUnion (HasItem K.cmp J.holds self.old) (IsAtKey key (J.holds other.now))
            (HasItem K.cmp J.holds self.new) }
    {
        if let Some(value) = self.map.get_mut(&key) {
            let absorbed = value.absorb(other);
            value.lawful();
            return absorbed;
        }
        let mut fresh = J::empty(self.alloc);
        fresh.absorb(other)?;
        fresh.lawful();
        self.map.insert(key, fresh)?;
        Ok(())
    }
}

impl<K: Key, L: Key, J: Join> Table<K, Table<L, J>> {
    /// Adds an item at key `inner` of the table at key `outer`. Memory is as for `add`.
    pub(crate) fn add_within(
        &mut self,
        outer: K,
        inner: &L,
        item: &J::Item,
    ) -> Result<(), AllocError>
        requires { J.can_add item.now }
        ensures ok { OnOk result (IsUnion (HasItem K.cmp (HasItem L.cmp J.holds) self.old)
            (IsAtKey outer (IsAtKey inner.now (λ x. x ≡ item.now))) (HasItem K.cmp (HasItem L.cmp J.holds) self.new)) }
        ensures part { IsPartOfUnion (HasItem K.cmp (HasItem L.cmp J.holds) self.old)
            (IsAtKey outer (IsAtKey inner.now (λ x. x ≡ item.now))) (HasItem K.cmp (HasItem L.cmp J.holds) self.new) }
    {
        if let Some(table) = self.map.get_mut(&outer) {
            let added = table.add_at(*inner, item);
            table.lawful();
            return added;
        }
        let mut fresh = Table::new(self.alloc);
        fresh.add_at(*inner, item)?;
        fresh.lawful();
        self.map.insert(outer, fresh)?;
        Ok(())
    }
}

impl<K: Key, J: Join> Join for Table<K, J> {
    type Item = (K, J::Item);

    ghost use Rattle.zknow.specs.Tables.Table.{HasItem, IsLawfulTable};
    ghost use Rattle.zknow.specs.Tables.TableLaws.{same_table};

    ghost holds = { HasItem K.cmp J.holds };

    ghost is_lawful = { IsLawfulTable K.cmp J.holds J.is_lawful };

    ghost can_add = { λ x. J.can_add x.1 };

    ghost same = { same_table K.cmp K.total K.exact J.holds J.is_lawful J.same };

    fn empty(alloc: Global) -> Self {
        Table::new(alloc)
    }

    fn add(&mut self, item: &(K, J::Item)) -> Result<(), AllocError> {
        self.add_at(item.0, &item.1)
    }

    // Joins each value of the other table at its key. It costs a search for each key, and the joins.
    fn absorb(&mut self, other: &Self) -> Result<(), AllocError> {
        for (key, value) in other.iter() {
            self.absorb_at(*key, value)?;
        }
        Ok(())
    }

    fn lawful(&self) {
        let _ = &self.map;
    }
}
