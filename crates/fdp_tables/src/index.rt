//! Numbers that are listed under keys.

ghost use Rattle.std.specs.Prelude.{◌≡◌, ◌≢◌, ℕ, ◌<◌, [], None, Some, IfSome, IsTrue, OnOk, map, length, slice_index_or};
ghost use Rattle.std.specs.Vec.{vec_items};
ghost use Rattle.fdp_tables.specs.Index.{Lists, is_listed};

use std::alloc::{AllocError, Global};
use std::marker::Model;
use std::mem;

/// Numbers under keys, so that what belongs to a key is found without a look at all there is. A list may name more than that. Where memory
/// is wanting, all lists are given up, and whoever asks has to look at all. Contracts see the lists, or none once they were given up.
#[derive(Debug, Drop)]
pub(crate) struct Index {
    lists: Option<Vec<Vec<u64>>>,
}

impl Model for Index {
    ghost use Rattle.std.specs.Prelude.{ℕ, List, Option, map, option_map};
    ghost use Rattle.std.specs.Vec.{vec_items};

    ghost Value = { Option (List (List ℕ)) };

    ghost view = { λ index. option_map (λ lists. map vec_items lists.items) index.lists };
}

impl Index {
    /// Nothing is listed. It takes no memory.
    pub(crate) fn new(alloc: Global) -> Index
        ensures { result ≡ Some [] }
    {
        Index {
            lists: Some(Vec::new(alloc)),
        }
    }

    /// Lists a number under a key.
    pub(crate) fn add(&mut self, key: u64, value: u64)
        ensures kept { (k v : ℕ) → Lists self.old k v → Lists self.new k v }
        ensures added { Lists self.new key value }
    {
        if !self.has_added(key, value) {
            self.give_up();
        }
    }

    fn has_added(&mut self, key: u64, value: u64) -> bool
        ensures kept { IsTrue result → (k v : ℕ) → Lists self.old k v → Lists self.new k v }
        ensures added { IsTrue result → Lists self.new key value }
    {
        match &mut self.lists {
            Some(lists) => add(lists, key as usize, value).is_ok(),
            None => true,
        }
    }

    /// The lists are no longer whole.
    pub(crate) fn give_up(&mut self)
        ensures { self.new ≡ None }
    {
        self.lists = None;
    }

    /// What is listed under a key.
    pub(crate) fn get(&self, key: u64) -> Option<&[u64]>
        ensures { IfSome result (λ list. (v : ℕ) → Lists self.now key v → IsTrue (is_listed v list.now)) }
    {
        match &self.lists {
            Some(lists) => match lists.as_slice().get(key as usize) {
                Some(list) => Some(list.as_slice()),
                None => Some(&[]),
            },
            None => None,
        }
    }

    /// Takes what is listed under a key away.
    pub(crate) fn take(&mut self, key: u64) -> Option<Vec<u64>>
        ensures all { IfSome result (λ list. (v : ℕ) → Lists self.old key v → IsTrue (is_listed v list.items)) }
        ensures others { (k v : ℕ) → k ≢ key → Lists self.old k v → Lists self.new k v }
    {
        match &mut self.lists {
            Some(lists) => Some(take(lists, key as usize)),
            None => None,
        }
    }
}

/// Lists a number under a key.
fn add(lists: &mut Vec<Vec<u64>>, key: usize, value: u64) -> Result<(), AllocError>
    ensures kept { (k v : ℕ) → IsTrue (is_listed v (slice_index_or (map vec_items lists.old.items) k [])) → IsTrue (is_listed v (slice_index_or (map vec_items lists.new.items) k [])) }
    ensures added { OnOk result (IsTrue (is_listed value (slice_index_or (map vec_items lists.new.items) key []))) }
{
    reach(lists, key)?;
    put(&mut lists[key], value)
}

/// Adds empty lists up to that of a key.
fn reach(lists: &mut Vec<Vec<u64>>, key: usize) -> Result<(), AllocError>
    ensures same { (k : ℕ) → slice_index_or (map vec_items lists.new.items) k [] ≡ slice_index_or (map vec_items lists.old.items) k [] }
    ensures there { OnOk result (key < length lists.new.items) }
{
    let alloc = *lists.allocator();
    for _ in lists.len()..key.saturating_add(1) {
        lists.push(Vec::new(alloc))?;
    }
    Ok(())
}

/// Puts a number behind a list, if it is not the last one there.
fn put(list: &mut Vec<u64>, value: u64) -> Result<(), AllocError>
    ensures kept { (v : ℕ) → IsTrue (is_listed v list.old.items) → IsTrue (is_listed v list.new.items) }
    ensures added { OnOk result (IsTrue (is_listed value list.new.items)) }
{
    if list.as_slice().last() != Some(&value) {
        list.push(value)?;
    }
    Ok(())
}

/// Takes the list of a key away.
fn take(lists: &mut Vec<Vec<u64>>, key: usize) -> Vec<u64>
    ensures taken { result.items ≡ slice_index_or (map vec_items lists.old.items) key [] }
    ensures others { (k : ℕ) → k ≢ key → slice_index_or (map vec_items lists.new.items) k [] ≡ slice_index_or (map vec_items lists.old.items) k [] }
{
    let alloc = *lists.allocator();
    if key < lists.len() {
        mem::replace(&mut lists[key], Vec::new(alloc))
    } else {
        Vec::new(alloc)
    }
}
