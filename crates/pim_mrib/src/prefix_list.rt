//! Values under prefixes, found by longest match.
ghost use Rattle.std.specs.Prelude.{◌≡◌, ◌≤◌, ◌↔◌, [], true, IsTrue, IfOk, OnErr, if◌then◌else◌, map};
ghost use Rattle.std.specs.List.{list_all};
ghost use Rattle.pim_ip.specs.declared.addr.Prefix.{Prefix};
ghost use Rattle.pim_ip.specs.Prefixes.{longest_match};
ghost use Rattle.pim_trie.specs.Entries.{is_canonical};
ghost use Rattle.pim_trie.specs.Meter.{raised};
ghost use Rattle.pim_model.specs.Limits.{are_distinct};
ghost use Rattle.pim_mrib.specs.Index.{IsIndexOf, nodes_visited};

use pim_trie::{Meter, Trie};
use pim_types::{Addr, Prefix};
use std::alloc::{AllocError, Global};
use std::marker::Model;

// A value under a prefix.
pub(crate) trait Prefixed: Copy {
    ghost prefix_of: { Self → Prefix };

    fn prefix(&self) -> Prefix
        ensures { result ≡ prefix_of self.now };

    fn is_same(&self, other: &Self) -> bool
        ensures { IsTrue result ↔ (self.now ≡ other.now) };
}

// Values under distinct prefixes in the order in which they were given, with a trie to find the
// one with the longest prefix.
pub(crate) struct PrefixList<T: Prefixed> {
    alloc: Global,
    values: Vec<T>,
    index: Trie<T>,
}

// Written out, so that it is proved once (docs/PROOF_NOTES.md, Drops).
impl<T: Prefixed + Drop> Drop for PrefixList<T> {
    fn drop(self) {
        let PrefixList {
            alloc: _,
            values: _,
            index: _,
        } = self;
    }
}

impl<T: Prefixed> Model for PrefixList<T> {
    ghost use Rattle.std.specs.List.{list_all};
    ghost use Rattle.std.specs.Prelude.{◌≡◌, List, map, true};
    ghost use Rattle.pim_model.specs.Limits.{are_distinct};
    ghost use Rattle.pim_trie.specs.Entries.{is_canonical};
    ghost use Rattle.pim_mrib.specs.Index.{IsIndexOf};

    ghost Value = { List T };

    ghost view = { λ a. a.values.items };

    ghost invariant = { λ a. IsIndexOf T.prefix_of a.values.items a.index
        × (list_all (λ v. is_canonical (T.prefix_of v)) a.values.items ≡ true)
        × (are_distinct (map T.prefix_of a.values.items) ≡ true) };
}

impl<T: Prefixed> PrefixList<T> {
    // No values.
    pub(crate) fn new(alloc: Global) -> Self
        ensures { result ≡ [] }
    {
        PrefixList {
            alloc,
            values: Vec::new(alloc),
            index: Trie::new(alloc),
        }
    }

    // The values, in their order.
    pub(crate) fn as_slice(&self) -> &[T]
        ensures { result.now ≡ self.now }
    {
        self.values.as_slice()
    }

    // Whether the list has these values, in this order.
    pub(crate) fn are(&self, values: &[T]) -> bool
        ensures { IsTrue result ↔ (self.now ≡ values.now) }
    {
        are_same(self.as_slice(), values)
    }

    // Of the values whose prefix contains the address, the one with the longest prefix.
    pub(crate) fn longest(&self, address: Addr, meter: &mut Meter) -> Option<T>
        ensures value { result ≡ longest_match T.prefix_of self.now address.bits }
        ensures visited { meter.new ≡ raised meter.old (nodes_visited T.prefix_of self.now address.bits) }
        ensures at_most { nodes_visited T.prefix_of self.now address.bits ≤ 33 }
    {
        let (_, value) = self.index.longest(address, meter)?;
        Some(*value)
    }

    // A list of the same values, in memory of its own.
    pub(crate) fn copy(&self, meter: &mut Meter) -> Result<PrefixList<T>, AllocError>
        ensures { IfOk result (λ copy. copy ≡ self.now) }
    {
        let mut index = Trie::new(self.alloc);
        fill(&mut index, self.as_slice(), meter)?;
        let values = Vec::from_slice(self.alloc, self.as_slice())?;
        Ok(PrefixList {
            alloc: self.alloc,
            values,
            index,
        })
    }

    // Puts these values in the place of the others, and says whether their prefixes are distinct.
    // Where they are not, or memory was refused, nothing has changed.
    pub(crate) fn replace(&mut self, values: &[T], meter: &mut Meter) -> Result<bool, AllocError>
        requires { list_all (λ v. is_canonical (T.prefix_of v)) values.now ≡ true }
        ensures distinct { IfOk result (λ distinct. distinct ≡ are_distinct (map T.prefix_of values.now)) }
        ensures new { IfOk result (λ distinct. self.new ≡ (if distinct then values.now else self.old)) }
        ensures err { OnErr result (self.new ≡ self.old) }
    {
        let mut index = Trie::new(self.alloc);
        if !fill(&mut index, values, meter)? {
            return Ok(false);
        }
        let values = Vec::from_slice(self.alloc, values)?;
        self.values = values;
        self.index = index;
        Ok(true)
    }
}

// Whether two lists have the same values in the same order.
pub(crate) fn are_same<T: Prefixed>(first: &[T], second: &[T]) -> bool
    ensures { IsTrue result ↔ (first.now ≡ second.now) }
{
    if first.len() != second.len() {
        return false;
    }
    for index in 0..first.len() {
        if !first[index].is_same(&second[index]) {
            return false;
        }
    }
    true
}

// Puts the values into the empty trie, and says whether their prefixes are distinct. Where they
// are not, only some values are in.
fn fill<T: Prefixed>(
    index: &mut Trie<T>,
    values: &[T],
    meter: &mut Meter,
) -> Result<bool, AllocError>
    requires empty { index.old ≡ [] }
    requires canonical { list_all (λ v. is_canonical (T.prefix_of v)) values.now ≡ true }
    ensures distinct { IfOk result (λ distinct. distinct ≡ are_distinct (map T.prefix_of values.now)) }
    ensures filled { IfOk result (λ distinct. IsTrue distinct → IsIndexOf T.prefix_of values.now index.new) }
{
    let mut left = values.len();
    while left > 0 {
        left -= 1;
        let value = values[left];
        if index.insert(value.prefix(), value, meter)?.is_some() {
            return Ok(false);
        }
    }
    Ok(true)
}
