//! Names of sources, each once.
ghost use Rattle.std.specs.Prelude.{◌≡◌, Bool, []};
ghost use Rattle.std.specs.List.{list_any};
ghost use Rattle.std.specs.List.Sorted.{IsStrictlySortedBy};
ghost use Rattle.pim_fanout.specs.Before.{name_key};
ghost use Rattle.pim_fanout.specs.Named.{keys_of};
ghost use Rattle.pim_types.specs.Keys.{key_cmp, same_key};
ghost use Rattle.pim_types.specs.declared.fact.Key.{Key as KeyValue};

use pim_types::SourceGroup;

// Whether both name the same source of the same group.
fn are_same(one: SourceGroup, other: SourceGroup) -> bool
    ensures { result ≡ same_key (name_key one) (name_key other) }
{
    one.key() == other.key()
}

/// Sorts the names by group and then by source, and keeps each once. No memory is taken.
pub(crate) fn each_once(names: &mut Vec<SourceGroup>)
    ensures same { (passes : KeyValue → Bool) → list_any passes (keys_of names.new.items)
        ≡ list_any passes (keys_of names.old.items) }
    ensures once { IsStrictlySortedBy key_cmp (keys_of names.new.items) }
    ensures none { names.old.items ≡ [] → names.new.items ≡ [] }
{
    names.sort_unstable_by_key(|name| name.key());
    names.dedup_by(|one, other| are_same(*one, *other));
}
