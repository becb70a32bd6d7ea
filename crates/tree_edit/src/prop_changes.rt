//! Property lists with changes beside them, which are laid over the list once.
ghost use Rattle.std.specs.Prelude.{◌≡◌, List, ◌++◌, [], ◌∷◌, drop as behind, Ok, Err, true, false, IfOk, OnOk};
ghost use Rattle.std.specs.BTreeMap.{IsOrdered};
ghost use Rattle.std.specs.List.{list_any};
ghost use Rattle.carrier_model.specs.Sorted.{IsStrictlySorted};
ghost use Rattle.carrier_model.specs.Values.{Prop as PlainProp, kind_of, prop_cmp};
ghost use Rattle.edit_model.specs.Edits.{has_pair, no_property, with_prop, without_prop};
ghost use Rattle.prop_names.specs.Meaning.{key_of};
ghost use Rattle.prop_values.specs.Kinds.{kind_number};
ghost use Rattle.tree_edit.specs.PropChanges.{AreChanges, first_order, first_put, with_changes};

use carrier_io::{Blob, NoMemory};
use prop_names::Key;
use prop_values::{Kind, Prop, Props};
use std::alloc::Global;
use std::cmp::Ordering;
use std::collections::BTreeMap;
use std::marker::Model;

/// The key and the kind of a property.
#[derive(Drop)]
struct Pair {
    key: Key,
    kind: Kind,
}

/// A property list, and beside it, by key and kind, the properties that were set since. Where one was removed, none stands.
#[derive(Drop)]
pub struct PropChanges<C: Blob> {
    list: Props<C>,
    changes: BTreeMap<Pair, Option<Prop<C>>>,
}

impl Model for Pair {
    ghost use Rattle.carrier_model.specs.Values.{Prop as PlainProp, with_pair};
    ghost use Rattle.prop_names.specs.Meaning.{key_of};
    ghost use Rattle.prop_values.specs.Kinds.{kind_number};

    ghost Value = { PlainProp };

    ghost view = { λ s. with_pair (key_of s.key) (kind_number s.kind) };
}

impl<C: Blob> Model for PropChanges<C> {
    ghost use Rattle.std.specs.Prelude.{List};
    ghost use Rattle.carrier_model.specs.Values.{Prop as PlainProp, prop_cmp};
    ghost use Rattle.carrier_model.specs.Sorted.{IsStrictlySorted};
    ghost use Rattle.tree_edit.specs.PropChanges.{AreChanges, with_changes};

    ghost Value = { List PlainProp };

    ghost view = { λ s. with_changes s.changes.entries s.list };

    ghost invariant = { λ s. IsStrictlySorted prop_cmp s.list × AreChanges s.changes.entries };
}

impl PartialEq for Pair {
    ghost use Rattle.std.specs.Cmp.{eq_by_cmp_equiv, partial_equiv_from_equiv};
    ghost use Rattle.std.specs.Ordering.{eq_by_cmp};
    ghost use Rattle.carrier_model.proofs.Orders.{prop_total};
    ghost use Rattle.carrier_model.specs.Values.{prop_cmp};

    ghost eq = { eq_by_cmp prop_cmp };

    ghost laws = { partial_equiv_from_equiv (eq_by_cmp_equiv prop_total) };

    fn eq(&self, other: &Pair) -> bool {
        self.cmp(other).is_eq()
    }
}

impl Eq for Pair {
    ghost use Rattle.std.specs.Cmp.{eq_by_cmp_equiv};
    ghost use Rattle.carrier_model.proofs.Orders.{prop_total};

    ghost laws = { eq_by_cmp_equiv prop_total };
}

impl PartialOrd for Pair {
    ghost use Rattle.std.specs.Cmp.{partial_order_from_total};
    ghost use Rattle.std.specs.Ordering.{as_partial_cmp};
    ghost use Rattle.carrier_model.proofs.Orders.{prop_total};
    ghost use Rattle.carrier_model.specs.Values.{prop_cmp};

    ghost partial_cmp = { as_partial_cmp prop_cmp };

    ghost laws = { partial_order_from_total prop_total };

    fn partial_cmp(&self, other: &Pair) -> Option<Ordering> {
        Some(self.cmp(other))
    }
}

impl Ord for Pair {
    ghost use Rattle.std.specs.Prelude.{refl};
    ghost use Rattle.carrier_model.proofs.Orders.{prop_total};
    ghost use Rattle.carrier_model.specs.Values.{prop_cmp};

    ghost cmp = { prop_cmp };

    ghost total = { prop_total };

    ghost matches_partial_cmp = { λ x y. refl };

    ghost matches_eq = { λ x y. refl };

    fn cmp(&self, other: &Pair) -> Ordering {
        self.key
            .order(&other.key)
            .then(self.kind.number().cmp(&other.kind.number()))
    }
}

impl Pair {
    /// How it stands to the key and the kind of a property.
    fn order_to<C: Blob>(&self, prop: &Prop<C>) -> Ordering
        ensures { result ≡ prop_cmp self.now prop.now }
    {
        self.key
            .order(&prop.key)
            .then(self.kind.number().cmp(&prop.value.kind().number()))
    }
}

impl<C: Blob> PropChanges<C> {
    /// A list of which nothing has changed.
    pub fn new(alloc: Global, list: Props<C>) -> PropChanges<C>
        ensures { result ≡ list }
    {
        // What a look-up promises says that the list is sorted.
        let _ = list.find(&Key::Id(0), Kind::Integer16);
        PropChanges {
            list,
            changes: BTreeMap::new(alloc),
        }
    }

    /// Puts a property in its place, and in the place of the one that has its key and kind.
    pub fn set(&mut self, alloc: Global, prop: Prop<C>) -> Result<(), NoMemory>
        ensures { OnOk result (with_prop prop self.old ≡ Ok self.new) }
    {
        let pair = Pair {
            key: prop.key.copy(alloc)?,
            kind: prop.value.kind(),
        };
        drop(self.changes.insert(pair, Some(prop))?);
        Ok(())
    }

    /// Whether a property has the key and the kind.
    fn has(&self, pair: &Pair) -> bool
        ensures { result ≡ list_any (has_pair pair.now.key (kind_of pair.now.value)) self.now }
    {
        match self.changes.get(pair) {
            Some(change) => change.is_some(),
            None => self.list.find(&pair.key, pair.kind).is_some(),
        }
    }

    /// Takes the property with the key and the kind out. It answers whether it was there.
    pub fn remove(&mut self, alloc: Global, key: &Key, kind: Kind) -> Result<bool, NoMemory>
        ensures there { IfOk result (λ there. there ≡ true → without_prop (key_of key.now) (kind_number kind) self.old ≡ Ok self.new) }
        ensures absent { IfOk result (λ there. there ≡ false → (without_prop (key_of key.now) (kind_number kind) self.old ≡ Err no_property) × (self.new ≡ self.old)) }
    {
        let pair = Pair {
            key: key.copy(alloc)?,
            kind,
        };
        if !self.has(&pair) {
            return Ok(false);
        }
        drop(self.changes.insert(pair, None)?);
        Ok(true)
    }

    /// The list after the changes, each element of the one or of the other in its turn.
    pub fn into_props(self, alloc: Global) -> Result<Props<C>, NoMemory>
        ensures { IfOk result (λ props. props ≡ self) }
    {
        let PropChanges { list, mut changes } = self;
        let mut merged = Props::with_capacity(alloc, list.len().saturating_add(changes.len()))?;
        let mut items = list.into_list().into_iter();
        let mut next = items.next();
        while let Some(prop) = next {
            match order_of_first(&changes, &prop) {
                Ordering::Less => {
                    put_first(&mut merged, &mut changes)?;
                    next = Some(prop);
                }
                Ordering::Equal => {
                    drop(prop);
                    next = items.next();
                }
                Ordering::Greater => {
                    merged.push_last(prop)?;
                    next = items.next();
                }
            }
        }
        put_all(&mut merged, changes)?;
        Ok(merged)
    }
}

/// How the first change stands to a property. Where there is none, all are above it.
fn order_of_first<C: Blob>(changes: &BTreeMap<Pair, Option<Prop<C>>>, prop: &Prop<C>) -> Ordering
    ensures { result ≡ first_order changes.now.entries prop.now }
{
    match changes.first_key_value() {
        Some((pair, _)) => pair.order_to(prop),
        None => Ordering::Greater,
    }
}

/// Takes the first change out, and puts its property behind those of a list.
fn put_first<C: Blob>(
    list: &mut Props<C>,
    changes: &mut BTreeMap<Pair, Option<Prop<C>>>,
) -> Result<(), NoMemory>
    requires { (rest : List PlainProp) × IsStrictlySorted prop_cmp (list.old ++ (first_put changes.old.entries ++ rest)) }
    ensures put { OnOk result (list.new ≡ list.old ++ first_put changes.old.entries) }
    ensures left { OnOk result (changes.new.entries ≡ behind 1 changes.old.entries) }
    ensures ordered { IsOrdered prop_cmp changes.new }
{
    match changes.pop_first() {
        Some((_, change)) => match change {
            Some(prop) => list.push_last(prop),
            None => Ok(()),
        },
        None => Ok(()),
    }
}

/// Puts the properties of all changes behind those of a list.
fn put_all<C: Blob>(
    list: &mut Props<C>,
    mut changes: BTreeMap<Pair, Option<Prop<C>>>,
) -> Result<(), NoMemory>
    requires own { AreChanges changes.entries }
    requires ordered { IsOrdered prop_cmp changes }
    requires sorted { IsStrictlySorted prop_cmp (list.old ++ with_changes changes.entries []) }
    ensures { OnOk result (list.new ≡ list.old ++ with_changes changes.entries []) }
{
    while !changes.is_empty() {
        put_first(list, &mut changes)?;
    }
    Ok(())
}
