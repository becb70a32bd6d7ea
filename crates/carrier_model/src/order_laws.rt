//! Laws about the orders of names, keys and properties.
ghost use Rattle.std.specs.Prelude.{◌≡◌, ◌↔◌};
ghost use Rattle.std.specs.Cmp.{IsTotalOrder};
ghost use Rattle.std.specs.declared.cmp.Ordering.TheVariants.{Equal};
ghost use Rattle.carrier_model.specs.Keys.{Name, Key, name_cmp, key_cmp};
ghost use Rattle.carrier_model.specs.Values.{Prop, kind_of, prop_cmp};

/// Names are totally ordered, and two that are equal in order are one.
pub fn names_are_ordered()
    ensures total { IsTotalOrder name_cmp }
    ensures exact { (x y : Name) → (name_cmp x y ≡ Equal) ↔ (x ≡ y) }
{}

/// The same of keys.
pub fn keys_are_ordered()
    ensures total { IsTotalOrder key_cmp }
    ensures exact { (x y : Key) → (key_cmp x y ≡ Equal) ↔ (x ≡ y) }
{}

/// Properties are totally ordered, and equal in order exactly where their keys and kinds are equal.
pub fn properties_are_ordered()
    ensures total { IsTotalOrder prop_cmp }
    ensures exact { (p q : Prop) → (prop_cmp p q ≡ Equal) ↔ ((p.key ≡ q.key) × (kind_of p.value ≡ kind_of q.value)) }
{}
