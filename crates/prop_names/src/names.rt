//! Names of properties.
ghost use Rattle.std.specs.Cmp.Lexicographic.{slice_cmp};
ghost use Rattle.std.specs.Int.{w64, from_be_bytes};
ghost use Rattle.std.specs.Ordering.{nat_cmp};
ghost use Rattle.std.specs.Prelude.{◌≡◌, ◌↔◌, ◌+◌, ◌≤◌, take, drop, IfOk};
ghost use Rattle.carrier_model.specs.Keys.{name_cmp, label_cmp, set_of, texted};
ghost use Rattle.prop_names.specs.Meaning.{name_of};

use carrier_io::{NoMemory, Units};
use std::alloc::Global;
use std::cmp::Ordering;
use std::rc::Rc;

/// A GUID's 16 bytes as a file has them.
#[derive(Clone, Copy, Debug, PartialEq, Eq)]
pub struct Guid(pub [u8; 16]);

/// The order of the bytes of GUIDs, eight at a time.
fn set_order(one: &[u8; 16], other: &[u8; 16]) -> Ordering
    ensures { result ≡ slice_cmp nat_cmp one.now other.now }
{
    let fronts = high_at(one, 0).cmp(&high_at(other, 0));
    let backs = high_at(one, 8).cmp(&high_at(other, 8));
    fronts.then(backs)
}

/// The number in the eight bytes at a place, the highest first.
fn high_at(bytes: &[u8; 16], at: usize) -> u64
    requires { at + 8 ≤ 16 }
    ensures { result ≡ from_be_bytes w64 (take 8 (drop at bytes.now)) }
{
    u64::from_be_bytes([
        bytes[at],
        bytes[at + 1],
        bytes[at + 2],
        bytes[at + 3],
        bytes[at + 4],
        bytes[at + 5],
        bytes[at + 6],
        bytes[at + 7],
    ])
}

/// A name in a property set: a number or a text. Most are numbers, so a text stands by itself, and a name takes no more
/// room than a number. Copies of a name share its text, so many properties may have one long name.
#[derive(Debug, Drop)]
pub enum Name {
    Number { set: Guid, number: u32 },
    Text(Rc<TextName>),
}

/// A text in a property set.
#[derive(Debug, Drop)]
pub struct TextName {
    pub set: Guid,
    pub units: Units,
}

/// Names are equal that have one set, and one number or text.
impl PartialEq for Name {
    ghost use Rattle.std.specs.Cmp.{eq_by_cmp_equiv, on_total, partial_equiv_from_equiv};
    ghost use Rattle.std.specs.Ordering.{is_eq};
    ghost use Rattle.carrier_model.proofs.Orders.{name_total};
    ghost use Rattle.carrier_model.specs.Keys.{name_cmp};
    ghost use Rattle.prop_names.specs.Meaning.{name_of};

    ghost eq = { λ one other. is_eq (name_cmp (name_of one) (name_of other)) };

    ghost laws = { partial_equiv_from_equiv (eq_by_cmp_equiv (on_total name_of name_total)) };

    fn eq(&self, other: &Name) -> bool {
        self.order(other).is_eq()
    }
}

impl Name {
    /// The name that a text is in a property set. NoMemory says that memory ran out.
    pub fn of_text(alloc: Global, set: Guid, units: Units) -> Result<Name, NoMemory>
        ensures { IfOk result (λ r. name_of r ≡ texted set.0 units) }
    {
        Ok(Name::Text(Rc::new(alloc, TextName { set, units })?))
    }

    /// The property set.
    pub fn set(&self) -> Guid
        ensures { result.0 ≡ set_of (name_of self.now) }
    {
        match self {
            Name::Number { set, .. } => *set,
            Name::Text(text) => text.set,
        }
    }

    /// By the GUID's bytes, then numbers by value before texts unit by unit.
    #[inline(never)]
    pub fn order(&self, other: &Name) -> Ordering
        ensures order { result ≡ name_cmp (name_of self.now) (name_of other.now) }
        ensures equal { (result ≡ Ordering.Equal) ↔ (name_of self.now ≡ name_of other.now) }
    {
        set_order(&self.set().0, &other.set().0).then_with(|| self.label_order(other))
    }

    fn label_order(&self, other: &Name) -> Ordering
        ensures { result ≡ label_cmp (name_of self.now) (name_of other.now) }
    {
        match self {
            Name::Number { number: one, .. } => match other {
                Name::Number { number: two, .. } => one.cmp(two),
                Name::Text(_) => Ordering::Less,
            },
            Name::Text(one) => match other {
                Name::Number { .. } => Ordering::Greater,
                Name::Text(two) => one.units.as_slice().cmp(two.units.as_slice()),
            },
        }
    }

    /// An equal name. NoMemory says that memory ran out.
    pub fn copy(&self, alloc: Global) -> Result<Name, NoMemory>
        ensures { IfOk result (λ r. name_of r ≡ name_of self.now) }
    {
        match self {
            Name::Number { set, number } => Ok(Name::Number {
                set: *set,
                number: *number,
            }),
            Name::Text(text) => Ok(Name::Text(text.clone()?)),
        }
    }
}
