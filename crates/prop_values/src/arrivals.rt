//! Properties that come in any order.
ghost use Rattle.std.specs.Prelude.{◌≡◌, ◌∷◌, ◌++◌, ℕ, List, [], OnOk, OnErr, IfOk, IfErr};
ghost use Rattle.carrier_model.specs.Values as plain;
ghost use Rattle.carrier_model.specs.Sorted.{with_elements};
ghost use Rattle.prop_values.specs.Arrivals.{AreDifferent, AreMarksOf, IsDoubleOf};

use crate::arranging::arrange;
use crate::prop_list::Props;
use crate::props::Prop;
use crate::sorting::{Order, order_of};
use carrier_io::{Blob, NoMemory};
use std::alloc::Global;
use std::marker::Model;

/// Properties in the order in which they came, each with a mark of the reader's. They are put in order all at once;
/// those that come in order are only kept.
#[derive(Drop)]
pub struct Arrivals<B: Blob> {
    list: Vec<Prop<B>>,
    // The marks of the last properties, from the first on that is not above the one before it.
    marks: Vec<u64>,
}

impl<B: Blob> Model for Arrivals<B> {
    ghost use Rattle.prop_values.specs.Arrivals.{Came, RiseAtFront};

    ghost Value = { Came };

    ghost view = { λ s. record { props = s.list.items; marks = s.marks.items } };

    ghost invariant = { λ s. RiseAtFront s.list.items s.marks.items };
}

/// Why there is no sorted list: the mark of the first property whose key and kind an earlier one has, or want of memory.
#[derive(Clone, Copy, Debug, PartialEq, Eq)]
pub enum SettleEnd {
    Duplicate(u64),
    NoMemory,
}

impl From<NoMemory> for SettleEnd {
    ghost use Rattle.prop_values.specs.declared.arrivals.SettleEnd.TheVariants.{NoMemory as Wanting};
    ghost use Rattle.std.specs.Prelude.{◌≡◌};

    ghost from_gives = { λ _ e. e ≡ Wanting };

    fn from(_: NoMemory) -> SettleEnd {
        SettleEnd::NoMemory
    }
}

impl<B: Blob> Arrivals<B> {
    /// No properties yet.
    pub fn new(alloc: Global) -> Arrivals<B>
        ensures none { result.props ≡ [] }
        ensures unmarked { AreMarksOf result [] }
    {
        Arrivals {
            list: Vec::new(alloc),
            marks: Vec::new(alloc),
        }
    }

    /// Takes room for so many at once. Where memory is short, they take theirs as they come.
    pub fn make_room(&mut self, count: usize)
        ensures { self.new ≡ self.old }
    {
        let _ = self.list.reserve_exact(count);
    }

    /// Puts a property behind all others, with its mark. The list is unchanged where memory is refused.
    pub fn push(&mut self, prop: Prop<B>, mark: u64) -> Result<(), NoMemory>
        ensures ok { OnOk result (self.new.props ≡ self.old.props ++ prop ∷ []) }
        ensures marked { OnOk result ((marks : List ℕ) → AreMarksOf self.old marks → AreMarksOf self.new (marks ++ mark ∷ [])) }
        ensures err { OnErr result (self.new ≡ self.old) }
    {
        if self.marks.is_empty() && prop.is_above(&self.list) {
            self.list.push(prop)?;
            return Ok(());
        }
        self.list.reserve(1)?;
        self.marks.push(mark)?;
        self.list.push(prop)?;
        Ok(())
    }

    /// The sorted list of them. It is the vector that they came into. Duplicate has the mark of the first property
    /// whose key and kind an earlier one has; NoMemory says that memory ran out.
    pub fn settle(self) -> Result<Props<B>, SettleEnd>
        ensures settled { IfOk result (λ r. (r ≡ with_elements plain.prop_cmp [] self.props) × AreDifferent self.props) }
        ensures refused { (marks : List ℕ) → AreMarksOf self marks → IfErr result (IsDoubleOf self.props marks) }
    {
        let Arrivals { mut list, marks } = self;
        if marks.is_empty() {
            return Ok(Props::of_sorted(list));
        }
        match order_of(*list.allocator(), &list)? {
            Order::Double(place) => {
                let unmarked = list.len() - marks.len();
                Err(SettleEnd::Duplicate(marks[place - unmarked]))
            }
            Order::Places { places, ranks } => {
                arrange(&mut list, places, ranks);
                Ok(Props::of_sorted(list))
            }
        }
    }
}
