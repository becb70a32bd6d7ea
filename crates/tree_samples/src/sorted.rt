//! Property lists whose properties come in order.
ghost use Rattle.std.specs.Prelude.{◌≡◌, ◌∷◌, [], IfOk};
ghost use Rattle.carrier_model.specs.Sorted.{IsStrictlySorted};
ghost use Rattle.carrier_model.specs.Values.{prop_cmp};

use carrier_io::NoMemory;
use prop_values::{Arrivals, Prop, Props, SettleEnd};
use std::alloc::Global;

/// The list of properties that came in order.
pub fn in_order(arrivals: Arrivals<Vec<u8>>) -> Result<Props<Vec<u8>>, NoMemory>
    requires { IsStrictlySorted prop_cmp arrivals.props }
    ensures { IfOk result (λ r. r ≡ arrivals.props) }
{
    match arrivals.settle() {
        Ok(props) => Ok(props),
        Err(SettleEnd::NoMemory) => Err(NoMemory),
        Err(SettleEnd::Duplicate(_)) => unreachable!(),
    }
}

/// The list of one property.
pub fn alone(alloc: Global, prop: Prop<Vec<u8>>) -> Result<Props<Vec<u8>>, NoMemory>
    ensures { IfOk result (λ r. r ≡ prop ∷ []) }
{
    let mut arrivals = Arrivals::new(alloc);
    arrivals.push(prop, 0)?;
    in_order(arrivals)
}
