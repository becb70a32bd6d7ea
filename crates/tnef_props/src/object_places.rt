//! Where the Object of an attachment stands in its list.
ghost use Rattle.std.specs.Prelude.{◌≡◌, ◌≤◌, take, drop, length, filter, not};
ghost use Rattle.carrier_model.specs.Kinds.{comes_before_object};
ghost use Rattle.carrier_model.specs.Values.{Prop as PlainProp};

use carrier_io::Blob;
use prop_values::Props;

/// How many properties come before the Object of an attachment, whose tag is 3701000D. [MS-OXTNEF 2.1.3.4]
pub fn object_place<B: Blob>(props: &Props<B>) -> usize
    ensures place { result ≡ length (filter comes_before_object props.now) }
    ensures within { result ≤ length props.now }
    ensures before { take result props.now ≡ filter comes_before_object props.now }
    ensures behind { drop result props.now ≡ filter (λ (p : PlainProp). not (comes_before_object p)) props.now }
{
    props.count_before_object()
}
