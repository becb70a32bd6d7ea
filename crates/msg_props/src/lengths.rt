//! The lengths of several texts or binaries.
ghost use Rattle.std.specs.Prelude.{◌≡◌, ◌⊎◌, ◌==◌, if◌then◌else◌};
ghost use Rattle.msg_model.specs.MsgValues.{step_of};
ghost use Rattle.prop_values.specs.Kinds.{kind_number};
ghost use Rattle.prop_values.specs.Shapes.{HasShape};

use prop_values::{Kind, Shape};

/// The bytes of the length of one of several texts, and of one of several binaries, which has four more. [MS-OXMSG 2.1.4]
pub fn length_width(kind: Kind) -> usize
    ensures bytes { result ≡ (if kind_number kind == 0x1102 then 8 else 4) }
    ensures step { (single : Kind) → HasShape (kind_number kind) (Shape.Parts single) → result ≡ step_of (kind_number kind) }
    ensures width { (result ≡ 4) ⊎ (result ≡ 8) }
{
    match kind {
        Kind::MultipleBinary => 8,
        _ => 4,
    }
}
