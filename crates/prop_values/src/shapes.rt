//! How values of a kind are formed.
ghost use Rattle.std.specs.Prelude.{◌≡◌, ◌-◌};
ghost use Rattle.carrier_model.specs.Kinds.{null_of};
ghost use Rattle.carrier_model.specs.Values.{width_in, width_of, number_widths, numbers_widths};
ghost use Rattle.prop_values.specs.Kinds.{kind_number};
ghost use Rattle.prop_values.specs.Shapes.{HasShape, number_width, numbers_width, element_width, part_null};

use crate::kinds::Kind;

/// How values of a kind are formed. A width is that of one number, in bytes.
#[derive(Clone, Copy, Debug, PartialEq, Eq)]
pub enum Shape {
    Number(usize),
    Guid,
    /// A text, or a binary.
    Bytes,
    Numbers(usize),
    Guids,
    /// Texts or binaries, each of the kind.
    Parts(Kind),
}

impl Kind {
    /// How values of the kind are formed. [MS-OXCDATA 2.11.1]
    pub fn shape(self) -> Shape
        ensures shape { HasShape (kind_number self) result }
        ensures number { width_in number_widths (kind_number self) ≡ number_width result }
        ensures numbers { width_in numbers_widths (kind_number self) ≡ numbers_width result }
        ensures width { width_of (kind_number self) ≡ element_width result }
        ensures null { null_of (kind_number self - 0x1000) ≡ part_null result }
    {
        match self {
            Kind::Integer16 => Shape::Number(2),
            Kind::Integer32 => Shape::Number(4),
            Kind::Floating32 => Shape::Number(4),
            Kind::Floating64 => Shape::Number(8),
            Kind::Currency => Shape::Number(8),
            Kind::FloatingTime => Shape::Number(8),
            Kind::ErrorCode => Shape::Number(4),
            Kind::Boolean => Shape::Number(2),
            Kind::Integer64 => Shape::Number(8),
            Kind::String8 => Shape::Bytes,
            Kind::String => Shape::Bytes,
            Kind::Time => Shape::Number(8),
            Kind::Guid => Shape::Guid,
            Kind::Binary => Shape::Bytes,
            Kind::MultipleInteger16 => Shape::Numbers(2),
            Kind::MultipleInteger32 => Shape::Numbers(4),
            Kind::MultipleFloating32 => Shape::Numbers(4),
            Kind::MultipleFloating64 => Shape::Numbers(8),
            Kind::MultipleCurrency => Shape::Numbers(8),
            Kind::MultipleFloatingTime => Shape::Numbers(8),
            Kind::MultipleInteger64 => Shape::Numbers(8),
            Kind::MultipleString8 => Shape::Parts(Kind::String8),
            Kind::MultipleString => Shape::Parts(Kind::String),
            Kind::MultipleTime => Shape::Numbers(8),
            Kind::MultipleGuid => Shape::Guids,
            Kind::MultipleBinary => Shape::Parts(Kind::Binary),
        }
    }

    /// The bytes of one element, where they are fixed.
    pub fn width(self) -> Option<u64>
        ensures { result ≡ width_of (kind_number self) }
    {
        match self.shape() {
            Shape::Number(width) => Some(width as u64),
            Shape::Numbers(width) => Some(width as u64),
            Shape::Guid => Some(16),
            Shape::Guids => Some(16),
            Shape::Bytes => None,
            Shape::Parts(_) => None,
        }
    }

    /// The bytes of the null at the end of a text of the kind.
    pub fn null_size(self) -> usize
        ensures { result ≡ null_of (kind_number self) }
    {
        match self {
            Kind::String8 => 1,
            Kind::String => 2,
            _ => 0,
        }
    }

    /// The bytes of the null at the end of each of several texts of the kind.
    pub fn part_null_size(self) -> usize
        ensures { result ≡ null_of (kind_number self - 0x1000) }
    {
        match self.shape() {
            Shape::Parts(single) => single.null_size(),
            _ => 0,
        }
    }
}
