//! How readings of JSON values end.
ghost use Rattle.std.specs.Prelude.{◌≡◌, IfOk, [], reverse};
ghost use Rattle.tree_from_json.specs.Ends.{IsBelow, IsTold, ReadsBelow};
ghost use Rattle.tree_from_json.specs.declared.read_ends.ReadEnd.TheVariants as ends;

use carrier_io::{NoMemory, Numbers};
use std::alloc::{AllocError, AllocFailed, Global};

/// Why a JSON text is that of no tree.
#[derive(Clone, Copy, Debug, PartialEq, Eq)]
pub enum JsonWhy {
    /// The bytes are no UTF-8 or no JSON, a number is past the greatest float of 64 bits, an escape is half of a surrogate
    /// pair, or arrays and objects nest more than 127 deep.
    NotJson,
    /// A value isn't of the type that stands there, lacks a member or has another, or a path of a store's member has no
    /// names.
    Form,
    /// No kind has this name.
    Kind,
    /// A character is no hexadecimal digit of the case that has to stand there, or there are not as many as there have to
    /// be; or `units` has an odd number of bytes.
    Digits,
    /// A number has a fraction or an exponent (`1.0` too), is `-0`, below 0, or too large for its kind or for a name's 32
    /// bits; a Boolean is above 1, an id is from 8000 upward; or a name, the bytes of a value or a list is too long.
    Range,
    /// A property doesn't come after the one before it, or a member of a store doesn't, or its storage isn't open.
    Order,
    /// A message is at level 33, or a store has storages more than 32 deep or the property stream of a message at its top.
    Deep,
}

/// The first fault of a JSON text.
#[derive(Debug, Drop)]
pub struct JsonFault {
    /// Why it is one.
    pub why: JsonWhy,
    /// The steps to it from the top down: an element's place, or that of a member in the order of keys, both from 0.
    pub path: Numbers,
}

/// Why a JSON text was not read as a tree.
#[derive(Debug, Drop)]
pub enum JsonEnd {
    /// It is that of no tree.
    Fault(JsonFault),
    /// Memory was refused.
    NoMemory,
}

impl From<NoMemory> for JsonEnd {
    ghost use Rattle.tree_from_json.specs.declared.read_ends.JsonEnd.TheVariants.{NoMemory as Wanting};

    ghost from_gives = { λ _ e. e ≡ Wanting };

    fn from(_: NoMemory) -> JsonEnd {
        JsonEnd::NoMemory
    }
}

/// A fault while the values around it are read: its steps come from the inside out.
#[derive(Debug, Drop)]
pub(crate) struct Fault {
    pub(crate) why: JsonWhy,
    pub(crate) steps: Numbers,
}

/// Why a value was not read.
#[derive(Debug, Drop)]
pub(crate) enum ReadEnd {
    /// It has a fault.
    Fault(Fault),
    /// Memory was refused.
    NoMemory,
}

impl From<NoMemory> for ReadEnd {
    ghost from_gives = { λ _ e. e ≡ ends.NoMemory };

    fn from(_: NoMemory) -> ReadEnd {
        ReadEnd::NoMemory
    }
}

impl From<AllocError> for ReadEnd {
    ghost from_gives = { λ _ e. e ≡ ends.NoMemory };

    fn from(_: AllocError) -> ReadEnd {
        ReadEnd::NoMemory
    }
}

impl<T: Drop> From<AllocFailed<T>> for ReadEnd {
    ghost from_gives = { λ _ e. e ≡ ends.NoMemory };

    fn from(_: AllocFailed<T>) -> ReadEnd {
        ReadEnd::NoMemory
    }
}

/// A fault of this very value.
pub(crate) fn fault_here(alloc: Global, why: JsonWhy) -> ReadEnd
    ensures { result ≡ ends.Fault (record { why = why; steps = [] }) }
{
    ReadEnd::Fault(Fault {
        why,
        steps: Numbers::new(alloc),
    })
}

/// The same fault one step further down.
fn below(mut fault: Fault, step: u64) -> ReadEnd
    ensures { IsBelow step fault result }
{
    match fault.steps.push(step) {
        Ok(()) => ReadEnd::Fault(fault),
        Err(_) => ReadEnd::NoMemory,
    }
}

/// What a part answers, one step further down.
pub(crate) fn under<T>(read: Result<T, ReadEnd>, step: u64) -> Result<T, ReadEnd>
    ensures { ReadsBelow step read result }
{
    match read {
        Ok(x) => Ok(x),
        Err(ReadEnd::Fault(fault)) => Err(below(fault, step)),
        Err(ReadEnd::NoMemory) => Err(ReadEnd::NoMemory),
    }
}

/// The steps of a fault from the top down.
fn top_down(alloc: Global, steps: &Numbers) -> Result<Numbers, NoMemory>
    ensures { IfOk result (λ path. path ≡ reverse steps.now) }
{
    let mut path = Numbers::with_capacity(alloc, steps.len())?;
    for k in 0..steps.len() {
        path.push(*steps.get(steps.len() - 1 - k))?;
    }
    Ok(path)
}

/// The fault as it is told.
pub(crate) fn told(alloc: Global, end: ReadEnd) -> JsonEnd
    ensures { IsTold end result }
{
    match end {
        ReadEnd::Fault(fault) => match top_down(alloc, &fault.steps) {
            Ok(path) => JsonEnd::Fault(JsonFault {
                why: fault.why,
                path,
            }),
            Err(_) => JsonEnd::NoMemory,
        },
        ReadEnd::NoMemory => JsonEnd::NoMemory,
    }
}
