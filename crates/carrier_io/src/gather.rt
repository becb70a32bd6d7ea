//! Many small pieces, written as few large ones.
ghost use Rattle.std.specs.Prelude.{◌≡◌, ◌≤◌, ℕ, List, Option, take};
ghost use Rattle.carrier_io.specs.Known.{Writes};
ghost use Rattle.carrier_io.specs.Gathered.{Extends, IsCut, told, grown, Appends-prop, IsCut-prop};

use crate::devices::Sink;
use crate::failures::Failed;
use crate::whole::write_pieces;
use std::marker::{Brand, PhantomData};
use std::snapshot::Snapshot;

/// The bytes of a page.
const PAGE: usize = 16384;

/// What can append itself to a sink.
pub trait Writing {
    ghost use Rattle.std.specs.Prelude.{List, ℕ};
    ghost use Rattle.carrier_io.specs.Known.{Writes};

    /// The bytes that it appends.
    ghost text: { Self → List ℕ };

    /// Appends them. Failed says that the sink failed; then a front of them may stand there.
    fn write_to<W: Sink>(&self, sink: &mut W) -> Result<(), Failed>
        ensures { Writes (W.held sink.old) (W.held sink.new) (W.faults sink.old) (W.faults sink.new) result (text self.now) };
}

/// A sink that is lent, so that it stays the same one.
trait Lent {
    ghost use Rattle.std.specs.Prelude.{◌≡◌, ℕ, List, Option};
    ghost use Rattle.carrier_io.specs.Known.{Writes};

    /// What the sink tells.
    ghost held: { Self → Option (List ℕ) };

    ghost faults: { Self → ℕ };

    /// Which one it is.
    ghost name: { Self → ℕ };

    /// Appends all the bytes.
    fn send(&mut self, bytes: &[u8]) -> Result<(), Failed>
        ensures written { Writes (held self.old) (held self.new) (faults self.old) (faults self.new) result bytes.now }
        ensures same { name self.new ≡ name self.old };
}

impl<W: Sink> Lent for &mut W {
    ghost held = { λ r. W.held r.now };

    ghost faults = { λ r. W.faults r.now };

    ghost name = { λ r. r.ghost_name };

    fn send(&mut self, bytes: &[u8]) -> Result<(), Failed> {
        write_pieces(&mut **self, bytes)
    }
}

/// Which sink is lent, and what it told at first.
trait Opening {
    ghost name: { ℕ };

    ghost begun: { Option (List ℕ) };

    ghost count: { ℕ };
}

impl Opening for Brand {
    ghost use Rattle.std.specs.Prelude.{None};

    ghost name = { 0 };

    ghost begun = { None };

    ghost count = { 0 };
}

/// A sink that is lent, and the bytes that are to go to it next.
#[derive(Drop)]
struct Gatherer<D: Lent, K: Opening> {
    device: D,
    page: [u8; PAGE],
    len: usize,
    refused: u64,
    base: Snapshot<D>,
    of: PhantomData<K>,
    ghost named: { D.name device ≡ K.name },
    ghost within: { len ≤ 16384 },
    ghost later: { K.count ≤ D.faults device },
    ghost extends: { Extends K.begun (D.held device) } by { Appends-prop K.begun (D.held device) (grown K.begun (D.held device)) },
    ghost cut: { IsCut refused K.count (D.faults device) (D.held base.value) (D.held device) (take len page) } by { IsCut-prop refused K.count (D.faults device) (D.held base.value) (D.held device) (take len page) },
}

impl<D: Lent, K: Opening> Gatherer<D, K> {
    ghost use Rattle.std.specs.Prelude.{◌+◌, [], length, OnOk};
    ghost use Rattle.std.specs.Io.KnownBytes.{Keeps, Appends, append_known};
    ghost use Rattle.carrier_io.specs.Causes.{HasCause};

    /// Hands the page on.
    fn flush(&mut self) -> Result<(), Failed>
        ensures empty { OnOk result (self.new.len ≡ 0) }
        ensures ready { OnOk result (self.new.refused ≡ 0) }
        ensures keeps { Keeps (told self.old.refused (D.held self.old.device) (D.held self.old.base.value) (take self.old.len self.old.page)) (told self.new.refused (D.held self.new.device) (D.held self.new.base.value) (take self.new.len self.new.page)) }
        ensures cause { HasCause (D.faults self.old.device + self.old.refused) (D.faults self.new.device + self.new.refused) result }
    {
        if self.refused > 0 {
            self.refused = self.refused.saturating_add(1);
            return Err(Failed);
        }
        self.base = Snapshot::of(&self.device);
        match self.device.send(&self.page[..self.len]) {
            Ok(()) => {
                self.len = 0;
                Ok(())
            }
            Err(Failed) => {
                self.refused = 1;
                Err(Failed)
            }
        }
    }

    /// Appends what a plan writes, to the end.
    fn take_all<P: Writing>(&mut self, plan: &P) -> Result<(), Failed>
        requires empty { told self.old.refused (D.held self.old.device) (D.held self.old.base.value) (take self.old.len self.old.page) ≡ append_known K.begun [] }
        requires faultless { D.faults self.old.device + self.old.refused ≡ K.count }
        ensures { Writes K.begun (D.held self.new.device) K.count (D.faults self.new.device) result (P.text plan.now) }
    {
        plan.write_to(self)?;
        self.flush()
    }

    /// Puts a piece behind the others in hand.
    #[inline(always)]
    fn keep(&mut self, piece: &[u8])
        requires ready { self.old.refused ≡ 0 }
        requires room { self.old.len + length piece.now ≤ 16384 }
        ensures told { Appends (told self.old.refused (D.held self.old.device) (D.held self.old.base.value) (take self.old.len self.old.page)) (told self.new.refused (D.held self.new.device) (D.held self.new.base.value) (take self.new.len self.new.page)) piece.now }
        ensures faults { D.faults self.new.device + self.new.refused ≡ D.faults self.old.device + self.old.refused }
    {
        let end = self.len + piece.len();
        self.page[self.len..end].copy_from_slice(piece);
        self.len = end;
    }
}

impl<D: Lent, K: Opening> Sink for Gatherer<D, K> {
    ghost use Rattle.std.specs.Prelude.{◌+◌};

    ghost held = { λ g. told g.refused (D.held g.device) (D.held g.base.value) (take g.len g.page) };

    ghost faults = { λ g. D.faults g.device + g.refused };

    #[inline(always)]
    fn write(&mut self, piece: &[u8]) -> Result<usize, Failed> {
        if self.refused > 0 || piece.len() > PAGE - self.len {
            self.flush()?;
        }
        if piece.len() > PAGE {
            self.device.send(piece)?;
        } else {
            self.keep(piece);
        }
        Ok(piece.len())
    }
}

/// Appends what a plan writes, in few calls of the sink. Failed says that the sink failed; then a front of them may
/// stand there.
pub fn write_gathered<P: Writing, W: Sink>(plan: &P, sink: &mut W) -> Result<(), Failed>
    ensures { Writes (W.held sink.old) (W.held sink.new) (W.faults sink.old) (W.faults sink.new) result (P.text plan.now) }
{
    let Back { sink: _, done } = handed_back(plan, sink);
    done
}

/// A sink that was lent, and how it went.
#[derive(Drop)]
struct Back<D> {
    sink: D,
    done: Result<(), Failed>,
}

/// The same, with the sink handed back.
fn handed_back<'a, P: Writing, W: Sink>(plan: &P, sink: &'a mut W) -> Back<&'a mut W>
    ensures same { result.sink.ghost_name ≡ sink.entry.ghost_name }
    ensures written { Writes (W.held sink.old) (W.held result.sink.now) (W.faults sink.old) (W.faults result.sink.now) result.done (P.text plan.now) }
{
    gathered::<P, &'a mut W, Brand>(plan, sink)
}

/// The same, for the sink that `K` names, which is handed back.
fn gathered<P: Writing, D: Lent + Drop, K: Opening>(plan: &P, device: D) -> Back<D>
    requires name { D.name device ≡ K.name }
    requires begun { K.begun ≡ D.held device }
    requires count { K.count ≡ D.faults device }
    ensures same { D.name result.sink ≡ D.name device }
    ensures written { Writes (D.held device) (D.held result.sink) (D.faults device) (D.faults result.sink) result.done (P.text plan.now) }
{
    let base = Snapshot::of(&device);
    let mut gatherer = Gatherer::<D, K> {
        device,
        page: [0; PAGE],
        len: 0,
        refused: 0,
        base,
        of: PhantomData,
    };
    let done = gatherer.take_all(plan);
    let Gatherer { device, .. } = gatherer;
    Back { sink: device, done }
}
