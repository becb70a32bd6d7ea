//! What bytes come from and go to.
ghost use Rattle.std.specs.Prelude.{◌<◌, ℕ, List, Option, length, take, IfOk, MatchResult};
ghost use Rattle.std.specs.Io.{ReadsAtMost, WritesAtMost};
ghost use Rattle.std.specs.Io.KnownBytes.{ReadConsumes, Appends};
ghost use Rattle.carrier_io.specs.Causes.{HasCause};
ghost use Rattle.carrier_io.specs.Known.{AppendsFront};

use crate::failures::Failed;

/// What bytes come from.
pub trait Source {
    /// The bytes that are left, where the source tells them.
    ghost left: { Self → Option (List ℕ) };

    /// How often it has failed.
    ghost faults: { Self → ℕ };

    /// Takes the next bytes into the front of the buffer, and says how many. None for a buffer that is not empty is
    /// the end. A failed call is counted and takes nothing.
    fn read(&mut self, buf: &mut [u8]) -> Result<usize, Failed>
        ensures bound { ReadsAtMost result buf.new }
        ensures bytes { ReadConsumes (left self.old) (left self.new) result buf.new }
        ensures cause { HasCause (faults self.old) (faults self.new) result };
}

/// What bytes go to.
pub trait Sink {
    /// The bytes that it holds, where it tells them.
    ghost held: { Self → Option (List ℕ) };

    /// How often it has failed.
    ghost faults: { Self → ℕ };

    /// Appends a front of the piece, and says how many bytes of it: at least one, where it is not empty. A failed
    /// call is counted, and may have appended a front too.
    fn write(&mut self, piece: &[u8]) -> Result<usize, Failed>
        ensures bound { WritesAtMost result piece.now }
        ensures progress { 0 < length piece.now → IfOk result (λ n. 0 < n) }
        ensures bytes { MatchResult result (λ n. Appends (held self.old) (held self.new) (take n piece.now))
            (λ _. AppendsFront (held self.old) (held self.new) piece.now) }
        ensures cause { HasCause (faults self.old) (faults self.new) result };
}
