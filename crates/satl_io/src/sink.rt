// A sink of bytes.
ghost use Rattle.std.specs.Prelude.{◌<◌, List, ℕ, length, IfOk};
ghost use Rattle.std.specs.declared.option.Option.{Option};
ghost use Rattle.std.specs.Io.{WritesAtMost};
ghost use Rattle.std.specs.Io.KnownBytes.{WriteAppends};
ghost use Rattle.satl_io.specs.Causes.{HasCause};

use crate::source::Failed;

/// Takes bytes in pieces (profile).
pub trait Sink {
    /// The bytes that were written, where the sink tells them.
    ghost written: { Self → Option (List ℕ) };

    /// How often a write has failed. The count never falls, and stands still at 2^64 - 1.
    ghost faults: { Self → ℕ };

    /// `Ok(n)` appends the first n bytes of `piece`, at least one. `Failed` appends none.
    fn write(&mut self, piece: &[u8]) -> Result<usize, Failed>
        requires { 0 < length piece.now }
        ensures bound { WritesAtMost result piece.now }
        ensures some { IfOk result (λ n. 0 < n) }
        ensures bytes { WriteAppends (written self.old) (written self.new) result piece.now }
        ensures cause { HasCause (faults self.old) (faults self.new) result };
}
