// A source of bytes.
ghost use Rattle.std.specs.Prelude.{◌≡◌, ◌<◌, ◌≤◌, Bool, false, List, ℕ, length, take, IfOk, IfSome};
ghost use Rattle.std.specs.declared.option.Option.{Option};
ghost use Rattle.std.specs.Io.{ReadsAtMost, StartsWith};
ghost use Rattle.std.specs.Io.KnownBytes.{Keeps, ReadConsumes};
ghost use Rattle.satl_io.specs.Causes.{HasCause, next_count};
ghost use Rattle.satl_io.specs.Known.{Took};

/// A read or a write failed: it took or wrote nothing, and the count of faults rose (profile).
#[derive(Clone, Copy, Debug, PartialEq, Eq)]
pub struct Failed;

/// Counts a fault.
pub fn count_fault(faults: &mut u64) -> Failed
    ensures counted { faults.new ≡ next_count faults.old }
    ensures later { faults.old ≤ faults.new }
{
    *faults = faults.saturating_add(1);
    Failed
}

/// Bytes that come in pieces (profile).
pub trait Source {
    /// The bytes that are left, where the source tells them.
    ghost left: { Self → Option (List ℕ) };

    /// The bytes that the source has read ahead: a front of those that are left.
    ghost ahead: { Self → List ℕ };

    /// Whether it may have waited for a byte since it last gave one: whoever owes an answer has waited too early then. A source
    /// that cannot wait says no.
    ghost waited: { Self → Bool };

    /// How often a read has failed. The count never falls, and stands still at 2^64 - 1.
    ghost faults: { Self → ℕ };

    /// `Ok(n)` takes the first n bytes that are left and puts them in front in `buf`; n is 0 only where
    /// no byte is left. `Failed` takes none.
    fn read(&mut self, buf: &mut [u8]) -> Result<usize, Failed>
        requires { 0 < length buf.old }
        ensures bound { ReadsAtMost result buf.new }
        ensures bytes { ReadConsumes (left self.old) (left self.new) result buf.new }
        ensures unwaited { IfOk result (λ n. 0 < n → waited self.new ≡ false) }
        ensures cause { HasCause (faults self.old) (faults self.new) result };

    /// May read ahead, that more be shown, and may wait for it: no clause says how much. `Ok` and `Failed` take no byte.
    fn read_ahead(&mut self) -> Result<(), Failed>
        ensures bytes { Keeps (left self.old) (left self.new) }
        ensures cause { HasCause (faults self.old) (faults self.new) result };

    /// The bytes that are read ahead.
    fn ahead(&self) -> &[u8]
        ensures value { result.now ≡ ahead self.now }
        ensures front { IfSome (left self.now) (λ bytes. StartsWith bytes result.now) };

    /// Takes the first `count` of the bytes that are read ahead.
    fn consume(&mut self, count: usize)
        requires { count ≤ length (ahead self.old) }
        ensures bytes { Took (left self.old) (left self.new) (take count (ahead self.old)) }
        ensures unwaited { 0 < count → waited self.new ≡ false }
        ensures faults { faults self.new ≡ faults self.old };
}
