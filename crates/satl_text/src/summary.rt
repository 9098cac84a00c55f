// The totals of a replay.
ghost use Rattle.std.specs.Prelude.{◌≡◌, ◌≤◌, ◌+◌, ◌*◌, ◌++◌, ◌∷◌, [], ℕ, List, length, sum};
ghost use Rattle.satl_base.specs.Blocks.{first_bytes};
ghost use Rattle.satl_io.specs.Causes.{total};
ghost use Rattle.satl_text.specs.Totals.{one_for};

use satl_base::{Pages, Reply, Scsi};

/// A count of replies with one status, after a reply more.
fn count(before: u64, wanted: Scsi, status: Scsi) -> u64
    ensures { result ≡ total (before + one_for wanted status) }
{
    if status == wanted {
        before.saturating_add(1)
    } else {
        before
    }
}

/// The sum of the values of some bytes.
fn sum_of(bytes: &[u8]) -> u32
    requires { length bytes.now ≤ 512 }
    ensures value { result ≡ sum bytes.now }
    ensures small { result ≤ 255 * length bytes.now }
{
    // In 32 bits, which x86-64 adds up sixteen bytes at a time.
    let mut total: u32 = 0;
    for byte in bytes {
        total += u32::from(*byte);
    }
    total
}

/// The sum of the values of the first bytes that the pages hold.
fn data_sum(pages: &Pages, len: u32) -> u64
    ensures { result ≡ sum (first_bytes len pages.now) }
{
    let mut total: u64 = 0;
    for piece in pages.pieces(len) {
        total += u64::from(sum_of(piece));
    }
    total
}

/// The totals of a replay (profile). Each stands still at 2^64 - 1.
#[derive(Clone, Copy, Debug, Default, PartialEq, Eq)]
pub struct Summary {
    /// The number of requests.
    pub requests: u64,
    /// The number of replies with the status GOOD.
    pub good: u64,
    /// The number of replies with the status CHECK CONDITION.
    pub check: u64,
    /// The number of replies with the status TASK SET FULL.
    pub full: u64,
    /// The number of bytes of data-in of all replies, whatever the hosts take of them.
    pub bytes: u64,
    /// The sum of the values of these bytes, each 0 to 255.
    pub sum: u64,
}

impl Summary {
    ghost use Rattle.satl_frame.specs.Output.{Answer};
    ghost use Rattle.satl_frame.specs.Output.Answer.{replied};
    ghost use Rattle.satl_text.specs.Totals.{summary_of, with_answer};

    /// Counts a reply by its status, and its data-in (profile).
    pub fn add_reply(&mut self, reply: &Reply)
        ensures grown { self.new ≡ with_answer self.old (replied reply.now) }
        ensures counted { (requests : ℕ) (answers : List Answer) → self.old ≡ summary_of requests answers
            → self.new ≡ summary_of requests (answers ++ replied reply.now ∷ []) }
    {
        self.good = count(self.good, Scsi::Good, reply.status);
        self.check = count(self.check, Scsi::CheckCondition, reply.status);
        self.full = count(self.full, Scsi::TaskSetFull, reply.status);
        self.bytes = self.bytes.saturating_add(u64::from(reply.data_len));
        self.sum = self
            .sum
            .saturating_add(data_sum(&reply.body, reply.data_len));
    }
}
