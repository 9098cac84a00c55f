// Random numbers, and what they ask for.
ghost use Rattle.std.specs.Prelude.{◌≡◌};
ghost use Rattle.satl_gen.specs.Coming.{burst_behind};
ghost use Rattle.satl_gen.specs.Generated.{seeded, draw, after_draw, draws_write, drawn_command, sent_blocks};

use rand_core::SeedableRng;
use rand_core::utils::NextWord;
use rand_pcg::Pcg32;
use satl_cdb::{Command, Form};

/// Three random numbers, in the order in which they were drawn.
#[derive(Clone, Copy)]
pub struct Draw {
    /// The first: for the command, its nexus and its attribute.
    pub a: u32,
    /// The second, for the address.
    pub b: u32,
    /// The third, for the count and the bytes of an ORDER.
    pub c: u32,
}

/// The generator of a seed.
#[tactic(auto, unfolding(crate::specs::Generated::seeded))]
pub fn seeded(seed: u64) -> Pcg32
    ensures { result ≡ seeded seed }
{
    Pcg32::seed_from_u64(seed)
}

/// Draws three numbers.
#[tactic(auto, unfolding(crate::specs::Generated::draw, crate::specs::Generated::after_draw))]
pub fn drawn(generator: &mut Pcg32) -> Draw
    ensures value { result ≡ draw generator.old }
    ensures rest { generator.new ≡ after_draw generator.old }
{
    let a = generator.next_word();
    let b = generator.next_word();
    let c = generator.next_word();
    Draw { a, b, c }
}

impl Draw {
    fn draws_write(self) -> bool
        ensures { result ≡ draws_write self }
    {
        3 <= self.a % 8 && self.a % 8 < 6
    }

    /// The number of blocks of data-out, at most 32.
    pub fn sent_blocks(self) -> u32
        ensures { result ≡ sent_blocks self }
    {
        if self.draws_write() {
            1 + self.c % 32
        } else {
            0
        }
    }

    /// The number that the ORDER behind the request of this number has, where one stands there.
    pub fn burst_behind(self, number: u32) -> Option<u32>
        ensures { result ≡ burst_behind number self }
    {
        if number % 16 == 15 {
            Some(self.c)
        } else {
            None
        }
    }

    /// The command: READ(10) or WRITE(10) of 1 to 32 blocks below address 8,032, SYNCHRONIZE CACHE(10) of all, or TEST UNIT
    /// READY (profile).
    pub fn command(self) -> Command
        ensures { result ≡ drawn_command self }
    {
        let lba = u64::from(self.b % 8000);
        let count = 1 + self.c % 32;
        if self.a % 8 < 3 {
            Command::Read {
                form: Form::Ten,
                lba,
                count,
                fua: false,
            }
        } else if self.draws_write() {
            Command::Write {
                form: Form::Ten,
                lba,
                count,
                fua: false,
            }
        } else if self.a % 8 == 6 {
            Command::Flush {
                form: Form::Ten,
                lba: 0,
                count: 0,
            }
        } else {
            Command::TestUnitReady
        }
    }
}
