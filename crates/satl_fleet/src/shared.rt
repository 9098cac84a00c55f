// What goes to each unit of a target.
ghost use Rattle.std.specs.Prelude.{◌≡◌};

use satl_base::{BenchEvent, Manage, OrderBytes};
use satl_frame::Frame;

/// A frame that may go to each unit of a target: all but a request. It has no page (profile).
#[derive(Drop)]
pub enum Shared<'a, 'b> {
    /// A task management function arrives.
    Manage(Manage),
    /// So many turns of the device.
    Turn(u16),
    /// Something happens to the drive.
    Bench(&'a BenchEvent<'b>),
    /// The end of the input.
    End,
}

impl<'a, 'b> Shared<'a, 'b> {
    ghost use Rattle.std.specs.Prelude.{◌≡◌};
    ghost use Rattle.satl_fleet.specs.Shared.{frame_of};

    /// The frame, for one unit more.
    pub fn again(&self) -> Frame<'_>
        ensures { result ≡ frame_of self.now }
    {
        match self {
            Shared::Manage(manage) => Frame::Manage(*manage),
            Shared::Turn(count) => Frame::Turn(*count),
            Shared::Bench(event) => Frame::Bench(bench_again(event)),
            Shared::End => Frame::End,
        }
    }
}

fn bench_again<'a>(event: &'a BenchEvent<'_>) -> BenchEvent<'a>
    ensures { result ≡ event.now }
{
    match event {
        BenchEvent::Strike { which, lba } => BenchEvent::Strike {
            which: *which,
            lba: *lba,
        },
        BenchEvent::Mend { lba } => BenchEvent::Mend { lba: *lba },
        BenchEvent::Glitch { count } => BenchEvent::Glitch { count: *count },
        BenchEvent::Order { bytes } => BenchEvent::Order {
            bytes: OrderBytes::new(bytes.as_slice()),
        },
        BenchEvent::Power => BenchEvent::Power,
        BenchEvent::Unplug => BenchEvent::Unplug,
    }
}
