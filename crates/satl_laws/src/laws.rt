//! Laws of all runs of the device.
ghost use Rattle.satl_laws.specs.ArrivalOrder.{ArrivalOrder};
ghost use Rattle.satl_laws.specs.CutShort.{CutShortIsARun};
ghost use Rattle.satl_laws.specs.Durable.{Durable};
ghost use Rattle.satl_laws.specs.OnceEach.{OnceEach};
ghost use Rattle.satl_laws.specs.OrderUnderErrors.{OrderUnderErrors};
ghost use Rattle.satl_laws.specs.Passing.{NonePasses, NonePassesAlone, NoneShows, NoneShowsAlone, OthersPass};
ghost use Rattle.satl_laws.specs.Untouched.{Untouched};

/// Law of one answer: in a run from a device without tasks, the replies to a nexus and tag, the tasks of it that still
/// wait, and those that were taken off without an answer are together as many as its requests (SAM-5 5).
pub fn each_request_is_answered_once()
    ensures { OnceEach }
{}

/// Law of durable sectors: of a valid device, once a task that secures a sector has ended with GOOD, and no task writes the
/// sector up to a loss of power, be it the next or a later one, it has after that the block that it had at the end of the task
/// (SBC-3 4.15).
pub fn secured_sectors_endure_a_loss_of_power()
    ensures { Durable }
{}

/// Law of untouched sectors: in a run without a loss of power, from a device that there can be, a sector that no task of
/// the run writes keeps its block (SBC-3).
pub fn untouched_sectors_keep_their_blocks()
    ensures { Untouched }
{}

/// Law of arrival order: in a run to END from a device at rest and without a loss of the link, where each nexus and tag asks
/// once and no command changes blocks but WRITE, each READ that is answered with GOOD gives the blocks of the WRITEs answered
/// with GOOD before it in the input, and at the end each sector has the block of the last of all these (SAM-5 8; SBC-3 5).
pub fn transfers_act_in_order_of_arrival()
    ensures { ArrivalOrder }
{}

/// Law of order under errors: in a run with flaws, CRC errors, losses of the link and task management functions, where each
/// nexus and tag asks once and no command changes blocks but WRITE, each WRITE that was not answered with GOOD has acted on
/// each sector or not, once and for all, and has not where it never became a task; each READ that is answered with GOOD gives
/// the blocks of the WRITEs before it in the input that have acted, and at the end each sector has the block of the last of
/// all these (SAM-5 8; SBC-3 5).
pub fn each_write_acts_in_order_or_not_at_all()
    ensures { OrderUnderErrors }
{}

/// Law of passing, of each device that there can be: where a task and an earlier one both go over a sector and one of them
/// writes or trims it, or where one of them goes alone, as an ORDERED one does, the task does not end before the earlier one,
/// and no block that it writes shows on the medium before the earlier one has ended; a task for which this is so with no
/// earlier one can end before all of them, where the device is up and started (SAM-5 8, 8.6; SBC-3 5).
pub fn no_task_passes_one_that_it_overlaps()
    ensures overlapping { NonePasses }
    ensures alone { NonePassesAlone }
    ensures early { NoneShows }
    ensures early_alone { NoneShowsAlone }
    ensures others { OthersPass }
{}

/// Law of runs cut short: a run whose last event was cut short behind one of its turns is a run in which a TURN of as many
/// turns as were taken stands in place of that event, with the same answers, losses and last device. So each law of runs holds
/// of a run that ends in part, as of what was done of its events (profile).
pub fn a_run_cut_short_is_a_run()
    ensures { CutShortIsARun }
{}
