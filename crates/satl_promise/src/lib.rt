//! What serving an input to its end says to a host: the laws of all runs, carried to what was read, written and left.
#![tactic(auto)]

ghost use Rattle.satl_promise.specs.Served.{ServedAtMostOnce, ServedInOrder, ServedNothingInvented, ServedNothingInventedBefore, ServedNothingInventedInto, ServedNothingInventedIsRead, ServedOnce, ServedOnceBefore, ServedOneEach, ServedUnderErrors};

/// Where an input was served to its end, the replies written to a nexus and tag, and its tasks that were taken off without an
/// answer, are together as many as its requests; where it was served up to a frame that was refused or not read, so they are
/// with the tasks that still wait. Where a write failed in the answers to a frame, the replies that are due and the tasks that
/// wait are no more than the requests. By its place each request has one answer, where none is taken off and a host uses a tag
/// again only once its earlier commands of that tag are answered (SAM-5 4.7, 5).
pub fn each_request_is_answered_once_where_an_input_is_served()
    ensures whole { ServedOnce }
    ensures before { ServedOnceBefore }
    ensures into { ServedAtMostOnce }
    ensures each { ServedOneEach }
{}

/// Where an input was served to its end, over a drive without flaws and CRC errors, without a loss of its link or power, where
/// no command changes blocks but WRITE and a host uses a tag again only once its earlier commands of that tag are answered:
/// each READ that is answered with GOOD gives the blocks of the WRITEs before it in the input that are answered with GOOD, and
/// the drive has at the end those of the last of all these (SAM-5 4.7, 8; SBC-3 5).
pub fn transfers_act_in_order_where_an_input_is_served()
    ensures { ServedInOrder }
{}

/// The same over any drive, with flaws, CRC errors, lost links and task management functions, and without a loss of power: each
/// WRITE that is not answered with GOOD has acted on each sector or not, once and for all (SAM-5 4.7, 8; SBC-3 5).
pub fn each_write_acts_in_order_or_not_at_all_where_an_input_is_served()
    ensures { ServedUnderErrors }
{}

/// Where an input was served, to its end, up to a frame that was refused or not read, or into answers in which a write failed,
/// and whatever else failed, was lost or lost power, each block that a sector of the drive has at the end, or may be left with
/// by a loss of power, is one that this sector had or might be left with before, or one that a command of the input may write
/// to this very sector; so is each block that a READ was answered with, where a host uses a tag again only once its earlier
/// commands of that tag are answered (SBC-3 4.15, 5; SAM-5 4.7).
pub fn no_block_is_invented_where_an_input_is_served()
    ensures whole { ServedNothingInvented }
    ensures before { ServedNothingInventedBefore }
    ensures into { ServedNothingInventedInto }
    ensures read { ServedNothingInventedIsRead }
{}
