//! The laws of order where tags are used again: what holds of a run whose tags are all different holds of each run in which no
//! request comes with the tag of a task that waits then, once the tag of each request is replaced by one of its own.
#![tactic(auto)]

ghost use Rattle.std.specs.Prelude.{◌≡◌, true, false, [], ◌∷◌};
ghost use Rattle.satl_frame.specs.Output.Answer.{closed};
ghost use Rattle.satl_scenarios.specs.Devices.{bb};
ghost use Rattle.satl_scenarios.specs.Replies.{good};
ghost use Rattle.satl_scenarios.specs.Scenario.{events_of, groups_of};
ghost use Rattle.satl_renaming.specs.Retried.{IsOfArrivalOrderUsedAgain, IsOfErrorsUsedAgain, writes_both, writes_first, writes_first_again, writes_second, written_again, written_behind_an_abort};
ghost use Rattle.satl_renaming.specs.UsedAgain.{AnsweredIsFree, ArrivalOrderUsedAgain, FirstReplyTells, NoSecondReply, OnceIsFree, OneReplyUsedAgain, OrderUnderErrorsUsedAgain, answers_from, was_done_at};

/// Law of arrival order where tags are used again: in a run to END from a device at rest and without a loss of the link or of
/// power, where no request comes with the nexus and tag of a task that waits then and no command changes blocks but WRITE, each
/// READ that is answered with GOOD gives the blocks of the WRITEs answered with GOOD before it in the input, and at the end
/// each sector has the block of the last of all these. The answer to a request comes from its place on and before its nexus and
/// tag are used again (SAM-5 4.7, 8; SBC-3 5).
pub fn transfers_act_in_order_where_tags_are_used_again()
    ensures { ArrivalOrderUsedAgain }
{}

/// Law of order under errors where tags are used again: in a run with flaws, CRC errors, losses of the link and task management
/// functions, and without a loss of power, where no request comes with the nexus and tag of a task that waits then and no
/// command changes blocks but WRITE, each WRITE that was not answered with GOOD has acted on each sector or not, once and for
/// all, and has not where it never became a task; each READ that is answered with GOOD gives the blocks of the WRITEs before it
/// in the input that have acted, and at the end each sector has the block of the last of all these (SAM-5 4.7, 8; SBC-3 5).
pub fn each_write_acts_in_order_or_not_at_all_where_tags_are_used_again()
    ensures { OrderUnderErrorsUsedAgain }
{}

/// Law of one answer where tags are used again: in a run from a device without tasks, where no request comes with the nexus and
/// tag of a task that waits then, a request has at most one answer from its place on and before its nexus and tag are used
/// again; in a run to END without task management functions and losses of power it has one, and was answered with GOOD just
/// where the first answer to its nexus and tag from its place on is GOOD (SAM-5 4.7, 5).
pub fn each_request_is_answered_once_before_its_tag_is_used_again()
    ensures at_most { NoSecondReply }
    ensures one { OneReplyUsedAgain }
    ensures first { FirstReplyTells }
{}

/// No request comes with the nexus and tag of a task that waits then where a host uses a tag again only once all its earlier
/// commands of that tag are answered, nor where each nexus and tag asks once at most (SAM-5 4.7).
pub fn a_tag_that_is_answered_is_free()
    ensures answered { AnsweredIsFree }
    ensures once { OnceIsFree }
{}

/// A WRITE is told of a power cycle, a second one has its tag and is done, and a READ with that tag gives its block. The law of
/// arrival order where tags are used again speaks of this run: by it the first WRITE has not acted, and the second has (SAM-5
/// 4.7, 5.14; SBC-3 5).
pub fn a_tag_is_used_three_times()
    ensures law { IsOfArrivalOrderUsedAgain written_again }
    ensures first { was_done_at (events_of written_again) (groups_of written_again) 0 writes_first ≡ false }
    ensures second { was_done_at (events_of written_again) (groups_of written_again) 1 writes_first_again ≡ true }
    ensures read { answers_from 0 1 (events_of written_again) (groups_of written_again) 3 ≡ good 1 (bb ∷ []) ∷ closed ∷ [] }
{}

/// A WRITE of two sectors, of which one is written, is aborted; a WRITE of the other one has its tag and is done, and a READ
/// with that tag gives a block of each. The law of order under errors where tags are used again speaks of this run: the first
/// WRITE has no answer, and the second has (SAM-5 4.7, 7.2; SBC-3 5).
pub fn a_tag_is_used_again_behind_an_abort()
    ensures law { IsOfErrorsUsedAgain written_behind_an_abort }
    ensures first { was_done_at (events_of written_behind_an_abort) (groups_of written_behind_an_abort) 0 writes_both ≡ false }
    ensures second { was_done_at (events_of written_behind_an_abort) (groups_of written_behind_an_abort) 2 writes_second ≡ true }
{}
