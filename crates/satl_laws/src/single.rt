//! A law of single requests, each of which has its turn before the next.
ghost use Rattle.satl_laws.specs.OneReplyEach.{OneReplyEach};

/// Law of one reply each: a request to a device without tasks and one turn are answered by exactly one reply, which has the
/// nexus and tag of the request, and leave no task, wherever the link is lost meanwhile (SAM-5 5).
pub fn a_request_and_a_turn_are_answered_by_one_reply()
    ensures { OneReplyEach }
{}
