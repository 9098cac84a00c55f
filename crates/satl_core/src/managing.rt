// What task management functions do.
ghost use Rattle.std.specs.Prelude.{◌≡◌, Some};
ghost use Rattle.satl_direct.specs.Management.{found, has_unit};
ghost use Rattle.satl_core.specs.Managing.{condition_of, effect, effect_of, is_told, once_posted, response_alone, with_posted};

use crate::leaving::{Scope, has_any};
use satl_asks::is_unit_0;
use satl_base::{Manage, NEXUSES, Nexus, Response};
use satl_flight::Queue;
use satl_unit::{Attention, Attentions, Function};

/// Which nexuses are told of a function, or of mode values (SAM-5 7).
#[derive(Clone, Copy, Debug, PartialEq, Eq)]
pub enum Posting {
    /// This nexus cleared the tasks of all: each other one that has a task is told.
    ClearedBy(Nexus),
    /// The unit was reset: all are told.
    UnitReset,
    /// This nexus was reset: it is told.
    NexusLoss(Nexus),
    /// This nexus changed mode values: each other one is told (SPC-4, MODE SELECT commands).
    ModesChanged(Nexus),
}

/// What a function does: which tasks go, what it posts, and its response (SAM-5 7).
#[derive(Clone, Copy, Debug, PartialEq, Eq)]
pub struct Effect {
    /// The tasks that go.
    pub goes: Scope,
    /// The unit attention that is posted, and to whom.
    pub posts: Option<Posting>,
    /// The response to the function.
    pub response: Response,
}

/// What a task management function does: another logical unit is judged first, then the function (SAM-5 7; the order and the
/// response to a code without a function: profile).
pub fn decide(manage: &Manage, queue: &Queue) -> Effect
    ensures { result ≡ effect manage.now queue.now.tasks }
{
    let function = Function::of(manage.function);
    if has_unit(function) && !is_unit_0(&manage.lun) {
        return response_alone(Response::IncorrectLun);
    }
    match function {
        Some(function) => effect_of(function, manage, queue),
        None => response_alone(Response::Rejected),
    }
}

fn effect_of(function: Function, manage: &Manage, queue: &Queue) -> Effect
    ensures { result ≡ effect_of function manage.now queue.now.tasks }
{
    let (nexus, tag) = (manage.nexus, manage.tag);
    match function {
        Function::AbortTask => complete(Scope::OneTask(nexus, tag), None),
        Function::AbortTaskSet => complete(Scope::OfNexus(nexus), None),
        Function::ClearTaskSet => complete(Scope::All, Some(Posting::ClearedBy(nexus))),
        Function::UnitReset => complete(Scope::All, Some(Posting::UnitReset)),
        Function::NexusReset => complete(Scope::OfNexus(nexus), Some(Posting::NexusLoss(nexus))),
        Function::QueryTask => response_alone(found(has_any(queue, &Scope::OneTask(nexus, tag)))),
        Function::QueryTaskSet => response_alone(found(has_any(queue, &Scope::OfNexus(nexus)))),
    }
}

fn complete(goes: Scope, posts: Option<Posting>) -> Effect
    ensures { result ≡ Rattle.satl_core.specs.Managing.complete goes posts }
{
    Effect {
        goes,
        posts,
        response: Response::Complete,
    }
}

/// Nothing but a response.
fn response_alone(response: Response) -> Effect
    ensures { result ≡ response_alone response }
{
    Effect {
        goes: Scope::Nothing,
        posts: None,
        response,
    }
}

/// FUNCTION SUCCEEDED where there is such a task (SAM-5 7.8, 7.9).
fn found(found: bool) -> Response
    ensures { result ≡ Rattle.satl_direct.specs.Management.found found }
{
    if found {
        Response::Succeeded
    } else {
        Response::Complete
    }
}

/// I_T NEXUS RESET is not sent to a logical unit (SAM-5 7.6).
fn has_unit(function: Option<Function>) -> bool
    ensures { result ≡ has_unit function }
{
    !matches!(function, Some(Function::NexusReset))
}

/// Posts what a function posts, by the tasks that were there before it (SAM-5 5.14).
pub fn post(attentions: &mut [Attentions; NEXUSES], queue: &Queue, posts: &Option<Posting>)
    ensures { attentions.new ≡ once_posted posts.now queue.now.tasks attentions.old }
{
    if let Some(posting) = posts {
        post_all(attentions, queue, posting);
    }
}

/// Posts the condition for each nexus that is told.
fn post_all(attentions: &mut [Attentions; NEXUSES], queue: &Queue, posting: &Posting)
    ensures { attentions.new ≡ once_posted (Some posting.now) queue.now.tasks attentions.old }
{
    for number in 0..NEXUSES as u8 {
        let Some(nexus) = Nexus::new(number) else {
            unreachable!();
        };
        post_at(attentions, queue, posting, nexus);
    }
}

fn post_at(attentions: &mut [Attentions; NEXUSES], queue: &Queue, posting: &Posting, nexus: Nexus)
    ensures { attentions.new ≡ with_posted posting.now queue.now.tasks nexus attentions.old }
{
    if is_told(posting, queue, nexus) {
        attentions[nexus.number() as usize].post(condition_of(posting));
    }
}

fn condition_of(posting: &Posting) -> Attention
    ensures { result ≡ condition_of posting.now }
{
    match posting {
        Posting::ClearedBy(_) => Attention::Cleared,
        Posting::UnitReset => Attention::UnitReset,
        Posting::NexusLoss(_) => Attention::NexusLoss,
        Posting::ModesChanged(_) => Attention::ModeChanged,
    }
}

/// Whether a nexus is told.
fn is_told(posting: &Posting, queue: &Queue, nexus: Nexus) -> bool
    ensures { result ≡ is_told posting.now queue.now.tasks nexus }
{
    match posting {
        Posting::ClearedBy(asker) => nexus != *asker && has_any(queue, &Scope::OfNexus(nexus)),
        Posting::UnitReset => true,
        Posting::NexusLoss(lost) => nexus == *lost,
        Posting::ModesChanged(by) => nexus != *by,
    }
}
