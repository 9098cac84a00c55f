// Task management functions.
ghost use Rattle.std.specs.Prelude.{◌≡◌, ◌↔◌, Some, IsSome, IsTrue};
ghost use Rattle.satl_base.specs.Lists.{is_in};
ghost use Rattle.satl_unit.specs.Functions.{function_codes, function_of};

// The codes of the functions (profile).
const ABORT_TASK: u8 = 0x01;

const ABORT_TASK_SET: u8 = 0x02;

const CLEAR_TASK_SET: u8 = 0x04;

const UNIT_RESET: u8 = 0x08;

const QUERY_TASK: u8 = 0x80;

const QUERY_TASK_SET: u8 = 0x81;

/// The code of I_T NEXUS RESET (profile).
pub const NEXUS_RESET: u8 = 0x10;

/// A task management function (SAM-5 7).
#[derive(Clone, Copy, Debug, PartialEq, Eq)]
pub enum Function {
    /// ABORT TASK: one task of the nexus.
    AbortTask,
    /// ABORT TASK SET: all tasks of the nexus.
    AbortTaskSet,
    /// CLEAR TASK SET: the tasks of all nexuses.
    ClearTaskSet,
    /// LOGICAL UNIT RESET.
    UnitReset,
    /// I_T NEXUS RESET.
    NexusReset,
    /// QUERY TASK: whether a task is pending.
    QueryTask,
    /// QUERY TASK SET: whether the nexus has a task.
    QueryTaskSet,
}

impl Function {
    /// The function of a code. None exactly for a code that is not listed (profile).
    #[tactic(auto, unfolding(crate::specs::Functions::function_of))]
    pub fn of(code: u8) -> Option<Function>
        ensures value { result ≡ function_of code }
        ensures variant { IsSome result ↔ IsTrue (is_in code function_codes) }
    {
        match code {
            ABORT_TASK => Some(Function::AbortTask),
            ABORT_TASK_SET => Some(Function::AbortTaskSet),
            CLEAR_TASK_SET => Some(Function::ClearTaskSet),
            UNIT_RESET => Some(Function::UnitReset),
            NEXUS_RESET => Some(Function::NexusReset),
            QUERY_TASK => Some(Function::QueryTask),
            QUERY_TASK_SET => Some(Function::QueryTaskSet),
            _ => None,
        }
    }

    /// The code of a function: the one by which `of` gives it (profile).
    #[tactic(auto, unfolding(crate::specs::Functions::function_of))]
    pub fn code(&self) -> u8
        ensures { function_of result ≡ Some self.now }
    {
        match self {
            Function::AbortTask => ABORT_TASK,
            Function::AbortTaskSet => ABORT_TASK_SET,
            Function::ClearTaskSet => CLEAR_TASK_SET,
            Function::UnitReset => UNIT_RESET,
            Function::NexusReset => NEXUS_RESET,
            Function::QueryTask => QUERY_TASK,
            Function::QueryTaskSet => QUERY_TASK_SET,
        }
    }
}
