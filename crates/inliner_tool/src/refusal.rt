//! Why a command ends before its answer.

ghost use Rattle.std.specs.Prelude.{◌≡◌};
ghost use Rattle.inliner_tool.specs.Lift.{lift_end};
ghost use Rattle.inliner_tool.specs.Replay.{replay_end};
ghost use Rattle.inliner_tool.specs.Steps.{stopped};
ghost use Rattle.inliner_tool.specs.declared.refusal.Ended.TheVariants as ends;

use cert_checker::CheckFault;
use class_linking::LinkFault;
use command_inputs::{InputFault, Stop};
use guest_replay::ReplayFault;
use lift_schedule::LiftFault;
use mon_base::{Bytes, NoMemory};
use offset_patch::Size;

/// Why a command ends before its answer.
#[derive(Drop)]
pub enum Refusal {
    /// The first file that is not what it is named for, and why.
    Input(Bytes, InputFault),
    /// The file that could not be read.
    Unread(Bytes),
    /// The class files have so many bytes in all, which is too many.
    TotalLong {
        len: u64,
    },
    /// The first condition of linking that fails.
    Link(LinkFault),
    /// No types fit at an instruction: the name of its class, its method and its index.
    Untyped {
        class: Bytes,
        method: u32,
        at: u32,
    },
    /// The first test of a certificate that fails, and the name of its class.
    Denied(CheckFault, Bytes),
    /// The events of the policy race: the first condition that is broken, by its number, and a state and events that break it, as
    /// they are printed.
    Racy {
        condition: u8,
        example: Bytes,
    },
    /// So many points would have to be tried for two clauses, by their places in the policy, or for one, which is told
    /// twice, to decide whether they race. That is too many.
    CellLimit {
        first: u32,
        second: u32,
        count: u64,
    },
    /// A method, by its class and its index there, would have this size, which does not fit.
    Overflow {
        class: Bytes,
        method: u32,
        what: Size,
        value: i64,
    },
    /// The certificate would have so many bytes, which is too many.
    LongCertificate {
        value: u64,
    },
    /// The step of a run that has this index is the first that is not enabled in its place.
    NotEnabled {
        index: u64,
    },
    /// The policy refuses what is seen of the step of a run that has this index, so that the run is not lifted.
    Disobeys {
        index: u64,
    },
    /// In mode hold a call of a method with clauses begins at the step of a run that has this index while another is under way, so
    /// that the run is not lifted.
    Overlaps {
        index: u64,
    },
    /// The file that could not be written.
    Unwritten(Bytes),
}

/// Why a step of a command gives nothing.
#[derive(Drop)]
pub enum Ended {
    /// The command ends before its answer.
    Refused(Refusal),
    /// Memory ran out.
    Memory,
}

/// Why a command ends where the reading of its files stopped.
pub fn stopped(stop: Stop) -> Ended
    ensures { result ≡ stopped stop }
{
    match stop {
        Stop::Input(name, fault) => Ended::Refused(Refusal::Input(name, fault)),
        Stop::Unread(name) => Ended::Refused(Refusal::Unread(name)),
        Stop::Memory => Ended::Memory,
    }
}

impl From<ReplayFault> for Ended {
    ghost from_gives = { λ fault ended. ended ≡ replay_end fault };

    fn from(fault: ReplayFault) -> Ended {
        match fault {
            ReplayFault::NotEnabled { index } => Ended::Refused(Refusal::NotEnabled { index }),
            ReplayFault::Memory => Ended::Memory,
        }
    }
}

impl From<LiftFault> for Ended {
    ghost from_gives = { λ fault ended. ended ≡ lift_end fault };

    fn from(fault: LiftFault) -> Ended {
        match fault {
            LiftFault::NotEnabled { index } => Ended::Refused(Refusal::NotEnabled { index }),
            LiftFault::Disobeys { index } => Ended::Refused(Refusal::Disobeys { index }),
            LiftFault::Overlaps { index } => Ended::Refused(Refusal::Overlaps { index }),
            LiftFault::Memory => Ended::Memory,
        }
    }
}

impl From<NoMemory> for Ended {
    ghost from_gives = { λ _ ended. ended ≡ ends.Memory };

    fn from(_error: NoMemory) -> Ended {
        Ended::Memory
    }
}
