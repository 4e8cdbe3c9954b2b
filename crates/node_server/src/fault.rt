//! Why a run of a node ends before its end.

ghost use Rattle.std.specs.Prelude.{◌≡◌};
ghost use Rattle.node_server.specs.Faults.{of_bounded, of_guarded, of_limited, of_logged, of_mqtt3, of_node, of_turn};

use crate::stack::{
    BoundedNodeFault, GuardedNodeFault, LimitedNodeFault, LoggedNodeFault, NodeFault,
};
use broker_turns::TurnFault;
use cli_stops::RunFault;
use door_bounds::BoundedFault;
use door_guard::GuardFault;
use door_limits::LimitedFault;
use door_log::LoggedFault;
use door_mqtt3::Mqtt3Fault;
use node_keeper::KeeperFault;

/// A fault of the node, as one of the run.
pub(crate) fn of_node(fault: KeeperFault) -> RunFault
    ensures { result ≡ of_node fault }
{
    match fault {
        KeeperFault::NoMemory => RunFault::NoMemory,
        KeeperFault::Rows(_) => RunFault::Rows,
        KeeperFault::NumbersAtEnd => RunFault::NumbersAtEnd,
        KeeperFault::Stopped => RunFault::Stopped,
    }
}

/// A fault of the node behind users, as one of the run.
pub(crate) fn of_guarded(fault: GuardedNodeFault) -> RunFault
    ensures { result ≡ of_guarded fault }
{
    match fault {
        GuardFault::NoMemory => RunFault::NoMemory,
        GuardFault::Inside(fault) => of_node(fault),
    }
}

/// A fault of the node behind limits on what clients send, as one of the run.
pub(crate) fn of_bounded(fault: BoundedNodeFault) -> RunFault
    ensures { result ≡ of_bounded fault }
{
    match fault {
        BoundedFault::NoMemory => RunFault::NoMemory,
        BoundedFault::Inside(fault) => of_guarded(fault),
    }
}

/// A fault of the node behind limits on clients, as one of the run.
pub(crate) fn of_limited(fault: LimitedNodeFault) -> RunFault
    ensures { result ≡ of_limited fault }
{
    match fault {
        LimitedFault::NoMemory => RunFault::NoMemory,
        LimitedFault::Inside(fault) => of_bounded(fault),
    }
}

/// A fault of the node behind its log, as one of the run.
pub(crate) fn of_logged(fault: LoggedNodeFault) -> RunFault
    ensures { result ≡ of_logged fault }
{
    match fault {
        LoggedFault::NoMemory => RunFault::NoMemory,
        LoggedFault::Inside(fault) => of_limited(fault),
    }
}

/// A fault of the node behind all handlers, as one of the run.
pub(crate) fn of_mqtt3(fault: NodeFault) -> RunFault
    ensures { result ≡ of_mqtt3 fault }
{
    match fault {
        Mqtt3Fault::NoMemory => RunFault::NoMemory,
        Mqtt3Fault::Inside(fault) => of_logged(fault),
    }
}

/// A fault of a turn, as one of the run.
pub(crate) fn of_turn(fault: TurnFault<NodeFault>) -> RunFault
    ensures { result ≡ of_turn fault }
{
    match fault {
        TurnFault::NoMemory => RunFault::NoMemory,
        TurnFault::Handler(fault) => of_mqtt3(fault),
    }
}
