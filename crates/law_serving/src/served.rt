//! The laws.

ghost use Rattle.law_serving.specs.Settling.{CrashAfterCommit, CrashAmidCommit, CrashBeforeCommit, CrashWhereHalted, SettledIsRun};
ghost use Rattle.law_serving.specs.Sockets.{SocketTurnIsRun, StartIsTaken};
ghost use Rattle.law_serving.specs.Turns.{CrashIsRun, TurnIsRun};

use broker_sockets::{BridgeHandler, Handler, Readiness};
use door_bounds::Gauge;
use door_tables::Tables;
use node_server::{TalliedNode, ViewedNode, Viewer};
use row_store::RowStore;
use std::io::Write;

/// Events that are handled one after another are a run, and so is a crash with the rows of before them or of after them.
pub fn turns_are_runs()
    ensures turns { TurnIsRun }
    ensures crashes { CrashIsRun }
{}

/// What a served node has taken since its last commit, and what it commits next, is a run of the cluster. A crash at any moment is one
/// too: before the commit, and where the node stops, one in which none of these events happened; after it one in which all did; amid
/// it one of the two. So every law over runs holds of a cluster of served nodes.
pub fn served_turns_are_runs<R: RowStore>()
    ensures settled { SettledIsRun R.is_clean R.is_open R.content R.may_leave }
    ensures before { CrashBeforeCommit R.is_open R.content R.may_leave }
    ensures halted { CrashWhereHalted R.is_open R.content R.may_leave }
    ensures amid { CrashAmidCommit R.is_clean R.is_open R.content R.may_leave }
    ensures after { CrashAfterCommit R.is_clean R.is_open R.content R.may_leave }
{}

/// So a turn over sockets of a served node behind its doors is a run, whatever tables of homes come, whatever the limits on clients and on what these send,
/// with a log or without and whoever looks at it, and in the world to which it leads the next turn may begin. What the node is told before the first turn
/// is part of that one's run.
pub fn socket_turns_are_runs<
    S: Readiness,
    R: RowStore,
    F: Tables,
    G: Gauge,
    E: Write,
    W: Viewer<TalliedNode<R, F, G, E>>,
>()
    ensures start { StartIsTaken R.is_open R.content S S.Stream F G E W ⟦<ViewedNode<R, F, G, E, W> as Handler>⟧.handles }
    ensures turns { SocketTurnIsRun R.is_clean R.is_open R.content S.accepts S.watches S.connects S.reads S.writes S.finds
        ⟦<ViewedNode<R, F, G, E, W> as Handler>⟧.handles
        ⟦<ViewedNode<R, F, G, E, W> as BridgeHandler>⟧.hears
        ⟦<ViewedNode<R, F, G, E, W> as Handler>⟧.settles }
{}
