//! A served node behind its handlers, one type for each. From the inside out: newer tables of homes, users, limits on what clients send, limits on clients, a log, counts,
//! and whoever looks at these.

use crate::served::ServedNode;
use crate::viewed::Viewed;
use door_bounds::{Bounded, BoundedFault};
use door_guard::{GuardFault, Guarded};
use door_limits::{Limited, LimitedFault};
use door_log::{Logged, LoggedFault};
use door_mqtt3::Mqtt3Fault;
use door_tables::Tabled;
use door_users::FileAccess;
use node_keeper::KeeperFault;
use status_tally::Tallied;

/// Behind a door at which newer tables of homes come, if there may be any.
pub type TabledNode<R, F> = Tabled<ServedNode<R>, F>;

/// Behind users and what each may do, if there are any.
pub type GuardedNode<R, F> = Guarded<TabledNode<R, F>, FileAccess>;

/// Behind limits on what clients send, of which the one on memory asks a gauge.
pub type BoundedNode<R, F, G> = Bounded<GuardedNode<R, F>, G>;

/// Behind limits on clients.
pub type LimitedNode<R, F, G> = Limited<BoundedNode<R, F, G>>;

/// Behind a log.
pub type LoggedNode<R, F, G, E> = Logged<LimitedNode<R, F, G>, E>;

/// Behind counts.
pub type TalliedNode<R, F, G, E> = Tallied<LoggedNode<R, F, G, E>>;

/// Behind somebody who looks at it once its rows are written.
pub type ViewedNode<R, F, G, E, W> = Viewed<TalliedNode<R, F, G, E>, W>;

/// Why it stops behind users.
pub type GuardedNodeFault = GuardFault<KeeperFault>;

/// Why it stops behind limits on what clients send.
pub type BoundedNodeFault = BoundedFault<GuardedNodeFault>;

/// Why it stops behind limits on clients.
pub type LimitedNodeFault = LimitedFault<BoundedNodeFault>;

/// Why it stops behind a log, counts, and whoever looks at them.
pub type LoggedNodeFault = LoggedFault<LimitedNodeFault>;

/// Why it stops behind all handlers.
pub type NodeFault = Mqtt3Fault<LoggedNodeFault>;
