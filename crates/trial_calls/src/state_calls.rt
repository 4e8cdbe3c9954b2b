//! The calls that are tried, by their names.

use crate::contexts::{try_even_union, try_insertion, try_small_union};
use crate::replicas::{
    try_apply_put, try_apply_subscribe, try_delta_of, try_from_rows, try_join, try_make_subscribe,
    try_retained_for, try_rows,
};
use crate::row_calls::{try_apply_rows, try_gather, try_last_of_each};
use crate::sessions::try_session;
use std::alloc::Global;
use trial_refusals::{Call, Trial};

/// A call that is tried.
#[derive(Clone, Copy)]
pub enum Called {
    Insert,
    JoinSmall,
    JoinEven,
    Subscribe,
    ApplySubscribe,
    ApplyPut,
    JoinStore,
    RetainedFor,
    DeltaOf,
    Rows,
    FromRows,
    ApplyRows,
    LastOfEach,
    Gather,
    Serve,
}

/// The calls and their names.
pub const CALLS: [(&str, Called); 15] = [
    ("Context::insert", Called::Insert),
    ("Context::join, a small one", Called::JoinSmall),
    ("Context::join, as large a one", Called::JoinEven),
    ("ReplicaStore::make_subscribe", Called::Subscribe),
    ("ReplicaStore::apply, a Subscribe", Called::ApplySubscribe),
    ("ReplicaStore::apply, a Put", Called::ApplyPut),
    ("ReplicaStore::join", Called::JoinStore),
    ("ReplicaStore::retained_for", Called::RetainedFor),
    ("delta_of", Called::DeltaOf),
    ("replica_rows::rows", Called::Rows),
    ("replica_rows::from_rows", Called::FromRows),
    ("MemoryRows::apply", Called::ApplyRows),
    ("last_of_each", Called::LastOfEach),
    ("gather", Called::Gather),
    ("Session", Called::Serve),
];

impl Call for Called {
    fn attempt(&self, alloc: Global, number: usize) -> Trial {
        match *self {
            Called::Insert => try_insertion(alloc, number),
            Called::JoinSmall => try_small_union(alloc, number),
            Called::JoinEven => try_even_union(alloc, number),
            Called::Subscribe => try_make_subscribe(alloc, number),
            Called::ApplySubscribe => try_apply_subscribe(alloc, number),
            Called::ApplyPut => try_apply_put(alloc, number),
            Called::JoinStore => try_join(alloc, number),
            Called::RetainedFor => try_retained_for(alloc, number),
            Called::DeltaOf => try_delta_of(alloc, number),
            Called::Rows => try_rows(alloc, number),
            Called::FromRows => try_from_rows(alloc, number),
            Called::ApplyRows => try_apply_rows(alloc, number),
            Called::LastOfEach => try_last_of_each(alloc, number),
            Called::Gather => try_gather(alloc, number),
            Called::Serve => try_session(alloc, number),
        }
    }
}
