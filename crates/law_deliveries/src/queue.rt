//! The queue (MQTT 5.0, 4.6 and 4.9).
ghost use Rattle.law_deliveries.specs.Queue.{KeepsBound, KeepsFull, KeepsQueue, KeepsQueueTold};

/// The queue is full where 65,536 wait, not before, and never more wait.
pub fn queue_is_full_at_its_limit()
    ensures full { KeepsFull }
    ensures bound { KeepsBound }
{}

/// An event appends its delivery to the queue, and takes a beginning of it: what it sends first, and what is late by its own moment
/// or too long for the client of its own connection. What is left out after the last that is sent leaves only where there is quota,
/// and an identifier is free: as the packets tell the quota, and as the session holds both.
pub fn queue_is_served_in_order()
    ensures told { KeepsQueueTold }
    ensures held { KeepsQueue }
{}
