//! What a node does to the shared state.
ghost use Rattle.std.specs.Prelude.{◌≡◌, IfOk, IsOk};

use crate::content::Content;
use crate::stamp::Stamp;
use causal_context::{Context, Dot};
use mqtt_fields::NoMemory;
use std::alloc::Global;
use subscription_set::Entry;

/// A change of the shared state, under its dot: a delta mutator. (Almeida, Shoker, Baquero,
/// section 4.)
#[derive(Drop)]
pub enum Operation {
    /// A subscription, which ends those in the cover.
    Subscribe {
        dot: Dot,
        entry: Entry,
        cover: Context,
    },
    /// The end of the subscriptions in the cover.
    Remove {
        dot: Dot,
        cover: Context,
    },
    /// A retained message, or a tombstone.
    Put {
        dot: Dot,
        stamp: Stamp,
        content: Content,
    },
}

impl Operation {
    ghost use Rattle.replica_store.specs.Operations.{dot_of, IsEmptyRemove};

    /// The dot of the operation.
    pub fn dot(&self) -> Dot
        ensures { result ≡ dot_of self.now }
    {
        match self {
            Operation::Subscribe { dot, .. } => *dot,
            Operation::Remove { dot, .. } => *dot,
            Operation::Put { dot, .. } => *dot,
        }
    }

    /// The same operation once more. A message that it puts is shared. One that removes nothing takes no memory.
    pub fn copy(&self, alloc: Global) -> Result<Operation, NoMemory>
        ensures same { IfOk result (λ copy. copy ≡ self.now) }
        ensures none { IsEmptyRemove self.now → IsOk result }
    {
        match self {
            Operation::Subscribe { dot, entry, cover } => {
                let entry = entry.copy(alloc)?;
                let cover = cover.copy()?;
                Ok(Operation::Subscribe {
                    dot: *dot,
                    entry,
                    cover,
                })
            }
            Operation::Remove { dot, cover } => {
                let cover = cover.copy()?;
                Ok(Operation::Remove { dot: *dot, cover })
            }
            Operation::Put {
                dot,
                stamp,
                content,
            } => {
                let content = content.copy(alloc)?;
                Ok(Operation::Put {
                    dot: *dot,
                    stamp: *stamp,
                    content,
                })
            }
        }
    }
}
