//! What a script is run over.

use crate::faults::of_step;
use cli_stops::RunFault;
use cluster_play::{Cluster, Step, Trace};

/// A cluster that is played step by step.
pub trait Player {
    /// Plays one step, and answers its lines.
    fn step(&mut self, step: Step) -> Result<Trace, RunFault>;

    /// The cluster.
    fn cluster(&self) -> &Cluster;
}

/// A cluster in memory.
#[derive(Drop)]
pub struct Plain {
    cluster: Cluster,
}

impl Plain {
    pub fn new(cluster: Cluster) -> Plain {
        Plain { cluster }
    }
}

impl Player for Plain {
    fn step(&mut self, step: Step) -> Result<Trace, RunFault> {
        self.cluster.play(&[step]).map_err(of_step)
    }

    fn cluster(&self) -> &Cluster {
        &self.cluster
    }
}
