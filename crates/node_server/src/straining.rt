//! Whether too much waits for other nodes, and where their bridges are, as a node tells it to the sockets before it.

use broker_holds::{LaneGauge, Strain, number_of};
use broker_node::Node;
use home_table::HomeTable;
use std::alloc::{AllocError, Global};
use std::net::SocketAddr;
use std::rc::Rc;

/// What waits for each other node, where it is told whether that is too much, and of which table of homes the bridges were told there last.
#[derive(Drop)]
pub(crate) struct LaneWatch {
    alloc: Global,
    gauge: LaneGauge,
    strain: Rc<Strain>,
    table: Option<u32>,
}

/// The IP addresses of the bridges of a table, as numbers (`number_of`). A bridge whose address isn't one has none.
pub fn bridges_of(alloc: Global, homes: &HomeTable) -> Result<Vec<u128>, AllocError> {
    let mut bridges = Vec::new(alloc);
    for number in 0..homes.nodes() {
        if let Ok(address) = homes.bridge(number).parse::<SocketAddr>() {
            bridges.push(number_of(address.ip()))?;
        }
    }
    Ok(bridges)
}

impl LaneWatch {
    /// Of a cluster of so many nodes.
    pub(crate) fn new(
        alloc: Global,
        nodes: u16,
        strain: Rc<Strain>,
    ) -> Result<LaneWatch, AllocError> {
        let gauge = LaneGauge::new(alloc, nodes)?;
        Ok(LaneWatch {
            alloc,
            gauge,
            strain,
            table: None,
        })
    }

    /// How many links were closed since they came from elsewhere.
    pub(crate) fn links_refused(&self) -> u64 {
        self.strain.refused()
    }

    /// Tells the bridges of a table, where those of this version weren't told yet. Where there is no memory for that it is tried again.
    fn tell_bridges(&mut self, homes: &HomeTable) {
        let version = Some(homes.version());
        if self.table == version {
            return;
        }
        if let Ok(bridges) = bridges_of(self.alloc, homes) {
            self.strain.tell_bridges(bridges);
            self.table = version;
        }
    }
}

/// Tells whether too much waits at a moment for another node, and where the bridges are, where somebody is to be told.
pub(crate) fn tell_strain(lanes: &mut Option<LaneWatch>, node: &Node, at: u64) {
    let Some(lanes) = lanes else {
        return;
    };
    lanes.tell_bridges(node.homes());
    let mut strained = false;
    for number in 0..node.homes().nodes() {
        let stands = lanes.strain.stands(number);
        if lanes.gauge.note(number, node.waiting(number), stands, at) {
            strained = true;
        }
    }
    lanes.strain.tell(strained, at);
}

/// What watches the lanes of a cluster of so many nodes, where it is told here.
pub(crate) fn watch_of(
    alloc: Global,
    nodes: u16,
    strain: Option<Rc<Strain>>,
) -> Result<Option<LaneWatch>, AllocError> {
    match strain {
        Some(strain) => Ok(Some(LaneWatch::new(alloc, nodes, strain)?)),
        None => Ok(None),
    }
}
