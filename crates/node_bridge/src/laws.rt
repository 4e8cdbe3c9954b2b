//! Laws of what a node keeps for the other nodes. Each function does nothing: its contract is the law.
ghost use Rattle.node_bridge.specs.Laws.{ToShipIsOne};

/// What is sent of a store to a node is determined by what is kept for it.
pub fn to_ship_is_one()
    ensures { ToShipIsOne }
{}
