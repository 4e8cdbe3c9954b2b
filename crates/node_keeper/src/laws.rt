//! Laws of the rows with which nodes are opened. Each function does nothing: its contract is the law.
ghost use Rattle.node_keeper.specs.Keeping.{HaveOneVersion, OpeningKeepsWhatLasts};

/// Whatever a crash leaves of the rows while a node is opened says what they said: so the next opening opens the same node. No rows
/// are of version 3 and of an older one.
pub fn openings_keep_what_lasts()
    ensures keeps { OpeningKeepsWhatLasts }
    ensures version { HaveOneVersion }
{}
