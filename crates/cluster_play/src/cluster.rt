//! Nodes with their rows, and the frames that they have released.

ghost use Rattle.std.specs.Prelude.{◌≡◌, ◌<◌, ◌==◌, [], true, false, length, Some, Err, IfOk, IfErr, IsOk, OnOk, ◌⊎◌, option_map, option_copied, vec_len};
ghost use Rattle.std.specs.List.{list_all};
ghost use Rattle.cluster_play.specs.Clusters.{world, homes_of, are_tables, is_spent, held_at, holdings_of, is_open_at, taken_of, IsSameTaken};
ghost use Rattle.cluster_play.specs.Histories.{IsStart};
ghost use Rattle.cluster_play.specs.Playing.{IsPlayed, IsRefused, IsDoneAt, IsDoneStep, MemoryRunsOut};
ghost use Rattle.cluster_play.specs.Worlds.{Lacks, LacksNode, OfCrashAfter, OfCrashBefore, OfEvent, OfRestart, nth_from_one};
ghost use Rattle.cluster_play.specs.declared.fault.PlayFault.TheVariants as faults;
ghost use Rattle.cluster_play.specs.declared.step.Step.TheVariants as steps;

use crate::fault::PlayFault;
use crate::line::{Line, Trace};
use crate::release::{release, tell};
use crate::step::Step;
use broker_node::{Event, EventKind, Frame};
use causal_context::Context;
use home_table::HomeTable;
use node_keeper::Keeper;
use replica_store::ReplicaStore;
use row_store::MemoryRows;
use std::alloc::Global;

/// A cluster of nodes. Frames are numbered from 1 as they are released.
#[derive(Drop)]
pub struct Cluster {
    alloc: Global,
    nodes: Vec<Keeper<MemoryRows>>,
    frames: Vec<Frame>,
    spent: bool,
}

/// Whether each table is for so many nodes.
fn are_for(count: usize, tables: &[HomeTable]) -> bool
    ensures { result ≡ list_all (λ t. length t.nodes == count) tables.now }
{
    tables.iter().all(|t| t.nodes() as usize == count)
}

/// Whether there are 1 to 64 tables, each for so many nodes.
fn are_tables(tables: &[HomeTable]) -> bool
    ensures { result ≡ are_tables tables.now }
{
    let count = tables.len();
    1 <= count && count <= 64 && are_for(count, tables)
}

impl Cluster {
    /// A cluster of a new node for each of these tables of homes, which is up and not started, with its rows in memory.
    /// `BadTables` exactly where there is no table or more than 64, or one has another number of nodes
    /// than there are tables.
    pub fn new(alloc: Global, tables: Vec<HomeTable>) -> Result<Cluster, PlayFault>
        ensures start { IfOk result (λ c. IsStart (world c)) }
        ensures homes { IfOk result (λ c. homes_of (world c) ≡ tables.items) }
        ensures ready { IfOk result (λ c. is_spent c ≡ false) }
        ensures fit { are_tables tables.items ≡ true → IfErr result (λ f. f ≡ faults.NoMemory) }
        ensures bad { are_tables tables.items ≡ false → result ≡ Err faults.BadTables }
    {
        if !are_tables(tables.as_slice()) {
            return Err(PlayFault::BadTables);
        }
        let mut opened = Vec::new(alloc);
        for (i, homes) in tables.iter().enumerate() {
            let Ok(keeper) = Keeper::open(alloc, MemoryRows::new(alloc), homes.copy()?, i as u16)
            else {
                return Err(PlayFault::NoMemory);
            };
            opened.push(keeper)?;
        }
        Ok(Cluster {
            alloc,
            nodes: opened,
            frames: Vec::new(alloc),
            spent: false,
        })
    }

    /// Plays steps in order: what happens is a run of the nodes over exactly these steps, and the
    /// trace has its lines. A step that names no node or no frame changes nothing, and the steps
    /// before it have happened. Memory runs out at a step before it happens, or where its node gives
    /// out something, never in place of a fault; from then on the cluster is spent.
    pub fn play(&mut self, steps: &[Step]) -> Result<Trace, PlayFault>
        ensures ok { IfOk result (λ trace.
            IsPlayed (world self.old) steps.now trace.lines.items (world self.new)) }
        ensures ready { OnOk result (is_spent self.new ≡ false) }
        ensures err { IfErr result (λ fault. IsRefused self.old steps.now fault self.new) }
        ensures idle { steps.now ≡ [] → is_spent self.old ≡ false → IsOk result }
        ensures spent { is_spent self.old ≡ true → (result ≡ Err faults.Spent) × (self.new ≡ self.old) }
    {
        if self.spent {
            return Err(PlayFault::Spent);
        }
        let mut lines = Vec::new(self.alloc);
        for step in steps {
            match self.step(step, &mut lines) {
                Ok(()) => {}
                Err(fault) => {
                    self.spent = fault == PlayFault::NoMemory;
                    return Err(fault);
                }
            }
        }
        Ok(Trace { lines })
    }

    /// Plays one step.
    fn step(&mut self, step: &Step, lines: &mut Vec<Line>) -> Result<(), PlayFault>
        ensures ok { OnOk result
            (IsDoneStep (world self.old) step.now lines.old.items lines.new.items (world self.new)) }
        ensures err { IfErr result (λ f.
            ((f ≡ faults.NoMemory) × MemoryRunsOut (world self.old) step.now (world self.new))
            ⊎ (Lacks (world self.old) step.now f × (self.new ≡ self.old))) }
        ensures spent { is_spent self.new ≡ is_spent self.old }
    {
        match step {
            Step::Event { node, event } => {
                self.find_node(*node)?;
                self.event(*node, event, lines)
            }
            Step::Deliver { frame, at } => self.deliver(*frame, *at, lines),
            Step::CrashBefore { node, event: _ } => {
                self.find_node(*node)?;
                self.crash_before(*node, lines)
            }
            Step::CrashAfter { node, event } => {
                self.find_node(*node)?;
                self.crash_after(*node, event, lines)
            }
            Step::Restart { node } => {
                self.find_node(*node)?;
                self.restart(*node, lines)
            }
        }
    }

    /// Whether there is a node of this number.
    fn find_node(&self, node: u16) -> Result<(), PlayFault>
        ensures ok { OnOk result (node < vec_len self.now.nodes) }
        ensures err { IfErr result (λ f. LacksNode (world self.now) node f) }
    {
        if (node as usize) < self.nodes.len() {
            Ok(())
        } else {
            Err(PlayFault::UnknownNode)
        }
    }

    /// A frame reaches its receiver.
    fn deliver(&mut self, number: u64, at: u64, lines: &mut Vec<Line>) -> Result<(), PlayFault>
        ensures ok { OnOk result
            (IsDoneStep (world self.old) (steps.Deliver number at) lines.old.items lines.new.items (world self.new)) }
        ensures err { IfErr result (λ f.
            ((f ≡ faults.NoMemory) × MemoryRunsOut (world self.old) (steps.Deliver number at) (world self.new))
            ⊎ (Lacks (world self.old) (steps.Deliver number at) f × (self.new ≡ self.old))) }
        ensures spent { is_spent self.new ≡ is_spent self.old }
    {
        let Some(frame) = self.released(number) else {
            return Err(PlayFault::UnknownFrame);
        };
        let node = frame.to;
        if node as usize >= self.nodes.len() {
            return Err(PlayFault::UnknownNode);
        }
        let bytes = frame.bytes.copy(self.alloc)?;
        let event = Event {
            at,
            kind: EventKind::Frame { bytes },
        };
        self.event(node, &event, lines)
    }

    /// An event at a node. Room for one line is made before anything happens.
    fn event(&mut self, node: u16, event: &Event, lines: &mut Vec<Line>) -> Result<(), PlayFault>
        requires { node < vec_len self.old.nodes }
        ensures ok { OnOk result
            (IsDoneAt (world self.old) node (OfEvent event.now) lines.old.items lines.new.items (world self.new)) }
        ensures err { IfErr result (λ f. (f ≡ faults.NoMemory)
            × MemoryRunsOut (world self.old) (steps.Event node event.now) (world self.new)) }
        ensures spent { is_spent self.new ≡ is_spent self.old }
    {
        lines.reserve(1)?;
        match self.nodes[node as usize].handle(event) {
            Ok(outputs) => release(self.alloc, node, outputs, &mut self.frames, lines),
            Err(fault) => {
                tell(lines, node, fault);
                Ok(())
            }
        }
    }

    /// A crash takes a node, which leaves its rows.
    fn crash_before(&mut self, node: u16, lines: &mut Vec<Line>) -> Result<(), PlayFault>
        requires { node < vec_len self.old.nodes }
        ensures ok { OnOk result
            (IsDoneAt (world self.old) node OfCrashBefore lines.old.items lines.new.items (world self.new)) }
        ensures err { IfErr result (λ f. (f ≡ faults.NoMemory) × (self.new ≡ self.old)) }
        ensures spent { is_spent self.new ≡ is_spent self.old }
    {
        lines.reserve(1)?;
        let keeper = &mut self.nodes[node as usize];
        if keeper.is_up() {
            keeper.crash();
            lines.push_reserved(Line::Crash { node });
        } else {
            lines.push_reserved(Line::Down { node });
        }
        Ok(())
    }

    /// An event at a node, and a crash before anything is given out.
    fn crash_after(
        &mut self,
        node: u16,
        event: &Event,
        lines: &mut Vec<Line>,
    ) -> Result<(), PlayFault>
        requires { node < vec_len self.old.nodes }
        ensures ok { OnOk result
            (IsDoneAt (world self.old) node (OfCrashAfter event.now) lines.old.items lines.new.items (world self.new)) }
        ensures err { IfErr result (λ f. (f ≡ faults.NoMemory) × (self.new ≡ self.old)) }
        ensures spent { is_spent self.new ≡ is_spent self.old }
    {
        lines.reserve(1)?;
        let keeper = &mut self.nodes[node as usize];
        match keeper.handle(event) {
            Ok(_lost) => {
                keeper.crash();
                lines.push_reserved(Line::Crash { node });
            }
            Err(fault) => tell(lines, node, fault),
        }
        Ok(())
    }

    /// A node is opened from its rows. Where that faults it is down.
    fn restart(&mut self, node: u16, lines: &mut Vec<Line>) -> Result<(), PlayFault>
        requires { node < vec_len self.old.nodes }
        ensures ok { OnOk result
            (IsDoneAt (world self.old) node OfRestart lines.old.items lines.new.items (world self.new)) }
        ensures err { IfErr result (λ f. (f ≡ faults.NoMemory) × (self.new ≡ self.old)) }
        ensures spent { is_spent self.new ≡ is_spent self.old }
    {
        lines.reserve(1)?;
        match self.nodes[node as usize].reopen() {
            Ok(()) => {}
            Err(fault) => tell(lines, node, fault),
        }
        Ok(())
    }

    /// How many subscriptions stand at a node, and how many topics have a message there. None: the
    /// node is down, or there is none of that number.
    pub fn holdings(&self, node: u16) -> Option<(u64, u64)>
        ensures { result ≡ option_map holdings_of (held_at (world self.now) node) }
    {
        let store = self.store(node)?;
        Some((
            store.subscriptions().live_count() as u64,
            store.retained().messages() as u64,
        ))
    }

    /// The dots that a node has taken. None: it is down, or there is none of that number.
    pub fn taken(&self, node: u16) -> Option<&Context>
        ensures { option_copied result ≡ option_map taken_of (held_at (world self.now) node) }
    {
        let store = self.store(node)?;
        Some(store.taken())
    }

    /// Whether two nodes have taken the same operations. None: one of them is down, or there is
    /// none of that number.
    pub fn same_taken(&self, i: u16, j: u16) -> Option<bool>
        ensures { IsSameTaken (held_at (world self.now) i) (held_at (world self.now) j) result }
    {
        let first = self.taken(i)?;
        let second = self.taken(j)?;
        Some(first.same(second))
    }

    /// Whether a client's connection is open at a node. None is where it is down, or where there is none of that number.
    pub fn is_open(&self, node: u16, connection: u64) -> bool
        ensures { result ≡ is_open_at connection (held_at (world self.now) node) }
    {
        match self.nodes.get(node as usize) {
            Some(keeper) => keeper.node().is_up() && keeper.node().is_open(connection),
            None => false,
        }
    }

    /// The bytes of a released frame, by its number.
    pub fn frame(&self, number: u64) -> Option<&[u8]>
        ensures { option_copied result ≡ option_map (λ f. f.bytes) (nth_from_one (world self.now).frames number) }
    {
        let frame = self.released(number)?;
        Some(frame.bytes.as_slice())
    }

    /// A released frame, by its number.
    fn released(&self, number: u64) -> Option<&Frame>
        ensures { option_copied result ≡ nth_from_one (world self.now).frames number }
    {
        if number == 0 {
            return None;
        }
        self.frames.get((number - 1) as usize)
    }

    /// What a node that runs holds.
    fn store(&self, node: u16) -> Option<&ReplicaStore>
        ensures { option_copied result ≡ option_map (λ h. h.store) (held_at (world self.now) node) }
    {
        let node = self.nodes.get(node as usize)?.node();
        if node.is_up() {
            Some(node.store())
        } else {
            None
        }
    }
}
