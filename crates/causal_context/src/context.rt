//! Sets of dots.
ghost use Rattle.std.specs.Prelude.{◌≡◌, ◌+◌, ◌<◌, ◌≤◌, ◌^◌, ◌↔◌, ◌++◌, List, ℕ, length, take, drop, OnOk, OnErr, IfOk, IfErr, IsErrOf, IsOk, IsTrue, true, vec_len, vec_capacity};
ghost use Rattle.std.specs.FinSet as set;
ghost use Rattle.causal_context.specs.Dots.{dot_cmp, dot_cmp_total, dot_cmp_antisym, Dots, greatest_of, IsGreatest};
ghost use Rattle.causal_context.specs.Lattices.{lattice_from_join};
ghost use Rattle.causal_context.specs.Spelling as spec;
ghost use Rattle.mqtt_fields.specs.Reading.{Gives};
ghost use Rattle.causal_context.specs.SetLattice.{IsSubset, set_lattice};
ghost use Rattle.causal_context.specs.Ranges.{IsSound, IsContext, set_of};

use crate::bytes::{ranges_at, write_ranges};
use crate::difference::without;
use crate::dot::Dot;
use crate::inclusion::are_below;
use crate::insertion::put;
use crate::joining::{Joining, goes_in_place, more_of};
use crate::lattice::Lattice;
use crate::ranges::{MOST_RANGES, Range, has, last_of};
use crate::union::merged;
use mqtt_fields::{FieldFault, NoMemory};
use std::alloc::Global;
use std::marker::Model;
use std::mem;

/// A set of dots, kept as sorted ranges that neither overlap nor touch. It has at most
/// 2^32 - 1 ranges, so that its bytes can count them: a change to more is refused as [NoMemory].
#[derive(Drop)]
pub struct Context {
    pub(crate) ranges: Vec<Range>,
}

impl Model for Context {
    ghost use Rattle.std.specs.FinSet as set;
    ghost use Rattle.causal_context.specs.Dots.{dot_cmp, coded_dot};
    ghost use Rattle.causal_context.specs.Ranges.{IsContext, set_of};

    ghost Value = { set.FinSet dot_cmp };

    ghost coded = { set.code coded_dot };

    ghost view = { λ c. set_of c.ranges.items };

    ghost invariant = { λ c. IsContext c.ranges.items };
}

// The set of the ranges, where there are no more of them than four bytes can count.
fn context_of(ranges: Vec<Range>) -> Result<Context, NoMemory>
    requires { IsSound ranges.items }
    ensures set { IfOk result (λ context. context ≡ set_of ranges.items) }
    ensures few { length ranges.items < 2 ^ 32 → IsOk result }
{
    if ranges.len() > MOST_RANGES {
        return Err(NoMemory);
    }
    Ok(Context { ranges })
}

impl Context {
    /// The empty set, whose later growth takes memory of the allocator.
    pub fn new(alloc: Global) -> Context
        ensures { result ≡ set.empty }
    {
        Context {
            ranges: Vec::new(alloc),
        }
    }

    /// Whether the set has no dot. It takes no memory.
    pub fn is_empty(&self) -> bool
        ensures { IsTrue result ↔ (self.now ≡ set.empty) }
    {
        self.ranges.is_empty()
    }

    /// Whether the dot is in the set. It takes no memory.
    pub fn contains(&self, dot: Dot) -> bool
        ensures { result ≡ set.contains self.now dot }
    {
        has(&self.ranges, dot.node(), dot.number())
    }

    /// Puts the dot into the set: in place, where it falls into a range or extends one. Where memory
    /// runs out the set stays as it was; a dot that is there takes none, nor does one that is next to a
    /// dot of its node that is there.
    pub fn insert(&mut self, dot: Dot) -> Result<(), NoMemory>
        ensures ok { OnOk result (self.new ≡ set.insert self.old dot) }
        ensures err { OnErr result (self.new ≡ self.old) }
        ensures there { set.contains self.old dot ≡ true → IsOk result }
        ensures beside { (m : ℕ) → m ≤ dot.number + 1 → dot.number ≤ m + 1
            → set.contains self.old (record { node = dot.node; number = m }) ≡ true → IsOk result }
    {
        put(&mut self.ranges, dot.node(), dot.number())
    }

    /// The greatest number of the node's dots, or 0 where it has none. It takes no memory.
    pub fn greatest(&self, node: u16) -> u64
        ensures greatest { IsGreatest self.now node result }
        ensures same { result ≡ greatest_of self.now node }
        ensures below { result < 2 ^ 62 }
    {
        last_of(&self.ranges, node)
    }

    /// The dots of both, in one pass over both. Where there are none it takes no memory.
    pub fn joined(&self, other: &Context) -> Result<Context, NoMemory>
        ensures both { IfOk result (λ both. both ≡ set.union self.now other.now) }
        ensures none { self.now ≡ set.empty → other.now ≡ set.empty → IsOk result }
    {
        let ranges = merged(*self.ranges.allocator(), &self.ranges, &other.ranges)?;
        context_of(ranges)
    }

    /// The join with the other, with memory for it: a few ranges go in among those that are there,
    /// others in one pass over both. Or the set as it was, where there is no memory; with one that is
    /// below it takes none.
    pub fn prepare(self, other: &Context) -> Result<Joining, Context>
        ensures ok { IfOk result (λ joining.
            (joining.0 ≡ self) × (joining.1 ≡ set.union self other.now)) }
        ensures err { IfErr result (λ back. back ≡ self) }
        ensures below { IsSubset other.now self → IsOk result }
    {
        let Context { mut ranges } = self;
        if are_below(&other.ranges, &ranges) {
            let more = Vec::new(*ranges.allocator());
            return Ok(Joining {
                ranges,
                more,
                in_place: true,
            });
        }
        let in_place = goes_in_place(ranges.len(), other.ranges.len());
        match more_of(&mut ranges, &other.ranges, in_place) {
            Ok(more) => Ok(Joining {
                ranges,
                more,
                in_place,
            }),
            Err(_) => Err(Context { ranges }),
        }
    }

    /// The dots that the other lacks, in one pass over both. Where it lacks none it takes no memory.
    pub fn minus(&self, other: &Context) -> Result<Context, NoMemory>
        ensures left { IfOk result (λ left. left ≡ set.difference self.now other.now) }
        ensures below { IsSubset self.now other.now → IsOk result }
    {
        let ranges = without(*self.ranges.allocator(), &self.ranges, &other.ranges)?;
        context_of(ranges)
    }

    /// Whether both have the same dots. It takes no memory.
    pub fn same(&self, other: &Context) -> bool
        ensures { IsTrue result ↔ (self.now ≡ other.now) }
    {
        self.ranges == other.ranges
    }

    /// The same set once more. Of an empty one it takes no memory.
    pub fn copy(&self) -> Result<Context, NoMemory>
        ensures same { IfOk result (λ copy. copy ≡ self.now) }
        ensures none { self.now ≡ set.empty → IsOk result }
    {
        if self.is_empty() {
            return Ok(Context::new(*self.ranges.allocator()));
        }
        let ranges = Vec::from_slice(*self.ranges.allocator(), &self.ranges)?;
        Ok(Context { ranges })
    }

    /// The set at the front of the bytes, and the bytes after it.
    ///
    /// Short where the bytes end inside it; Malformed where they aren't the one spelling of a set:
    /// its ranges sorted, not empty, neither overlapping nor touching, of numbers that dots have.
    #[tactic(auto, unfolding(crate::specs::Spelling::context))]
    pub fn at(alloc: Global, bytes: &[u8]) -> Result<(Context, &[u8]), FieldFault>
        ensures exact { Gives (λ x. (x.0, x.1.now)) result (spec.context.at bytes.now) }
        ensures no_memory { IsErrOf result FieldFault.NoMemory → spec.WantsMemory bytes.now }
    {
        let (ranges, rest) = ranges_at(alloc, bytes)?;
        Ok((Context { ranges }, rest))
    }

    /// The set at the front of the bytes, and how many bytes it takes. Faults are those of
    /// [Context::at].
    pub fn read(alloc: Global, bytes: &[u8]) -> Result<(Context, usize), FieldFault>
        ensures found { IfOk result
            (λ x. (x.1 ≤ length bytes.now) × spec.Spells (take x.1 bytes.now) x.0) }

        // What is spelled is read, whatever follows.
        ensures only { (front rest : List ℕ) (s : Dots)
            → spec.Spells front s → bytes.now ≡ front ++ rest
            → Gives {Y = Dots × List ℕ} (λ x. (x.0, drop x.1 bytes.now)) result (Ok (s, rest)) }
        ensures exact { Gives (λ x. (x.0, drop x.1 bytes.now)) result (spec.context.at bytes.now) }

        // An empty set takes none, nor does a fault before a range has been read.
        ensures no_memory { IsErrOf result FieldFault.NoMemory → spec.WantsMemory bytes.now }
    {
        let (context, rest) = Context::at(alloc, bytes)?;
        Ok((context, bytes.len() - rest.len()))
    }

    /// How many bytes the set's spelling has.
    pub fn bytes_len(&self) -> usize
        ensures { result ≡ length (spec.context.bytes self.now) }
    {
        4 + 18 * self.ranges.len()
    }

    /// Appends the set's one spelling. Where memory runs out `out` stays as it was.
    pub fn write(&self, out: &mut Vec<u8>) -> Result<(), NoMemory>
        ensures ok { OnOk result (out.new.items ≡ out.old.items ++ spec.context.bytes self.now) }
        ensures spelling { spec.HasSpelling self.now }
        ensures err { OnErr result (out.new.items ≡ out.old.items) }

        // With room it succeeds, and the capacity never shrinks.
        ensures full { OnErr result
            (vec_capacity out.old < vec_len out.old + length (spec.context.bytes self.now)) }
        ensures capacity { vec_capacity out.old ≤ vec_capacity out.new }
    {
        write_ranges(&self.ranges, out)
    }

    /// The ranges of the set, sorted, neither overlapping nor touching.
    pub fn ranges(&self) -> &[Range]
        ensures ranges { IsContext result.now }
        ensures set { set_of result.now ≡ self.now }
        ensures same { result.now ≡ spec.ranges_of self.now }
    {
        &self.ranges
    }
}

impl Lattice for Context {
    ghost joined = { set.union };

    ghost Below = { IsSubset };

    ghost laws = { lattice_from_join (set_lattice dot_cmp_total dot_cmp_antisym) };

    /// Takes in the other set. Where memory runs out it stays as it was; with one that is below it
    /// takes none.
    fn join(&mut self, other: &Context) -> Result<(), NoMemory>
        ensures ok { OnOk result (self.new ≡ set.union self.old other.now) }
        ensures err { OnErr result (self.new ≡ self.old) }
        ensures below { IsSubset other.now self.old → IsOk result }
    {
        let none = Context::new(*self.ranges.allocator());
        match mem::replace(self, none).prepare(other) {
            Ok(joining) => {
                *self = joining.commit();
                Ok(())
            }
            Err(own) => {
                *self = own;
                Err(NoMemory)
            }
        }
    }

    fn is_below(&self, other: &Context) -> bool {
        are_below(&self.ranges, &other.ranges)
    }
}
