//! The changes of a journal's rows, and the rows themselves.

ghost use Rattle.std.specs.Prelude.{◌≡◌, ◌<◌, ◌≤◌, ◌↔◌, ◌^◌, ◌+◌, ◌++◌, ◌∷◌, [], drop, length, map, take, vec_len, vec_capacity, IfOk, IsTrue, OnOk, Some, true};
ghost use Rattle.std.specs.List.{AllByRecursion};
ghost use Rattle.row_store.specs.Noted.{pair_of};
ghost use Rattle.row_store.specs.Rows.{Content, after_all};
ghost use Rattle.row_journal.specs.Journal.{AreOthers, NamesWithin, after_pairs, entry_key, is_other, removals};
ghost use Rattle.row_journal.specs.Spelling as spec;
ghost use Rattle.row_journal.specs.Tops.{Allows, Covers, Grows, IsKept};

use crate::repeats::without_repeats;
use crate::spelled::{spell_turn, whole_len};
use crate::tops::{Tops, needed, take_changes};
use row_store::kinds::JOURNAL;
use row_store::{Change, Row, last_of_each};
use std::alloc::{AllocError, Global};

/// As many changes as a piece of a fold has, and as many bytes, unless its first change takes more; or twice as many as the turn has that makes it, if
/// that is more. So a fold comes to its end also where all turns are large.
const PIECE: usize = 500;

const PIECE_BYTES: usize = 131_072;

/// Of these two the greater one: as many as a piece has, and twice as many as a turn.
fn or_twice(piece: usize, turn: usize) -> usize {
    piece.max(turn.saturating_mul(2))
}

/// What is known of a journal: the changes that make of the other rows what is shown, and how many bytes they take; how many rows it has, whose places are the
/// numbers below, and how many bytes their values have. While a fold is under way so many changes at the front are of turns before it began, each of another
/// row, and are made a piece with each turn; the others are those of the turns since.
#[derive(Drop)]
pub(crate) struct Journal {
    pub(crate) noted: Vec<Change>,
    pub(crate) held: usize,
    pub(crate) folding: Option<usize>,
    pub(crate) count: u64,
    pub(crate) bytes: usize,
    pub(crate) tops: Tops,
}

/// Whether the change names no row of the journal's kind.
fn is_plain(change: &Change) -> bool
    ensures { IsTrue result ↔ (is_other (pair_of change.now).0 ≡ true) }
{
    match change {
        Change::Put(row) => row.kind != JOURNAL,
        Change::Remove(kind, _, _) => *kind != JOURNAL,
    }
}

/// Whether none of them names a row of the journal's kind.
pub(crate) fn are_plain(changes: &[Change]) -> bool
    ensures { IsTrue result ↔ AreOthers (map pair_of changes.now) }
{
    for change in changes {
        if !is_plain(change) {
            return false;
        }
    }
    true
}

/// How many bytes the changes take, where each value stands whole.
pub(crate) fn total_len(changes: &[Change]) -> usize {
    let mut len = 0usize;
    for change in changes {
        len = len.saturating_add(whole_len(change));
    }
    len
}

pub(crate) fn copy_of(alloc: Global, change: &Change) -> Result<Change, AllocError>
    ensures { IfOk result (λ copy. pair_of copy ≡ pair_of change.now) }
{
    match change {
        Change::Put(row) => Ok(Change::Put(row.copy(alloc)?)),
        Change::Remove(kind, owner, place) => {
            let owner = Vec::from_slice(alloc, owner)?;
            let place = Vec::from_slice(alloc, place)?;
            Ok(Change::Remove(*kind, owner, place))
        }
    }
}

fn copies_of(alloc: Global, changes: &[Change]) -> Result<Vec<Change>, AllocError>
    ensures { IfOk result (λ copies. map pair_of copies.items ≡ map pair_of changes.now) }
{
    let mut copies = Vec::with_capacity(alloc, changes.len())?;
    for change in changes {
        copies.push(copy_of(alloc, change)?)?;
    }
    Ok(copies)
}

/// The spelling of a turn.
pub(crate) fn spelling(alloc: Global, changes: &[Change]) -> Result<Vec<u8>, AllocError>
    requires few { length changes.now < 2 ^ 16 }
    requires fit { AllByRecursion (λ c. spec.Tells (pair_of c)) changes.now }
    ensures { IfOk result (λ value. value.items ≡ spec.turn.bytes (map pair_of changes.now)) }
{
    let mut value = Vec::new(alloc);
    if spell_turn(changes, &mut value).is_err() {
        return Err(AllocError);
    }
    Ok(value)
}

/// The row of the journal of this number.
fn entry(alloc: Global, at: u64, value: Vec<u8>) -> Result<Change, AllocError>
    ensures { IfOk result (λ entry. pair_of entry ≡ (entry_key at, Some value.items)) }
{
    Ok(Change::Put(Row {
        kind: JOURNAL,
        owner: Vec::new(alloc),
        place: Vec::from_slice(alloc, &at.to_be_bytes())?,
        value,
    }))
}

/// How many of these changes are a piece, for a turn of so many changes and bytes.
fn piece_len(pending: &[Change], changes: usize, held: usize) -> usize
    ensures { result ≤ length pending.now }
{
    let (most, longest) = (or_twice(PIECE, changes), or_twice(PIECE_BYTES, held));
    let mut bytes = 0usize;
    let mut count = 0;
    for change in pending {
        bytes = bytes.saturating_add(whole_len(change));
        if count >= most || (count > 0 && bytes > longest) {
            return count;
        }
        count += 1;
    }
    count
}

/// What a turn writes: a piece of a fold, if one is under way, of so many changes, and the turn's row. Besides copies of the turn's changes.
#[derive(Drop)]
pub(crate) struct Written {
    pub(crate) changes: Vec<Change>,
    pub(crate) made: usize,
    pub(crate) copies: Vec<Change>,
}

/// What is written for these changes, which are spelled by this value and take so many bytes. For their copies there is room.
pub(crate) fn prepare(
    alloc: Global,
    journal: &mut Journal,
    changes: &[Change],
    value: Vec<u8>,
    held: usize,
) -> Result<Written, AllocError>
    requires { value.items ≡ spec.turn.bytes (map pair_of changes.now) }
    ensures changes { IfOk result (λ w. map pair_of w.changes.items ≡ map pair_of (take w.made journal.old.noted.items)
        ++ (entry_key journal.old.count, Some (spec.turn.bytes (map pair_of changes.now))) ∷ []) }
    ensures made { IfOk result (λ w. w.made ≤ length journal.old.noted.items) }
    ensures taken { IfOk result (λ w. AllByRecursion (Allows journal.new.tops.entries) w.changes.items) }
    ensures copies { IfOk result (λ w. map pair_of w.copies.items ≡ map pair_of changes.now) }
    ensures room { IfOk result (λ w. vec_len journal.new.noted + vec_len w.copies ≤ vec_capacity journal.new.noted) }
    ensures grows { Grows journal.old.tops.entries journal.new.tops.entries }
    ensures same { (journal.new.noted.items ≡ journal.old.noted.items) × (journal.new.count ≡ journal.old.count) }
{
    let copies = copies_of(alloc, changes)?;
    let entry = entry(alloc, journal.count, value)?;
    journal.noted.reserve(copies.len())?;
    let made = journal.piece(changes.len(), held);
    let mut changes = copies_of(alloc, &journal.noted[..made])?;
    changes.push(entry)?;
    take_changes(alloc, &mut journal.tops, &changes)?;
    Ok(Written {
        changes,
        made,
        copies,
    })
}

/// What is left of a fold once so many of its changes are made.
fn after_piece(folding: Option<usize>, made: usize) -> Option<usize> {
    match folding {
        Some(pending) => Some(pending.saturating_sub(made)),
        None => None,
    }
}

/// Appends the removals of so many rows of the journal.
#[tactic(auto, using(crate::proofs::JournalLaws::removals_more))]
fn append_removals(alloc: Global, count: u64, changes: &mut Vec<Change>) -> Result<(), AllocError>
    ensures { OnOk result (map pair_of changes.new.items ≡ map pair_of changes.old.items ++ removals count) }
{
    for at in 0..count {
        let place = Vec::from_slice(alloc, &at.to_be_bytes())?;
        changes.push(Change::Remove(JOURNAL, Vec::new(alloc), place))?;
    }
    Ok(())
}

/// Of the changes at each key the last one, but no removal of a row that isn't there.
fn lasts_of(alloc: Global, tops: &Tops, noted: &[Change]) -> Result<Vec<Change>, AllocError>
    ensures content { IfOk result (λ lasts. (c : Content) → Covers tops.now.entries c → after_all c lasts.items ≡ after_pairs c (map pair_of noted.now)) }
    ensures named { IfOk result (λ lasts. NamesWithin (map pair_of lasts.items) (map pair_of noted.now)) }
{
    let left = without_repeats(alloc, tops, noted)?;
    needed(alloc, tops, last_of_each(alloc, left)?)
}

impl Journal {
    /// Whether a fold is under way whose pieces are made, and the changes since are one piece, for a turn of so many changes and bytes.
    pub(crate) fn can_end(&self, changes: usize, held: usize) -> bool {
        self.folding == Some(0) && piece_len(&self.noted, changes, held) == self.noted.len()
    }

    /// How many changes at the front a turn of so many changes and bytes makes: the next piece of a fold.
    fn piece(&self, changes: usize, held: usize) -> usize
        ensures { result ≤ length self.now.noted.items }
    {
        let pending = self.folding.unwrap_or(0).min(self.noted.len());
        piece_len(&self.noted[..pending], changes, held)
    }

    /// A fold begins, or goes on with what was noted since, unless some of its changes are still to be made: what it is to make is gathered.
    pub(crate) fn begin_fold(&mut self, alloc: Global) -> Result<(), AllocError>
        ensures kept { (c : Content) → IsKept c self.old.noted.items self.old.count self.old.tops.entries → IsKept c self.new.noted.items self.new.count self.new.tops.entries }
        ensures count { self.new.count ≡ self.old.count }
    {
        if self.folding.unwrap_or(0) > 0 {
            return Ok(());
        }
        let lasts = lasts_of(alloc, &self.tops, &self.noted)?;
        self.folding = Some(lasts.len());
        self.held = total_len(&lasts);
        self.noted = lasts;
        Ok(())
    }

    /// Of the changes at each key the last one, but no removal of a row that isn't there, and then the removals of all rows of the journal. What they put
    /// may be there from now on.
    pub(crate) fn fold_changes(&mut self, alloc: Global) -> Result<Vec<Change>, AllocError>
        ensures changes { IfOk result (λ changes. (c : Content) → Covers self.old.tops.entries c
            → after_all c changes.items ≡ after_pairs c (map pair_of self.old.noted.items ++ removals self.old.count)) }
        ensures taken { IfOk result (λ changes. AllByRecursion (Allows self.new.tops.entries) changes.items) }
        ensures grows { Grows self.old.tops.entries self.new.tops.entries }
        ensures same { (self.new.noted.items ≡ self.old.noted.items) × (self.new.count ≡ self.old.count) }
    {
        let mut changes = lasts_of(alloc, &self.tops, &self.noted)?;
        append_removals(alloc, self.count, &mut changes)?;
        take_changes(alloc, &mut self.tops, &changes)?;
        Ok(changes)
    }

    /// Nothing is left.
    pub(crate) fn clear(&mut self)
        ensures { (self.new.noted.items ≡ []) × (self.new.count ≡ 0) × (self.new.tops ≡ self.old.tops) }
    {
        self.noted.clear();
        self.held = 0;
        self.folding = None;
        self.count = 0;
        self.bytes = 0;
    }

    /// So many changes at the front were made, and there is one row more, with so many bytes in its value and these changes, for which there is room.
    pub(crate) fn take(&mut self, made: usize, copies: &mut Vec<Change>, bytes: usize)
        requires made { made ≤ length self.old.noted.items }
        requires room { vec_len self.old.noted + vec_len copies.old ≤ vec_capacity self.old.noted }
        requires few { self.old.count + 1 < 2 ^ 64 }
        ensures noted { self.new.noted.items ≡ drop made self.old.noted.items ++ copies.old.items }
        ensures count { self.new.count ≡ self.old.count + 1 }
        ensures tops { self.new.tops ≡ self.old.tops }
    {
        let (gone, come) = (total_len(&self.noted[..made]), total_len(copies));
        self.held = self.held.saturating_sub(gone).saturating_add(come);
        self.noted.drain(..made);
        self.folding = after_piece(self.folding, made);
        let _ = self.noted.append(copies);
        self.count += 1;
        self.bytes = self.bytes.saturating_add(bytes);
    }
}
