//! A disk that fails a call of a plan.
ghost use Rattle.std.specs.Prelude.{◌≡◌, ◌+◌, ◌&&◌, not, false};
ghost use Rattle.sqlite_disk.specs.{Disk.CountsFault, Refusal.finds_no_room, Refusal.is_no_room};

use sqlite_disk::{Disk, Tally};
use std::alloc::{AllocError, Global};
use std::cell::Cell;
use std::io;
use std::rc::Rc;

/// Which calls of a disk fail. A plan counts the calls of its own kind, from 0.
#[derive(Clone, Copy, Debug, PartialEq, Eq)]
pub enum Plan {
    /// None, and none is counted.
    Honest,
    /// The read with this many reads before it, and no call after it.
    FailRead(u64),
    /// The call that is no read (a write, a change of the length, a sync, a question for the
    /// length) with this many of those before it, and no call after it.
    FailOther(u64),
    /// The call with this many of any kind before it, and each one after it: the machine stopped.
    Stop(u64),
    /// The call with this many of any kind before it, by `OutOfMemory`, and no call after it.
    LackMemory(u64),
}

impl Plan {
    /// The same with this many calls before the first that fails.
    pub fn at(self, before: u64) -> Plan {
        match self {
            Plan::Honest => Plan::Honest,
            Plan::FailRead(_) => Plan::FailRead(before),
            Plan::FailOther(_) => Plan::FailOther(before),
            Plan::Stop(_) => Plan::Stop(before),
            Plan::LackMemory(_) => Plan::LackMemory(before),
        }
    }

    /// The error of a call that fails. None of them says that the disk is full.
    fn error(self) -> io::Error
        ensures { is_no_room result ≡ false }
    {
        match self {
            Plan::LackMemory(_) => io::Error::from(io::ErrorKind::OutOfMemory),
            _ => io::Error::other("a call that fails"),
        }
    }

    /// Whether the next call fails, which is counted where this plan counts it.
    fn fails(self, counter: &Counter, is_read: bool) -> bool {
        match (self, is_read) {
            (Plan::FailRead(before), true) | (Plan::FailOther(before), false) => {
                counter.next() == before
            }
            (Plan::LackMemory(before), _) => counter.next() == before,
            (Plan::Stop(before), _) => counter.next() >= before,
            _ => false,
        }
    }
}

/// How many calls were made of a disk, or turns of a stream, by all that share it: two files of one
/// machine stop together.
#[derive(Drop)]
pub struct Counter(Rc<Cell<u64>>);

impl Counter {
    /// Begins at 0.
    ///
    /// # Errors
    /// There is no memory for it.
    pub fn new(alloc: Global) -> Result<Counter, AllocError> {
        Ok(Counter(Rc::new(alloc, Cell::new(0))?))
    }

    /// The same counter: what one of the two counts, both have counted.
    ///
    /// # Errors
    /// It is shared as often as can be counted.
    pub fn share(&self) -> Result<Counter, AllocError> {
        Ok(Counter(self.0.clone()?))
    }

    /// How many calls were counted, up to `u64::MAX`.
    pub fn count(&self) -> u64 {
        self.0.get()
    }

    /// Counts a call, and gives how many were before it.
    pub(crate) fn next(&self) -> u64 {
        let before = self.0.get();
        self.0.set(before.saturating_add(1));
        before
    }
}

/// Hands on each call but those that fail, which change nothing. A sync that fails leaves the file
/// unusable, as that of a disk does.
#[derive(Drop)]
pub struct Planned<D: Disk> {
    inner: D,
    plan: Plan,
    counter: Counter,
    refused: u64,
    sync_refused: bool,
}

impl<D: Disk> Planned<D> {
    ghost use Rattle.std.specs.Prelude.{◌≢◌, ◌↔◌, IsTrue};
    ghost use Rattle.test_faulty_devices.specs.Planned.{inner_of, refused_by, IsFresh};

    /// Hands the calls on to `inner`, but for those that the plan has fail.
    pub fn new(inner: D, plan: Plan, counter: Counter) -> Self
        ensures inner { inner_of result ≡ inner }
        ensures fresh { IsFresh result }
    {
        Planned {
            inner,
            plan,
            counter,
            refused: 0,
            sync_refused: false,
        }
    }

    /// Whether a call failed.
    pub fn has_failed(&self) -> bool
        ensures { IsTrue result ↔ (refused_by self.now ≢ 0) }
    {
        self.refused > 0
    }

    /// How many calls were counted, of all disks that share its counter.
    pub fn calls(&self) -> u64 {
        self.counter.count()
    }

    /// The disk that the calls were handed on to.
    pub fn into_inner(self) -> D
        ensures { result ≡ inner_of self }
    {
        let Planned {
            inner,
            plan: _,
            counter: _,
            refused: _,
            sync_refused: _,
        } = self;
        inner
    }
}

/// Counts a call, or refuses it.
fn count(plan: Plan, counter: &Counter, is_read: bool, refused: &mut u64) -> io::Result<()>
    ensures faults { CountsFault result refused.old refused.new }
    ensures kind { finds_no_room result ≡ false }
{
    if plan.fails(counter, is_read) {
        *refused = refused.saturating_add(1);
        return Err(plan.error());
    }
    Ok(())
}

impl<D: Disk> Disk for Planned<D> {
    ghost seen = { λ f. D.Disk.seen f.inner };

    ghost may_leave = { λ f. D.Disk.may_leave f.inner };

    ghost is_usable = { λ f. D.Disk.is_usable f.inner && not f.sync_refused };

    ghost faults = { λ f. D.Disk.faults f.inner + f.refused };

    ghost tally_of = { λ f. D.Disk.tally_of f.inner };

    ghost is_rotten = { λ f. D.Disk.is_rotten f.inner };

    ghost key_of = { λ f. D.Disk.key_of f.inner };

    ghost is_clean = { λ f. D.Disk.is_clean f.inner };

    ghost is_fair = { λ f. D.Disk.is_fair f.inner };

    ghost fair_if_clean = { λ f. D.Disk.fair_if_clean f.inner };

    ghost seen_may_stay = { λ f. D.Disk.seen_may_stay f.inner };

    ghost is_mixing = { λ f. D.Disk.is_mixing f.inner };

    fn mixes(&self) -> bool {
        self.inner.mixes()
    }

    fn key(&self) -> u64 {
        self.inner.key()
    }

    fn tally(&self) -> Tally {
        self.inner.tally()
    }

    fn may_be_used(&self) -> bool {
        self.inner.may_be_used() && !self.sync_refused
    }

    fn len(&mut self) -> io::Result<usize> {
        count(self.plan, &self.counter, false, &mut self.refused)?;
        self.inner.len()
    }

    fn read_at(&mut self, at: usize, buf: &mut [u8]) -> io::Result<()> {
        count(self.plan, &self.counter, true, &mut self.refused)?;
        self.inner.read_at(at, buf)
    }

    fn read_checked(&mut self, key: u64, want: u64, at: usize, buf: &mut [u8]) -> io::Result<()> {
        count(self.plan, &self.counter, true, &mut self.refused)?;
        self.inner.read_checked(key, want, at, buf)
    }

    fn write_at(&mut self, at: usize, bytes: &[u8]) -> io::Result<()> {
        count(self.plan, &self.counter, false, &mut self.refused)?;
        self.inner.write_at(at, bytes)
    }

    fn set_len(&mut self, len: usize) -> io::Result<()> {
        count(self.plan, &self.counter, false, &mut self.refused)?;
        self.inner.set_len(len)
    }

    fn sync(&mut self) -> io::Result<()> {
        if let Err(error) = count(self.plan, &self.counter, false, &mut self.refused) {
            self.sync_refused = true;
            return Err(error);
        }
        self.inner.sync()
    }
}
