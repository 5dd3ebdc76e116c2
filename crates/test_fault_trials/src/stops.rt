//! Stops: from each call on, all calls of a file fail. Failures: one call of a file does.
use crate::files::{Entry, Fault, FaultPlace, Lab};
use crate::requests::{
    BEGINNINGS, DAY, FIRST_OF_DAY, SEVERAL, SINGLE, last_of_day, of_day, opening,
};
use crate::sending::Way;
use crate::trials::{Odd, Trial, try_all};
use std::alloc::Global;
use std::test::Fail;
use test_faulty_devices::Plan;

/// A trial that went otherwise than it should: its name, its place among its like, the fault, and
/// how.
pub type Wrong = (&'static str, usize, Fault, Odd);

/// The machine stops, or one of its files does.
#[rattlefmt::skip]
static STOPS: [Fault; 3] = [
    Fault { place: FaultPlace::Database, plan: Plan::Stop(0) },
    Fault { place: FaultPlace::Log, plan: Plan::Stop(0) },
    Fault { place: FaultPlace::Machine, plan: Plan::Stop(0) },
];

/// A call of each file fails, and it goes on.
#[rattlefmt::skip]
static FAILURES: [Fault; 4] = [
    Fault { place: FaultPlace::Database, plan: Plan::FailRead(0) },
    Fault { place: FaultPlace::Database, plan: Plan::FailOther(0) },
    Fault { place: FaultPlace::Log, plan: Plan::FailRead(0) },
    Fault { place: FaultPlace::Log, plan: Plan::FailOther(0) },
];

/// A call fails for want of memory in the disk, and it goes on. That is no refused growth of the
/// program.
static WANTS: [Fault; 1] = [Fault {
    place: FaultPlace::Machine,
    plan: Plan::LackMemory(0),
}];

/// A request that is accepted changes a row of `meta` and adds one to `request` and to its index:
/// three pages at least, which it writes to the log and syncs.
const CALLS_OF_COMMIT: u64 = 4;

/// How many calls have to have failed at least. What the commit before it wrote is copied into the
/// database file in as many. An opening reads both files; else a read may be answered from memory.
fn least_steps(trial: &Trial, fault: Fault) -> u64 {
    let writes = trial.commits.saturating_mul(CALLS_OF_COMMIT);
    let reads = match trial.way {
        Way::Entry(Entry::Opening | Entry::Migration) => 1,
        Way::Entry(Entry::Creation) | Way::Lines | Way::Rows(_) | Way::Post(..) => 0,
    };
    let of_file = match fault.plan {
        Plan::Honest => 0,
        Plan::FailRead(_) => reads,
        Plan::FailOther(_) => writes,
        Plan::Stop(_) | Plan::LackMemory(_) => writes.saturating_add(reads),
    };
    match fault.place {
        FaultPlace::Log | FaultPlace::Database => of_file,
        FaultPlace::Machine => of_file.saturating_mul(2),
    }
}

/// The first of the faults with which the trial goes otherwise than it should, or fails fewer calls
/// than it has to.
fn wrong_fault(
    lab: Lab,
    trial: &Trial,
    place: usize,
    faults: &[Fault],
) -> Result<Option<Wrong>, Fail> {
    for fault in faults {
        match try_all(lab, trial, *fault)? {
            Ok(count) if count.faults >= least_steps(trial, *fault) => {}
            Ok(count) => return Ok(Some((trial.name, place, *fault, (count.faults, None, None)))),
            Err(odd) => return Ok(Some((trial.name, place, *fault, odd))),
        }
    }
    Ok(None)
}

/// The first request of the day, from this place on, that goes otherwise than it should.
fn wrong_request(lab: Lab, first: usize, faults: &[Fault]) -> Result<Option<Wrong>, Fail> {
    for place in first..DAY.len() {
        let trial = of_day(place).ok_or("no such request")?;
        let wrong = wrong_fault(lab, &trial, place, faults)?;
        if wrong.is_some() {
            return Ok(wrong);
        }
    }
    Ok(None)
}

/// The first of the trials that does.
fn wrong_trial(lab: Lab, trials: &[Trial], faults: &[Fault]) -> Result<Option<Wrong>, Fail> {
    for (place, trial) in trials.iter().enumerate() {
        let wrong = wrong_fault(lab, trial, place, faults)?;
        if wrong.is_some() {
            return Ok(wrong);
        }
    }
    Ok(None)
}

/// The first of the beginnings that does.
fn wrong_beginning(lab: Lab, faults: &[Fault]) -> Result<Option<Wrong>, Fail> {
    match wrong_fault(lab, &opening(), BEGINNINGS.len(), faults)? {
        None => wrong_trial(lab, &BEGINNINGS, faults),
        wrong => Ok(wrong),
    }
}

/// The first of all other trials that does.
fn wrong_other(lab: Lab, faults: &[Fault]) -> Result<Option<Wrong>, Fail> {
    match wrong_beginning(lab, faults)? {
        None => {}
        wrong => return Ok(wrong),
    }
    match wrong_trial(lab, &SINGLE, faults)? {
        None => wrong_trial(lab, &SEVERAL, faults),
        wrong => Ok(wrong),
    }
}

/// The first request of the day at which a stop goes otherwise than it should.
pub fn stop_in_command_at_fault(alloc: Global) -> Result<Option<Wrong>, Fail> {
    wrong_request(Lab::new(alloc), FIRST_OF_DAY, &STOPS)
}

/// The first other trial at which one does.
pub fn stop_elsewhere_at_fault(alloc: Global) -> Result<Option<Wrong>, Fail> {
    wrong_other(Lab::new(alloc), &STOPS)
}

/// The same of several requests, and of the last one of the day, which ends an approval, where
/// pages go to the log before the commit.
pub fn stop_while_spilling_at_fault(alloc: Global) -> Result<Option<Wrong>, Fail> {
    let lab = Lab::with_small_cache(alloc);
    match wrong_trial(lab, &SEVERAL, &STOPS)? {
        None => wrong_request(lab, last_of_day(), &STOPS),
        wrong => Ok(wrong),
    }
}

/// The first trial at which a failed call does.
pub fn failure_at_fault(alloc: Global) -> Result<Option<Wrong>, Fail> {
    let lab = Lab::new(alloc);
    match wrong_request(lab, FIRST_OF_DAY, &FAILURES)? {
        None => wrong_other(lab, &FAILURES),
        wrong => Ok(wrong),
    }
}

/// The first beginning of a register at which want of memory in the disk does.
pub fn want_of_memory_at_fault(alloc: Global) -> Result<Option<Wrong>, Fail> {
    wrong_beginning(Lab::new(alloc), &WANTS)
}
