//! A day in pieces, and what a desk tells after it: keys, their uses, and periods.
use crate::calls::Call;
use crate::memory_desk::MemoryDesk;
use lifecycle_core::{Process, State, Usage};
use period_core::KeyType;
use register_desk::{End, Finish, Outcome};
use std::alloc::Global;
use std::test::Fail;
use test_faulty_devices::{Interrupted, OneByte, Short};

/// The worked row *first day*, and its replies.
const FIRST_DAY: &str = "100 ann 1 register data-encryption bob 0 500 1000 payroll disks\n\
    999 ann 2 advance\n\
    1000 ann 3 register data-encryption bob 0 500 1000 old disks\n\
    999 ann 4 advance\n";

const REPLIES: &str =
    "ok 1 Active 100\nok 0 - 999\nok 2 Deactivated 1000\nrefused 3 MomentBehind latest=1000\n";

/// What a run over the day does.
fn outcome() -> Outcome {
    Outcome {
        read: FIRST_DAY.len() as u64,
        written: REPLIES.len() as u64,
        replies: 4,
        end: Finish::AtEnd { rest: 0 },
    }
}

/// Whether the day is served where each read gives a byte.
fn is_read_in_bytes(alloc: Global) -> Result<bool, Fail> {
    let mut desk = MemoryDesk::new(alloc)?;
    let ended = desk.call(Call::Run, OneByte(FIRST_DAY.as_bytes()), Vec::new(alloc));
    Ok(ended.outcome == outcome() && ended.writer.as_slice() == REPLIES.as_bytes())
}

/// Whether it is where reads and writes are interrupted, a read gives a byte and a write takes three.
fn is_interrupted(alloc: Global) -> Result<bool, Fail> {
    let reader = Interrupted::new(OneByte(FIRST_DAY.as_bytes()));
    let writer = Interrupted::new(Short {
        inner: Vec::new(alloc),
        max_bytes: 3,
    });
    let ended = MemoryDesk::new(alloc)?.call(Call::Run, reader, writer);
    let written = ended.writer.inner.inner;
    let has_failed = ended.read_failed || ended.write_failed;
    Ok(!has_failed && ended.outcome == outcome() && written.as_slice() == REPLIES.as_bytes())
}

/// Whether the day is served in pieces, and where it is interrupted.
pub fn is_first_day_served_in_pieces(alloc: Global) -> Result<bool, Fail> {
    Ok(is_read_in_bytes(alloc)? && is_interrupted(alloc)?)
}

/// The state of a key after the day, or `None` where there is no such key.
static STATES: [(u32, Option<State>); 5] = [
    (0, None),
    (1, Some(State::Deactivated)),
    (2, Some(State::Deactivated)),
    (3, None),
    (u32::MAX, None),
];

/// The state in which the key is shown.
fn shown_state(desk: &mut MemoryDesk, number: u32) -> Result<Option<State>, End> {
    match desk.show(number) {
        Ok(Some(record)) => Ok(Some(record.key.row.state)),
        Ok(None) => Ok(None),
        Err(end) => Err(end),
    }
}

/// The number of a key that is not shown as it is, if there is one.
pub fn key_wrongly_shown(alloc: Global) -> Result<Option<u32>, Fail> {
    let mut desk = MemoryDesk::after(alloc, FIRST_DAY.as_bytes())?;
    for (number, state) in &STATES {
        if shown_state(&mut desk, *number) != Ok(*state) {
            return Ok(Some(*number));
        }
    }
    Ok(None)
}

/// Whether keys of the type are held to so many months of originator and of recipient use.
fn is_period(desk: &mut MemoryDesk, kind: KeyType, months: (u16, u16)) -> bool {
    match desk.period(kind) {
        Ok(period) => (period.originator(), period.recipient()) == months,
        Err(_) => false,
    }
}

/// Whether a deactivated key is of the use that it is, and the period of a type is that which the
/// office set last, and else its own.
pub fn are_uses_and_periods_told(alloc: Global) -> Result<bool, Fail> {
    let mut desk = MemoryDesk::after(alloc, FIRST_DAY.as_bytes())?;
    let lines =
        b"1000 office 1 set-period data-encryption 24 0\n1000 office 2 set-period data-encryption 12 36\n";
    let _ = desk.replies(lines.as_slice());
    let special = Usage {
        protect: false,
        process: Process::Special,
    };
    Ok(
        desk.usage(1) == Ok(Some(special))
            && is_period(&mut desk, KeyType::DataEncryption, (12, 36))
            && is_period(&mut desk, KeyType::Master, (12, 0)),
    )
}
