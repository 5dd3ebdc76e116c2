//! A register in the kit's store in memory. Nothing else here names that store.
ghost use Rattle.std.specs.Prelude.{◌≡◌, false};

use crate::calls::{Call, Called, Ended, TriedDesk};
use key_rows::Record;
use lifecycle_core::Usage;
use period_core::{KeyType, Period};
use register_desk::{Desk, End, OpenRefusal};
use sqlite::{Connection, MemStore};
use std::alloc::Global;
use std::io::{Read, Write};
use std::test::Fail;

/// Makes an empty register in the kit's store in memory. A function that names this store is proved
/// in seconds; one that names files, in memory too, in most of a minute.
pub fn make_desk(alloc: Global) -> Result<Desk<MemStore>, OpenRefusal> {
    let Ok(connection) = Connection::open_in_memory(alloc) else {
        return Err(OpenRefusal::Memory);
    };
    match Desk::create(alloc, connection) {
        Ok(desk) => Ok(desk),
        Err(unopened) => Err(unopened.refusal()),
    }
}

/// A desk over a register in memory. Its calls have no clause: what a desk promises is no matter of
/// trials.
#[derive(Drop)]
pub struct MemoryDesk {
    alloc: Global,
    desk: Desk<MemStore>,
}

impl MemoryDesk {
    /// The desk of an empty register.
    pub fn new(alloc: Global) -> Result<MemoryDesk, Fail> {
        let desk = make_desk(alloc)?;
        Ok(MemoryDesk { alloc, desk })
    }

    /// The desk after a run over these lines.
    pub fn after(alloc: Global, lines: &[u8]) -> Result<MemoryDesk, Fail> {
        let mut desk = MemoryDesk::new(alloc)?;
        let _ = desk.make_call(Call::Run, lines);
        Ok(desk)
    }

    /// Makes the call over these streams.
    pub fn call<R: Read + Drop, W: Write + Drop>(
        &mut self,
        call: Call,
        reader: R,
        writer: W,
    ) -> Ended<R, W> {
        self.desk.call(self.alloc, call, reader, writer)
    }

    /// Makes the call over this input.
    pub fn make_call(&mut self, call: Call, input: &[u8]) -> Called {
        let ended = self.call(call, input, Vec::new(self.alloc));
        Called {
            outcome: ended.outcome,
            output: ended.writer,
        }
    }

    /// What a run over the lines writes.
    pub fn replies(&mut self, lines: &[u8]) -> Vec<u8> {
        self.make_call(Call::Run, lines).output
    }

    /// What the desk tells of the key with this number.
    pub fn show(&mut self, number: u32) -> Result<Option<Record>, End> {
        self.desk.show(number)
    }

    /// What it tells of the uses of the key.
    pub fn usage(&mut self, number: u32) -> Result<Option<Usage>, End> {
        self.desk.usage(number)
    }

    /// What it tells of the period of a type.
    pub fn period(&mut self, kind: KeyType) -> Result<Period, End> {
        self.desk.period(kind)
    }

    /// How many steps it has taken.
    pub fn steps(&self) -> u64 {
        self.desk.steps()
    }

    /// The latest moment, in seconds, and the number of keys.
    pub fn stands(&self) -> (u64, u32) {
        (self.desk.latest().seconds(), self.desk.count())
    }

    /// The database of the register.
    pub fn into_database(self) -> MemoryDatabase {
        MemoryDatabase {
            connection: self.desk.close().0,
        }
    }
}

/// A database in memory.
#[derive(Drop)]
pub struct MemoryDatabase {
    pub(crate) connection: Connection<MemStore>,
}

impl MemoryDatabase {
    /// Runs the statement on it.
    pub fn execute(&mut self, statement: &str) -> Result<(), Fail> {
        self.connection.execute(statement, &[])?;
        Ok(())
    }
}
