//! A connection whose calls are counted, and the only way to call it.
ghost use Rattle.std.specs.Prelude.{◌≡◌, ◌≤◌, ◌+◌, false};
ghost use Rattle.sqlite.specs.Held.{state};
ghost use Rattle.sql_steps.specs.Steps.{TransactsBy};
ghost use Rattle.register_tables.specs.StepCount.{counted, Rises, TakesInside};

use crate::error::StoreError;
use sqlite::types::ValueRef;
use sqlite::{Alter, Connection, Error, Row, Transaction};

/// How many calls of the database were made in a transaction, and rows handed out, up to 2^64 - 1.
#[derive(Drop)]
pub struct StepCount {
    count: u64,
}

impl StepCount {
    /// Counts one more. At the last number it stays: no run makes so many calls.
    fn count_one(&mut self)
        ensures counted { self.new.count ≡ counted 1 self.old.count }
        ensures takes { TakesInside 1 self.old self.new }
    {
        self.count = self.count.saturating_add(1);
    }
}

/// An open transaction of a [`Counted`] connection: whoever has one can make this call and no other.
pub trait Inside {
    ghost use Rattle.std.specs.Prelude.{◌≡◌, ℕ, IsTrue};
    ghost use Rattle.sqlite.specs.State.{State, HasCleanDisk, Survives, ExecutesInside};
    ghost use Rattle.sqlite.specs.Values.{bound};
    ghost use Rattle.register_tables.specs.StepCount.{counted, TakesInside};

    /// What the connection shows.
    ghost sees: { Self → State };

    /// Which connection it is.
    ghost name: { Self → ℕ };

    /// Runs a statement that gives no rows.
    ///
    /// # Errors
    /// As the database refused it.
    fn execute(
        &mut self,
        steps: &mut StepCount,
        sql: &str,
        params: &[ValueRef<'_>],
    ) -> Result<usize, Error>
        ensures same_reference { name self.new ≡ name self.old }
        ensures runs { HasCleanDisk (sees self.new) → IsTrue (sees self.old).in_transaction
            → ExecutesInside 0 sql.now (bound params.now) (sees self.old) (sees self.new) result }
        ensures survives { Survives (sees self.old) (sees self.new) (λ _. ⊥) }
        ensures counted { steps.new.count ≡ counted 1 steps.old.count }
        ensures takes { TakesInside 1 steps.old steps.new };
}

impl<S: Alter> Inside for Transaction<'_, S> {
    ghost use Rattle.sqlite.specs.Held.{state};

    ghost sees = { λ t. state S.Store t.conn.now };

    ghost name = { λ t. t.conn.ghost_name };

    fn execute(
        &mut self,
        steps: &mut StepCount,
        sql: &str,
        params: &[ValueRef<'_>],
    ) -> Result<usize, Error> {
        steps.count_one();
        Transaction::execute(self, sql, params)
    }
}

/// What is done in one transaction.
pub trait Work {
    ghost use Rattle.std.specs.Prelude.{◌≡◌, ℕ};
    ghost use Rattle.sql_steps.specs.Steps.{DatabaseChange, StepsBy};
    ghost use Rattle.register_tables.specs.StepCount.{TakesInside};

    /// What it makes of the database where it succeeds.
    ghost change: { Self → DatabaseChange };

    /// The most steps that it takes.
    ghost most: { ℕ };

    /// Does it.
    ///
    /// # Errors
    /// As the database refused it; the transaction is then to be rolled back.
    fn run<T: Inside>(&self, tx: &mut T, steps: &mut StepCount) -> Result<(), StoreError>
        ensures same_reference { T.Inside.name tx.new ≡ T.Inside.name tx.old }
        ensures made { StepsBy (λ _. change self.now)
            (T.Inside.sees tx.old) (T.Inside.sees tx.new) result }
        ensures counted { TakesInside most steps.old steps.new };
}

/// A connection in which no transaction is open, and how many calls were made of it and rows handed
/// out, up to 2^64 - 1.
#[derive(Drop)]
pub struct Counted<S: Alter> {
    connection: Connection<S>,
    steps: u64,
    ghost idle: { connection.in_transaction ≡ false },
}

impl<S: Alter> Counted<S> {
    ghost use Rattle.std.specs.Prelude.{◌≡◌, ◌≢◌, ◌≤◌, ◌+◌, false, IfOk, Err};
    ghost use Rattle.std.specs.Fn.{FnOnceReturnsAt};
    ghost use Rattle.sqlite.specs.State.{HasCleanDisk, Survives, CommitsShowing, Shown};
    ghost use Rattle.sqlite.specs.Values.{bound};
    ghost use Rattle.sql_steps.specs.Steps.{TransactsBy};
    ghost use Rattle.register_tables.specs.FoundRows.{rows_steps};
    ghost use Rattle.register_tables.specs.TableReads.{seen, Calls};
    ghost use Rattle.register_tables.specs.StepCount.{counted};
    ghost use Rattle.register_tables.specs.FoundRows.{FindsOne};

    /// Takes the connection, which nobody has called yet.
    pub fn new(connection: Connection<S>) -> Counted<S>
        requires { connection.in_transaction ≡ false }
        ensures connection { result.connection ≡ connection }
        ensures steps { result.steps ≡ 0 }
    {
        Counted {
            connection,
            steps: 0,
        }
    }

    /// How many calls were made, and how many rows they handed out, up to 2^64 - 1.
    pub fn steps(&self) -> u64
        ensures { result ≡ self.now.steps }
    {
        self.steps
    }

    /// Gives back the connection, in which no transaction is open.
    pub fn into_connection(self) -> Connection<S>
        ensures same { result ≡ self.connection }
        ensures idle { result.in_transaction ≡ false }
    {
        let Counted {
            connection,
            steps: _,
        } = self;
        connection
    }

    /// What the reader gives of the first row of a query's answer, or `None` where it has no row.
    ///
    /// # Errors
    /// [`StoreError::NoRegister`] where the reader gives nothing of the row, and
    /// [`StoreError::Database`] where the database refused.
    pub fn find_one_row<T, F: FnOnce(&Row) -> Option<T>>(
        &mut self,
        sql: &str,
        params: &[ValueRef<'_>],
        read: F,
    ) -> Result<Option<T>, StoreError>
        requires { F.IsAlwaysCallable read }
        ensures finds { FindsOne S.Store sql.now (bound params.now)
            (FnOnceReturnsAt F.FnOnce read) self.old self.new result }
        ensures no_memory { result ≢ Err StoreError.Memory }
        ensures calls { Calls 2 self.old self.new }
    {
        self.steps = self.steps.saturating_add(1);
        let row = match self.connection.query_row(sql, params) {
            Ok(row) => row,
            Err(Error::QueryReturnedNoRows) => return Ok(None),
            Err(error) => return Err(StoreError::Database(error)),
        };
        self.steps = self.steps.saturating_add(1);
        match read(&row) {
            Some(value) => Ok(Some(value)),
            None => Err(StoreError::NoRegister),
        }
    }

    /// All rows of a query's answer.
    ///
    /// # Errors
    /// As the database refused it.
    pub fn query_all(&mut self, sql: &str, params: &[ValueRef<'_>]) -> Result<Vec<Row>, Error>
        ensures ok { HasCleanDisk (seen S.Store self.new) → IfOk result (λ rows.
            Shown sql.now (bound params.now) (seen S.Store self.old) (seen S.Store self.new)
            rows.items) }
        ensures steps { self.new.steps ≡ counted (rows_steps result) self.old.steps }
        ensures calls { Calls (rows_steps result) self.old self.new }
        ensures survives { Survives (seen S.Store self.old) (seen S.Store self.new)
            (CommitsShowing sql.now (bound params.now) (seen S.Store self.old)) }
    {
        self.steps = self.steps.saturating_add(1);
        let rows = self.connection.query_all(sql, params)?;
        self.steps = self.steps.saturating_add(rows.len() as u64);
        Ok(rows)
    }

    /// Does the work in a transaction, and commits it; where the work fails it is rolled back.
    ///
    /// # Errors
    /// That of the work, or [`StoreError::Database`] where the commit was refused.
    pub fn transact<W: Work>(&mut self, work: &W) -> Result<(), StoreError>
        ensures made { TransactsBy (W.Work.change work.now)
            (seen S.Store self.old) (seen S.Store self.new) result }
        ensures steps { Calls (W.Work.most + 2) self.old self.new }
        ensures called { counted 2 self.old.steps ≤ self.new.steps }
    {
        let (done, steps) = run_in_transaction(&mut self.connection, self.steps, work);
        self.steps = steps;
        done
    }
}

/// Does the work in a transaction of the connection, whose count this is, and gives the new count.
fn run_in_transaction<S: Alter, W: Work>(
    connection: &mut Connection<S>,
    before: u64,
    work: &W,
) -> (Result<(), StoreError>, u64)
    requires { connection.old.in_transaction ≡ false }
    ensures idle { connection.new.in_transaction ≡ false }
    ensures made { TransactsBy (W.Work.change work.now)
        (state S.Store connection.old) (state S.Store connection.new) result.0 }
    ensures steps { Rises (W.Work.most + 2) before result.1 }
    ensures called { counted 2 before ≤ result.1 }
{
    let mut steps = StepCount { count: before };
    steps.count_one();
    let mut tx = connection.transaction();
    let done = work.run(&mut tx, &mut steps);
    // One call more either way: the commit or the rollback.
    steps.count_one();
    let end = match done {
        Ok(()) => tx.commit().map_err(StoreError::Database),
        Err(error) => {
            tx.rollback();
            Err(error)
        }
    };
    (end, steps.count)
}
