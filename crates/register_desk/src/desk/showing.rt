//! What a desk tells of one key, and of the periods that the office set.

use crate::desk::Desk;
use crate::end::End;
use key_rows::Record;
use lifecycle_core::{Usage, usage};
use period_core::{KeyType, OfficePeriods, Period, period_or_default};
use register_tables::StoreError;
use sqlite::Alter;

impl<S: Alter> Desk<S> {
    ghost use Rattle.std.specs.Prelude.{◌≡◌, ◌≢◌, List, Err, IfOk, IfErr, None};
    ghost use Rattle.register_core.specs.History.{period, set_period};
    ghost use Rattle.register_requests.specs.declared.request.Request.{Request};
    ghost use Rattle.register_desk.specs.Desk.{Asks, ChangesNothing, IsBroken, IsClean, IsNoKey};
    ghost use Rattle.register_desk.specs.Desk.{IsWhole, TakesSteps, keys_of};
    ghost use Rattle.register_desk.specs.Shown.{usage, shown};
    ghost use Rattle.register_desk.specs.{Within.LooksUp, Register.StandsFor};
    ghost use Rattle.period_core.specs.{declared.key_type.KeyType.KeyType, Office.set_in};

    /// The key with this number as of the latest accepted moment, or `None` where there is none. It
    /// changes nothing.
    ///
    /// # Errors
    /// [`End::Store`] where the database refused or the row is one that no register holds, which
    /// breaks the desk; [`End::Memory`] where memory gave out, and the desk goes on;
    /// [`End::Broken`] on a broken desk.
    pub fn show(&mut self, number: u32) -> Result<Option<Record>, End>
        ensures asks { Asks S.Store 38 self.old self.new result }
        ensures shown { (h : List Request) → StandsFor S.Store self.old h → IsClean S.Store self.new
            → IfOk result (λ found. found ≡ shown h number) }
        // None only of a key that is not counted, whatever the tables hold.
        ensures there { IfOk result (λ found. found ≡ None → IsNoKey (keys_of self.old) number) }
    {
        if self.is_broken {
            return Err(End::Broken);
        }
        match self.look_up_record(number) {
            Ok(found) => Ok(found),
            Err(error) => Err(self.end_at(error)),
        }
    }

    /// The key with this number, as a reader is shown it.
    fn look_up_record(&mut self, number: u32) -> Result<Option<Record>, StoreError>
        requires { IsWhole self.old }
        ensures looks { LooksUp S.Store 38 self.old self.new result }
        ensures shown { (h : List Request) → StandsFor S.Store self.old h → IsClean S.Store self.new
            → IfOk result (λ found. found ≡ shown h number) }
        ensures there { IfOk result (λ found. found ≡ None → IsNoKey self.old.keys number) }
    {
        let need = self.look_up_need(number)?;
        match self.look_up_whole_key(number, need)? {
            Some((held, purpose)) => Ok(Some(Record::new(number, held, purpose))),
            None => Ok(None),
        }
    }

    /// The usage period that keys of the type are held to from now on: the one that the office set
    /// last, or this register's own. It changes nothing.
    ///
    /// # Errors
    /// As [`show`](Desk::show), but never [`End::Memory`].
    pub fn period(&mut self, kind: KeyType) -> Result<Period, End>
        ensures asks { Asks S.Store 2 self.old self.new result }
        ensures no_memory { result ≢ Err End.Memory }
        ensures found { (h : List Request) → StandsFor S.Store self.old h → IsClean S.Store self.new
            → IfOk result (λ found. found ≡ period h kind) }
    {
        if self.is_broken {
            return Err(End::Broken);
        }
        match self.look_up_period(kind) {
            Ok(found) => Ok(found),
            Err(error) => Err(self.end_at(error)),
        }
    }

    /// The usage period that keys of the type are held to.
    fn look_up_period(&mut self, kind: KeyType) -> Result<Period, StoreError>
        requires { IsWhole self.old }
        ensures looks { LooksUp S.Store 2 self.old self.new result }
        ensures no_memory { result ≢ Err StoreError.Memory }
        ensures found { (h : List Request) → StandsFor S.Store self.old h → IsClean S.Store self.new
            → IfOk result (λ found. found ≡ period h kind) }
    {
        let set = self.look_up_office_period(kind)?;
        Ok(period_or_default(kind, set))
    }

    /// What the office set for each type. It changes nothing, and the desk goes on where the
    /// database refuses it.
    ///
    /// # Errors
    /// [`End::Store`] where the database refused; [`End::Broken`] on a broken desk.
    pub fn office_periods(&mut self) -> Result<OfficePeriods, End>
        ensures reads { ChangesNothing S.Store self.old self.new }
        ensures mark { self.new.is_broken ≡ self.old.is_broken }
        ensures refused { IsWhole self.old → IfErr result (λ end. end ≡ End.Store) }
        ensures broken { IsBroken self.old → (result ≡ Err End.Broken) × (self.new ≡ self.old) }
        ensures found { (h : List Request) → StandsFor S.Store self.old h → IsClean S.Store self.new
            → IfOk result (λ set. (kind : KeyType) → set_in set kind ≡ set_period h kind) }
        ensures steps { TakesSteps 14 self.old self.new }
    {
        if self.is_broken {
            return Err(End::Broken);
        }
        let mut periods = OfficePeriods::NONE;
        'kinds: for kind in KeyType::ALL {
            periods.set(kind, self.look_up_office_period(kind)?);
        }
        Ok(periods)
    }

    /// What the key with this number may be used for at the latest accepted moment, or `None` where
    /// there is no such key. It changes nothing.
    ///
    /// # Errors
    /// As [`show`](Desk::show), but never [`End::Memory`].
    pub fn usage(&mut self, number: u32) -> Result<Option<Usage>, End>
        ensures asks { Asks S.Store 2 self.old self.new result }
        ensures used { (h : List Request) → StandsFor S.Store self.old h → IsClean S.Store self.new
            → IfOk result (λ found. found ≡ usage h number) }
        ensures there { IfOk result (λ found. found ≡ None → IsNoKey (keys_of self.old) number) }
        ensures no_memory { result ≢ Err End.Memory }
    {
        if self.is_broken {
            return Err(End::Broken);
        }
        match self.look_up_usage(number) {
            Ok(found) => Ok(found),
            Err(error) => Err(self.end_at(error)),
        }
    }

    /// What the key with this number may be used for.
    fn look_up_usage(&mut self, number: u32) -> Result<Option<Usage>, StoreError>
        requires { IsWhole self.old }
        ensures looks { LooksUp S.Store 2 self.old self.new result }
        ensures no_memory { result ≢ Err StoreError.Memory }
        ensures used { (h : List Request) → StandsFor S.Store self.old h → IsClean S.Store self.new
            → IfOk result (λ found. found ≡ usage h number) }
        ensures there { IfOk result (λ found. found ≡ None → IsNoKey self.old.keys number) }
    {
        match self.look_up_key_row(number)? {
            Some(key) => Ok(Some(usage(&key.row.dates, self.latest))),
            None => Ok(None),
        }
    }
}
