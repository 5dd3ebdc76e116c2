//! Looking up what a decision rests on.
ghost use Rattle.std.specs.Prelude.{◌≡◌, unwrap_or};
ghost use Rattle.register_desk.specs.TablesView.{held_without_custody};

use crate::desk::Desk;
use period_core::{KeyType, Period};
use register_core::{
    Command, Held, Key, KeyPart, Names, Purpose, Quorum, Request, View, needed_period_type,
};
use register_rows::{find_key_need, find_key_row, find_office_period, load_key};
use register_tables::StoreError;
use sqlite::Alter;
use std::alloc::Global;

impl<S: Alter> Desk<S> {
    ghost use Rattle.std.specs.Prelude.{◌≡◌, ◌≢◌, ◌⊎◌, ◌<◌, Err, IfErr, IfOk, IfSome, None, false};
    ghost use Rattle.std.specs.Prelude.{length, true};
    ghost use Rattle.register_tables.specs.TableReads.{HasHeldKey, HasRow};
    ghost use Rattle.register_tables.specs.Tables.{Tables};
    ghost use Rattle.register_requests.specs.CommandRule.{looks_at_custody};
    ghost use Rattle.register_desk.specs.Desk.{ChangesNothing, IsClean, IsNoKey, IsOpen, IsWhole};
    ghost use Rattle.register_desk.specs.Desk.{TakesSteps};
    ghost use Rattle.register_desk.specs.TablesView.{key_for, key_needed, need_over};
    ghost use Rattle.register_desk.specs.TablesView.{key_with_custody, key_without_custody};
    ghost use Rattle.register_desk.specs.{Within.NamesNoKey, Within.LooksUp};
    ghost use Rattle.register_desk.specs.{Register.Sees, Within.IsViewOver};
    ghost use Rattle.register_core.specs.Effect.{needed_period_type};
    ghost use Rattle.register_core.specs.{Decision.IsRightKey, Settings.period_at};

    /// What the decision on the request rests on.
    pub(super) fn look_up_needed_view(&mut self, request: &Request) -> Result<View, StoreError>
        requires whole { IsWhole self.old }
        requires opened { IsOpen S.Store self.old }
        ensures looks { LooksUp S.Store 40 self.old self.new result }
        ensures latest { IfOk result (λ view. view.latest ≡ self.new.latest) }
        ensures keys { IfOk result (λ view. view.keys ≡ self.new.keys) }
        ensures right { IfOk result (λ view. IsRightKey view.key view.latest) }
        ensures memory { result ≡ Err StoreError.Memory
            → looks_at_custody request.now.command ≡ true }
        ensures there { IfOk result (λ view. view.key ≡ None
            → (request.now.moment < self.old.latest)
            ⊎ NamesNoKey self.old.keys request.now.command) }
        ensures found { (t : Tables) → Sees S.Store t self.old → self.old.latest ≡ t.counts.latest
            → self.old.keys ≡ length t.keys → IsClean S.Store self.new
            → IfOk result (IsViewOver t request.now) }
    {
        let key = self.look_up_needed_key(request)?;
        let period = self.look_up_needed_period(&key, &request.command)?;
        Ok(View {
            latest: self.latest,
            keys: self.keys,
            period,
            key,
        })
    }

    /// The usage period that the office set for the type that the dates are held to which the
    /// command gives; `None` where it set none, or the command gives no dates.
    fn look_up_needed_period(
        &mut self,
        key: &Option<Held>,
        command: &Command,
    ) -> Result<Option<Period>, StoreError>
        requires whole { IsWhole self.old }
        requires opened { IsOpen S.Store self.old }
        ensures looks { LooksUp S.Store 2 self.old self.new result }
        ensures no_memory { result ≢ Err StoreError.Memory }
        ensures found { (t : Tables) → Sees S.Store t self.old → IsClean S.Store self.new
            → IfOk result (λ set. IfSome (needed_period_type key.now command.now) (λ kind.
            set ≡ period_at kind t.periods)) }
    {
        match needed_period_type(key, command) {
            Some(kind) => self.look_up_office_period(kind),
            None => Ok(None),
        }
    }

    /// The usage period that the office set for the type, if it set one, by the tables. Whatever came
    /// of it an open connection sees what it saw.
    pub(super) fn look_up_office_period(
        &mut self,
        kind: KeyType,
    ) -> Result<Option<Period>, StoreError>
        ensures looks { IsWhole self.old → LooksUp S.Store 2 self.old self.new result }
        ensures reads { ChangesNothing S.Store self.old self.new }
        ensures mark { self.new.is_broken ≡ self.old.is_broken }
        ensures steps { TakesSteps 2 self.old self.new }
        ensures no_memory { result ≢ Err StoreError.Memory }
        ensures found { (t : Tables) → Sees S.Store t self.old → IsWhole self.old
            → IsClean S.Store self.new → IfOk result (λ set. set ≡ period_at kind t.periods) }
    {
        find_office_period(&mut self.connection, kind)
    }

    /// What the decision on the request needs of the key that it names, as that stands at the
    /// latest moment.
    fn look_up_needed_key(&mut self, request: &Request) -> Result<Option<Held>, StoreError>
        requires whole { IsWhole self.old }
        requires opened { IsOpen S.Store self.old }
        ensures looks { LooksUp S.Store 38 self.old self.new result }
        ensures right { IfOk result (λ key. IsRightKey key self.old.latest) }
        ensures memory { result ≡ Err StoreError.Memory
            → looks_at_custody request.now.command ≡ true }
        ensures there { IfOk result (λ key. key ≡ None
            → (request.now.moment < self.old.latest)
            ⊎ NamesNoKey self.old.keys request.now.command) }
        ensures found { (t : Tables) → Sees S.Store t self.old → self.old.latest ≡ t.counts.latest
            → IsClean S.Store self.new → IfOk result (λ key. key ≡ key_needed t request.now) }
    {
        if request.moment < self.latest {
            return Ok(None);
        }
        let Some(number) = request.command.key() else {
            return Ok(None);
        };
        match self.look_up_key_for_command(&request.command, number)? {
            Some(held) if !held.row.has_right_state_at(self.latest) => Err(StoreError::NoRegister),
            found => Ok(found),
        }
    }

    /// The key with this number as it stands in the tables, with the part of it that a decision on
    /// the command looks at.
    fn look_up_key_for_command(
        &mut self,
        command: &Command,
        number: u32,
    ) -> Result<Option<Held>, StoreError>
        requires whole { IsWhole self.old }
        requires opened { IsOpen S.Store self.old }
        ensures looks { LooksUp S.Store 38 self.old self.new result }
        ensures memory { result ≡ Err StoreError.Memory → looks_at_custody command.now ≡ true }
        ensures there { IfOk result (λ key. key ≡ None → IsNoKey self.old.keys number) }
        ensures found { (t : Tables) → Sees S.Store t self.old → IsClean S.Store self.new
            → IfOk result (λ key. key ≡ key_for t command.now number) }
    {
        match command.looks_at() {
            KeyPart::Row => self.look_up_key_without_custody(number),
            KeyPart::Custody => self.look_up_key_with_custody(number, Quorum::LEAST),
            KeyPart::CustodyAndNeed => {
                let need = self.look_up_need(number)?;
                self.look_up_key_with_custody(number, need)
            }
        }
    }

    /// The key with this number as it stands in the tables, with nobody in its custody.
    fn look_up_key_without_custody(&mut self, number: u32) -> Result<Option<Held>, StoreError>
        requires { IsWhole self.old }
        ensures looks { LooksUp S.Store 2 self.old self.new result }
        ensures no_memory { result ≢ Err StoreError.Memory }
        ensures there { IfOk result (λ key. key ≡ None → IsNoKey self.old.keys number) }
        ensures found { (t : Tables) → Sees S.Store t self.old → IsClean S.Store self.new
            → IfOk result (λ key. key ≡ key_without_custody t number) }
    {
        match self.look_up_key_row(number)? {
            Some(key) => Ok(Some(held_without_custody(self.alloc, key))),
            None => Ok(None),
        }
    }

    /// The key with this number as it stands in the tables, with its custody, where its destruction
    /// needs so many approvals.
    fn look_up_key_with_custody(
        &mut self,
        number: u32,
        need: Quorum,
    ) -> Result<Option<Held>, StoreError>
        requires { IsWhole self.old }
        ensures looks { LooksUp S.Store 36 self.old self.new result }
        ensures there { IfOk result (λ key. key ≡ None → IsNoKey self.old.keys number) }
        ensures found { (t : Tables) → Sees S.Store t self.old → IsClean S.Store self.new
            → IfOk result (λ key. key ≡ key_with_custody t number need) }
    {
        match self.look_up_whole_key(number, need)? {
            Some((held, _)) => Ok(Some(held)),
            None => Ok(None),
        }
    }

    /// Whether a key with this number is counted.
    fn is_counted_key(&self, number: u32) -> bool
        ensures none { result ≡ false → IsNoKey self.now.keys number }
        ensures one { result ≡ true → IsNoKey self.now.keys number → ⊥ }
    {
        1 <= number && number <= self.keys
    }

    /// What was found of the key with this number. That of a key that is counted is to be there.
    fn unless_missing<T: Drop>(
        &self,
        number: u32,
        found: Option<T>,
    ) -> Result<Option<T>, StoreError>
        ensures given { IfOk result (λ key. key ≡ found) }
        ensures there { IfOk result (λ key. key ≡ None → IsNoKey self.now.keys number) }
        ensures gone { IfErr result (λ error.
            (found ≡ None) × (IsNoKey self.now.keys number → ⊥)) }
        ensures unregistered { IfErr result (λ error. error ≡ StoreError.NoRegister) }
    {
        if found.is_none() && self.is_counted_key(number) {
            return Err(StoreError::NoRegister);
        }
        Ok(found)
    }

    /// The row of the key with this number as it stands in the tables.
    pub(super) fn look_up_key_row(&mut self, number: u32) -> Result<Option<Key>, StoreError>
        requires { IsWhole self.old }
        ensures looks { LooksUp S.Store 2 self.old self.new result }
        ensures no_memory { result ≢ Err StoreError.Memory }
        ensures there { IfOk result (λ key. key ≡ None → IsNoKey self.old.keys number) }
        ensures found { (t : Tables) → Sees S.Store t self.old → IsClean S.Store self.new
            → IfOk result (HasRow number t) }
    {
        let found = find_key_row(&mut self.connection, number)?;
        self.unless_missing(number, found)
    }

    /// How many approvals the destruction of the key with this number needs, by the tables.
    pub(super) fn look_up_need(&mut self, number: u32) -> Result<Quorum, StoreError>
        requires { IsWhole self.old }
        ensures looks { LooksUp S.Store 2 self.old self.new result }
        ensures no_memory { result ≢ Err StoreError.Memory }
        ensures found { (t : Tables) → Sees S.Store t self.old → IsClean S.Store self.new
            → IfOk result (λ need. need ≡ need_over t number) }
    {
        let found = find_key_need(&mut self.connection, number)?;
        Ok(found.unwrap_or(Quorum::LEAST))
    }

    /// The key with this number as it stands in the tables where its destruction needs so many
    /// approvals, with its purpose.
    pub(super) fn look_up_whole_key(
        &mut self,
        number: u32,
        need: Quorum,
    ) -> Result<Option<(Held, Purpose)>, StoreError>
        requires { IsWhole self.old }
        ensures looks { LooksUp S.Store 36 self.old self.new result }
        ensures there { IfOk result (λ key. key ≡ None → IsNoKey self.old.keys number) }
        ensures found { (t : Tables) → Sees S.Store t self.old → IsClean S.Store self.new
            → IfOk result (HasHeldKey number need t) }
    {
        let found = load_key(self.alloc, &mut self.connection, number, need)?;
        self.unless_missing(number, found)
    }
}

/// The key, with nobody in its custody.
fn held_without_custody(alloc: Global, key: Key) -> Held
    ensures { result ≡ held_without_custody key }
{
    Held {
        kind: key.kind,
        owner: key.owner,
        row: key.row,
        need: Quorum::LEAST,
        custodians: Names::from_vec(Vec::new(alloc)),
        approvals: Names::from_vec(Vec::new(alloc)),
    }
}
