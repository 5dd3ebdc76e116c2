//! Applying requests: each is accepted, repeated or refused.

use crate::desk::Desk;
use crate::end::End;
use register_core::{Accept, Answer, KeptReply, Name, Refusal, Request, RequestNumber, decide};
use register_rows::{commit_request, find_request};
use register_tables::StoreError;
use sqlite::Alter;

impl<S: Alter> Desk<S> {
    ghost use Rattle.std.specs.Prelude.{false, ◌≡◌, ◌≢◌, List, Ok, IfOk, IfErr, true, ◌≤◌, ◌+◌};
    ghost use Rattle.std.specs.Prelude.{Err, OnOk, OnErr, IfSome};
    ghost use Rattle.register_requests.specs.declared.request.Request.{Request};
    ghost use Rattle.register_requests.specs.{CommandRule.looks_at_custody, Request.is_in_range};
    ghost use Rattle.register_tables.specs.TableReads.{HasRequest, seen};
    ghost use Rattle.register_rows.specs.AcceptedRequest.{CanTake, with_request};
    ghost use Rattle.register_tables.specs.{TableChanges.Makes, Tables.Tables};
    ghost use Rattle.register_rows.specs.Change.{made_count};
    ghost use Rattle.register_desk.specs.Desk.{AppliesOver, AppliesTo, ChangesNothing, Ends};
    ghost use Rattle.register_desk.specs.Desk.{IsClean, IsNew, IsOpen, IsWhole, KeepsCounts};
    ghost use Rattle.register_desk.specs.Desk.{KeepsToSteps, RepeatsWithin, TakesSteps};
    ghost use Rattle.register_desk.specs.Desk.{UnlessChanged, keys_of, latest_of};
    ghost use Rattle.register_desk.specs.Within.{IsOfStore, LooksUp, left_by};
    ghost use Rattle.register_desk.specs.Register.{Sees};
    ghost use Rattle.sql_steps.specs.Steps.{TransactsBy};
    ghost use Rattle.register_core.specs.declared.reply.Reply.{Reply};
    ghost use Rattle.register_core.specs.{KeptReply.kept_with, Verdict.max_keys};

    /// Applies a request: it is accepted, and then acts and is kept, or refused, and then changes
    /// nothing. A request that comes again, whatever its moment, repeats its first reply and
    /// changes nothing. A value that is no line's request, as an occurrence with a reason that is
    /// no compromise, is [`Refusal::BadLine`].
    ///
    /// # Errors
    /// [`End::Store`] where the database refused, which breaks the desk: the register is as before
    /// or has the whole request. [`End::Memory`] where memory gave out outside a transaction;
    /// nothing changed, and the desk goes on. [`End::Broken`] on a broken desk; nothing changed.
    pub fn apply(&mut self, request: &Request) -> Result<Answer, End>
        ensures ends { Ends self.old self.new result }
        ensures clean { IsClean S.Store self.new → IsClean S.Store self.old }
        // Over a history: the answer is the verdict, and the desk stands for what comes of it.
        ensures to { (h : List Request) → AppliesTo S.Store h request.now
            self.old self.new result }
        // Over tables of no history too what they keep under the caller and number decides, or
        // else a judgement by them. An accepted request makes one change of them; nothing else does.
        ensures over { (t : Tables) → AppliesOver S.Store t request.now
            self.old self.new result }
        ensures steps { KeepsToSteps S.Store 51 self.old self.new }
        ensures no_request { is_in_range request.now.command ≡ false → IsWhole self.old
            → result ≡ Ok (Answer.Refused Refusal.BadLine) }
        // The connection is open, so that what stands is seen in full.
        ensures opened { is_in_range request.now.command ≡ true
            → OnOk result (IsOpen S.Store self.new) }
        // A reply that is given again is one of this register's, whatever the tables hold.
        ensures within { IfOk result (RepeatsWithin (latest_of self.old) (keys_of self.old)) }
        // Memory is taken where names are read alone.
        ensures memory { result ≡ Err End.Memory → looks_at_custody request.now.command ≡ true }
        // A repeat and a refusal change nothing, nor does an end other than 31, whatever the tables
        // hold.
        ensures unchanged { UnlessChanged result (ChangesNothing S.Store self.old self.new) }
    {
        if self.is_broken {
            return Err(End::Broken);
        }
        if !request.command.is_in_range() {
            return Ok(Answer::Refused(Refusal::BadLine));
        }
        let answer = self.answer(request);
        self.break_if_refused(&answer);
        answer
    }

    /// Answers a request in its range, and makes the change of one that is accepted. The desk does
    /// not break yet.
    fn answer(&mut self, request: &Request) -> Result<Answer, End>
        requires { IsWhole self.old }
        ensures mark { self.new.is_broken ≡ self.old.is_broken }
        ensures ends { IfErr result IsOfStore }
        ensures clean { IsClean S.Store self.new → IsClean S.Store self.old }
        ensures over { (t : Tables) → AppliesOver S.Store t request.now
            self.old (left_by result self.new) result }
        ensures steps { KeepsToSteps S.Store 51 self.old self.new }
        ensures opened { OnOk result (IsOpen S.Store self.new) }
        ensures within { IfOk result (RepeatsWithin (latest_of self.old) (keys_of self.old)) }
        ensures memory { result ≡ Err End.Memory → looks_at_custody request.now.command ≡ true }
        ensures unchanged { UnlessChanged result (ChangesNothing S.Store self.old self.new) }
    {
        match self.look_up_kept_reply(&request.caller, request.number)? {
            Some(before) => Ok(before.answer_to_repeat(request)),
            None => self.answer_new(request),
        }
    }

    /// Answers a request that does not come again.
    fn answer_new(&mut self, request: &Request) -> Result<Answer, End>
        requires whole { IsWhole self.old }
        requires opened { IsOpen S.Store self.old }
        ensures mark { self.new.is_broken ≡ self.old.is_broken }
        ensures ends { IfErr result IsOfStore }
        ensures clean { IsClean S.Store self.new → IsClean S.Store self.old }
        ensures over { (t : Tables) → (IsClean S.Store self.new → IsNew t request.now)
            → AppliesOver S.Store t request.now self.old (left_by result self.new) result }
        ensures steps { KeepsToSteps S.Store 49 self.old self.new }
        ensures opened { OnOk result (IsOpen S.Store self.new) }
        ensures new { IfOk result (λ given. (first : Reply) → given ≢ Answer.Repeated first) }
        ensures memory { result ≡ Err End.Memory → looks_at_custody request.now.command ≡ true }
        ensures unchanged { UnlessChanged result (ChangesNothing S.Store self.old self.new) }
    {
        let view = self.look_up_needed_view(request)?;
        match decide(&view, request) {
            Err(refusal) => Ok(Answer::Refused(refusal)),
            Ok(accept) => {
                self.commit_accepted(request, &accept)?;
                Ok(Answer::Accepted(accept.reply))
            }
        }
    }

    /// Makes the change of an accepted request, and keeps the request with its reply.
    fn commit_accepted(&mut self, request: &Request, accept: &Accept) -> Result<(), End>
        requires whole { IsWhole self.old }
        requires later { self.old.latest ≤ accept.now.reply.moment }
        requires room { self.old.keys + made_count accept.now.change ≤ max_keys }
        ensures written { let kept = kept_with request.now accept.now.reply in
            TransactsBy (Makes (CanTake self.old.keys self.old.latest kept)
            (with_request self.old.keys accept.now.change kept))
            (seen S.Store self.old.connection) (seen S.Store self.new.connection) result }
        ensures steps { TakesSteps 9 self.old self.new }
        ensures latest { OnOk result (self.new.latest ≡ accept.now.reply.moment) }
        ensures keys { OnOk result
            (self.new.keys ≡ self.old.keys + made_count accept.now.change) }
        ensures mark { self.new.is_broken ≡ self.old.is_broken }
        ensures end { IfErr result (λ end. end ≡ End.Store) }
        ensures err { OnErr result (KeepsCounts self.old self.new) }
    {
        let change = &accept.change;
        let kept = KeptReply::new(request, accept.reply);
        match commit_request(&mut self.connection, self.keys, self.latest, change, &kept) {
            Ok(keys) => {
                self.keys = keys;
                self.latest = kept.reply.moment;
                Ok(())
            }
            Err(_) => Err(End::Store),
        }
    }

    /// What is kept under the caller and the number, if anything is.
    fn look_up_kept_reply(
        &mut self,
        caller: &Name,
        number: RequestNumber,
    ) -> Result<Option<KeptReply>, StoreError>
        requires { IsWhole self.old }
        ensures looks { LooksUp S.Store 2 self.old self.new result }
        ensures no_memory { result ≢ Err StoreError.Memory }
        ensures kept { (t : Tables) → Sees S.Store t self.old → IsClean S.Store self.new
            → IfOk result (HasRequest caller.now number t) }
        ensures within { IfOk result (λ found. IfSome found (λ kept.
            (kept.reply.moment ≤ latest_of self.old) × (kept.reply.key ≤ keys_of self.old))) }
    {
        let found = find_request(&mut self.connection, caller, number)?;
        match found {
            Some(kept) if !kept.reply.is_within_counts(self.latest, self.keys) => {
                Err(StoreError::NoRegister)
            }
            found => Ok(found),
        }
    }
}
