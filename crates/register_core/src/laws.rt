//! Laws about this crate's definitions. Each function does nothing: its contract is the law.
ghost use Rattle.std.specs.Prelude.{◌≡◌, ◌<◌, ◌≤◌, ◌++◌, ℕ, List, [], ◌∷◌, length, true, false};
ghost use Rattle.std.specs.Prelude.{Option, None, Some, is_some, IsSome, IsTrue, IfSome};
ghost use Rattle.std.specs.Prelude.{IsPermutation, IsSorted};
ghost use Rattle.std.specs.{Cmp.Lexicographic.slice_cmp, List.AllByRecursion, Ordering.nat_cmp};
ghost use Rattle.lifecycle_core.specs.{State.state_at, Transition.HasPath};
ghost use Rattle.period_core.specs.Fitting.{Fits, is_either_use_too_long, is_not_after};
ghost use Rattle.period_core.specs.Period.{periods};
ghost use Rattle.register_requests.specs.declared.request.Command.{Command};
ghost use Rattle.register_requests.specs.Request.{IsCommand, IsDate, IsLineOf, IsRequest};
ghost use Rattle.register_requests.specs.Request.{command_text};
ghost use Rattle.register_requests.specs.declared.version.Version.{Version};
ghost use Rattle.register_requests.specs.declared.version.Version.TheVariants.{First};
ghost use Rattle.register_requests.specs.Version.{custodians_of, knows};
ghost use Rattle.register_requests.specs.CommandText.{IsCommandText, max_command_length};
ghost use Rattle.register_requests.specs.{declared.request.Request.Request, Name.is_among};
ghost use Rattle.register_core.specs.declared.reply.Refusal.TheVariants.{RequestReused};
ghost use Rattle.register_core.specs.Fold.{IsLawful, IsLawfulIn, answers, answers_in, history};
ghost use Rattle.register_core.specs.Fold.{history_in, items};
ghost use Rattle.register_core.specs.History.{latest, count, type, dates, dated_by, owner, period};
ghost use Rattle.register_core.specs.History.{set_period};
ghost use Rattle.register_core.specs.Laws.{IsAccepted, HasKey, MovesOnly, AreDifferent, IsKeptIn};
ghost use Rattle.register_core.specs.Laws.{WasDestroyed, sent_under, state_of_key};
ghost use Rattle.register_core.specs.Custody.{custodians, approvals};
ghost use Rattle.register_core.specs.Verdict.{max_keys, verdict, Repeats, Refuses, is_same_command};
ghost use Rattle.register_core.specs.Settings.{all_needs, all_periods};
ghost use Rattle.register_core.specs.{KeptReply.kept, KeptReply.reply, Names.sorted_names};

/// No bytes are the line of two requests.
pub fn lines_are_of_one_request()
    ensures { (line : List ℕ) (p q : Request) → IsLineOf line p → IsLineOf line q → p ≡ q }
{}

/// No bytes are the text of two commands.
pub fn texts_are_of_one_command()
    ensures { (bytes : List ℕ) (c d : Command) →
        IsCommandText bytes c → IsCommandText bytes d → c ≡ d }
{}

/// The text of a command in its range has at most 336 bytes.
pub fn command_texts_are_short()
    ensures { (c : Command) → IsCommand c → length (command_text c) ≤ max_command_length }
{}

/// Names in order are those that were given, each as often as it was, in order of their bytes.
pub fn sorted_names_are_ordered_permutation()
    ensures same { (names : List (List ℕ)) → IsPermutation names (sorted_names names) }
    ensures order { (names : List (List ℕ)) → IsSorted (slice_cmp nat_cmp) (sorted_names names) }
{}

/// Of a lawful history's requests, no two have the same caller and number.
pub fn requests_act_once()
    ensures { (h : List Request) → IsLawful h → (caller : List ℕ) (number : ℕ) →
        length (sent_under caller number h) ≤ 1 }
{}

/// An accepted request that comes again, whatever its moment and whatever came since, repeats its
/// first reply; with another command its number is reused.
pub fn repeats_give_the_first_reply()
    ensures repeats { (h : List Request) (q : Request) → IsAccepted h q →
        (later : List (Option Request)) (t : ℕ) →
        verdict (history (h ++ q ∷ []) later) (record q { moment = t }) ≡ Repeats (reply h q) }
    ensures reuses { (h : List Request) (q : Request) → IsAccepted h q →
        (later : List (Option Request)) (t : ℕ) (c : Command) →
        is_same_command q.command c ≡ false →
        verdict (history (h ++ q ∷ []) later) (record q { moment = t; command = c })
        ≡ Refuses RequestReused }
{}

/// What is kept of a lawful history's requests is in its ranges: each reply is to its command, of a
/// key that is there and no later than the latest moment.
pub fn kept_replies_fit_their_history()
    ensures { (h : List Request) → IsLawful h → AllByRecursion (IsKeptIn h) (kept h) }
{}

/// The dates of each key fit the period that they were held to when a command gave it dates last,
/// after each request that is accepted.
pub fn dates_fit_their_period()
    ensures { (h : List Request) (q : Request) → IsAccepted h q → (k : ℕ) → HasKey (h ++ q ∷ []) k →
        Fits (dated_by (h ++ q ∷ []) k) (dates (h ++ q ∷ []) k) }
{}

/// Where the office set no period of a key's type, the key is not used for longer than the period
/// allows.
pub fn no_key_is_long_without_office_period()
    ensures { (h : List Request) → IsLawful h → (k : ℕ) → HasKey h k
        → set_period h (type h k) ≡ None
        → is_either_use_too_long (period h (type h k)) (dates h k) ≡ false }
{}

/// A Protect Stop Date of a key is a moment.
pub fn protect_stop_is_a_moment()
    ensures { (h : List Request) → IsLawful h → (k : ℕ) → IsDate (dates h k).protect_stop }
{}

/// Each request that is accepted takes each key along the standard's transitions, from the state
/// that it had at the latest moment, or from none.
pub fn states_follow_transitions()
    ensures { (h : List Request) (q : Request) → IsAccepted h q → (k : ℕ) → HasKey (h ++ q ∷ []) k →
        HasPath (state_of_key h k) (Some (state_at (dates (h ++ q ∷ []) k) q.moment)) }
{}

/// Of the dates of a key, a request that is accepted moves those only that may still move.
pub fn dates_freeze()
    ensures { (h : List Request) (q : Request) → IsAccepted h q → (k : ℕ) → HasKey h k →
        MovesOnly (dates h k) q.moment (dates (h ++ q ∷ []) k) }
{}

/// A key that is destroyed has the approvals of two at least, and these stay.
pub fn destroyed_keys_have_two_approvals()
    ensures enough { (h : List Request) (q : Request) → IsAccepted h q →
        (k : ℕ) → HasKey (h ++ q ∷ []) k → IsSome (dates (h ++ q ∷ []) k).destroy →
        2 ≤ length (approvals (h ++ q ∷ []) k) }
    ensures stay { (h : List Request) (q : Request) → IsAccepted h q → (k : ℕ) → HasKey h k →
        IsSome (dates h k).destroy → approvals (h ++ q ∷ []) k ≡ approvals h k }
{}

/// A key that is destroyed was so by a request behind as many approvals as the key then needed, none
/// of them its owner's, and they stay.
pub fn destroyed_keys_had_approvals_needed()
    ensures { (h : List Request) → IsLawful h → (k : ℕ) → HasKey h k →
        IsSome (dates h k).destroy → WasDestroyed h k }
{}

/// A key that is not made yet has no custodian, and nobody approves of its destruction.
pub fn unmade_keys_have_no_custody()
    ensures { (h : List Request) → IsLawful h → (k : ℕ) → count h < k →
        (custodians h k ≡ []) × (approvals h k ≡ []) }
{}

/// No name is the custodian of a key twice, or approves twice of its destruction.
pub fn no_name_is_twice_at_a_key()
    ensures { (h : List Request) (k : ℕ) →
        AreDifferent (custodians h k) × AreDifferent (approvals h k) }
{}

/// Who approves of a key's destruction is one of its custodians.
pub fn approvers_are_custodians()
    ensures { (h : List Request) → IsLawful h → (k : ℕ) (name : List ℕ) →
        is_among name (approvals h k) ≡ true → is_among name (custodians h k) ≡ true }
{}

/// A key has no more custodians than it may have in its version.
pub fn custodians_are_within_limit()
    ensures { (version : Version) (h : List Request) → IsLawfulIn version h → (k : ℕ) →
        length (custodians h k) ≤ custodians_of version }
{}

/// No more approve of a key's destruction than it may have custodians.
pub fn approvals_are_within_limit()
    ensures { (version : Version) (h : List Request) → IsLawfulIn version h → (k : ℕ) →
        length (approvals h k) ≤ custodians_of version }
{}

/// No custodian of a key is its owner.
pub fn custodians_are_not_owners()
    ensures { (h : List Request) → IsLawful h → (k : ℕ) →
        is_among (owner h k) (custodians h k) ≡ false }
{}

/// There are no more keys than the register takes.
pub fn keys_are_limited()
    ensures { (h : List Request) → IsLawful h → count h ≤ max_keys }
{}

/// What was done to a key was done at the latest moment or before.
pub fn done_dates_are_not_after_latest()
    ensures initial { (h : List Request) → IsLawful h → (k : ℕ) → HasKey h k →
        (dates h k).initial ≤ latest h }
    ensures destroy { (h : List Request) → IsLawful h → (k : ℕ) → HasKey h k →
        IsTrue (is_not_after (dates h k).destroy (Some (latest h))) }
    ensures compromise { (h : List Request) → IsLawful h → (k : ℕ) → HasKey h k →
        IsTrue (is_not_after (dates h k).compromise (Some (latest h))) }
{}

/// A key with an Activation Date has a Protect Stop and a Deactivation Date.
pub fn activation_comes_with_stop_and_deactivation()
    ensures protect_stop { (h : List Request) → IsLawful h → (k : ℕ) → HasKey h k →
        IsSome (dates h k).activation → IsSome (dates h k).protect_stop }
    ensures deactivation { (h : List Request) → IsLawful h → (k : ℕ) → HasKey h k →
        IsSome (dates h k).activation → IsSome (dates h k).deactivation }
{}

/// The occurrence of a compromise is set exactly where the compromise is, and is no later.
pub fn occurrence_is_with_compromise()
    ensures set { (h : List Request) → IsLawful h → (k : ℕ) → HasKey h k →
        is_some (dates h k).compromise_occurrence ≡ is_some (dates h k).compromise }
    ensures no_later { (h : List Request) → IsLawful h → (k : ℕ) → HasKey h k →
        IsTrue (is_not_after (dates h k).compromise_occurrence (dates h k).compromise) }
{}

/// What is lawful in a version is lawful in this program's, and its requests are answered alike.
pub fn older_histories_are_lawful_now()
    ensures lawful { (version : Version) (h : List Request) → IsLawfulIn version h → IsLawful h }
    ensures answers { (version : Version) (h : List Request) → IsLawfulIn version h →
        answers [] (items h) ≡ answers_in version [] (items h) }
{}

/// Items that were answered in a version, and then others in this program's, come to a lawful
/// history.
pub fn histories_across_versions_are_lawful()
    ensures { (version : Version) (old new : List (Option Request)) →
        AllByRecursion (λ item. IfSome item IsRequest) old →
        AllByRecursion (λ item. IfSome item IsRequest) new →
        IsLawful (history (history_in version [] old) new) }
{}

/// A version knows the commands of its lawful histories.
pub fn versions_know_their_commands()
    ensures { (version : Version) (h : List Request) → IsLawfulIn version h →
        AllByRecursion (λ q. knows version q.command ≡ true) h }
{}

/// In the first version no period and no need is set.
pub fn nothing_is_set_in_the_first_version()
    ensures periods { (h : List Request) → IsLawfulIn First h → all_periods h ≡ [] }
    ensures needs { (h : List Request) → IsLawfulIn First h → all_needs h ≡ [] }
{}

/// In the first version the dates of each key fit the period that its type has at first.
pub fn dates_fit_in_the_first_version()
    ensures { (h : List Request) → IsLawfulIn First h → (k : ℕ) → HasKey h k →
        Fits (periods (type h k)) (dates h k) }
{}
