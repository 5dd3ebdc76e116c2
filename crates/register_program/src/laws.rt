//! Laws about files that were closed, and about runs of the program. A function's contract is the
//! law; it does nothing.
ghost use Rattle.std.specs.Prelude.{◌≡◌, ◌≤◌, List};
ghost use Rattle.sqlite.specs.Recovery.{Image};
ghost use Rattle.register_requests.specs.declared.request.Request.{Request};
ghost use Rattle.register_desk.specs.DatabaseFiles.{HoldsOneOf, HoldsRegister};
ghost use Rattle.register_desk.specs.{Lives.Life, Lives.after, Lives.after_lives};
ghost use Rattle.register_desk.specs.declared.outcome.Finish.{Finish};
ghost use Rattle.register_program.specs.Sentence.{FoundAgain, IsIn, ProgramRun, ServedLife};
ghost use Rattle.register_program.specs.{Sentence.WasAnswered, Traffic.Traffic};
ghost use Rattle.register_program.specs.FileCalls.{OpensFile};
ghost use Rattle.machine_traits.specs.Closing.{LeftIn, alone};
ghost use Rattle.register_program.specs.{Life.LeavesInFiles, Opening.FindsHistory};

use machine_traits::{Closed, Files, LogCopy};

/// Where the log was copied, what is said of files that were closed is said of the two files, and
/// of the database file alone.
pub fn database_file_holds_alone<F: Files>(closed: &Closed<F::Opened>)
    requires { closed.now.log ≡ LogCopy.Copied }
    ensures { (h : List Request) (other : List Request) →
        LeavesInFiles h other (LeftIn F.Opened.Store F.may_leave closed.now) → (whole : Image) →
        F.may_leave closed.now.store whole →
        HoldsOneOf h other whole × HoldsOneOf h other (alone whole) }
{}

/// An opening of what runs left that are found again, as [`open_file`](crate::open_file) does it,
/// stands where it succeeds for what they come to, and blames no table where it does not.
pub fn openings_find_lives<F: Files>()
    ensures { (h : List Request) (runs : List ProgramRun) (left : Image) →
        (again : FoundAgain h runs left) → (result : _) →
        OpensFile F.Opened.Store F.may_leave F.may_leave_failed left result →
        HoldsRegister (after_lives h again.lives) left →
        FindsHistory F.Opened.Store (after_lives h again.lives) result }
{}

/// Whoever was sent the whole reply to a request that the register accepted finds the request in the
/// register after the life that served it, though that was stopped.
pub fn answered_requests_stand()
    ensures { (h : List Request) (traffic : Traffic) (end : Finish) (life : Life) →
        (served : ServedLife h traffic end life) → life.replies ≤ life.applied → (q : Request) →
        WasAnswered h served.clients life.items q → IsIn q (after h life) }
{}
