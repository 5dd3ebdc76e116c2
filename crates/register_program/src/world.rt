//! The program, run again and again over the register in one file, as whoever is outside asks for it.
ghost use Rattle.std.specs.Prelude.{◌≡◌, ◌++◌, ℕ, List, [], ◌∷◌, None, false, IfSome};
ghost use Rattle.sqlite.specs.Recovery.{Image};
ghost use Rattle.register_program.specs.Sentence.{Begun, FindsAgain, LeftBy, ProgramRun, RunsAsOften};
ghost use Rattle.register_program.specs.Sentence.{RunsUnlessIdle, StayFoundAgain, begun_by, outcome_of};
ghost use Rattle.register_program.specs.Sentence.{run_of};

use crate::acting::{Asked, Ran, run_asked};
use machine_traits::{Files, Network};
use std::alloc::Global;
use std::io::{Read, Write};
use std::time::Clock;

/// What is outside the program: whoever asks for its runs, and the disk. Its clauses are what the
/// sentence presumes of these.
pub trait World {
    type Files: Files + Drop;

    type Network: Network + Clock + Drop;

    type Reader: Read + Drop;

    type Writer: Write + Drop;

    type Faults: Write + Drop;

    /// What the file of each path and its log hold.
    ghost now: { Self → List ℕ → Image };

    /// The runs that were.
    ghost runs: { Self → List ProgramRun };

    /// What the run begins with that was asked for last.
    ghost begun: { Self → Begun };

    /// Up to now each disk gave back what was written to it, and nobody but the program wrote to
    /// these files.
    ghost is_honest: { Self → Type 0 };

    /// Nobody asks for a run any more.
    ghost is_idle: { Self → Type 0 };

    /// The next run over the file at this path that somebody asks for, if anybody does. It is given
    /// files that hold what these do.
    fn ask(
        &mut self,
        path: &str,
    ) -> Option<Asked<Self::Files, Self::Network, Self::Reader, Self::Writer, Self::Faults>>
        ensures honest { is_honest self.new → is_honest self.old }
        ensures now { is_honest self.new → now self.new path.now ≡ now self.old path.now }
        ensures runs { is_honest self.new → runs self.new ≡ runs self.old }
        ensures idle { result ≡ None → is_idle self.new }
        ensures sound { IfSome result (λ it. it.outputs.writer.failed ≡ false) }
        ensures files { is_honest self.new → IfSome result (λ it.
            Self.Files.start it.files path.now ≡ now self.new path.now) }
        ensures begins { is_honest self.new → IfSome result (λ it. begun self.new
            ≡ begun_by Self.Reader.remaining Self.Writer.contents Self.Network.visits it) };

    /// Takes back what the run left. On an honest disk the file then holds something that the run
    /// may have left, at its end or at a stop.
    fn take_back(
        &mut self,
        path: &str,
        ran: Ran<
            <Self::Files as Files>::Opened,
            <Self::Files as Files>::Failed,
            Self::Network,
            Self::Reader,
            Self::Writer,
            Self::Faults,
        >,
    )
        ensures honest { is_honest self.new → is_honest self.old }
        ensures left { is_honest self.new → LeftBy Self.Files.Opened.Store Self.Files.may_leave
            Self.Files.may_leave_failed ran.acted.done (now self.new path.now) }
        ensures runs { is_honest self.new → runs self.new ≡ runs self.old ++ run_of
            Self.Writer.contents Self.Network.visits (begun self.old) (now self.old path.now) ran
            (now self.new path.now) ∷ [] };
}

/// Runs the program once over the file at this path, if somebody asks for it. Gives whether a run
/// was.
pub fn run_next<W: World>(alloc: Global, world: &mut W, path: &str) -> bool
    ensures honest { W.is_honest world.new → W.is_honest world.old }
    ensures found { W.is_honest world.new → StayFoundAgain (W.runs world.old)
        (W.now world.old path.now) (W.runs world.new) (W.now world.new path.now) }
    ensures ran { RunsUnlessIdle result (W.is_honest world.new) (W.is_idle world.new)
        (W.runs world.old) (W.runs world.new) }
{
    let Some(asked) = world.ask(path) else {
        return false;
    };
    let ran = run_asked(alloc, path, asked);
    world.take_back(path, ran);
    true
}

/// Runs the program over the file at this path as often as the world asks for it, up to so many
/// times. On an honest disk, from nothing or a register that the file held, what it holds then is
/// exactly the register of lives that the runs were.
pub fn run_again_and_again<W: World>(alloc: Global, world: &mut W, path: &str, most: u64)
    ensures found { W.is_honest world.new → FindsAgain (W.runs world.old)
        (W.now world.old path.now) (W.runs world.new) (W.now world.new path.now) }
    ensures ran { RunsAsOften most (W.is_honest world.new) (W.is_idle world.new)
        (W.runs world.old) (W.runs world.new) }
{
    'runs: for _ in 0..most {
        if !run_next(alloc, world, path) {
            return;
        }
    }
}
