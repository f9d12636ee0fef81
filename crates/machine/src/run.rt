//! A run: where it stands, what it counts, how it ended.

ghost use Rattle.std.specs.Prelude.{◌≡◌};
ghost use Rattle.machine.specs.declared.run.Fault.TheVariants.{Own, Store as Stored};
ghost use Rattle.machine.specs.States.{started_run, is_going, ended_run};

use isa::Refusal;
use store::StoreFault;

/// Why an instruction could not be read or carried out: a refusal of the run's own, or the store's with its page.
#[derive(Clone, Copy, Debug, PartialEq, Eq)]
pub enum Fault {
    Own(Refusal),
    Store(StoreFault),
}

impl From<StoreFault> for Fault {
    ghost from_gives = { λ a b. b ≡ Stored a };

    fn from(fault: StoreFault) -> Fault {
        Fault::Store(fault)
    }
}

impl From<Refusal> for Fault {
    ghost from_gives = { λ a b. b ≡ Own a };

    fn from(refusal: Refusal) -> Fault {
        Fault::Own(refusal)
    }
}

/// How the latest run ended.
#[derive(Clone, Copy, Debug, PartialEq, Eq)]
pub enum Ending<T> {
    /// There was no run yet.
    Never,
    Running,
    AtMark,
    Escaped,
    /// By the soft stop.
    Stopped,
    Failed(Fault, T),
}

/// A run; its points are places for an axis.
#[derive(Clone, Copy, Debug, PartialEq, Eq)]
pub struct Run<T> {
    /// Where the next instruction stands.
    pub next: T,
    /// The one jump counter, unless it is empty.
    pub counter: Option<u8>,
    /// The ticks that a wait still takes.
    pub wait: Option<u32>,
    pub ending: Ending<T>,
}

impl<T: Copy> Run<T> {
    /// A run that has just been started at a point.
    pub fn start(at: T) -> Run<T>
        ensures { result ≡ started_run at }
    {
        Run {
            next: at,
            counter: None,
            wait: None,
            ending: Ending::Running,
        }
    }

    pub fn is_going(&self) -> bool
        ensures { result ≡ is_going self.now.ending }
    {
        matches!(self.ending, Ending::Running)
    }

    /// Ends a run that is going; no other ending changes.
    pub fn end(&mut self, ending: Ending<T>)
        ensures { self.new ≡ ended_run ending self.old }
    {
        if self.is_going() {
            self.ending = ending;
        }
    }
}

/// Where a run goes after an instruction.
#[derive(Clone, Copy, Debug, PartialEq, Eq)]
pub enum Course {
    /// To the instruction after it.
    Onward,
    /// Nowhere: it is retried, or waits.
    Stays,
    /// To its target.
    Jumps,
}
