//! Received bytes, and what messages do.

ghost use Rattle.std.specs.Prelude.{◌≡◌};
ghost use Rattle.machine.specs.Machines.{escape_m, or_done, soft_stop_m, start_m};
ghost use Rattle.machine.specs.Stores.{store_reader};
ghost use Rattle.store.specs.Memories.{Memory};
ghost use Rattle.std.specs.Result.{result_err};

use crate::motion::Motion;
use crate::state::State;
use isa::{Refusal, is_user_place};
use machine::{Answer, Ending, Run};
use port::StepPort;

const LINE_FEED: u8 = 10;

const ESCAPE: u8 = 27;

/// A message that is carried out without an answer of its own is answered with CR LF.
fn or_done(answer: Answer) -> Answer
    ensures { result ≡ or_done answer }
{
    match answer {
        Answer::Silence => Answer::Done,
        other => other,
    }
}

impl<P: StepPort> State<P> {
    /// Starts a run at a place, whatever the store holds: 12, 8.
    pub(crate) fn begin_run(&mut self, place: u16) -> Result<(), Refusal>
        ensures answer { (m : Memory) → result_err result ≡ (start_m (store_reader m) place self.old).reply.refusal }
        ensures after { (m : Memory) → self.new ≡ (start_m (store_reader m) place self.old).state }
    {
        if self.run.is_going() || self.body.is_moving() {
            return Err(Refusal::Busy);
        }
        if !is_user_place(place) {
            return Err(Refusal::Area);
        }
        self.run = Run::start(place);
        Ok(())
    }

    /// ESC: ends motion and run.
    fn escape(&mut self)
        ensures after { self.new ≡ (escape_m self.old).state }
    {
        self.receiver.cut_off();
        self.body.motion = None;
        self.run.end(Ending::Escaped);
    }

    /// `@`: ends a run and slows a motion.
    fn soft_stop(&mut self)
        ensures after { self.new ≡ (soft_stop_m self.old).state }
    {
        self.body.motion = self.body.motion.map(Motion::slow_down);
        self.run.end(Ending::Stopped);
    }
}
