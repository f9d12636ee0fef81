//! Runs: their instructions and their end.

ghost use Rattle.std.specs.Prelude.{◌≡◌, true, Some, Ok, if◌then◌else◌};
ghost use Rattle.isa.specs.Codes.{in_range};
ghost use Rattle.machine.specs.Machines.{instruction_m, run_m, tick_m};
ghost use Rattle.machine.specs.Stores.{store_reader};
ghost use Rattle.axis.specs.Models.{effect_on, with_effect};

use crate::state::State;
use fetch::{Reading, fetch};
use isa::{Action, Instruction};
use machine::{Answer, Course, Ending, Fault};
use port::StepPort;
use store::Store;

/// Ticks in a hundredth of a second.
const TICKS: u32 = 250;

fn jumps_if(met: bool) -> Course
    ensures { result ≡ (if met then Course.Jumps else Course.Onward) }
{
    if met { Course::Jumps } else { Course::Onward }
}

impl<P: StepPort> State<P> {
    /// Carries an instruction out; where the run goes on is the caller's.
    fn carry_out(&mut self, instruction: Instruction<u16>, input: u8) -> (Course, Answer)
        requires { in_range instruction ≡ true }
        ensures course { result.0 ≡ (effect_on input self.old instruction).course }
        ensures answer { result.1 ≡ (effect_on input self.old instruction).answer }
        ensures after { self.new ≡ with_effect (effect_on input self.old instruction) self.old }
    {
        let waiting = self.run.wait.take();
        match instruction {
            Instruction::Go(_) => (Course::Jumps, Answer::Silence),
            Instruction::Jump { times, .. } => {
                // Empty, the counter is set; else it falls by one, and at 0 it is emptied.
                self.run.counter = match self.run.counter {
                    None => Some(times),
                    Some(left) => left.checked_sub(1),
                };
                (jumps_if(self.run.counter.is_some()), Answer::Silence)
            }
            Instruction::JumpLow { port, .. } => (
                jumps_if(self.body.reads_low(port, input)),
                Answer::Silence,
            ),
            Instruction::Act(Action::Wait(hundredths)) => {
                // A wait begins once nothing moves.
                let left = match waiting {
                    Some(left) => left.saturating_sub(1),
                    None if self.body.is_moving() => return (Course::Stays, Answer::Silence),
                    None => TICKS * u32::from(hundredths),
                };
                if left == 0 {
                    return (Course::Onward, Answer::Silence);
                }
                self.run.wait = Some(left);
                (Course::Stays, Answer::Silence)
            }
            Instruction::Act(action) => {
                let Ok(answer) = self.body.carry_out(action) else {
                    return (Course::Stays, Answer::Silence);
                };
                (Course::Onward, answer)
            }
        }
    }

    /// Carries out what was read, and goes on where it leads.
    fn perform(&mut self, reading: Reading, input: u8) -> Answer
        ensures answer { result ≡ (instruction_m input self.old (Ok (Some reading))).reply.answer }
        ensures after { self.new ≡ (instruction_m input self.old (Ok (Some reading))).state }
    {
        let Reading { instruction, after } = reading;
        let (course, answer) = self.carry_out(instruction, input);
        match course {
            Course::Onward => self.run.next = after,
            Course::Stays => {}
            Course::Jumps => self.run.next = instruction.target().unwrap_or(after),
        }
        answer
    }

    /// The instruction part of a tick.
    fn advance_run<S: Store>(&mut self, store: &S, input: u8) -> Answer
        ensures answer { result ≡ (run_m (store_reader (S.memory store.now)) input self.old).reply.answer }
        ensures after { self.new ≡ (run_m (store_reader (S.memory store.now)) input self.old).state }
    {
        if !self.run.is_going() {
            return Answer::Silence;
        }
        match fetch(store, self.run.next) {
            Ok(Some(reading)) => return self.perform(reading, input),
            Ok(None) => self.run.ending = Ending::AtMark,
            Err(fault) => self.run.ending = Ending::Failed(fault, self.run.next),
        }
        Answer::Silence
    }

    /// A tick: first the motion, then, if a run is going, one instruction.
    pub(crate) fn clock<S: Store>(&mut self, store: &S, input: u8) -> Answer
        ensures answer { result ≡ (tick_m (store_reader (S.memory store.now)) input self.old).reply.answer }
        ensures after { self.new ≡ (tick_m (store_reader (S.memory store.now)) input self.old).state }
    {
        if let Err(refusal) = self.body.advance(&mut self.port, input) {
            let here = self.run.next;
            self.run.end(Ending::Failed(Fault::Own(refusal), here));
        }
        self.advance_run(store, input)
    }
}
