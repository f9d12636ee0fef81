//! What an axis has heard since the last line feed.

ghost use Rattle.std.specs.Prelude.{◌≡◌, IfOk, IfSome};
ghost use Rattle.machine.specs.Receivers.{deaf, awaiting, echoed, hears_plain};
ghost use Rattle.machine.specs.Messages.{message_in};
ghost use Rattle.protocol.specs.Fits.{Fits};

use crate::gathered::Gathered;
use crate::reading::read_message;
use isa::Refusal;
use machine::{Answer, Message};
use std::marker::Model;
use std::mem;

#[derive(Clone, Copy, Debug, Default)]
enum Heard {
    /// No line feed yet, or a message to another, or one that was cut off.
    #[default]
    Deaf,
    /// A line feed: the next byte is the name.
    Awaiting,
    /// The bytes of a message to this axis.
    Gathering(Gathered),
    /// More of them than a message has.
    Overlong,
}

/// What an axis has heard since the last line feed.
#[derive(Clone, Copy, Debug, Default)]
pub struct Receiver {
    heard: Heard,
}

impl Model for Receiver {
    ghost use Rattle.machine.specs.Receivers.{Receiver as State};
    ghost use Rattle.protocol.specs.Heard.{heard_of, heard_from, heard_again};

    ghost Value = { State };

    ghost view = { λ r. heard_of r.heard };

    ghost inverse = { λ s. record { heard = heard_from s } };

    ghost inverse_ok = { λ r h i. record { heard = heard_again r.heard i } };
}

impl Receiver {
    /// No line feed has come yet.
    pub fn new() -> Receiver
        ensures { result ≡ deaf }
    {
        Receiver::default()
    }

    /// A byte that is neither LF nor ESC. Answers the echo: the name and the bytes of a message are sent back.
    pub fn hear(&mut self, name: u8, byte: u8) -> Answer
        ensures echo { result ≡ echoed name byte self.old }
        ensures after { self.new ≡ hears_plain name byte self.old }
    {
        let (heard, answer) = match mem::take(&mut self.heard) {
            Heard::Awaiting if byte == name => (
                Heard::Gathering(Gathered::new()),
                Answer::Echo(byte),
            ),
            Heard::Gathering(line) => match line.with(byte) {
                Some(line) => (Heard::Gathering(line), Answer::Echo(byte)),
                None => (Heard::Overlong, Answer::Silence),
            },
            Heard::Overlong => (Heard::Overlong, Answer::Silence),
            Heard::Deaf | Heard::Awaiting => (Heard::Deaf, Answer::Silence),
        };
        self.heard = heard;
        answer
    }

    /// ESC: what follows up to the next line feed is ignored.
    pub fn cut_off(&mut self)
        ensures { self.new ≡ deaf }
    {
        self.heard = Heard::Deaf;
    }

    /// A line feed: the message that it ends, if there is one.
    pub fn end_line(&mut self) -> Option<Result<Message, Refusal>>
        ensures message { result ≡ message_in self.old }
        ensures after { self.new ≡ awaiting }
        ensures fits { IfSome result (λ read. IfOk read Fits) }
    {
        match mem::replace(&mut self.heard, Heard::Awaiting) {
            Heard::Deaf | Heard::Awaiting => None,
            Heard::Gathering(line) => Some(read_message(line.as_slice())),
            Heard::Overlong => Some(Err(Refusal::Long)),
        }
    }
}
