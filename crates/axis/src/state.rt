//! What an axis is, apart from its store.

use crate::body::Body;
use machine::Run;
use port::StepPort;
use protocol::Receiver;
use std::marker::Model;

/// The state of an axis, its port in it by value.
#[derive(Drop)]
pub struct State<P: StepPort> {
    pub(crate) port: P,
    pub(crate) body: Body,
    pub(crate) receiver: Receiver,
    pub(crate) run: Run<u16>,
}

impl<P: StepPort> Model for State<P> {
    ghost use Rattle.std.specs.Prelude.{ℕ};
    ghost use Rattle.machine.specs.States.{State as Whole};

    ghost Value = { Whole ℕ };

    ghost view = { λ s. record { body = s.body; port = P.meaning s.port; receiver = s.receiver; run = s.run } };
}
