//! The parts of an axis: its motion, its instructions, its runs and its messages. Nothing here can be called from outside
//! yet.

#![tactic(auto)]

mod advance;
mod axis;
mod body;
mod hear;
mod motion;
mod run;
mod settings;
mod state;
