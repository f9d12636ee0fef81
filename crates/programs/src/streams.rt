//! The standard input, output and error of a program.

ghost use Rattle.std.specs.Prelude.{◌≡◌, ◌++◌, OnOk, IfOk, IfSome, take, codes};
ghost use Rattle.std.specs.Io.KnownBytes.{Appends};

use std::error::Error;
use std::io::{Read, Write};

/// A program by its name, the runtime through which it speaks on standard error, and its standard output.
#[derive(Drop)]
pub struct Program<'a, R, W> {
    pub name: &'static str,
    pub rt: &'a R,
    pub out: W,
}

impl<R: Eprint + AllocGlobal, W: Write> Program<'_, R, W> {
    /// The bytes that the input has left, and no more of them than `limit`. Why it cannot be read is told on standard
    /// error, and answered as `unreadable`.
    pub fn read<I: Read + Drop, F: Error>(
        &mut self,
        input: I,
        limit: u64,
        unreadable: F,
    ) -> anyhow::Result<Vec<u8>>
        ensures { IfOk result (λ bytes. IfSome (I.remaining input) (λ left. bytes.items ≡ take limit left)) }
    {
        let mut bytes = Vec::new(self.rt.alloc());
        if let Err(error) = input.take(limit).read_to_end(&mut bytes) {
            eprintln!(self.rt; "{}: standard input cannot be read: {error}", self.name)?;
            return Err(self.answer(unreadable)?);
        }
        Ok(bytes)
    }

    /// Writes bytes to the output. Why that failed is told on standard error.
    pub fn write(&mut self, bytes: &[u8]) -> anyhow::Result<()>
        ensures { OnOk result (Appends (W.contents self.old.out) (W.contents self.new.out) bytes.now) }
    {
        if let Err(error) = self.out.write_all(bytes) {
            eprintln!(self.rt; "{}: standard output cannot be written: {error}", self.name)?;
            return Err(error.into());
        }
        Ok(())
    }

    /// Answers a refusal by its line on the output, and hands it on as the error with which the program ends.
    pub fn answer<F: Error>(&mut self, fault: F) -> anyhow::Result<anyhow::Error>
        ensures { OnOk result (IfSome (F.output fault)
            (λ line. Appends (W.contents self.old.out) (W.contents self.new.out) (line ++ codes "\n"))) }
    {
        let line = format!(in self.rt.alloc(); "{fault}\n")?;
        self.write(line.as_bytes())?;
        Ok(fault.into())
    }
}
