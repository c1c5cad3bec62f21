//! The standard streams as a console. It is trusted that they take what they say they took.
ghost use Rattle.std.specs.Prelude.{◌≡◌, OnOk};
ghost use Rattle.std.specs.Io.KnownBytes.{Appends};

use plc_outside::{Console, ConsoleFault};
use std::io::Write;

/// Says to one stream and complains to the other, and counts what fails. What the streams took is not told.
#[derive(Drop)]
pub struct StdConsole<W: Write + Drop, E: Write + Drop> {
    out: W,
    err: E,
    say_faults: u64,
    complain_faults: u64,
}

impl<W: Write + Drop, E: Write + Drop> StdConsole<W, E> {
    /// A console over these streams, with no fault counted.
    pub fn new(out: W, err: E) -> Self
        ensures says { result.say_faults ≡ 0 }
        ensures complaints { result.complain_faults ≡ 0 }
        ensures out { result.out ≡ out }
        ensures err { result.err ≡ err }
    {
        StdConsole {
            out,
            err,
            say_faults: 0,
            complain_faults: 0,
        }
    }
}

/// Writes all bytes, past any buffer.
fn write<W: Write>(stream: &mut W, bytes: &[u8]) -> Result<(), ConsoleFault>
    ensures { OnOk result (Appends (W.contents stream.old) (W.contents stream.new) bytes.now) }
{
    match stream.write_all(bytes) {
        Ok(()) => match stream.flush() {
            Ok(()) => Ok(()),
            Err(_) => Err(ConsoleFault::Failed),
        },
        Err(_) => Err(ConsoleFault::Failed),
    }
}

impl<W: Write + Drop, E: Write + Drop> Console for StdConsole<W, E> {
    ghost use Rattle.plc_outside.specs.Outside.{MeansSay, MeansComplain};
    ghost use Rattle.iec2c.specs.Console.{counts_alone};

    ghost seen = { λ c. counts_alone c.say_faults c.complain_faults };

    fn say(&mut self, bytes: &[u8]) -> Result<(), ConsoleFault>
        ensures means { MeansSay bytes.now result (counts_alone self.old.say_faults self.old.complain_faults) (counts_alone self.new.say_faults self.new.complain_faults) }
        ensures written { OnOk result (Appends (W.contents self.old.out) (W.contents self.new.out) bytes.now) }
    {
        let result = write(&mut self.out, bytes);
        if result.is_err() {
            self.say_faults = self.say_faults.saturating_add(1);
        }
        result
    }

    fn complain(&mut self, bytes: &[u8]) -> Result<(), ConsoleFault>
        ensures means { MeansComplain bytes.now result (counts_alone self.old.say_faults self.old.complain_faults) (counts_alone self.new.say_faults self.new.complain_faults) }
        ensures written { OnOk result (Appends (E.contents self.old.err) (E.contents self.new.err) bytes.now) }
    {
        let result = write(&mut self.err, bytes);
        if result.is_err() {
            self.complain_faults = self.complain_faults.saturating_add(1);
        }
        result
    }
}
