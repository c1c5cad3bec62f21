//! The program: its words, real files and the standard streams under the top call.
//!
//! What the top call does is proved. What stands here is the edge, which is trusted: that the system hands over
//! the words of the command line, and that a read, a write and a print do what they answer.
#![tactic(auto)]

ghost use Rattle.std.specs.Prelude.{◌≡◌};
ghost use Rattle.std.specs.Process.{exit_status};
ghost use Rattle.plc_top.specs.Status.{number};

mod console;
mod disk;
mod reading;

use console::StdConsole;
use disk::DiskFiles;
use plc_top::{Status, iec2c};
use std::process::ExitCode;
use std::{env, io};

/// Ends with the number of a status.
fn end(status: Status) -> ExitCode
    ensures { exit_status result ≡ number status }
{
    ExitCode::from(status.number())
}

fn main(rt: HostRuntime) -> ExitCode {
    // where the words can't be had, the end is all that is told
    let mut words = Vec::new(rt.alloc());
    match env::args(&rt) {
        Ok(args) => {
            for word in args.skip(1) {
                if words.push(word).is_err() {
                    return end(Status::NoMemory);
                }
            }
        }
        Err(error) if error.kind() == io::ErrorKind::OutOfMemory => return end(Status::NoMemory),
        // a word is no text in UTF-8, so the words have no form
        Err(_) => return end(Status::Usage),
    }
    let mut files = DiskFiles::new(&rt);
    let mut console = StdConsole::new(rt.stdout(), rt.stderr());
    end(iec2c(rt.alloc(), &words, &mut files, &mut console))
}
