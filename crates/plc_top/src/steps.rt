//! The steps of a command, each a few calls of the outside.
ghost use Rattle.std.specs.Prelude.{◌≡◌, ◌+◌, ◌≤◌, ◌∷◌, [], ◌++◌, ℕ, List, IfOk, IfSome, OnOk, take};
ghost use Rattle.std.specs.List.{All};
ghost use Rattle.std.specs.Option.{IsSomeAnd};
ghost use Rattle.std.specs.FinMap as map;
ghost use Rattle.plc_outside.specs.Outside.{FilesSeen};
ghost use Rattle.plc_outside.specs.Calls.{Fetches, Puts, Says, world};
ghost use Rattle.plc_top.specs.Complaints.{room, HasRoom};
ghost use Rattle.plc_top.specs.Run.{Goes, Makes};
ghost use Rattle.plc_top.specs.Plans.{puts_of, lines_of, most};

use crate::Status;
use crate::complaint::{Complaint, cannot_say, run_out};
use c_tree::text::CText;
use plc_base::{Name, OutOfMemory};
use plc_outside::{Console, FileFault, Files};
use std::alloc::Global;

/// One byte more than a source may have.
const MOST: usize = 4_194_305;

/// Fetches the first bytes of a file.
pub fn fetch_text<F: Files, O: Console>(
    alloc: Global,
    name: &Name,
    complaint: &mut Complaint,
    files: &mut F,
    console: &mut O,
) -> Result<Vec<u8>, Status>
    requires { HasRoom (room complaint.old) name.now }
    ensures run { Goes (Fetches name.now ∷ []) result (world (F.seen files.old) (O.seen console.old)) (world (F.seen files.new) (O.seen console.new)) }
    ensures text { IfOk result (λ text. IfSome (F.seen files.old).files (λ known. IsSomeAnd (map.get known name.now) (λ file. text.items ≡ take most file))) }
    ensures room { OnOk result (complaint.new ≡ complaint.old) }
{
    let mut text = Vec::new(alloc);
    match files.fetch(alloc, name, MOST, &mut text) {
        Ok(_) => Ok(text),
        Err(FileFault::Failed) => {
            complaint.cannot_read(console, name.bytes());
            Err(Status::ReadFault)
        }
        Err(FileFault::OutOfMemory) => Err(run_out(console)),
    }
}

/// Puts each text, in order.
fn put_all<F: Files, O: Console>(
    texts: &[CText],
    complaint: &mut Complaint,
    files: &mut F,
    console: &mut O,
) -> Result<(), Status>
    requires { All (λ text. HasRoom (room complaint.old) text.name) texts.now }
    ensures { Makes (puts_of texts.now) result (world (F.seen files.old) (O.seen console.old)) (world (F.seen files.new) (O.seen console.new)) }
{
    for text in texts {
        match files.put(&text.name, text.bytes.bytes()) {
            Ok(()) => {}
            Err(_) => {
                complaint.cannot_write(console, text.name.bytes());
                return Err(Status::WriteFault);
            }
        }
    }
    Ok(())
}

/// Says these bytes.
fn say_all<O: Console>(bytes: &[u8], console: &mut O) -> Result<(), Status>
    ensures { (files : FilesSeen) → Makes (Says bytes.now ∷ []) result (world files (O.seen console.old)) (world files (O.seen console.new)) }
{
    match console.say(bytes) {
        Ok(()) => Ok(()),
        Err(_) => {
            cannot_say(console);
            Err(Status::WriteFault)
        }
    }
}

/// The names of the texts, one a line.
fn lines_of_names(alloc: Global, texts: &[CText]) -> Result<Vec<u8>, OutOfMemory>
    ensures { IfOk result (λ lines. lines.items ≡ lines_of texts.now) }
{
    let mut lines = Vec::new(alloc);
    for text in texts {
        lines.extend_from_slice(text.name.bytes())?;
        lines.push(b'\n')?;
    }
    Ok(lines)
}

/// Takes room for a line about each text.
fn reserve_lines(texts: &[CText], complaint: &mut Complaint) -> Result<(), OutOfMemory>
    ensures { OnOk result (All (λ text. HasRoom (room complaint.new) text.name) texts.now) }
{
    for text in texts {
        complaint.reserve(text.name.bytes().len())?;
    }
    Ok(())
}

/// Puts all texts and then says their names. What is said and complained has its memory before the first put.
pub fn write_all<F: Files, O: Console>(
    alloc: Global,
    texts: &[CText],
    complaint: &mut Complaint,
    files: &mut F,
    console: &mut O,
) -> Result<(), Status>
    ensures { Goes (puts_of texts.now ++ Says (lines_of texts.now) ∷ []) result (world (F.seen files.old) (O.seen console.old)) (world (F.seen files.new) (O.seen console.new)) }
{
    let lines = match lines_of_names(alloc, texts) {
        Ok(lines) => lines,
        Err(_) => return Err(run_out(console)),
    };
    match reserve_lines(texts, complaint) {
        Ok(()) => {}
        Err(_) => return Err(run_out(console)),
    }
    put_all(texts, complaint, files, console)?;
    say_all(&lines, console)
}
