//! The commands, and the top call.
ghost use Rattle.std.specs.Prelude.{◌≡◌, ◌⊎◌, ◌↔◌, None, IfSome, map, string_bytes};
ghost use Rattle.plc_outside.specs.Outside.{Rose};
ghost use Rattle.plc_outside.specs.Calls.{Call, world};
ghost use Rattle.plc_top.specs.Complaints.{room, HasRoom};
ghost use Rattle.plc_top.specs.Headline.{Decides, LeavesRefused, LeavesWritten, LeavesHalf, IsComplete, Tells, EndsByFault, EndsByWant, Account};
ghost use Rattle.plc_top.specs.Lines.{usage_line, read_line, no_memory_line};
ghost use Rattle.plc_top.specs.Run.{fault_status};
ghost use Rattle.plc_top.specs.Plans.{IsFetchedPlan, IsCompilePlan, IsPlan, Performs};
ghost use Rattle.plc_top.specs.Words.{form};

use crate::Status;
use crate::complaint::{Complaint, run_out, tell_usage};
use crate::pass::compile_source;
use crate::steps::{fetch_text, write_all};
use crate::words::file_of;
use plc_base::{Name, Stop};
use plc_outside::{Console, Files};
use std::alloc::Global;

/// Compiles a source that was fetched, and writes its files.
fn compile_text<F: Files, O: Console>(
    alloc: Global,
    name: &Name,
    source: &[u8],
    complaint: &mut Complaint,
    files: &mut F,
    console: &mut O,
) -> Status
    requires { HasRoom (room complaint.old) name.now }
    ensures { Performs (IsFetchedPlan name.now source.now) result
        (world (F.seen files.old) (O.seen console.old)) (world (F.seen files.new) (O.seen console.new)) }
{
    match compile_source(alloc, source) {
        Ok(texts) => match write_all(alloc, &texts, complaint, files, console) {
            Ok(()) => Status::Done,
            Err(status) => status,
        },
        Err(Stop::Refused(refusal)) => {
            complaint.refused(console, name.bytes(), refusal);
            Status::Refused
        }
        Err(Stop::OutOfMemory) => run_out(console),
    }
}

/// Fetches a source and compiles it.
fn compile_file<F: Files, O: Console>(
    alloc: Global,
    name: &Name,
    files: &mut F,
    console: &mut O,
) -> Status
    ensures { Performs (IsCompilePlan name.now (F.seen files.old).files) result
        (world (F.seen files.old) (O.seen console.old)) (world (F.seen files.new) (O.seen console.new)) }
{
    let mut complaint = match Complaint::new(alloc, name.bytes().len()) {
        Ok(complaint) => complaint,
        Err(_) => return run_out(console),
    };
    match fetch_text(alloc, name, &mut complaint, files, console) {
        Ok(source) => compile_text(alloc, name, &source, &mut complaint, files, console),
        Err(status) => status,
    }
}

/// Does what the words say.
fn obey<F: Files, O: Console>(
    alloc: Global,
    words: &[String],
    files: &mut F,
    console: &mut O,
) -> Status
    ensures run { Performs (IsPlan (map string_bytes words.now) (F.seen files.old).files) result
        (world (F.seen files.old) (O.seen console.old)) (world (F.seen files.new) (O.seen console.new)) }
    ensures usage { form (map string_bytes words.now) ≡ None → result ≡ Status.Usage }
{
    match file_of(words) {
        None => {
            tell_usage(console);
            Status::Usage
        }
        Some(word) => match Name::new(alloc, word.as_bytes()) {
            Ok(name) => compile_file(alloc, &name, files, console),
            Err(_) => run_out(console),
        },
    }
}

/// Does what the words say: compiles the file that they name, or says how they should be.
pub fn iec2c<F: Files, O: Console>(
    alloc: Global,
    words: &[String],
    files: &mut F,
    console: &mut O,
) -> Status
    // All that was done: the calls of the plan of these words, or the first of them.
    ensures run { Performs (IsPlan (map string_bytes words.now) (F.seen files.old).files) result
        (world (F.seen files.old) (O.seen console.old)) (world (F.seen files.new) (O.seen console.new)) }

    // Usage comes exactly where the words have no form, and then one line is complained and nothing else done.
    ensures usage { (result ≡ Status.Usage) ↔ (form (map string_bytes words.now) ≡ None) }
    ensures unread { result ≡ Status.Usage → Tells usage_line
        (world (F.seen files.old) (O.seen console.old)) (world (F.seen files.new) (O.seen console.new)) }

    // Done and Refused come exactly where the source is accepted or refused, unless a call failed or memory was refused.
    ensures decides { IfSome (form (map string_bytes words.now)) (λ name. Decides name result
        (world (F.seen files.old) (O.seen console.old)) (world (F.seen files.new) (O.seen console.new))) }

    // A refusal changes no file, says nothing, and complains of the rule and its place.
    ensures refused { result ≡ Status.Refused → IfSome (form (map string_bytes words.now)) (λ name. LeavesRefused name
        (world (F.seen files.old) (O.seen console.old)) (world (F.seen files.new) (O.seen console.new))) }

    // All files are whole, their names are said, and they mean what the source means.
    ensures written { result ≡ Status.Done → IfSome (form (map string_bytes words.now)) (λ name. LeavesWritten name
        (world (F.seen files.old) (O.seen console.old)) (world (F.seen files.new) (O.seen console.new))) }

    // Of a source that is told, with no rise of a count, all that is due was done, or memory was refused.
    ensures complete { IfSome (form (map string_bytes words.now)) (λ name. IsComplete name result
        (world (F.seen files.old) (O.seen console.old)) (world (F.seen files.new) (O.seen console.new))) }

    // A fault comes only where a call failed, which ends the calls of the plan.
    ensures read_fault { result ≡ Status.ReadFault → Rose (F.seen files.old).fetch_faults (F.seen files.new).fetch_faults }
    ensures write_fault { result ≡ Status.WriteFault → Rose (F.seen files.old).put_faults (F.seen files.new).put_faults
        ⊎ Rose (O.seen console.old).say_faults (O.seen console.new).say_faults }
    ensures unreadable { result ≡ Status.ReadFault → IfSome (form (map string_bytes words.now)) (λ name. Tells (read_line name)
        (world (F.seen files.old) (O.seen console.old)) (world (F.seen files.new) (O.seen console.new))) }
    ensures half { result ≡ Status.WriteFault → IfSome (form (map string_bytes words.now)) (λ name. LeavesHalf name
        (world (F.seen files.old) (O.seen console.old)) (world (F.seen files.new) (O.seen console.new))) }
    ensures fault { (call : Call) → result ≡ fault_status call → EndsByFault (map string_bytes words.now) result
        (world (F.seen files.old) (O.seen console.old)) (world (F.seen files.new) (O.seen console.new)) }

    // Want of memory ends the calls of the plan too, before the first put, and is told.
    ensures want { result ≡ Status.NoMemory → EndsByWant (map string_bytes words.now) result
        (world (F.seen files.old) (O.seen console.old)) (world (F.seen files.new) (O.seen console.new)) }

    ensures untouched { result ≡ Status.NoMemory → Tells no_memory_line
        (world (F.seen files.old) (O.seen console.old)) (world (F.seen files.new) (O.seen console.new)) }

    // The account, whatever the status.
    ensures account { Account (map string_bytes words.now) result
        (world (F.seen files.old) (O.seen console.old)) (world (F.seen files.new) (O.seen console.new)) }
{
    obey(alloc, words, files, console)
}
