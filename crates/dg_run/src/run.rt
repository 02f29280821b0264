//! The run: the words, a session over the disk, and each reply before the next line is read.
ghost use Rattle.std.specs.Prelude.{◌≢◌, map, string_bytes, true};
ghost use Rattle.dg_disk.specs.Calls.{IsOnDevice, LeftByCrash, StaysOnDevice};
ghost use Rattle.dg_machine.specs.MachineState.{IsWithin};
ghost use Rattle.dg_session.specs.Session.{HoldsImage};
ghost use Rattle.dg_run.specs.Outside.{outside};
ghost use Rattle.dg_words.specs.WrittenForm.{is_checked, is_written_form};
ghost use Rattle.dg_run.specs.Promised.{Promised};
ghost use Rattle.dg_run.specs.Statuses.{IsBegun};
ghost use Rattle.dg_run.specs.Turns.{ScriptAnswered};

use crate::machine::SessionMachine;
use crate::status::Status;
use dg_disk::Disk;
use dg_history::{EVENTS_MAX, FILE_BYTES_MAX};
use dg_machine::{FIRST_HANDLE, Limits, SCRIPT_BYTES_MAX};
use dg_seed::Seed;
use dg_session::{Session, law_begins_are_determined};
use dg_turns::{Commands, Sink, Source};
use dg_words::read_words;
use std::alloc::Global;
use std::thread::Threads;

/// Reads the words, and carries out the commands of the script one by one over the index file that
/// the disk holds, which is verified first where the words say `--checked`. Each reply is written before
/// the next line is read. It is `serve_with` at the standard limits. Tables hash with the seed, on which no reply depends.
///
/// Where the index file is on the device at the start, a crash at any moment leaves one that stands for the history of
/// a state of the run, with the two exceptions of `specs/Served.antt`. Behind a run that began and did not end by the
/// disk, what the file holds is on the device.
pub fn serve<R: Threads + Sync, S: Source, K: Sink, D: Disk>(
    rt: &R,
    alloc: Global,
    seed: Seed,
    words: &[String],
    source: &mut S,
    sink: &mut K,
    disk: &mut D,
) -> Status
    ensures promise { Promised (record { script_bytes = SCRIPT_BYTES_MAX; events = EVENTS_MAX; file_bytes = FILE_BYTES_MAX; first_handle = FIRST_HANDLE })
        (is_written_form (map string_bytes words.now)) (is_checked (map string_bytes words.now)) result
        (outside S.Source K.Sink D.Disk source.old sink.old disk.old)
        (outside S.Source K.Sink D.Disk source.new sink.new disk.new)
        (LeftByCrash D.Disk disk.old disk.new) }
    ensures on_device { IsBegun result → result ≢ Status.DiskFault → IsOnDevice D.Disk disk.new }
{
    serve_with(
        rt,
        alloc,
        seed,
        words,
        Limits::standard(),
        source,
        sink,
        disk,
    )
}

/// The same within these limits. `specs/Promised.antt` says field by field what it promises.
pub fn serve_with<R: Threads + Sync, S: Source, K: Sink, D: Disk>(
    rt: &R,
    alloc: Global,
    seed: Seed,
    words: &[String],
    limits: Limits,
    source: &mut S,
    sink: &mut K,
    disk: &mut D,
) -> Status
    requires limits { IsWithin limits }
    ensures promise { Promised limits (is_written_form (map string_bytes words.now)) (is_checked (map string_bytes words.now)) result
        (outside S.Source K.Sink D.Disk source.old sink.old disk.old)
        (outside S.Source K.Sink D.Disk source.new sink.new disk.new)
        (LeftByCrash D.Disk disk.old disk.new) }
    ensures on_device { IsBegun result → result ≢ Status.DiskFault → IsOnDevice D.Disk disk.new }
{
    match read_words(alloc, words) {
        Ok(Some(read)) => run_session(rt, alloc, seed, read.checked, limits, source, sink, disk),
        Ok(None) => Status::Words,
        Err(_) => Status::NoMemory,
    }
}

// Starts a session over the disk's image, checked or not, and carries out the script.
fn run_session<R: Threads + Sync, S: Source, K: Sink, D: Disk>(
    rt: &R,
    alloc: Global,
    seed: Seed,
    checked: bool,
    limits: Limits,
    source: &mut S,
    sink: &mut K,
    disk: &mut D,
) -> Status
    requires limits { IsWithin limits }
    ensures promise { Promised limits true checked result
        (outside S.Source K.Sink D.Disk source.old sink.old disk.old)
        (outside S.Source K.Sink D.Disk source.new sink.new disk.new)
        (LeftByCrash D.Disk disk.old disk.new) }
    ensures on_device { IsBegun result → result ≢ Status.DiskFault → IsOnDevice D.Disk disk.new }
{
    // Its clause says that an image comes to one beginning.
    law_begins_are_determined();
    match Session::start(rt, alloc, seed, disk, checked, limits) {
        Ok(session) => {
            // From here on it is commands that read, and they may ask for the same again.
            disk.expect_repeats();
            answer_script(rt, limits.script_bytes, session, source, sink, disk)
        }
        Err(fault) => Status::from(fault),
    }
}

// Answers the script by the session, of which at most so many bytes may be taken.
fn answer_script<R: Threads + Sync, S: Source, K: Sink, D: Disk>(
    rt: &R,
    limit: u64,
    session: Session,
    source: &mut S,
    sink: &mut K,
    disk: &mut D,
) -> Status
    requires { HoldsImage session.parts (D.image disk.old) }
    ensures answered { ScriptAnswered limit session.parts result
        (outside S.Source K.Sink D.Disk source.old sink.old disk.old)
        (outside S.Source K.Sink D.Disk source.new sink.new disk.new)
        (LeftByCrash D.Disk disk.old disk.new) }
    ensures on_device { result ≢ Status.DiskFault → StaysOnDevice D.Disk disk.old disk.new }
{
    let mut machine = SessionMachine { session };
    let end = dg_turns::answer_script(rt, Commands::All, limit, &mut machine, disk, source, sink);
    Status::from(end)
}
