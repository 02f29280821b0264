//! Disks in memory and over a file: what they hold, what they count, and where they fail.
ghost use Rattle.dg_disk.specs.Image.{HasOffset, HasRange};

use dg_disk::{Disk, Failed, MemoryDisk};
use dg_file_disk::FileDisk;
use dg_io::{Line, Lines, MemorySink, MemorySource};
use dg_line::read_command;
use dg_machine::{Limits, SCRIPT_BYTES_MAX};
use dg_reply::write_reply;
use dg_seed::Seed;
use dg_session::Session;
use std::alloc::Global;
use std::fs::{File, Files};
use std::os::unix::fs::FileExt;
use std::process::Abort;
use std::test::Fail;
use std::thread::Threads;
use std::{env, fs, process};

// More calls than any test makes.
const CALLS_MAX: usize = 1000;

// The calls of any disk. Each stands here once, so that the proof of no test goes through all that a call promises.
fn len_of<D: Disk>(disk: &mut D) -> Result<u64, Failed> {
    disk.len()
}

pub(super) fn read<D: Disk>(disk: &mut D, offset: u64) -> Result<[u8; 3], Failed>
    requires { HasRange (D.image disk.old) offset 3 }
{
    let mut into = [0; 3];
    match disk.read_at(offset, &mut into) {
        Ok(()) => Ok(into),
        Err(failed) => Err(failed),
    }
}

pub(super) fn write<D: Disk>(disk: &mut D, offset: u64, piece: &[u8]) -> Result<(), Failed>
    requires { HasOffset (D.image disk.old) offset }
{
    disk.write_at(offset, piece)
}

fn sync<D: Disk>(disk: &mut D) -> Result<(), Failed> {
    disk.sync()
}

pub(super) fn expects_repeats<D: Disk>(disk: &mut D) {
    disk.expect_repeats();
}

// A write at an offset that is within the image or at its end, as a write wants it.
fn writes(
    abort: &impl Abort,
    disk: &mut MemoryDisk,
    offset: u64,
    piece: &[u8],
    wanted: Result<(), Failed>,
) {
    let is_within = offset <= disk.image().len() as u64;
    assert!(abort; is_within);
    assert_eq!(abort; write(disk, offset, piece), wanted);
}

// A read of three bytes that the image has.
fn reads(abort: &impl Abort, disk: &mut MemoryDisk, offset: u64, wanted: Result<[u8; 3], Failed>) {
    let len = disk.image().len() as u64;
    let is_within = offset <= len && 3 <= len - offset;
    assert!(abort; is_within);
    assert_eq!(abort; read(disk, offset), wanted);
}

fn has_image(abort: &impl Abort, disk: &MemoryDisk, wanted: &[u8]) {
    assert_eq!(abort; disk.image(), wanted);
}

// The piece is written over the image, which then is as wanted.
fn writes_over(
    abort: &impl Abort,
    disk: &mut MemoryDisk,
    offset: u64,
    piece: &[u8],
    wanted: &[u8],
) {
    writes(abort, disk, offset, piece, Ok(()));
    has_image(abort, disk, wanted);
    assert_eq!(abort; len_of(disk), Ok(wanted.len() as u64));
}

#[test]
fn writes_over_and_past_the_end(rt: HostRuntime) -> Result<(), Fail> {
    let cases: [(u64, &[u8], &[u8]); 6] = [
        (0, b"XY", b"XYcdef"),
        (2, b"XY", b"abXYef"),
        (4, b"XYZ", b"abcdXYZ"),
        (6, b"XY", b"abcdefXY"),
        (0, b"ABCDEFGH", b"ABCDEFGH"),
        (3, b"", b"abcdef"),
    ];
    for (offset, piece, wanted) in cases {
        let mut disk = MemoryDisk::new(rt.alloc(), b"abcdef", 8, CALLS_MAX, &[])?;
        writes_over(&rt, &mut disk, offset, piece, wanted);
    }
    Ok(())
}

#[test]
fn counts_the_bytes_that_are_read(rt: HostRuntime) -> Result<(), Fail> {
    let mut disk = MemoryDisk::new(rt.alloc(), b"abcdef", 6, CALLS_MAX, &[1])?;
    reads(&rt, &mut disk, 2, Ok(*b"cde"));
    reads(&rt, &mut disk, 3, Err(Failed));
    assert_eq!(rt; disk.taken(), 3);
    reads(&rt, &mut disk, 3, Ok(*b"def"));
    assert_eq!(rt; disk.taken(), 6);
    Ok(())
}

#[test]
fn fails_past_the_room(rt: HostRuntime) -> Result<(), Fail> {
    let mut disk = MemoryDisk::new(rt.alloc(), b"abcd", 6, CALLS_MAX, &[])?;
    writes(&rt, &mut disk, 4, b"efg", Err(Failed));
    has_image(&rt, &disk, b"abcd");
    writes(&rt, &mut disk, 4, b"ef", Ok(()));
    assert_eq!(rt; sync(&mut disk), Ok(()));
    has_image(&rt, &disk, b"abcdef");
    Ok(())
}

#[test]
fn fails_at_the_given_calls_and_after_the_last(rt: HostRuntime) -> Result<(), Fail> {
    let mut disk = MemoryDisk::new(rt.alloc(), b"ab", 8, 5, &[1, 3])?;
    assert_eq!(rt; len_of(&mut disk), Ok(2));
    writes(&rt, &mut disk, 0, b"X", Err(Failed));
    writes(&rt, &mut disk, 0, b"Y", Ok(()));
    assert_eq!(rt; sync(&mut disk), Err(Failed));
    assert_eq!(rt; sync(&mut disk), Ok(()));
    assert_eq!(rt; len_of(&mut disk), Err(Failed));
    assert_eq!(rt; sync(&mut disk), Err(Failed));
    has_image(&rt, &disk, b"Yb");
    assert_eq!(rt; disk.unrecorded(), 0);
    Ok(())
}

// Which calls succeed: `len`, `read_at`, `write_at` and `sync`.
fn succeeds<R: Files<File = File>>(disk: &mut FileDisk<R>) -> [bool; 4] {
    [
        len_of(disk).is_ok(),
        read(disk, 0).is_ok(),
        write(disk, 0, b"a").is_ok(),
        sync(disk).is_ok(),
    ]
}

// Each call on a path whose file cannot be made, and on devices that have no bytes to keep.
#[test]
fn fails_where_the_system_refuses(rt: HostRuntime) -> Result<(), Fail> {
    let cases: [(&str, [bool; 4]); 3] = [
        ("/no/such/folder/file", [false, false, false, false]),
        ("/dev/full", [true, true, false, false]),
        ("/dev/null", [true, false, true, false]),
    ];
    for (path, wanted) in cases {
        let mut disk = FileDisk::new(&rt, path.to_string(rt.alloc())?);
        assert_eq!(rt; succeeds(&mut disk), wanted, "{path}");
        drop(disk);
    }
    Ok(())
}

// More bytes than the script or its replies have.
const WHOLE: usize = 1 << 20;

// A history of five events is loaded, and then its first instant is asked for.
const SCRIPT: &[u8] =
    b"create 2 2 intersection\nload 5\n10 +node 1\n20 +node 2\n30 +edge 5 1 2 dir\n40 nset 1 name A\n50 -edge 5\nat 10 s\nlist 1\n";

// The last byte of the id of the node that the first event adds, in the first list of the file.
const BYTE_OF_FIRST_NODE: u64 = 325;

// The replies where that byte is 9 when the instant is asked for.
const REPLIES: &[u8] =
    b"ok create\nend\nok load 5 5 50\nend\nok at 1 42\nend\nok list 1 1\nnode 9\nend\n";

// The session carries out the next command of the script, and its reply is written. Says whether it could be.
fn carries_out<R: Threads + Sync, F: Files<File = File>>(
    rt: &R,
    session: &mut Session,
    lines: &mut Lines,
    source: &mut MemorySource,
    sink: &mut MemorySink,
    disk: &mut FileDisk<F>,
) -> bool {
    match lines.next(source) {
        Ok(Line::Text(_)) => {}
        _ => return false,
    }
    let Ok(command) = read_command(lines.text()) else {
        return false;
    };
    match session.step(rt, &command, lines, source, disk) {
        Ok(reply) => {
            let is_written = write_reply(sink, session.names(), &reply).is_ok();
            drop(reply);
            is_written
        }
        Err(_) => false,
    }
}

// The session carries out the next two commands of the script.
fn carries_out_two<R: Threads + Sync + Abort, F: Files<File = File>>(
    rt: &R,
    session: &mut Session,
    lines: &mut Lines,
    source: &mut MemorySource,
    sink: &mut MemorySink,
    disk: &mut FileDisk<F>,
) {
    for _ in 0..2 {
        let is_done = carries_out(rt, session, lines, source, sink, disk);
        assert!(rt; is_done);
    }
}

// The session carries out the script, over a file in which a byte is another from the third command on.
fn reads_anew<R: Threads + Sync + Abort + Files<File = File>, F: Files<File = File>>(
    rt: &R,
    alloc: Global,
    path: &str,
    session: &mut Session,
    disk: &mut FileDisk<F>,
) -> Result<(), Fail> {
    let mut source = MemorySource::new(alloc, SCRIPT, WHOLE, &[])?;
    let mut sink = MemorySink::new(alloc, WHOLE, &[])?;
    let mut lines = Lines::new(SCRIPT_BYTES_MAX);
    carries_out_two(rt, session, &mut lines, &mut source, &mut sink, disk);
    let file = File::options().write(true).open(rt, path)?;
    file.write_all_at(&[9], BYTE_OF_FIRST_NODE)?;
    fs::remove_file(rt, path)?;
    carries_out_two(rt, session, &mut lines, &mut source, &mut sink, disk);
    assert_eq!(rt; sink.written(), REPLIES);
    Ok(())
}

#[test]
fn a_session_reads_a_list_from_the_file_when_it_is_asked_for(rt: HostRuntime) -> Result<(), Fail> {
    let name = format!(in rt.alloc(); "deltagraph-test-{}", process::id(rt.process()))?;
    let path = env::temp_dir(&rt)?.join(rt.alloc(), name.as_str())?;
    let _ = fs::remove_file(&rt, path.as_path());
    let mut disk = FileDisk::new(&rt, path.as_str().to_string(rt.alloc())?);
    let mut session = Session::start(
        &rt,
        rt.alloc(),
        Seed::new(1),
        &mut disk,
        false,
        Limits::standard(),
    )?;
    let read = reads_anew(&rt, rt.alloc(), path.as_str(), &mut session, &mut disk);
    drop(session);
    read
}
