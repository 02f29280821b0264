//! Runs within lower limits, and over sources, sinks and disks that fail.
ghost use Rattle.std.specs.Prelude.{◌<◌};
ghost use Rattle.dg_machine.specs.MachineState.{IsWithin};

use dg_disk::MemoryDisk;
use dg_graph::Column;
use dg_history::{EVENTS_MAX, FILE_BYTES_MAX, Key};
use dg_io::{MemorySink, MemorySource};
use dg_machine::{FIRST_HANDLE, Limits, SCRIPT_BYTES_MAX};
use dg_run::{Status, serve_with};
use dg_seed::Seed;
use dg_session::{SessionFault, StartFault};
use std::alloc::{AllocError, Global};
use std::ops::Range;
use std::process::Abort;
use std::test::Fail;
use std::thread::Threads;

// As many bytes as a read may give, where a test cuts nothing.
const WHOLE: usize = 1 << 20;

// More bytes than a test has in its script or its index file.
const NO_LIMIT: u32 = u32::MAX;

// As many bytes as the index file of a test may have.
const ROOM: usize = 4096;

// More calls of the disk than a test makes.
const CALLS_MAX: usize = 1000;

// There is no index file.
const NO_FILE: &[u8] = b"";

// The calls of source and disk that fail, and how many bytes the sink takes.
#[derive(Clone, Copy)]
struct Faults<'a> {
    source: &'a [u64],
    disk: &'a [u64],
    room: usize,
}

const NO_FAULTS: Faults<'static> = Faults {
    source: &[],
    disk: &[],
    room: WHOLE,
};

// How a run ended, what it wrote, and the index file after it.
#[derive(Drop)]
struct Ran {
    status: Status,
    written: Vec<u8>,
    image: Vec<u8>,
}

impl Ran {
    fn new(
        alloc: Global,
        status: Status,
        sink: &MemorySink,
        disk: &MemoryDisk,
    ) -> Result<Ran, AllocError> {
        Ok(Ran {
            status,
            written: Vec::from_slice(alloc, sink.written())?,
            image: Vec::from_slice(alloc, disk.image())?,
        })
    }
}

// A run by these words over the index file and the script, with reads of at most `chunk` bytes.
fn run_by<R: Threads + Sync>(
    rt: &R,
    alloc: Global,
    words: &[String],
    image: &[u8],
    script: &[u8],
    chunk: usize,
    limits: Limits,
    faults: &Faults,
) -> Result<Ran, AllocError>
    requires chunk { 0 < chunk }
    requires limits { IsWithin limits }
{
    let mut source = MemorySource::new(alloc, script, chunk, faults.source)?;
    let mut sink = MemorySink::new(alloc, faults.room, &[])?;
    let mut disk = MemoryDisk::new(alloc, image, ROOM, CALLS_MAX, faults.disk)?;
    let status = serve_with(
        rt,
        alloc,
        Seed::new(1),
        words,
        limits,
        &mut source,
        &mut sink,
        &mut disk,
    );
    Ran::new(alloc, status, &sink, &disk)
}

fn has_ended(abort: &impl Abort, ran: &Ran, status: Status, replies: &[u8], shows: &str) {
    assert_eq!(abort; ran.written.as_slice(), replies, "{shows}");
    assert_eq!(abort; ran.status, status, "{shows}");
}

// A run of the script over no file, which ends by this status with these replies.
fn ends<R: Threads + Sync + Abort>(
    rt: &R,
    alloc: Global,
    script: &[u8],
    chunk: usize,
    limits: Limits,
    faults: &Faults,
    status: Status,
    replies: &[u8],
    shows: &str,
) -> Result<(), AllocError>
    requires chunk { 0 < chunk }
    requires limits { IsWithin limits }
{
    let words = ["history".to_string(alloc)?];
    let ran = run_by(rt, alloc, &words, NO_FILE, script, chunk, limits, faults)?;
    has_ended(rt, &ran, status, replies, shows);
    Ok(())
}

// These limits, which are below the standard.
fn within(script_bytes: u32, file_bytes: u32) -> Limits
    ensures { IsWithin result }
{
    Limits {
        script_bytes: u64::from(script_bytes),
        events: EVENTS_MAX,
        file_bytes: u64::from(file_bytes),
        first_handle: FIRST_HANDLE,
    }
}

// The standard limits, but with so many events.
fn with_events(events: u16) -> Limits
    ensures { IsWithin result }
{
    Limits {
        script_bytes: SCRIPT_BYTES_MAX,
        events: u64::from(events),
        file_bytes: FILE_BYTES_MAX,
        first_handle: FIRST_HANDLE,
    }
}

// A history of five events, with an attribute and an edge that is removed; then a batch too many for a
// history of six, one that fits, and another.
const FIVE_AND_MORE: &str =
    "create 2 2 intersection\nload 5\n10 +node 1\n20 +node 2\n30 +edge 5 1 2 dir\n40 nset 1 name A\n50 -edge 5\nappend 2\n60 +node 9\n61 +node 8\nappend 1\n60 +node 9\nappend 1\n61 +node 8\n";

const FIVE_AND_MORE_REPLIES: &str =
    "ok create\nend\nok load 5 5 50\nend\nrefused 12 history-full 5 2\nend\nok append 1 6 60\nend\nrefused 12 history-full 6 1\nend\n";

#[test]
fn a_history_has_as_many_events_as_the_limit_however_the_script_is_cut(
    rt: HostRuntime,
) -> Result<(), Fail> {
    for chunk in [1, 7, WHOLE] {
        ends(
            &rt,
            rt.alloc(),
            FIVE_AND_MORE.as_bytes(),
            chunk,
            with_events(6),
            &NO_FAULTS,
            Status::Done,
            FIVE_AND_MORE_REPLIES.as_bytes(),
            "six events",
        )?;
    }
    Ok(())
}

// A script, the limit on its bytes, what is written, and the status.
struct Ending {
    shows: &'static str,
    script: &'static str,
    limit: u32,
    replies: &'static str,
    status: Status,
}

const ENDINGS: [Ending; 5] = [
    Ending {
        shows: "a byte beyond the limit is needed",
        script: "list 1\nlist 1\n",
        limit: 9,
        replies: "refused 8 unknown-handle 1\nend\n",
        status: Status::ScriptLimit,
    },
    Ending {
        shows: "a byte beyond the limit is needed within the second command",
        script: "pool\npool\n",
        limit: 7,
        replies: "ok pool 0 0\nend\n",
        status: Status::ScriptLimit,
    },
    Ending {
        shows: "with as many bytes as the limit the end of input is not seen",
        script: "list 1\nlist 2\n",
        limit: 14,
        replies: "refused 8 unknown-handle 1\nend\nrefused 8 unknown-handle 2\nend\n",
        status: Status::ScriptLimit,
    },
    Ending {
        shows: "with one byte less than the limit it is",
        script: "list 1\nlist 2\n",
        limit: 15,
        replies: "refused 8 unknown-handle 1\nend\nrefused 8 unknown-handle 2\nend\n",
        status: Status::Done,
    },
    Ending {
        shows: "a batch that the limit cuts has no reply",
        script: "list 1\nload 2\n1 +node 1\n2 +node 2\n",
        limit: 30,
        replies: "refused 8 unknown-handle 1\nend\n",
        status: Status::ScriptLimit,
    },
];

#[test]
fn the_limit_ends_a_run_where_another_byte_is_needed(rt: HostRuntime) -> Result<(), Fail> {
    for case in ENDINGS.iter() {
        for chunk in [1, WHOLE] {
            ends(
                &rt,
                rt.alloc(),
                case.script.as_bytes(),
                chunk,
                within(case.limit, NO_LIMIT),
                &NO_FAULTS,
                case.status,
                case.replies.as_bytes(),
                case.shows,
            )?;
        }
    }
    Ok(())
}

// A script that makes an index file of 233 bytes, and its replies.
const FIRST: &[u8] =
    b"create 2 2 intersection\nload 3\n10 +node 1\n20 +node 2\n30 +edge 5 1 2 dir\n";

const FIRST_REPLIES: &[u8] = b"ok create\nend\nok load 3 3 30\nend\n";

#[test]
fn an_index_file_has_as_many_bytes_as_the_limit(rt: HostRuntime) -> Result<(), Fail> {
    let cases: [(u32, &[u8]); 2] = [
        (233, FIRST_REPLIES),
        (232, b"ok create\nend\nrefused 13 file-full 233 232\nend\n"),
    ];
    for (limit, replies) in cases {
        let limits = within(NO_LIMIT, limit);
        ends(
            &rt,
            rt.alloc(),
            FIRST,
            WHOLE,
            limits,
            &NO_FAULTS,
            Status::Done,
            replies,
            "a file of 233 bytes",
        )?;
    }
    Ok(())
}

// Runs of the script over a disk that fails at one of these calls, from 0, end by this status with these replies.
fn ends_where_the_disk_fails<R: Threads + Sync + Abort>(
    rt: &R,
    alloc: Global,
    script: &[u8],
    calls: Range<u64>,
    status: Status,
    replies: &[u8],
) -> Result<(), AllocError> {
    for call in calls {
        let faults = Faults {
            disk: &[call],
            ..NO_FAULTS
        };
        let shows = format!(in alloc; "at call {call}")?;
        let limits = Limits::standard();
        ends(
            rt, alloc, script, WHOLE, limits, &faults, status, replies, &shows,
        )?;
    }
    Ok(())
}

// More calls than a script of these tests makes.
const CALLS_END: u64 = 40;

// A run makes two calls to open the file, and `create` three writes with a sync each.
const CALLS_OF_CREATE: u64 = 8;

const REPLY_OF_CREATE: &[u8] = b"ok create\nend\n";

// The batch of the first script makes the writes of what stands before the columns, of the list, of the piece and of
// a closed gate, a sync, the write of the open gate and a sync.
const CALLS_OF_FIRST: u64 = CALLS_OF_CREATE + 7;

#[test]
fn a_failed_call_of_the_disk_ends_a_run_with_the_replies_before_it(
    rt: HostRuntime,
) -> Result<(), Fail> {
    let rows: [(Range<u64>, Status, &[u8]); 3] = [
        (0..CALLS_OF_CREATE, Status::DiskFault, b""),
        (
            CALLS_OF_CREATE..CALLS_OF_FIRST,
            Status::DiskFault,
            REPLY_OF_CREATE,
        ),
        (CALLS_OF_FIRST..CALLS_END, Status::Done, FIRST_REPLIES),
    ];
    for (calls, status, replies) in rows {
        ends_where_the_disk_fails(&rt, rt.alloc(), FIRST, calls, status, replies)?;
    }
    Ok(())
}

// The script of the tests of failures, and its replies.
const SCRIPT: &str = "create 2 2 union\nload 2\n10 +node 1\n20 +node 2\nat 10 s\nlist 1\n";

const REPLIES: &str =
    "ok create\nend\nok load 2 2 20\nend\nok at 1 42\nend\nok list 1 1\nnode 1\nend\n";

// Its batch leaves no event behind the last list, so its piece has no bytes to write.
const CALLS_OF_BATCH: u64 = CALLS_OF_FIRST - 1;

// Its replies where the read of the list fails, which is all that its retrieval reads.
const REPLIES_UNREAD: &str =
    "ok create\nend\nok load 2 2 20\nend\nrefused 14 store-read\nend\nrefused 8 unknown-handle 1\nend\n";

// The same with messages, which are all that its retrieval reads, since it begins with the current graph.
const HEARING: &str =
    "create 4 2 union\nload 4\n10 +node 1\n20 +node 2\n20 msg 1 2 hi\n20 msg 1 2 yo\nat 20 st\nlist 1\n";

const HEARING_REPLIES: &str =
    "ok create\nend\nok load 4 4 20\nend\nok at 1 64\nend\nok list 1 4\nnode 1\nnode 2\nmsg 1 2 hi\nmsg 1 2 yo\nend\n";

const HEARING_REPLIES_UNREAD: &str =
    "ok create\nend\nok load 4 4 20\nend\nrefused 14 store-read\nend\nrefused 8 unknown-handle 1\nend\n";

#[test]
fn a_read_that_fails_refuses_its_command_alone(rt: HostRuntime) -> Result<(), Fail> {
    for (script, read, unread) in [
        (SCRIPT, REPLIES, REPLIES_UNREAD),
        (HEARING, HEARING_REPLIES, HEARING_REPLIES_UNREAD),
    ] {
        let rows: [(Range<u64>, Status, &[u8]); 3] = [
            (
                CALLS_OF_CREATE..CALLS_OF_BATCH,
                Status::DiskFault,
                REPLY_OF_CREATE,
            ),
            (
                CALLS_OF_BATCH..CALLS_OF_BATCH + 1,
                Status::Done,
                unread.as_bytes(),
            ),
            (CALLS_OF_BATCH + 1..CALLS_END, Status::Done, read.as_bytes()),
        ];
        for (calls, status, replies) in rows {
            ends_where_the_disk_fails(&rt, rt.alloc(), script.as_bytes(), calls, status, replies)?;
        }
    }
    Ok(())
}

#[test]
fn a_failed_read_ends_a_run_with_the_replies_so_far(rt: HostRuntime) -> Result<(), Fail> {
    // The third read, of a byte each, fails: no command was whole. The second of the whole fails:
    // each was.
    for (chunk, fails, due) in [(1, 2u64, ""), (WHOLE, 1, REPLIES)] {
        let faults = Faults {
            source: &[fails],
            ..NO_FAULTS
        };
        ends(
            &rt,
            rt.alloc(),
            SCRIPT.as_bytes(),
            chunk,
            Limits::standard(),
            &faults,
            Status::SourceFault,
            due.as_bytes(),
            "a failed read",
        )?;
    }
    Ok(())
}

#[test]
fn a_failed_write_ends_a_run_with_a_front_of_the_replies(rt: HostRuntime) -> Result<(), Fail> {
    for front in ["", "ok ", "ok create\nend\nok lo", "ok create\nend\nok loa"] {
        let faults = Faults {
            room: front.len(),
            ..NO_FAULTS
        };
        ends(
            &rt,
            rt.alloc(),
            SCRIPT.as_bytes(),
            WHOLE,
            Limits::standard(),
            &faults,
            Status::SinkFault,
            front.as_bytes(),
            "a sink with less room",
        )?;
    }
    Ok(())
}

// The status has this code, and this line on standard error.
fn says(abort: &impl Abort, status: Status, code: u8, line: &str) {
    assert_eq!(abort; status.code(), code);
    assert_eq!(abort; status.message().unwrap_or(""), line);
}

// A run whose session does not begin for this fault is one whose index is refused.
fn is_refusal(abort: &impl Abort, fault: SessionFault) {
    let status = Status::from(fault);
    assert_eq!(abort; status, Status::Refused(fault));
    says(abort, status, 7, "the index is refused");
}

#[test]
fn each_status_has_its_code_and_its_line(rt: HostRuntime) {
    assert_eq!(rt; Status::Done.code(), 0);
    assert!(rt; Status::Done.message().is_none());
    let usage = "usage: deltagraph [--cache N] [--checked] INDEX";
    says(&rt, Status::Words, 2, usage);
    says(&rt, Status::SourceFault, 3, "reading the script failed");
    says(&rt, Status::SinkFault, 4, "writing failed");
    says(&rt, Status::DiskFault, 5, "the index file failed");
    says(&rt, Status::NoMemory, 6, "out of memory");
    says(&rt, Status::ScriptLimit, 9, "the script is too long");
    is_refusal(&rt, SessionFault::Start(StartFault::Foreign));
    is_refusal(&rt, SessionFault::Start(StartFault::Damaged(18)));
    is_refusal(
        &rt,
        SessionFault::Start(StartFault::BadRecord(Key::Piece(0), Column::Structure)),
    );
    is_refusal(&rt, SessionFault::Start(StartFault::NotGraph));
    is_refusal(&rt, SessionFault::Start(StartFault::BadRecent(1)));
    is_refusal(&rt, SessionFault::Unsound(Key::List(1), Column::Structure));
}

// A script that makes an index file of 544 bytes.
const FIVE: &[u8] =
    b"create 2 2 intersection\nload 5\n10 +node 1\n20 +node 2\n30 +edge 5 1 2 dir\n40 nset 1 name A\n50 -edge 5\n";

// What is asked of it.
const QUESTIONS: &[u8] = b"at 30 s\nlist 1\n";

const QUESTIONS_REPLIES: &[u8] =
    b"ok at 1 40\nend\nok list 1 3\nnode 1\nnode 2\nedge 5 1 2 dir\nend\n";

// The last byte of its first list, by which node 2 is added. With node 3 in its place the first event of the second list
// adds an edge that lacks an end. A start reads neither list.
const BYTE_OF_FIRST_LIST: usize = 344;

// A run by these words of the script over this file, within the standard limits.
fn asks<R: Threads + Sync>(
    rt: &R,
    alloc: Global,
    words: &[String],
    image: &[u8],
    script: &[u8],
) -> Result<Ran, AllocError> {
    let limits = Limits::standard();
    run_by(rt, alloc, words, image, script, WHOLE, limits, &NO_FAULTS)
}

// The file is taken, with these replies.
fn takes<R: Threads + Sync + Abort>(
    rt: &R,
    alloc: Global,
    words: &[String],
    image: &[u8],
) -> Result<(), AllocError> {
    let ran = asks(rt, alloc, words, image, QUESTIONS)?;
    has_ended(rt, &ran, Status::Done, QUESTIONS_REPLIES, "a sound file");
    Ok(())
}

// The file, whose second list is not right, is refused, and stays.
fn refuses<R: Threads + Sync + Abort>(
    rt: &R,
    alloc: Global,
    words: &[String],
    image: &[u8],
) -> Result<(), AllocError> {
    let ran = asks(rt, alloc, words, image, QUESTIONS)?;
    let fault = SessionFault::Unsound(Key::List(1), Column::Structure);
    has_ended(
        rt,
        &ran,
        Status::Refused(fault),
        b"",
        "a file that is not sound",
    );
    assert_eq!(rt; ran.image.as_slice(), image);
    Ok(())
}

fn two_words(alloc: Global, first: &str, second: &str) -> Result<[String; 2], AllocError> {
    Ok([first.to_string(alloc)?, second.to_string(alloc)?])
}

// By the words `plain` a file is taken as it is, and by the others only where it is right.
fn is_checked<R: Threads + Sync + Abort>(
    rt: &R,
    alloc: Global,
    plain: &[String],
    checked: &[String],
) -> Result<(), AllocError> {
    let mut made = asks(rt, alloc, plain, NO_FILE, FIVE)?;
    assert_eq!(rt; made.image.len(), 544);
    takes(rt, alloc, checked, &made.image)?;
    made.image[BYTE_OF_FIRST_LIST] = 3;
    let ran = asks(rt, alloc, plain, &made.image, b"")?;
    has_ended(
        rt,
        &ran,
        Status::Done,
        b"",
        "a file that is not sound, with plain words",
    );
    refuses(rt, alloc, checked, &made.image)
}

#[test]
fn a_file_is_checked_where_a_word_says_so(rt: HostRuntime) -> Result<(), Fail> {
    let alloc = rt.alloc();
    let plain = ["history".to_string(alloc)?];
    is_checked(
        &rt,
        alloc,
        &plain,
        &two_words(alloc, "--checked", "history")?,
    )?;
    is_checked(
        &rt,
        alloc,
        &plain,
        &two_words(alloc, "history", "--checked")?,
    )?;
    Ok(())
}

#[test]
fn a_file_of_the_second_form_has_room_for_a_batch_or_not(rt: HostRuntime) -> Result<(), Fail> {
    let cases: [(u32, &[u8]); 2] = [
        (
            736,
            b"ok create\nend\nok load 5 5 50\nend\nok append 1 6 60\nend\n",
        ),
        (
            550,
            b"ok create\nend\nok load 5 5 50\nend\nrefused 13 file-full 736 550\nend\n",
        ),
    ];
    for (limit, replies) in cases {
        let mut script = Vec::from_slice(rt.alloc(), FIVE)?;
        script.extend_from_slice(SIXTH)?;
        ends(
            &rt,
            rt.alloc(),
            &script,
            WHOLE,
            within(NO_LIMIT, limit),
            &NO_FAULTS,
            Status::Done,
            replies,
            "a file of 736 bytes",
        )?;
    }
    Ok(())
}

#[test]
fn a_share_above_the_whole_is_refused(rt: HostRuntime) -> Result<(), Fail> {
    ends(
        &rt,
        rt.alloc(),
        b"create 2 2 skewed 300\ncreate 2 2 skewed 256\nupgrade\n",
        WHOLE,
        Limits::standard(),
        &NO_FAULTS,
        Status::Done,
        b"refused 4 parameters\nend\nok create\nend\nrefused 21 new-format\nend\n",
        "shares of 300 and of 256",
    )?;
    Ok(())
}

// The next change of the history of five events.
const SIXTH: &[u8] = b"append 1\n60 +node 9\n";

// The file of the five events in the first form, a field or a row of docs/FORMATS.md on each line.
const FIRST_FORM: &[u8] = b"\x01DGRAPH1\0\0\0\x02\0\0\0\x02\x01\x01\
      \0\0\0\0\0\0\0\xdd\0\0\0\0\0\0\0\xf0\
      \0\0\0\0\0\0\0\x05\0\0\0\0\0\0\0\x0a\0\0\0\0\0\0\02\
      \0\0\0\x02\0\x04name\0\x01A\
      \0\0\0\x02\
      \0\0\0\0\0\0\0\x0a\0\0\0\0\0\0\0\x14\0\0\0\0\0\0\0*\0\0\0\0\0\0\0\0\0\0\0\0\0\0\0\0\
      \0\0\0\0\0\0\0\x1e\0\0\0\0\0\0\0(\0\0\0\0\0\0\0(\0\0\0\0\0\0\0\x22\0\0\0\0\0\0\0\0\
      \0\0\0\x03\
      \0\0\0\0\0\0\0\x1a\0\0\0\0\0\0\0\0\0\0\0\0\0\0\0\0\
      \0\0\0\0\0\0\0\0\0\0\0\0\0\0\0\0\0\0\0\0\0\0\0\0\
      \0\0\0\0\0\0\0\x22\0\0\0\0\0\0\0\x18\0\0\0\0\0\0\0\0\
      \0\0\0\0\0\0\0(\0\0\0\0\0\0\0\0\0\0\0\0\0\0\0\0\
      \0\0\0\x02\0\0\0\0\0\0\0\0\0\x0a\x01\0\0\0\0\0\0\0\x01\0\x01\0\0\0\0\0\0\0\x14\x01\0\0\0\0\0\0\0\x02\
      \0\0\0\x01\0\0\0\0\0\0\0\0\0\x1e\x03\0\0\0\0\0\0\0\x05\0\0\0\0\0\0\0\x01\0\0\0\0\0\0\0\x02\x01\
      \0\0\0\x01\0\x01\0\0\0\0\0\0\0(\0\0\0\0\0\0\0\x01\0\0\0\0\0\0\0\0\0\0\0\x02\
      \0\0\0\0\0\0\0\x02\x01\0\0\0\0\0\0\0\x01\x01\0\0\0\0\0\0\0\x02\
      \0\0\0\0\0\0\0\x01\x02\0\0\0\0\0\0\0\x05\0\0\0\0\0\0\0\x01\0\0\0\0\0\0\0\x02\x01\
      \0\0\0\0\0\0\0\x01\0\0\0\0\0\0\0\x01\0\0\0\0\0\0\0\x01\
      \0\0\0\x01\0\0\0\0\0\0\0\0\02\x04\0\0\0\0\0\0\0\x05\0\0\0\0\0\0\0\x01\0\0\0\0\0\0\0\x02\x01\
      \0";

// A script over the file of the first form, the bytes that the file may have, the replies, and how many bytes it then has.
struct Upgrade {
    shows: &'static str,
    script: &'static [u8],
    limit: u32,
    replies: &'static [u8],
    bytes: usize,
}

const UPGRADES: [Upgrade; 6] = [
    Upgrade {
        shows: "a batch in the first form",
        script: SIXTH,
        limit: 672,
        replies: b"ok append 1 6 60\nend\n",
        bytes: 672,
    },
    Upgrade {
        shows: "a marker",
        script: b"upgrade\n",
        limit: 521,
        replies: b"ok upgrade\nend\n",
        bytes: 521,
    },
    Upgrade {
        shows: "no room for the marker",
        script: b"upgrade\n",
        limit: 520,
        replies: b"refused 13 file-full 521 520\nend\n",
        bytes: 496,
    },
    Upgrade {
        shows: "a batch behind the marker",
        script: b"upgrade\nupgrade\nappend 1\n60 +node 9\nverify\n",
        limit: 713,
        replies: b"ok upgrade\nend\nrefused 21 new-format\nend\nok append 1 6 60\nend\nok verify sound 6\nend\n",
        bytes: 713,
    },
    Upgrade {
        shows: "a message in the first form",
        script: b"append 1\n60 msg 1 2 x\n",
        limit: 496,
        replies: b"refused 22 old-format\nend\n",
        bytes: 496,
    },
    Upgrade {
        shows: "a message behind the marker",
        script: b"upgrade\nappend 1\n60 msg 1 2 x\nat 60 st\nlist 1\nverify\n",
        limit: 731,
        replies: b"ok upgrade\nend\nok append 1 6 60\nend\nok at 1 34\nend\nok list 1 3\nnode 1\nnode 2\nmsg 1 2 x\nend\nok verify sound 6\nend\n",
        bytes: 731,
    },
];

#[test]
fn a_file_of_the_first_form_goes_on_in_it_or_is_upgraded(rt: HostRuntime) -> Result<(), Fail> {
    let words = ["history".to_string(rt.alloc())?];
    for case in UPGRADES.iter() {
        let limits = within(NO_LIMIT, case.limit);
        let ran = run_by(
            &rt,
            rt.alloc(),
            &words,
            FIRST_FORM,
            case.script,
            WHOLE,
            limits,
            &NO_FAULTS,
        )?;
        has_ended(&rt, &ran, Status::Done, case.replies, case.shows);
        assert_eq!(rt; ran.image.len(), case.bytes, "{}", case.shows);
    }
    Ok(())
}
