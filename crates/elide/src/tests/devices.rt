//! Each call of a device fails in turn, in each command.
use crate::tests::asserts::same_at;
use crate::tests::support::{REPORT, TIMES, USAGE, changed, strings};
use el_io::{MemShelf, MemSink, OpenGate};
use std::alloc::{AllocError, Global};
use std::sync::Wait;
use std::test::Fail;
use std::thread::Threads;
use tool::tool;
use worked_files::{BARE_TRACE, CERTIFICATE, HELLO, TRACE};

/// What a command does where no call fails, in this order: it reads so many files, puts a byte of `out` at a time, writes
/// its files, and puts a byte of `err` at a time.
#[derive(Clone, Copy)]
struct Command {
    words: &'static [&'static str],
    status: u8,
    reads: usize,
    out: &'static str,
    writes: &'static [(&'static str, &'static [u8])],
    err: &'static [&'static str],
}

/// What most of them do.
const RUN: Command = Command {
    words: &["run", "a"],
    status: 0,
    reads: 1,
    out: "A\n",
    writes: &[],
    err: &[REPORT],
};

const REPLAY: Command = Command {
    words: &["replay", "a", "t"],
    reads: 2,
    ..RUN
};

const CHECK: Command = Command {
    words: &["check", "a", "c"],
    out: "",
    err: &["certificate holds, serial 9 out 2\n"],
    ..REPLAY
};

const REFUSAL: Command = Command {
    words: &["run"],
    status: 2,
    reads: 0,
    out: "",
    writes: &[],
    err: &[USAGE],
};

/// The files are `a`, an image; `t` and `b`, its traces with and without outcomes; `d`, a trace with another outcome; `c`, a
/// certificate; and `f`, one that fails. A command that reads files and writes none of them has its row here.
const COMMANDS: &[Command] = &[
    RUN,
    Command {
        words: &["run", "a", "--trace", "w"],
        writes: &[("w", &TRACE)],
        ..RUN
    },
    Command {
        words: &["run", "a", "--cert", "x"],
        writes: &[("x", &CERTIFICATE)],
        ..RUN
    },
    Command {
        words: &["run", "a", "--cert", "x", "--times", "--trace", "w"],
        writes: &[("w", &TRACE), ("x", &CERTIFICATE)],
        err: &[REPORT, TIMES],
        ..RUN
    },
    Command {
        words: &["run", "a", "--threads", "4", "--trace", "w"],
        writes: &[("w", &TRACE)],
        ..RUN
    },
    REPLAY,
    Command {
        words: &["replay", "a", "b", "--trace", "w"],
        writes: &[("w", &TRACE)],
        ..REPLAY
    },
    Command {
        words: &["replay", "a", "d", "--trace", "w"],
        status: 6,
        out: "",
        err: &["replay differs at event 0: recorded 00 found 04\n"],
        ..REPLAY
    },
    CHECK,
    Command {
        words: &["check", "a", "f"],
        status: 7,
        err: &["certificate fails 1 View at 0\n"],
        ..CHECK
    },
    REFUSAL,
    Command {
        words: &["run", "a", "--harts", "9"],
        err: &["config fault 1 Harts\n"],
        ..REFUSAL
    },
    Command {
        words: &["run", "t"],
        reads: 1,
        err: &["image fault 2 Magic at byte 0\n"],
        ..REFUSAL
    },
    Command {
        words: &["replay", "t", "c"],
        reads: 2,
        err: &["trace fault 2 Magic at byte 2\n"],
        ..REFUSAL
    },
    Command {
        words: &["replay", "t", "t"],
        reads: 2,
        err: &["image fault 2 Magic at byte 0\n"],
        ..REFUSAL
    },
    Command {
        words: &["check", "t", "a"],
        reads: 2,
        err: &["certificate fault 2 Magic at byte 0\n"],
        ..REFUSAL
    },
];

#[derive(Clone, Copy, Debug, PartialEq, Eq)]
enum Device {
    Shelf,
    Out,
    Err,
}

/// The call of a device that fails, counted from 1; none of them is call 0.
#[derive(Clone, Copy, Debug)]
struct Failing {
    device: Device,
    call: usize,
}

/// How a command ended, what it put, and the contents of `w` and `x`, which had others before.
#[derive(Drop)]
struct Left {
    status: u8,
    out: Vec<u8>,
    err: Vec<u8>,
    trace: Vec<u8>,
    certificate: Vec<u8>,
}

const BEFORE: &[u8] = b"before";

/// The number of the call of a device that fails, if it is of this device.
fn planned(failing: Failing, device: Device) -> [u32; 1] {
    if failing.device == device {
        [u32::try_from(failing.call).unwrap_or(0)]
    } else {
        [0]
    }
}

/// The files, with calls that may fail.
fn shelf(alloc: Global, failing: Failing) -> Result<MemShelf, Fail> {
    let other_outcome = changed(alloc, &TRACE, 23, 0)?;
    let other_view = changed(alloc, &CERTIFICATE, 11, 8)?;
    let names = strings(alloc, &["a", "t", "b", "d", "c", "f", "w", "x"])?;
    let contents = copies(
        alloc,
        &[
            &HELLO,
            &TRACE,
            &BARE_TRACE,
            &other_outcome,
            &CERTIFICATE,
            &other_view,
            BEFORE,
            BEFORE,
        ],
    )?;
    if names.len() != contents.len() {
        return Err("a file without a name".into());
    }
    let calls = planned(failing, Device::Shelf);
    Ok(MemShelf::make(alloc, &names, &contents, &calls)?)
}

/// Copies of some contents.
fn copies(alloc: Global, contents: &[&[u8]]) -> Result<Vec<Vec<u8>>, AllocError> {
    contents
        .iter()
        .map(|bytes| Vec::from_slice(alloc, bytes))
        .try_collect(alloc)
}

/// What is left of a command of which a call fails. Each put takes a byte.
fn what_is_left<R: Threads + Wait + Sync>(
    rt: &R,
    alloc: Global,
    words: &[&str],
    failing: Failing,
) -> Result<Left, Fail> {
    let words = strings(alloc, words)?;
    let mut out = MemSink::make(alloc, 256, 1, &planned(failing, Device::Out))?;
    let mut err = MemSink::make(alloc, 512, 1, &planned(failing, Device::Err))?;
    let mut shelf = shelf(alloc, failing)?;
    let gate = OpenGate::new();
    let status = tool(rt, alloc, &words, &mut shelf, &mut out, &mut err, &gate);
    what_devices_have(alloc, status.number(), &shelf, &out, &err)
}

/// What the devices have behind a command that ended with a status.
fn what_devices_have(
    alloc: Global,
    status: u8,
    shelf: &MemShelf,
    out: &MemSink,
    err: &MemSink,
) -> Result<Left, Fail> {
    Ok(Left {
        status,
        out: Vec::from_slice(alloc, out.taken())?,
        err: Vec::from_slice(alloc, err.taken())?,
        trace: Vec::from_slice(alloc, shelf.contents("w"))?,
        certificate: Vec::from_slice(alloc, shelf.contents("x"))?,
    })
}

/// How much of a command is done: its status, and how many bytes for out, files and bytes for err.
#[derive(Clone, Copy)]
struct Done {
    status: u8,
    out: usize,
    writes: usize,
    err: usize,
}

impl Command {
    fn err_len(&self) -> usize {
        let mut len: usize = 0;
        for text in self.err {
            len = len.saturating_add(text.len());
        }
        len
    }

    /// How many calls of a device it makes.
    fn calls(&self, device: Device) -> usize {
        match device {
            Device::Shelf => self.reads.saturating_add(self.writes.len()),
            Device::Out => self.out.len(),
            Device::Err => self.err_len(),
        }
    }

    /// Whether a failure of this call is tried: each of the shortest commands, and of others the first three and those
    /// from the last but one on.
    fn is_tried(&self, device: Device, call: usize) -> bool {
        self.words.len() <= RUN.words.len()
            || call <= 3
            || call.saturating_add(1) >= self.calls(device)
    }

    /// What is done where a call fails: all that stands before it, and nothing behind it. Where it makes no such call, all
    /// is done.
    fn done(&self, failing: Failing) -> Done {
        let all = Done {
            status: self.status,
            out: self.out.len(),
            writes: self.writes.len(),
            err: self.err_len(),
        };
        let before = failing.call.saturating_sub(1);
        if failing.call == 0 || failing.call > self.calls(failing.device) {
            return all;
        }
        match failing.device {
            Device::Shelf if before < self.reads => Done {
                status: 4,
                out: 0,
                writes: 0,
                err: 0,
            },
            Device::Shelf => Done {
                status: 4,
                writes: before.saturating_sub(self.reads),
                err: 0,
                ..all
            },
            Device::Out => Done {
                status: 4,
                out: before,
                writes: 0,
                err: 0,
            },
            Device::Err => Done {
                status: 4,
                err: before,
                ..all
            },
        }
    }

    /// The contents of a file that may be written, after the first so many writes.
    fn contents(&self, name: &str, writes: usize) -> &[u8] {
        for (index, (written, bytes)) in self.writes.iter().enumerate() {
            if index < writes && *written == name {
                return bytes;
            }
        }
        BEFORE
    }

    /// Whether this is left of it.
    fn leaves(&self, alloc: Global, left: &Left, done: Done) -> Result<bool, Fail> {
        let mut err = Vec::new(alloc);
        for text in self.err {
            err.extend_from_slice(text.as_bytes())?;
        }
        let is_put = left.out.as_slice() == first(self.out.as_bytes(), done.out)
            && left.err.as_slice() == first(&err, done.err);
        let is_written = left.trace.as_slice() == self.contents("w", done.writes)
            && left.certificate.as_slice() == self.contents("x", done.writes);
        Ok(left.status == done.status && is_put && is_written)
    }
}

/// The first bytes of some.
fn first(bytes: &[u8], count: usize) -> &[u8] {
    bytes.get(..count).unwrap_or(bytes)
}

/// The first call of a device whose failure leaves something else of a command. Call 0 and the one behind the last are
/// never made: there nothing fails.
fn first_wrong<R: Threads + Wait + Sync>(
    rt: &R,
    alloc: Global,
    command: &Command,
    device: Device,
) -> Result<Option<usize>, Fail> {
    for call in 0..command.calls(device).saturating_add(2) {
        if command.is_tried(device, call)
            && !is_right(rt, alloc, command, Failing { device, call })?
        {
            return Ok(Some(call));
        }
    }
    Ok(None)
}

/// Whether what stands before a call that fails is done, and nothing behind it.
fn is_right<R: Threads + Wait + Sync>(
    rt: &R,
    alloc: Global,
    command: &Command,
    failing: Failing,
) -> Result<bool, Fail> {
    let left = what_is_left(rt, alloc, command.words, failing)?;
    command.leaves(alloc, &left, command.done(failing))
}

#[test]
fn what_stands_before_a_fault_is_done_and_nothing_behind_it(rt: HostRuntime) -> Result<(), Fail> {
    for command in COMMANDS {
        for device in [Device::Shelf, Device::Out, Device::Err] {
            let wrong = first_wrong(&rt, rt.alloc(), command, device)?;
            same_at(&rt, (device, command.words), wrong, None);
        }
    }
    Ok(())
}

/// Words that name a file that is not there.
const MISSING: &[&[&str]] = &[
    &["run", "none"],
    &["replay", "none", "t"],
    &["replay", "a", "none"],
    &["check", "none", "c"],
    &["check", "a", "none"],
];

#[test]
fn a_file_that_is_not_there_is_a_fault(rt: HostRuntime) -> Result<(), Fail> {
    let nothing = Failing {
        device: Device::Shelf,
        call: 0,
    };
    for words in MISSING {
        let left = what_is_left(&rt, rt.alloc(), words, nothing)?;
        let is_quiet = left.out.is_empty() && left.err.is_empty();
        assert!(rt; left.status == 4 && is_quiet, "{words:?}");
    }
    Ok(())
}

/// Which call of `gen` fails, the status, and whether the image is written then.
const OF_GEN: &[(Device, usize, u8, bool)] = &[
    (Device::Shelf, 1, 4, false),
    (Device::Out, 1, 0, true),
    (Device::Err, 1, 4, true),
    (Device::Err, 2, 4, true),
    (Device::Shelf, 2, 0, true),
];

// An image is written before its length is told, and nothing is asked of out.
#[test]
fn an_image_is_written_before_its_length_is_told(rt: HostRuntime) -> Result<(), Fail> {
    for (device, call, status, is_written) in OF_GEN {
        let failing = Failing {
            device: *device,
            call: *call,
        };
        let left = what_is_left(&rt, rt.alloc(), &["gen", "counter", "1", "w"], failing)?;
        let is_told = if *status == 0 {
            left.err.starts_with(b"wrote ")
        } else {
            left.err.as_slice() == first(b"w", call.saturating_sub(1))
        };
        let is_image = left.trace.starts_with(&HELLO[..4]);
        assert!(rt;
            left.status == *status && left.out.is_empty() && is_told && is_image == *is_written,
            "{failing:?}"
        );
    }
    Ok(())
}
