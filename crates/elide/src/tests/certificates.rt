//! Certificates of runs, and what is found of them.
use crate::tests::asserts::same;
use crate::tests::support::{Ending, REPORT, answer, changed, resized};
use std::test::Fail;
use worked_files::{CERTIFICATE, HELLO, TRACE};

/// Whether the program ended with this status and put these bytes.
fn ended(ending: &Ending, status: u8, out: &[u8], err: &[u8]) -> bool {
    ending.status.number() == status && ending.out.as_slice() == out && ending.err.as_slice() == err
}

/// A byte of the certificate that is written over, and what is found then.
#[derive(Clone, Copy)]
struct Found {
    place: usize,
    value: u8,
    status: u8,
    line: &'static str,
}

const FOUND: &[Found] = &[
    Found {
        place: 0,
        value: 0x45,
        status: 0,
        line: "certificate holds, serial 9 out 2\n",
    },
    Found {
        place: 11,
        value: 8,
        status: 7,
        line: "certificate fails 1 View at 0\n",
    },
    Found {
        place: 11,
        value: 10,
        status: 0,
        line: "certificate holds, serial 10 out 2\n",
    },
    Found {
        place: 4,
        value: 2,
        status: 2,
        line: "certificate fault 3 Version at byte 4\n",
    },
];

/// The certificate has nine steps in one stretch, one view, two bytes of output, and no line.
#[test]
fn a_certificate_is_written_and_judged(rt: HostRuntime) -> Result<(), Fail> {
    let ran = answer(&rt, rt.alloc(), &["run", "a", "--cert", "t"], &HELLO, &[])?;
    assert!(rt; ended(&ran, 0, b"A\n", REPORT.as_bytes()));
    same(&rt, ran.written.as_slice(), CERTIFICATE.as_slice());
    for row in FOUND {
        let certificate = changed(rt.alloc(), &CERTIFICATE, row.place, row.value)?;
        let found = answer(&rt, rt.alloc(), &["check", "a", "t"], &HELLO, &certificate)?;
        assert!(rt;
            ended(&found, row.status, &[], row.line.as_bytes()),
            "{}",
            row.line
        );
    }
    Ok(())
}

#[test]
fn cut_certificates_fault_where_they_end(rt: HostRuntime) -> Result<(), Fail> {
    for length in 0..CERTIFICATE.len() {
        let short = resized(rt.alloc(), &CERTIFICATE, length, 0)?;
        let found = answer(&rt, rt.alloc(), &["check", "a", "t"], &HELLO, &short)?;
        let line = format!(in rt.alloc(); "certificate fault 1 Short at byte {length}\n")?;
        assert!(rt; ended(&found, 2, &[], line.as_bytes()), "{line}");
    }
    Ok(())
}

/// Four turns of one driver are those of the round robin, which begins anew behind them.
#[test]
fn a_run_goes_on_behind_its_drivers(rt: HostRuntime) -> Result<(), Fail> {
    let words = ["run", "a", "--threads", "4", "--trace", "t"];
    let ran = answer(&rt, rt.alloc(), &words, &HELLO, &[])?;
    assert!(rt; ended(&ran, 0, b"A\n", REPORT.as_bytes()));
    same(&rt, ran.written.as_slice(), TRACE.as_slice());
    Ok(())
}
