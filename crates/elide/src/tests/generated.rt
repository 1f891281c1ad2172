//! Images that are generated: what they print, and that they are the same each time.
use crate::tests::asserts::{same, same_at};
use crate::tests::support::{Ending, answer};
use std::alloc::Global;
use std::sync::Wait;
use std::test::Fail;
use std::thread::Threads;
use worked_files::HELLO;

const KINDS: [&str; 6] = ["counter", "bank", "buckets", "locks", "overflow", "pairs"];

/// The answer to `gen`, with the image that it writes.
fn generated<R: Threads + Wait + Sync>(
    rt: &R,
    alloc: Global,
    kind: &str,
    number: &str,
) -> Result<Ending, Fail> {
    answer(rt, alloc, &["gen", kind, number, "t"], &[], &[])
}

/// A run of an image on so many harts.
fn run_on<R: Threads + Wait + Sync>(
    rt: &R,
    alloc: Global,
    image: &[u8],
    harts: &str,
) -> Result<Ending, Fail> {
    let words = ["run", "a", "--harts", harts, "--steps", "16777216"];
    answer(rt, alloc, &words, image, &[])
}

/// Each hart exited with 0, and this was printed.
fn prints(ending: &Ending, told: &str) -> bool {
    ending.status.number() == 0 && ending.out.as_slice() == told.as_bytes()
}

#[test]
fn an_image_is_written_and_its_length_told(rt: HostRuntime) -> Result<(), Fail> {
    for kind in KINDS {
        let ending = generated(&rt, rt.alloc(), kind, "3")?;
        let line = format!(in rt.alloc(); "wrote {} bytes\n", ending.written.len())?;
        assert!(rt; prints(&ending, ""), "{kind}");
        same_at(&rt, kind, ending.err.as_slice(), line.as_bytes());
        assert!(rt; ending.written.starts_with(&HELLO[..4]), "{kind}");
    }
    Ok(())
}

/// What an image of a kind that was made with 3 prints on 1, 2, 4 and 8 harts, one after the other: the sum of what
/// every hart adds, or all that there is in a bank.
fn told_on_1_2_4_and_8<R: Threads + Wait + Sync>(
    rt: &R,
    alloc: Global,
    kind: &str,
) -> Result<Vec<u8>, Fail> {
    let image = generated(rt, alloc, kind, "3")?.written;
    let mut told = Vec::new(alloc);
    for harts in ["1", "2", "4", "8"] {
        let ending = run_on(rt, alloc, &image, harts)?;
        if ending.status.number() != 0 {
            return Err("a hart did not exit with 0".into());
        }
        told.extend_from_slice(&ending.out)?;
    }
    Ok(told)
}

#[test]
fn each_hart_adds_100_to_a_counter(rt: HostRuntime) -> Result<(), Fail> {
    for kind in ["counter", "pairs"] {
        let told = told_on_1_2_4_and_8(&rt, rt.alloc(), kind)?;
        same_at(
            &rt,
            kind,
            told.as_slice(),
            b"00000064\n000000c8\n00000190\n00000320\n".as_slice(),
        );
    }
    Ok(())
}

#[test]
fn a_bank_keeps_what_it_has(rt: HostRuntime) -> Result<(), Fail> {
    let told = told_on_1_2_4_and_8(&rt, rt.alloc(), "bank")?;
    same(
        &rt,
        told.as_slice(),
        b"0000fa00\n0000fa00\n0000fa00\n0000fa00\n".as_slice(),
    );
    Ok(())
}

#[test]
fn each_hart_adds_200_to_buckets(rt: HostRuntime) -> Result<(), Fail> {
    let told = told_on_1_2_4_and_8(&rt, rt.alloc(), "buckets")?;
    same(
        &rt,
        told.as_slice(),
        b"000000c8\n00000190\n00000320\n00000640\n".as_slice(),
    );
    Ok(())
}

#[test]
fn each_hart_adds_200_under_two_locks(rt: HostRuntime) -> Result<(), Fail> {
    let told = told_on_1_2_4_and_8(&rt, rt.alloc(), "locks")?;
    same(
        &rt,
        told.as_slice(),
        b"000000c8\n00000190\n00000320\n00000640\n".as_slice(),
    );
    Ok(())
}

#[test]
fn each_hart_adds_400_to_20_words(rt: HostRuntime) -> Result<(), Fail> {
    let told = told_on_1_2_4_and_8(&rt, rt.alloc(), "overflow")?;
    same(
        &rt,
        told.as_slice(),
        b"00000190\n00000320\n00000640\n00000c80\n".as_slice(),
    );
    Ok(())
}

#[test]
fn each_mode_prints_the_sum_of_8_harts(rt: HostRuntime) -> Result<(), Fail> {
    for kind in ["counter", "pairs"] {
        let image = generated(&rt, rt.alloc(), kind, "1")?.written;
        for mode in ["plain", "sle", "tlr"] {
            let words = [
                "run", "a", "--mode", mode, "--harts", "8", "--steps", "16777216",
            ];
            let ending = answer(&rt, rt.alloc(), &words, &image, &[])?;
            assert!(rt; prints(&ending, "00000320\n"), "{kind} {mode}");
        }
    }
    Ok(())
}

// The number is the one that drawing begins with, and what is drawn never changes a sum.
#[test]
fn another_number_prints_the_same_sum(rt: HostRuntime) -> Result<(), Fail> {
    for number in ["1", "2"] {
        let image = generated(&rt, rt.alloc(), "buckets", number)?.written;
        let ending = run_on(&rt, rt.alloc(), &image, "8")?;
        assert!(rt; prints(&ending, "00000640\n"), "{number}");
    }
    Ok(())
}

#[test]
fn a_counter_ends_within_the_usual_steps(rt: HostRuntime) -> Result<(), Fail> {
    let image = generated(&rt, rt.alloc(), "counter", "1")?.written;
    let ending = answer(&rt, rt.alloc(), &["run", "a", "--harts", "8"], &image, &[])?;
    assert!(rt; prints(&ending, "00000320\n"));
    Ok(())
}

#[test]
fn a_second_run_says_the_same(rt: HostRuntime) -> Result<(), Fail> {
    let image = generated(&rt, rt.alloc(), "bank", "7")?.written;
    let first = run_on(&rt, rt.alloc(), &image, "8")?;
    let second = run_on(&rt, rt.alloc(), &image, "8")?;
    assert!(rt; prints(&first, "0000fa00\n"));
    assert!(rt; prints(&second, "0000fa00\n"));
    same(&rt, first.err.as_slice(), second.err.as_slice());
    Ok(())
}

#[test]
fn a_number_gives_the_same_file_each_time_and_another_gives_another(
    rt: HostRuntime,
) -> Result<(), Fail> {
    for kind in KINDS {
        let first = generated(&rt, rt.alloc(), kind, "7")?.written;
        let again = generated(&rt, rt.alloc(), kind, "0000000007")?.written;
        let other = generated(&rt, rt.alloc(), kind, "4294967295")?.written;
        assert!(rt; first == again, "{kind}");
        assert!(rt; first != other, "{kind}");
    }
    Ok(())
}
