ghost use Rattle.std.specs.Prelude.{◌≡◌, IfOk};
ghost use Rattle.run_check.specs.Certified.{IsHistoryOf, IsStateOf};

use crate::asserts::same;
use chronicle::History;
use el_base::{Entry, Event, Freed, HartId, Kind, Losers, Outcome};
use el_io::SureShelf;
use elf_image::{Image, load};
use run_check::*;
use rv_flat::Flat;
use std::alloc::Global;
use std::process::Abort;
use std::test::Fail;
use worked_files::{CERTIFICATE, HELLO};

/// One byte of the certificate changed, and the fault that it shows.
#[derive(Drop)]
struct Change {
    place: usize,
    byte: u8,
    number: u8,
    shown: u32,
}

fn shows(place: usize, byte: u8, number: u8, shown: u32) -> Change {
    Change {
        place,
        byte,
        number,
        shown,
    }
}

fn image(alloc: Global) -> Result<Image, Fail> {
    Ok(load(alloc, &HELLO, 1).map_err(|_| "no image")?)
}

/// The verdict on a file that is to be a certificate.
fn verdict(rt: &impl Abort, alloc: Global, file: &[u8]) -> Result<Verdict, Fail> {
    let image = image(alloc)?;
    let certificate = read_certificate(alloc, file)?;
    assert!(rt; image.harts() == certificate.harts());
    Ok(check(alloc, &image, &certificate)?)
}

fn changed(alloc: Global, place: usize, byte: u8) -> Result<Vec<u8>, Fail> {
    let mut file = Vec::from_slice(alloc, &CERTIFICATE)?;
    if let Some(slot) = file.get_mut(place) {
        *slot = byte;
    }
    Ok(file)
}

#[test]
fn the_first_certificate_is_judged(rt: HostRuntime) -> Result<(), Fail> {
    let alloc = rt.alloc();
    same(
        &rt,
        verdict(&rt, alloc, &CERTIFICATE)?,
        Verdict::Holds { serial: 9 },
    );
    let short = verdict(&rt, alloc, &changed(alloc, 11, 8)?)?;
    same(
        &rt,
        short,
        Verdict::Fails {
            number: 1,
            place: 0,
        },
    );
    let long = verdict(&rt, alloc, &changed(alloc, 11, 10)?)?;
    same(&rt, long, Verdict::Holds { serial: 10 });
    let other = verdict(&rt, alloc, &changed(alloc, 158, 0x0b)?)?;
    same(
        &rt,
        other,
        Verdict::Fails {
            number: 2,
            place: 1,
        },
    );
    Ok(())
}

#[test]
fn each_fault_has_its_place(rt: HostRuntime) -> Result<(), Fail> {
    let cut = read_certificate(rt.alloc(), &CERTIFICATE[..162]);
    same(
        &rt,
        cut.err(),
        Some(CertFault::Bad {
            number: 1,
            place: 162,
        }),
    );
    let changes = [
        shows(3, 0x52, 2, 3),
        shows(4, 2, 3, 4),
        shows(5, 9, 4, 5),
        shows(10, 1, 5, 10),
        shows(14, 1, 5, 10),
        shows(143, 2, 6, 15),
        shows(148, 3, 6, 15),
        shows(156, 2, 7, 153),
        shows(162, 1, 8, 159),
        shows(159, 1, 1, 163),
    ];
    for change in changes.iter() {
        let file = changed(rt.alloc(), change.place, change.byte)?;
        let fault = CertFault::Bad {
            number: change.number,
            place: change.shown,
        };
        same(&rt, read_certificate(rt.alloc(), &file).err(), Some(fault));
    }
    let mut file = changed(rt.alloc(), 0, 0x45)?;
    file.push(0)?;
    same(
        &rt,
        read_certificate(rt.alloc(), &file).err(),
        Some(CertFault::Bad {
            number: 9,
            place: 163,
        }),
    );
    Ok(())
}

/// A history, and what a run of its serial order reached.
#[derive(Drop)]
struct Recorded {
    history: History,
    flat: Flat,
}

fn entry(kind: Kind, hart: HartId, outcome: Outcome) -> Entry
    ensures { result ≡ record { event = record { kind = kind; hart = hart }; outcome = outcome } }
{
    Entry {
        event: Event { kind, hart },
        outcome,
    }
}

/// Nine steps of hart 0, in one section.
fn nine_steps(alloc: Global, image: &Image) -> Result<Recorded, Fail>
    ensures history { IfOk result (λ made. IsHistoryOf image.now made.history.entries) }
    ensures state { IfOk result (λ made. IsStateOf image.now made.flat) }
{
    let hart = HartId { number: 0 };
    let mut flat = Flat::make(alloc, image)?;
    prove!(image.harts() >= 1);
    run_stretch(&mut flat, Stretch { hart, count: 9 });
    let mut history = History::make(alloc, 1)?;
    history.push(entry(Kind::Step, hart, Outcome::Committed { count: 9 }));
    Ok(Recorded { history, flat })
}

#[test]
fn the_first_certificate_is_written(rt: HostRuntime) -> Result<(), Fail> {
    let alloc = rt.alloc();
    let image = image(alloc)?;
    let made = nine_steps(alloc, &image)?;
    let mut shelf = SureShelf::make(alloc, &[], &[])?;
    write_certificate(alloc, &mut shelf, "c", &image, &made.history, &made.flat)?;
    same(&rt, shelf.contents("c"), CERTIFICATE.as_slice());
    Ok(())
}

/// The certificate of three harts that have made three, one and no steps: two stretches; the views, with 0x10060,
/// 0x10058 and 0x10054 as their pc, 0x40080, 0x30080 and 0x20080 in x2, 1, 1 and 2 in x10, and 0x10078, 3 and 3
/// in x11; no output and no line.
const THREE_HARTS: [u8; 442] = [
    0x45, 0x4c, 0x43, 0x54, 0x01, 0x03, 0x02, 0x00, 0x00, 0x00, 0x00, 0x03, 0x00, 0x00, 0x00, 0x01,
    0x01, 0x00, 0x00, 0x00, 0x60, 0x00, 0x01, 0x00, 0x00, 0x00, 0x00, 0x00, 0x80, 0x00, 0x04, 0x00,
    0x00, 0x00, 0x00, 0x00, 0x00, 0x00, 0x00, 0x00, 0x00, 0x00, 0x00, 0x00, 0x00, 0x00, 0x00, 0x00,
    0x00, 0x00, 0x00, 0x00, 0x00, 0x00, 0x00, 0x00, 0x00, 0x00, 0x00, 0x00, 0x01, 0x00, 0x00, 0x00,
    0x78, 0x00, 0x01, 0x00, 0x00, 0x00, 0x00, 0x00, 0x00, 0x00, 0x00, 0x00, 0x00, 0x00, 0x00, 0x00,
    0x00, 0x00, 0x00, 0x00, 0x00, 0x00, 0x00, 0x00, 0x00, 0x00, 0x00, 0x00, 0x00, 0x00, 0x00, 0x00,
    0x00, 0x00, 0x00, 0x00, 0x00, 0x00, 0x00, 0x00, 0x00, 0x00, 0x00, 0x00, 0x00, 0x00, 0x00, 0x00,
    0x00, 0x00, 0x00, 0x00, 0x00, 0x00, 0x00, 0x00, 0x00, 0x00, 0x00, 0x00, 0x00, 0x00, 0x00, 0x00,
    0x00, 0x00, 0x00, 0x00, 0x00, 0x00, 0x00, 0x00, 0x00, 0x00, 0x00, 0x00, 0x00, 0x00, 0x00, 0x00,
    0x00, 0x00, 0x00, 0x00, 0x00, 0x00, 0x00, 0x00, 0x00, 0x00, 0x00, 0x00, 0x00, 0x00, 0x58, 0x00,
    0x01, 0x00, 0x00, 0x00, 0x00, 0x00, 0x80, 0x00, 0x03, 0x00, 0x00, 0x00, 0x00, 0x00, 0x00, 0x00,
    0x00, 0x00, 0x00, 0x00, 0x00, 0x00, 0x00, 0x00, 0x00, 0x00, 0x00, 0x00, 0x00, 0x00, 0x00, 0x00,
    0x00, 0x00, 0x00, 0x00, 0x00, 0x00, 0x01, 0x00, 0x00, 0x00, 0x03, 0x00, 0x00, 0x00, 0x00, 0x00,
    0x00, 0x00, 0x00, 0x00, 0x00, 0x00, 0x00, 0x00, 0x00, 0x00, 0x00, 0x00, 0x00, 0x00, 0x00, 0x00,
    0x00, 0x00, 0x00, 0x00, 0x00, 0x00, 0x00, 0x00, 0x00, 0x00, 0x00, 0x00, 0x00, 0x00, 0x00, 0x00,
    0x00, 0x00, 0x00, 0x00, 0x00, 0x00, 0x00, 0x00, 0x00, 0x00, 0x00, 0x00, 0x00, 0x00, 0x00, 0x00,
    0x00, 0x00, 0x00, 0x00, 0x00, 0x00, 0x00, 0x00, 0x00, 0x00, 0x00, 0x00, 0x00, 0x00, 0x00, 0x00,
    0x00, 0x00, 0x00, 0x00, 0x00, 0x00, 0x00, 0x00, 0x00, 0x00, 0x00, 0x00, 0x00, 0x00, 0x00, 0x00,
    0x00, 0x00, 0x00, 0x00, 0x00, 0x00, 0x00, 0x00, 0x54, 0x00, 0x01, 0x00, 0x00, 0x00, 0x00, 0x00,
    0x80, 0x00, 0x02, 0x00, 0x00, 0x00, 0x00, 0x00, 0x00, 0x00, 0x00, 0x00, 0x00, 0x00, 0x00, 0x00,
    0x00, 0x00, 0x00, 0x00, 0x00, 0x00, 0x00, 0x00, 0x00, 0x00, 0x00, 0x00, 0x00, 0x00, 0x00, 0x00,
    0x02, 0x00, 0x00, 0x00, 0x03, 0x00, 0x00, 0x00, 0x00, 0x00, 0x00, 0x00, 0x00, 0x00, 0x00, 0x00,
    0x00, 0x00, 0x00, 0x00, 0x00, 0x00, 0x00, 0x00, 0x00, 0x00, 0x00, 0x00, 0x00, 0x00, 0x00, 0x00,
    0x00, 0x00, 0x00, 0x00, 0x00, 0x00, 0x00, 0x00, 0x00, 0x00, 0x00, 0x00, 0x00, 0x00, 0x00, 0x00,
    0x00, 0x00, 0x00, 0x00, 0x00, 0x00, 0x00, 0x00, 0x00, 0x00, 0x00, 0x00, 0x00, 0x00, 0x00, 0x00,
    0x00, 0x00, 0x00, 0x00, 0x00, 0x00, 0x00, 0x00, 0x00, 0x00, 0x00, 0x00, 0x00, 0x00, 0x00, 0x00,
    0x00, 0x00, 0x00, 0x00, 0x00, 0x00, 0x00, 0x00, 0x00, 0x00, 0x00, 0x00, 0x00, 0x00, 0x00, 0x00,
    0x00, 0x00, 0x00, 0x00, 0x00, 0x00, 0x00, 0x00, 0x00, 0x00,
];

/// An instruction of hart 0, and an order of hart 2 by which two more of hart 0 and one of hart 1 took effect.
fn two_freed(alloc: Global, image: &Image) -> Result<Recorded, Fail>
    requires { image.now.harts ≡ 3 }
    ensures history { IfOk result (λ made. IsHistoryOf image.now made.history.entries) }
    ensures state { IfOk result (λ made. IsStateOf image.now made.flat) }
{
    let first = HartId { number: 0 };
    let second = HartId { number: 1 };
    let third = HartId { number: 2 };
    let mut flat = Flat::make(alloc, image)?;
    run_stretch(
        &mut flat,
        Stretch {
            hart: first,
            count: 3,
        },
    );
    run_stretch(
        &mut flat,
        Stretch {
            hart: second,
            count: 1,
        },
    );
    let losers = Losers::none();
    let freed = Freed::none().with(second, 1).with(first, 2);
    let mut history = History::make(alloc, 2)?;
    history.push(entry(Kind::Step, first, Outcome::Ran));
    history.push(entry(Kind::Order, third, Outcome::Ordered { losers, freed }));
    Ok(Recorded { history, flat })
}

#[test]
fn freed_harts_are_certified(rt: HostRuntime) -> Result<(), Fail> {
    let alloc = rt.alloc();
    let image = load(alloc, &HELLO, 3).map_err(|_| "no image")?;
    assert!(rt; image.harts() == 3);
    let made = two_freed(alloc, &image)?;
    let mut shelf = SureShelf::make(alloc, &[], &[])?;
    write_certificate(alloc, &mut shelf, "c", &image, &made.history, &made.flat)?;
    same(&rt, shelf.contents("c"), THREE_HARTS.as_slice());
    Ok(())
}
