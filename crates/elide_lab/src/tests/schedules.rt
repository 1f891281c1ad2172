use crate::tests::asserts::same;
use el_base::{Chronicled, Config, Event, HartId, Kind, Mode};
use elf_image::load;
use lab_run::*;
use machine::Machine;
use std::alloc::Global;
use std::process::Abort;
use std::test::Fail;
use worked_files::HELLO;

/// The events of three harts that the first numbers of SplitMix64 for the seed 1234567 stand for, as the page
/// 'Pseudo-random numbers/Splitmix64' of Rosetta Code has them: 6457827717110365317, 3203168211198807973,
/// 9817491932198370423, 4593380528125082431, 16408922859458223821, each modulo 12.
const DRAWN: [(Kind, u8); 5] = [
    (Kind::Order, 2),
    (Kind::Order, 0),
    (Kind::Deliver, 0),
    (Kind::Deliver, 1),
    (Kind::Order, 1),
];

fn event(kind: Kind, number: u8) -> Result<Event, Fail> {
    let hart = HartId::new(number).ok_or("no such hart")?;
    Ok(Event { kind, hart })
}

fn machine(rt: &impl Abort, alloc: Global, harts: u8, steps: u32) -> Result<Machine, Fail> {
    assert!(rt; (1..=8).contains(&harts));
    let image = load(alloc, &HELLO, harts).map_err(|_| "no image")?;
    assert_eq!(rt; image.harts(), harts);
    let config = Config {
        harts,
        mode: Mode::Tlr,
        steps,
        ..Config::usual()
    };
    Ok(Machine::make(alloc, image, config).map_err(|_| "no machine")?)
}

#[test]
fn a_seed_draws_the_events_of_a_run(rt: HostRuntime) -> Result<(), Fail> {
    let mut machine = machine(&rt, rt.alloc(), 3, 5)?;
    run_drawn(&mut machine, 1_234_567);
    let history = machine.history();
    same(&rt, history.length(), 5);
    for (place, (kind, number)) in DRAWN.into_iter().enumerate() {
        assert!(rt; place < history.length() as usize);
        same(&rt, history.entry(place as u32).event, event(kind, number)?);
    }
    Ok(())
}

/// Each seed brings three harts to their end, with the program's output once a hart.
#[test]
fn drawn_runs_come_to_their_end(rt: HostRuntime) -> Result<(), Fail> {
    for seed in 0..5 {
        let mut machine = machine(&rt, rt.alloc(), 3, 100_000)?;
        run_drawn(&mut machine, seed);
        assert!(rt; machine.over());
        same(&rt, machine.output(), b"A\nA\nA\n".as_slice());
        same(&rt, machine.history().serial_len(), 27);
    }
    Ok(())
}
