//! What the harts stand at that still run.

use crate::stop::Stop;
use el_base::{Chronicled, HartId};
use el_io::{Sink, put_all};
use elf_symbols::Symbols;
use lab::{tabulate, wait_of};
use lab_text::write_wait;
use machine::Machine;
use rv_alu::HartStatus;
use std::alloc::Global;

/// Puts a line for each hart that still runs: where it stands, what it waits for, who beat it how often, and since when
/// no instruction of it took effect.
pub(crate) fn put_waits<O: Sink>(
    alloc: Global,
    out: &mut O,
    machine: &Machine,
    symbols: &Symbols,
) -> Result<(), Stop<'static>> {
    let times = tabulate(machine.history());
    let mut text = String::new(alloc);
    for number in 0..machine.config().harts {
        let hart = HartId { number };
        if machine.hart(hart).status == HartStatus::Running {
            let wait = wait_of(machine, hart);
            write_wait(
                &mut text,
                hart,
                &wait,
                &times,
                machine.history().length(),
                symbols,
            )?;
        }
    }
    put_all(out, text.as_bytes())?;
    Ok(())
}
