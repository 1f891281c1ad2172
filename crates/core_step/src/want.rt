ghost use Rattle.std.specs.Prelude.{◌≡◌};
ghost use Rattle.el_base.specs.Line.{line_number};
ghost use Rattle.core_step.specs.Run.{lacking, refused};

use crate::port::Port;
use el_base::{LineAddr, Need, line_of};
use rv_alu::Access;

/// A line that an instruction touches, and for what.
#[derive(Clone, Copy, Debug, PartialEq, Eq)]
pub(crate) struct Want {
    pub(crate) line: LineAddr,
    pub(crate) need: Need,
}

/// What an access lacks, if it touches a line that the port does not permit.
pub(crate) fn lack<P: Port>(port: &P, access: Access) -> Option<Want>
    ensures { result ≡ lacking (P.permits port.now) access }
{
    match access {
        Access::Read { address, .. } => refused(port, address, Need::Read),
        Access::Write { address, .. } => refused(port, address, Need::Write),
        _ => None,
    }
}

/// The line of an address, where the port does not permit it for a need.
fn refused<P: Port>(port: &P, address: u32, need: Need) -> Option<Want>
    ensures { result ≡ refused (P.permits port.now) (line_number address) need }
{
    let line = line_of(address);
    if port.ask(line, need) {
        None
    } else {
        Some(Want { line, need })
    }
}
