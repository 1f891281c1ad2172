//! A machine whose run has ended, as what a certificate is written of.

use drive::Machine;
use el_base::HartId;
use run_check::Reached;
use rv_alu::HartView;

/// What a run has reached.
#[derive(Clone, Copy)]
pub(crate) struct Ended<'a> {
    pub(crate) machine: &'a Machine,
}

impl Reached for Ended<'_> {
    ghost use Rattle.drive.specs.Story.{committed};

    ghost state = { λ ended. committed ended.machine.now };

    fn view(&self, hart: HartId) -> HartView {
        // The configuration has as many harts as the state.
        let _config = self.machine.config();
        self.machine.hart(hart)
    }

    fn byte(&self, address: u32) -> Option<u8> {
        self.machine.byte(address)
    }

    fn output(&self) -> &[u8] {
        self.machine.output()
    }
}
