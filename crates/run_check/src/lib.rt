//! Certificates: what a run of a program came to, with its serial order, for plain memory to judge.
//!
//! It stands on the plain machine of `rv_flat`, the images of `elf_image`, the histories of `chronicle` and the
//! shelves of `el_io`, and on no cache, bus or section. A file is a certificate or has one first fault. `check` runs
//! the serial order on plain memory and answers `Holds` exactly where the views, the output and the memory of the
//! certificate come of it. What `write_certificate` writes of a run's history, and of what was reached, holds.
//!
//! Where a doc comment names no other source, its rule is this project's profile.
#![tactic(auto)]

mod certifying;
mod checking;
mod content;
mod fault;
mod fields;
mod judging;
mod reached;
mod reading;
mod stretches;
mod theorems;
mod verdict;
mod writing;

pub use certifying::certify;
pub use checking::{check, run_stretch};
pub use content::{Certificate, Patch, Stretch};
pub use fault::{CertFault, FaultKind};
pub use judging::MAX_FILE_BYTES;
pub use reached::Reached;
pub use reading::read_certificate;
pub use theorems::{
    grammar, one_verdict, reached_states_can_be_certified, written_certificates_hold,
};
pub use verdict::{Difference, Verdict};
pub use writing::write_certificate;
