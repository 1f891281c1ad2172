//! What `doing` hands on to `telling`.

use crate::difference::Difference;
use drive::Machine;
use el_base::HartId;
use elf_image::Image;
use run_check::Verdict;
use step_back::Timeline;

/// What a command has made, of which nothing was put or written yet.
#[derive(Drop)]
pub(crate) enum Made<'a> {
    /// A run that has ended, and what it is to tell besides its output and its report.
    Run {
        machine: Machine,
        extras: Extras<'a>,
    },
    /// A replay of which another outcome came than its trace records.
    Differs(Difference),
    /// A place of a trace, which is to be shown.
    Place(Timeline),
    /// A trace, and a hart and a pc that are sought in it.
    Sought {
        timeline: Timeline,
        hart: HartId,
        pc: u32,
    },
    /// The bytes of an image, and the name of the file for them.
    Image {
        bytes: Vec<u8>,
        file: &'a str,
    },
    /// What was found of a certificate, and the length of the output that it tells.
    Judged {
        verdict: Verdict,
        output: usize,
    },
}

/// What a run is to tell besides its output and its report.
#[derive(Drop)]
pub(crate) struct Extras<'a> {
    /// The name of the file for its trace, where one is asked for.
    pub(crate) trace: Option<&'a str>,
    /// What its certificate is written with, where one is asked for.
    pub(crate) certified: Option<Certified<'a>>,
    /// Whether its times are asked for.
    pub(crate) times: bool,
}

/// What the certificate of a run is written with: a copy of its image, and the name of its file.
#[derive(Drop)]
pub(crate) struct Certified<'a> {
    pub(crate) image: Image,
    pub(crate) name: &'a str,
}
