use el_base::Mode;
use workload::Work;

/// The most turns of each driver.
pub const MAX_TURNS: u32 = 16_777_216;

/// What a command line asks for.
#[derive(Clone, Copy, Debug, PartialEq, Eq)]
pub enum Command<'a> {
    /// Run an image.
    Run(RunCommand<'a>),
    /// Make the events of a trace again, on the image that it was made with.
    Replay(ReplayCommand<'a>),
    /// Judge a certificate of a run of its image.
    Check {
        image: &'a str,
        certificate: &'a str,
    },
    /// Show the committed state at a place of a trace.
    Look(LookCommand<'a>),
    /// Find where in a trace a hart comes to a pc.
    Find(FindCommand<'a>),
    /// Write an image of this kind, made from a number, to a file.
    Gen {
        kind: Work,
        number: u32,
        file: &'a str,
    },
}

/// `run IMAGE` with its options, as they are given: [`RunCommand::config`] judges the numbers, and says
/// what stands for an option that is not given.
#[derive(Clone, Copy, Debug, PartialEq, Eq)]
pub struct RunCommand<'a> {
    /// The file of the image.
    pub image: &'a str,
    /// `--mode`, how the machine treats an acquire.
    pub mode: Option<Mode>,
    /// `--harts`, the number of harts.
    pub harts: Option<u32>,
    /// `--sets`, the sets in each cache.
    pub sets: Option<u32>,
    /// `--ways`, the lines in each set.
    pub ways: Option<u32>,
    /// `--lines`, the most lines that a section may write.
    pub lines: Option<u32>,
    /// `--long`, the most instructions that a section may run.
    pub long: Option<u32>,
    /// `--steps`, the most events of the run.
    pub steps: Option<u32>,
    /// `--threads`, the turns of each driver before the round robin, 1 to 16,777,216.
    pub threads: Option<u32>,
    /// `--trace`, the file that the trace is to be written to.
    pub trace: Option<&'a str>,
    /// `--cert`, the file that the certificate of the run is to be written to.
    pub certificate: Option<&'a str>,
    /// `--times`, whether the report is to be followed by the costs and waits.
    pub times: bool,
}

/// `replay IMAGE TRACE` with its options.
#[derive(Clone, Copy, Debug, PartialEq, Eq)]
pub struct ReplayCommand<'a> {
    /// The file of the image.
    pub image: &'a str,
    /// The file of the trace whose events are made again.
    pub trace: &'a str,
    /// `--trace`, the file that the followed run is to be written to as a trace.
    pub written: Option<&'a str>,
    /// `--times`, whether the report is to be followed by the costs and waits.
    pub times: bool,
}

/// `look IMAGE TRACE PLACE` with its option.
#[derive(Clone, Copy, Debug, PartialEq, Eq)]
pub struct LookCommand<'a> {
    /// The file of the image.
    pub image: &'a str,
    /// The file of the trace.
    pub trace: &'a str,
    /// The place to go to: how many of the trace's events have been made there.
    pub place: u32,
    /// `--back`, how many places to go back from there; 0 where it is not given.
    pub back: u32,
}

/// `find IMAGE TRACE HART PC`.
#[derive(Clone, Copy, Debug, PartialEq, Eq)]
pub struct FindCommand<'a> {
    /// The file of the image.
    pub image: &'a str,
    /// The file of the trace.
    pub trace: &'a str,
    /// The number of the hart.
    pub hart: u32,
    /// The pc that it comes to.
    pub pc: u32,
}
