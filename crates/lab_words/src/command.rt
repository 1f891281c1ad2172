use el_base::Config;

/// What a command line asks for.
#[derive(Clone, Copy, Debug, PartialEq, Eq)]
pub enum Command<'a> {
    /// A line for each event of a range that did something.
    Show(ShowCommand<'a>),
    /// The machine before the event at this place.
    State { traced: Traced<'a>, place: u32 },
    /// A row for each acquire.
    Locks { traced: Traced<'a>, layout: Layout },
    /// A row for each line.
    Lines { traced: Traced<'a>, layout: Layout },
    /// A page with a picture, written to a file.
    Page { traced: Traced<'a>, file: &'a str },
    /// Run an image by another schedule than the round robin.
    Run(RunCommand<'a>),
    /// What a trace says of itself.
    Info { trace: &'a str },
}

/// An image and a trace of a run of it, by the names of their files.
#[derive(Clone, Copy, Debug, PartialEq, Eq)]
pub struct Traced<'a> {
    pub image: &'a str,
    pub trace: &'a str,
}

/// How a table is laid out.
#[derive(Clone, Copy, Debug, PartialEq, Eq)]
pub enum Layout {
    /// A line a row, to be read.
    Text,
    /// An object of JSON a row and a line.
    Json,
    /// A row of comma-separated values (RFC 4180), behind a row of names.
    Csv,
}

/// `show IMAGE TRACE` with its options.
#[derive(Clone, Copy, Debug, PartialEq, Eq)]
pub struct ShowCommand<'a> {
    pub traced: Traced<'a>,
    pub range: Range,
    /// `--all`: events that did nothing are shown too.
    pub all: bool,
    /// `--json`: an object of JSON a line.
    pub json: bool,
}

/// Which events are meant.
#[derive(Clone, Copy, Debug, PartialEq, Eq)]
pub struct Range {
    /// `--from`: the place of the first.
    pub from: u32,
    /// `--to`: the place of the last.
    pub to: u32,
    /// `--hart`: those of this hart alone.
    pub hart: Option<u8>,
    /// `--at`: those alone that have to do with this address or its line.
    pub at: Option<u32>,
}

/// Which events a run makes.
#[derive(Clone, Copy, Debug, PartialEq, Eq)]
pub enum Schedule<'a> {
    /// `--random`: they are drawn from this number, until every hart has stopped or the steps are used up.
    Random { seed: u64 },
    /// `--order`: the file of this name lists them.
    Order { file: &'a str },
}

/// `run IMAGE` with its options.
#[derive(Clone, Copy, Debug, PartialEq, Eq)]
pub struct RunCommand<'a> {
    /// The file of the image.
    pub image: &'a str,
    /// What the machine is made with. No field has been judged.
    pub config: Config,
    pub schedule: Schedule<'a>,
    /// `--trace`: the file that the trace is to be written to.
    pub trace: Option<&'a str>,
}
