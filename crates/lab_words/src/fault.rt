use clap::Error;
use clap::error::ErrorKind;
use std::alloc::AllocError;

/// Why words are no command.
#[derive(Debug, Drop)]
pub enum WordsFault {
    /// Help or the version is asked for. This text is to be put to standard output.
    Shown { text: String },
    /// The words are outside of the grammar. This text says how, and what can be written in their place.
    Usage { text: String },
    /// Out of memory.
    NoMemory,
}

impl From<AllocError> for WordsFault {
    fn from(_error: AllocError) -> WordsFault {
        WordsFault::NoMemory
    }
}

impl WordsFault {
    /// The fault that an error of `clap` tells, with its text.
    pub(crate) fn of(error: &Error, text: String) -> WordsFault {
        match error.kind() {
            ErrorKind::OutOfMemory => WordsFault::NoMemory,
            ErrorKind::DisplayHelp | ErrorKind::DisplayVersion => WordsFault::Shown { text },
            _ => WordsFault::Usage { text },
        }
    }
}
