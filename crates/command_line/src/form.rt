//! Which words there are: what each command takes after its name.

/// The names of a command's positional words, of its options and of its flags, each of them once.
#[derive(Clone, Copy, Debug)]
pub(crate) struct Form {
    /// The positional words, in their order. Each of them is required.
    pub(crate) positionals: &'static [&'static str],
    /// The options. Each of them has one value and may be given once.
    pub(crate) options: &'static [&'static str],
    /// The flags. Each of them has no value and may be given once.
    pub(crate) flags: &'static [&'static str],
}

/// What `run` takes.
pub(crate) const RUN: Form = Form {
    positionals: &["image"],
    options: &[
        "mode", "harts", "sets", "ways", "lines", "long", "steps", "threads", "trace", "cert",
    ],
    flags: &["times"],
};

/// What `replay` takes. The trace that it makes again has a name apart from that of the option, since
/// nothing tells two fields of one name apart.
pub(crate) const REPLAY: Form = Form {
    positionals: &["image", "recorded"],
    options: &["trace"],
    flags: &["times"],
};

/// What `check` takes.
pub(crate) const CHECK: Form = Form {
    positionals: &["image", "cert"],
    options: &[],
    flags: &[],
};

/// What `gen` takes.
pub(crate) const GEN: Form = Form {
    positionals: &["kind", "number", "file"],
    options: &[],
    flags: &[],
};

/// What `look` takes.
pub(crate) const LOOK: Form = Form {
    positionals: &["image", "trace", "place"],
    options: &["back"],
    flags: &[],
};

/// What `find` takes.
pub(crate) const FIND: Form = Form {
    positionals: &["image", "trace", "hart", "pc"],
    options: &[],
    flags: &[],
};
