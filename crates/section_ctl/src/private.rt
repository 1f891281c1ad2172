use crate::armed::Reserved;
use crate::live::Live;

/// What a hart keeps private.
#[derive(Clone, Copy, Debug, PartialEq, Eq)]
pub(crate) enum Private {
    Nothing,
    Armed(Reserved),
    Live(Live),
}
