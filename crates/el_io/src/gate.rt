use el_base::HartId;
use std::sync::Wait;

/// What the drivers of a run on threads pass before each of their turns.
///
/// A gate is for who wants a say in how drivers meet: it may keep a driver waiting, until another is there
/// for instance. It is given no part of the machine and tells nothing, so whatever it does, what a run
/// promises of the machine stays the same.
pub trait Gate {
    /// A driver, named by its hart, is about to take this turn, counted from 0. It may wait.
    fn pass<R: Wait>(&self, rt: &R, driver: HartId, turn: u32);
}

/// A gate that each driver passes at once.
#[derive(Clone, Copy, Debug, Default, PartialEq, Eq)]
pub struct OpenGate;

impl OpenGate {
    pub fn new() -> OpenGate {
        OpenGate
    }
}

impl Gate for OpenGate {
    fn pass<R: Wait>(&self, _rt: &R, _driver: HartId, _turn: u32) {}
}
