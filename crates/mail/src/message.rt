use el_base::HartId;

/// What one hart tells another, so that the oldest request of a chain is known to those that are in its
/// way. The idea of markers and probes is that of R. Rajwar and J. R. Goodman, 'Transactional Lock-Free
/// Execution of Lock-Based Programs', ASPLOS 2002.
#[derive(Clone, Copy, Debug, PartialEq, Eq)]
pub enum Message {
    /// The hart `from` is before the receiver: it defers it, or comes before it in the order.
    Marker { from: HartId },
    /// The request of the hart `origin` waits behind the receiver.
    Probe { origin: HartId },
}
