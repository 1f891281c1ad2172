use engine::{Bus, Section};
use line_pool::Pool;

/// What a machine keeps of a hart, lent together: the bus, with main memory and the caches; the hart's section, with its
/// buffered stores; and the pool in whose slots the lines of both have their bytes.
#[derive(Drop)]
pub struct Lent<'a> {
    pub pool: &'a Pool,
    pub bus: &'a Bus,
    pub section: &'a Section,
}
