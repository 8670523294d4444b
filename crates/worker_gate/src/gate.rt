//! Where a worker is heard of.

/// What a worker has just done.
#[derive(Clone, Copy, Debug, PartialEq, Eq)]
pub enum Point {
    /// It holds a ticket.
    Taken,
    /// It has worked on a piece: its ticket's, or, without company, one in the pool itself.
    Worked,
    /// It has given its ticket back.
    Given,
}

/// Hears where the workers are, and may hold one there. It promises nothing.
pub trait Gate {
    /// Worker `worker` is at this point; workers count from 0.
    fn at(&self, point: Point, worker: u8);
}

/// Holds nobody.
#[derive(Clone, Copy, Debug)]
pub struct OpenGate;

impl Gate for OpenGate {
    fn at(&self, _point: Point, _worker: u8) {}
}
