//! Points that work passes, at which a test may hold it up.
#![tactic(auto)]

/// A point that work passes.
#[derive(Clone, Copy, PartialEq, Eq)]
pub enum Point {
    /// Before modules are extracted: which worker is about to, for which task.
    Extract { worker: u32, task: u32 },
    /// Behind the line of a request: whose it is, and how many were answered to that chair before.
    Request { chair: u32, number: u32 },
}

/// What work passes at each point. It always returns, and promises nothing else.
pub trait Gate {
    /// Passes the point.
    fn pass(&self, point: Point);
}

/// A gate that holds nothing up.
#[derive(Clone, Copy)]
pub struct FreeGate;

impl Gate for FreeGate {
    fn pass(&self, _point: Point) {}
}
