ghost use Rattle.std.specs.Prelude.{◌≡◌, [], IfOk};
ghost use Rattle.ad_base.specs.Limits.{AreWithinStandard};
ghost use Rattle.ad_reply.specs.Written.{AreToolsOf};

use ad_base::{Limits, Memory};
use ad_edition::Bench;
use ad_gate::Point;
use ad_items::Line;
use ad_module_document::Room;
use ad_theory::Extractor;
use std::alloc::Global;

/// Counts the requests that a session has answered.
#[derive(Clone, Copy)]
pub struct Talk {
    pub(crate) chair: u32,
    pub(crate) answered: u32,
}

impl Talk {
    /// No request was answered yet. The chair is the session's number.
    pub fn new(chair: u32) -> Talk
        ensures { result ≡ record { chair = chair; answered = 0 } }
    {
        Talk { chair, answered: 0 }
    }

    /// The session's number.
    pub fn chair(&self) -> u32
        ensures { result ≡ self.now.chair }
    {
        self.chair
    }

    // The point at which the next request passes the gate.
    pub(crate) fn point(&self) -> Point {
        Point::Request {
            chair: self.chair,
            number: self.answered,
        }
    }

    /// How many requests were answered.
    pub fn answered(&self) -> u32
        ensures { result ≡ self.now.answered }
    {
        self.answered
    }
}

// What finds modules, and where they are found.
#[derive(Drop)]
pub(crate) struct Tools<E: Extractor> {
    pub(crate) bench: E,
    pub(crate) room: Room,
}

impl<E: Extractor> Tools<E> {
    // Takes the memory that finding modules within these limits needs.
    fn make(alloc: Global, limits: &Limits) -> Result<Tools<E>, Memory>
        requires { AreWithinStandard limits.now }
        ensures { IfOk result (λ tools. AreToolsOf limits.now (E.made_for tools.bench) tools.room) }
    {
        let room = Room::new(alloc, limits)?;
        Ok(Tools {
            bench: E::make(alloc, limits)?,
            room,
        })
    }
}

/// What a session needs while it works, within the limits that it was made for: the line that is read, and what finds
/// modules.
#[derive(Drop)]
pub struct Work {
    pub(crate) line: Line,
    pub(crate) limits: Limits,
    pub(crate) tools: Tools<Bench>,
    ghost fit: { AreToolsOf limits (⟦<Bench as Extractor>⟧.made_for tools.bench) tools.room },
}

impl Work {
    /// No line is read yet. All the memory is taken here.
    pub fn new(alloc: Global, limits: &Limits) -> Result<Work, Memory>
        requires { AreWithinStandard limits.now }
        ensures line { IfOk result (λ work. work.line ≡ []) }
        ensures limits { IfOk result (λ work. work.limits ≡ limits.now) }
    {
        let line = Line::new(alloc)?;
        Ok(Work {
            tools: Tools::make(alloc, limits)?,
            line,
            limits: *limits,
        })
    }

    /// The limits that it was made for.
    pub fn limits(&self) -> Limits
        ensures { result ≡ self.now.limits }
    {
        self.limits
    }
}
