// The calls of a history, each with its answer.
ghost use Rattle.std.specs.Prelude.{◌≡◌, ◌+◌, ◌<◌, ◌^◌, length, IfOk};

use crate::event::{Call, Event, Reply};
use crate::memory::Memory;
use std::alloc::Global;

/// The answer of a call, and the place of that event in the history, counted from 0.
pub struct Response {
    pub res: usize,
    pub reply: Reply,
}

impl Drop for Response {
    fn drop(self) {
        let Response {
            res: _,
            reply: _reply,
        } = self;
    }
}

impl Response {
    /// Copies the response.
    pub fn copy(&self, alloc: Global) -> Result<Response, Memory>
        ensures { IfOk result (λ response. response ≡ self.now) }
    {
        let reply = self.reply.copy(alloc)?;
        Ok(Response {
            res: self.res,
            reply,
        })
    }
}

/// One call of a history: what was asked, the place of its invocation among the events (counted
/// from 0), and its response. A call without a response is pending.
pub struct Operation {
    pub call: Call,
    pub inv: usize,
    pub response: Option<Response>,
}

impl Drop for Operation {
    fn drop(self) {
        let Operation {
            call: _call,
            inv: _,
            response: _response,
        } = self;
    }
}

impl Operation {
    ghost use Rattle.events.specs.Precedence.{is_completed};
    ghost use Rattle.events.specs.Precedence.{belongs};

    /// Copies the call.
    pub fn copy(&self, alloc: Global) -> Result<Operation, Memory>
        ensures { IfOk result (λ operation. operation ≡ self.now) }
    {
        let response = match &self.response {
            Some(response) => Some(response.copy(alloc)?),
            None => None,
        };
        Ok(Operation {
            call: self.call,
            inv: self.inv,
            response,
        })
    }

    /// Returns whether the call has a response.
    pub fn is_completed(&self) -> bool
        ensures { result ≡ is_completed self.now }
    {
        self.response.is_some()
    }

    /// Returns whether the call belongs to a segment: all do but pending gets and pending scans.
    pub fn belongs(&self) -> bool
        ensures { result ≡ belongs self.now }
    {
        self.is_completed() || self.call.may_change()
    }
}
