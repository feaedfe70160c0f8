//! What answers the requests of a connection.
ghost use Rattle.std.specs.Prelude.{Bool};
ghost use Rattle.mpw_requests.specs.declared.request.Request.{Request};
ghost use Rattle.mpw_serve.specs.Serving.{Answer, answer_of};

use mpw_events::Response;
use mpw_requests::SharedRequest;

/// Answers the requests of a connection, one by one, and at last its end.
///
/// Contracts see two relations on the states. One says which answers a request may get in a state, and the state after it. The other says
/// whether the connection's end may be handed in, and the state after it. Nothing is said of what others do to a shared desk between two
/// requests. An implementation says what it knows in its own relations.
pub trait Responder {
    // What must hold of the type before its requests can be answered, for example that threads may share its runtime.
    ghost can_ask: { Type 0 } = { Unit {0} };

    ghost told: { Self → Request → Answer → Self → Type 0 };

    ghost parted: { Self → Bool → Self → Type 0 };

    /// Answers a request. It returns none if out of memory.
    fn ask(&mut self, request: SharedRequest) -> Option<Response>
        requires { can_ask }
        ensures { told self.old request (answer_of result) self.new };

    /// Hands in the end of the connection. It returns whether it was handed in; it isn't if out of memory.
    fn part(&mut self) -> bool
        ensures { parted self.old result self.new };
}
