//! Laws of events, which callers use. Each function does nothing. Its contract is the law.
ghost use Rattle.mpw_events.specs.GoingOn.{AddsCallOrNothing, GoesOnTo};
ghost use Rattle.mpw_events.specs.History.{IsHandled, KeptDesk};
ghost use Rattle.mpw_events.specs.declared.event.Event.{Event};
ghost use Rattle.mpw_events.specs.declared.event.Response.{Response};

/// A handled event leaves the desk unchanged, and its response is that the desk is closed or its history full; or the history has its call
/// more, with its response.
pub fn an_event_adds_its_call_or_nothing()
    ensures { (d left : KeptDesk) (event : Event) (answered : Response) → IsHandled d event answered left → AddsCallOrNothing d.desk event answered left.desk }
{}

/// A desk's history grows by calls, and a store writer whose list is known has exactly their changes, in order, after the earlier ones.
/// This holds if an event is handled, if nothing is, and so for every list of events.
pub fn keepers_have_the_changes_in_order()
    ensures handled { (d left : KeptDesk) (event : Event) (answered : Response) → IsHandled d event answered left → GoesOnTo d left }
    ensures stays { (d : KeptDesk) → GoesOnTo d d }
    ensures on { (a b c : KeptDesk) → GoesOnTo a b → GoesOnTo b c → GoesOnTo a c }
{}
