//! Laws of passes. Each function does nothing: its contract is the law.
ghost use Rattle.mpw_desk.specs.Serving.{ReceivesEnd, ReceivesLines};

/// If a connection is served over a pass, its receipts have the calls of the lines that were answered, each with its reply, once, in order.
/// Left out are the lines that ran out of memory, and those whose reply was that the desk is closed or its history full. The connection's
/// end follows exactly if the result says that it was handed in.
pub fn passes_receive_the_calls_of_their_lines()
    ensures lines { ReceivesLines }
    ensures end { ReceivesEnd }
{}
