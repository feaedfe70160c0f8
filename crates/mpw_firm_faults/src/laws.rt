//! Laws of the definitions alone. The function has an empty body: its contract is the law.
ghost use Rattle.mpw_firm_faults.specs.LeavingOut.{FaultyElementsAreLeftOut, FaultyElementsAreListed};

/// The elements of a text that have a fault of their own are exactly those that [`crate::element_faults`] lists, in order, and exactly those that
/// the cuts of these faults leave out.
pub fn faulty_elements_are_left_out()
    ensures listed { FaultyElementsAreListed }
    ensures left { FaultyElementsAreLeftOut }
{}
