//! Laws about the definitions.
ghost use Rattle.mpw_firm_listing.specs.Keys.{WholeKeysAreNumbers};
ghost use Rattle.mpw_firm_listing.specs.Lengths.{LengthsAreExact};
ghost use Rattle.mpw_firm_listing.specs.Limited.{FirstMarkersAreListed};

/// The first markers of each rule, up to the limit, have the same listing as all markers.
pub fn first_markers_are_listed()
    ensures { FirstMarkersAreListed }
{}

/// A key whose coordinates are whole nanometres has them as the numbers that they are.
pub fn whole_keys_are_numbers()
    ensures { WholeKeysAreNumbers }
{}

/// A length in parts of a nanometre is written exactly, if it has finite decimals in nanometres.
pub fn lengths_are_exact()
    ensures { LengthsAreExact }
{}
