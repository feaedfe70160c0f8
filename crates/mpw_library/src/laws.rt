//! Laws about the definitions. Each function has an empty body; its contract is the law.

ghost use Rattle.mpw_library.specs.Derivation.{LibrariesAreDerived, OneDerivation};
ghost use Rattle.mpw_library.specs.Fronts.{UnexpectedIsFirst};

/// Reading a text gives the structures that the Stream syntax derives from its records up to ENDLIB, which all have no
/// fault. It gives none if the syntax derives none. The same records never derive two libraries. The reading of
/// `read_library` is a definition that computes. The syntax is a relation by cases, with one case for each production.
pub fn libraries_are_derived()
    ensures derived { LibrariesAreDerived }
    ensures once { OneDerivation }
{}

/// If reading a text of less than 2^64 bytes reports an unexpected record, then the records before it are the front of some
/// library's records, and with it they are the front of none. So the reported offset is that of the first record with which
/// no library's records can continue. The syntax, the relation by cases, says this.
pub fn unexpected_is_first()
    ensures { UnexpectedIsFirst }
{}
