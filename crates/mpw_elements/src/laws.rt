//! A law about the definitions. The function has an empty body; its contract is the law.

ghost use Rattle.mpw_elements.specs.Derivation.{ElementsAreDerived};

/// Reading the records of an element gives what the Stream syntax derives from them, up to their ENDEL. It gives
/// nothing if the syntax derives nothing. The reading of `read_element` is a definition that computes. The
/// syntax is a relation by cases, with one case for each production.
pub fn elements_are_derived()
    ensures { ElementsAreDerived }
{}
