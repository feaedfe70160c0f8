//! Laws about the definitions. The function has an empty body; its contract is the laws.

ghost use Rattle.mpw_deck.specs.Named.{ReadDecksAreNamed, FaultsAreOfTexts};

/// No two rules of a deck that was read have the same name, and no name has a colon. So the parts of a marker's key are
/// unambiguous, and a rule's name identifies the rule. The fault of a text is never out of memory.
pub fn decks_name_their_rules()
    ensures named { ReadDecksAreNamed }
    ensures faults { FaultsAreOfTexts }
{}
