//! Laws of the order alone. Each function has an empty body. Its contract is the law.
ghost use Rattle.std.specs.Prelude.{◌≡◌, ◌↔◌, true};
ghost use Rattle.mpw_roles.specs.Hierarchy.{Name, Hierarchy};
ghost use Rattle.mpw_roles.specs.Order.{at_least, IsAtLeast};

/// One role is at least another exactly if a chain of immediate pairs leads down to it. So the order is reflexive and transitive (ANSI
/// INCITS 359-2004, general role hierarchies).
pub fn order_is_chains()
    ensures chains { (h : Hierarchy) (a b : Name) → (at_least h a b ≡ true) ↔ IsAtLeast h a b }
    ensures reflexive { (h : Hierarchy) (a : Name) → at_least h a a ≡ true }
    ensures transitive { (h : Hierarchy) (a b c : Name) → at_least h a b ≡ true → at_least h b c ≡ true → at_least h a c ≡ true }
{}
