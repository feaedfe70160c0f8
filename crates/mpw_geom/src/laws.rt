//! Laws about the definitions. Each function has an empty body; its contract is the law.
ghost use Rattle.std.specs.Prelude.{◌≡◌, ◌↔◌, true, ℕ, List};
ghost use Rattle.mpw_geom.specs.Links.{Links, Leads, leads};

/// A name leads to another exactly if a chain of links does. So leading is reflexive and transitive.
pub fn names_lead_by_chains()
    ensures chains { (l : Links) (a b : List ℕ) → (leads l a b ≡ true) ↔ Leads l a b }
    ensures reflexive { (l : Links) (a : List ℕ) → leads l a a ≡ true }
    ensures transitive { (l : Links) (a b c : List ℕ) → leads l a b ≡ true → leads l b c ≡ true → leads l a c ≡ true }
{}
