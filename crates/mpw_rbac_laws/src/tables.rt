//! A law of the policy's tables. The function has an empty body. Its contract is the law.
ghost use Rattle.std.specs.Prelude.{ℕ, List, Ok};
ghost use Rattle.mpw_separation.specs.Set.{SeparationSet};
ghost use Rattle.mpw_rbac_laws.specs.Existing.{AreTablesSound, KeepsTables};
ghost use Rattle.mpw_rbac_laws.specs.Laws.{KeepsInSession};
ghost use Rattle.mpw_rbac.specs.Policy.{new_policy};
ghost use Rattle.mpw_rbac.specs.Rows as rows;
ghost use Rattle.mpw_permissions.specs.declared.permission.Grant.{Grant};

/// The tables of a new desk name users and roles that exist, have no more rows than their limits allow, and are sound. Each accepted
/// request preserves this.
pub fn each_request_keeps_the_tables()
    ensures new_desk { (officer digest : List ℕ) → AreTablesSound (new_policy officer digest) }
    ensures end_session { (connection : ℕ) → KeepsTables (λ p. Ok (rows.end_session p connection)) }
    ensures end_sessions { KeepsTables (λ p. Ok (rows.end_sessions p)) }
    ensures open_session { (connection : ℕ) (user digest : List ℕ) → KeepsTables (λ p. rows.open_session p connection user digest) }
    ensures activate { (connection : ℕ) (role : List ℕ) → KeepsTables (λ p. rows.activate p connection role) }
    ensures drop_role { (connection : ℕ) (role : List ℕ) → KeepsTables (λ p. rows.drop_role p connection role) }
    ensures adduser { (user digest : List ℕ) → KeepsTables (λ p. rows.adduser p user digest) }
    ensures deluser { (user : List ℕ) → KeepsTables (λ p. rows.deluser p user) }
    ensures addrole { (role : List ℕ) → KeepsTables (λ p. rows.addrole p role) }
    ensures delrole { (role : List ℕ) → KeepsTables (λ p. rows.delrole p role) }
    ensures assign { (user role : List ℕ) → KeepsTables (λ p. rows.assign p user role) }
    ensures deassign { (user role : List ℕ) → KeepsTables (λ p. rows.deassign p user role) }
    ensures grant { (grant : Grant) → KeepsTables (λ p. rows.grant p grant) }
    ensures revoke { (grant : Grant) → KeepsTables (λ p. rows.revoke p grant) }
    ensures inherit { (senior junior : List ℕ) → KeepsTables (λ p. rows.inherit p senior junior) }
    ensures uninherit { (senior junior : List ℕ) → KeepsTables (λ p. rows.uninherit p senior junior) }
    ensures ssd { (connection : ℕ) (set : SeparationSet) → KeepsInSession AreTablesSound connection (λ p. rows.ssd p set) }
    ensures dsd { (connection : ℕ) (set : SeparationSet) → KeepsInSession AreTablesSound connection (λ p. rows.dsd p set) }
    ensures unssd { (name : List ℕ) → KeepsTables (λ p. rows.unssd p name) }
    ensures undsd { (name : List ℕ) → KeepsTables (λ p. rows.undsd p name) }
{}
