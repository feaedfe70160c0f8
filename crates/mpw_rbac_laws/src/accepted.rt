//! A law of which requests a denial can name a set of separation of duty. The function has an empty body. Its contract is the law.
ghost use Rattle.std.specs.Prelude.{ℕ, List};
ghost use Rattle.mpw_separation.specs.Set.{SeparationSet};
ghost use Rattle.mpw_rbac_laws.specs.Accepted.{TellsNoDynamic, TellsNoStatic};
ghost use Rattle.mpw_rbac.specs.Rows as rows;
ghost use Rattle.mpw_permissions.specs.declared.permission.Grant.{Grant};

/// Only `assign`, `inherit` and `ssd` are denied for a static set, and only `activate`, `inherit` and `dsd` for a dynamic one.
pub fn sets_are_told_where_they_are_tested()
    ensures open_session_static { (connection : ℕ) (user digest : List ℕ) → TellsNoStatic (λ p. rows.open_session p connection user digest) }
    ensures open_session_dynamic { (connection : ℕ) (user digest : List ℕ) → TellsNoDynamic (λ p. rows.open_session p connection user digest) }
    ensures activate_static { (connection : ℕ) (role : List ℕ) → TellsNoStatic (λ p. rows.activate p connection role) }
    ensures drop_role_static { (connection : ℕ) (role : List ℕ) → TellsNoStatic (λ p. rows.drop_role p connection role) }
    ensures drop_role_dynamic { (connection : ℕ) (role : List ℕ) → TellsNoDynamic (λ p. rows.drop_role p connection role) }
    ensures adduser_static { (user digest : List ℕ) → TellsNoStatic (λ p. rows.adduser p user digest) }
    ensures adduser_dynamic { (user digest : List ℕ) → TellsNoDynamic (λ p. rows.adduser p user digest) }
    ensures deluser_static { (user : List ℕ) → TellsNoStatic (λ p. rows.deluser p user) }
    ensures deluser_dynamic { (user : List ℕ) → TellsNoDynamic (λ p. rows.deluser p user) }
    ensures addrole_static { (role : List ℕ) → TellsNoStatic (λ p. rows.addrole p role) }
    ensures addrole_dynamic { (role : List ℕ) → TellsNoDynamic (λ p. rows.addrole p role) }
    ensures delrole_static { (role : List ℕ) → TellsNoStatic (λ p. rows.delrole p role) }
    ensures delrole_dynamic { (role : List ℕ) → TellsNoDynamic (λ p. rows.delrole p role) }
    ensures assign_dynamic { (user role : List ℕ) → TellsNoDynamic (λ p. rows.assign p user role) }
    ensures deassign_static { (user role : List ℕ) → TellsNoStatic (λ p. rows.deassign p user role) }
    ensures deassign_dynamic { (user role : List ℕ) → TellsNoDynamic (λ p. rows.deassign p user role) }
    ensures grant_static { (new : Grant) → TellsNoStatic (λ p. rows.grant p new) }
    ensures grant_dynamic { (new : Grant) → TellsNoDynamic (λ p. rows.grant p new) }
    ensures revoke_static { (old : Grant) → TellsNoStatic (λ p. rows.revoke p old) }
    ensures revoke_dynamic { (old : Grant) → TellsNoDynamic (λ p. rows.revoke p old) }
    ensures uninherit_static { (senior junior : List ℕ) → TellsNoStatic (λ p. rows.uninherit p senior junior) }
    ensures uninherit_dynamic { (senior junior : List ℕ) → TellsNoDynamic (λ p. rows.uninherit p senior junior) }
    ensures ssd_dynamic { (set : SeparationSet) → TellsNoDynamic (λ p. rows.ssd p set) }
    ensures dsd_static { (set : SeparationSet) → TellsNoStatic (λ p. rows.dsd p set) }
    ensures unssd_static { (name : List ℕ) → TellsNoStatic (λ p. rows.unssd p name) }
    ensures unssd_dynamic { (name : List ℕ) → TellsNoDynamic (λ p. rows.unssd p name) }
    ensures undsd_static { (name : List ℕ) → TellsNoStatic (λ p. rows.undsd p name) }
    ensures undsd_dynamic { (name : List ℕ) → TellsNoDynamic (λ p. rows.undsd p name) }
{}
