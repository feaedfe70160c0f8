//! Laws of the decision tables of the policy. Each function has an empty body. Its contract is the law.
ghost use Rattle.std.specs.Prelude.{◌≡◌, ℕ, List, [], ◌∷◌, ◌++◌, true, false, Ok, Err, None, Some, nat_lt, count_by};
ghost use Rattle.std.specs.List.{list_all};
ghost use Rattle.mpw_geom.specs.Names.{contains_name};
ghost use Rattle.mpw_roles.specs.Hierarchy.{with_pair};
ghost use Rattle.mpw_separation.specs.Set.{SeparationSet};
ghost use Rattle.mpw_rbac.specs.Laws.{IsPart, KeepsSound};
ghost use Rattle.mpw_rbac_laws.specs.Laws.{PermitsNoLess, KeepsAuthorization, KeepsInSession, IsLeastStatic, IsLeastDynamic, AddsNoActive};
ghost use Rattle.mpw_rbac.specs.Policy.{Policy as PolicyState, new_policy, is_user, authorized, acting, assigned_roles, assigned_lists, session_of, permits, trim};
ghost use Rattle.mpw_rbac.specs.Rows as rows;
ghost use Rattle.mpw_rbac.specs.Sound.{active_authorized, sets_hold, Sound};
ghost use Rattle.mpw_permissions.specs.declared.permission.Grant.{Grant};
ghost use Rattle.mpw_permissions.specs.declared.permission.Object.{Object};
ghost use Rattle.mpw_permissions.specs.declared.permission.Operation.{Operation};
ghost use Rattle.mpw_rbac.specs.declared.refusal.Refusal.TheVariants as Refusal;
ghost use Rattle.mpw_rbac.specs.declared.session.Session.{Session};

/// In the policy of a new desk, every active role is authorized for the session's user. Each accepted request preserves this.
pub fn each_request_keeps_authorization()
    ensures new_desk { (officer digest : List ℕ) → active_authorized (new_policy officer digest) ≡ true }
    ensures end_session { (connection : ℕ) → KeepsAuthorization (λ p. Ok (rows.end_session p connection)) }
    ensures end_sessions { KeepsAuthorization (λ p. Ok (rows.end_sessions p)) }
    ensures open_session { (connection : ℕ) (user digest : List ℕ) → KeepsAuthorization (λ p. rows.open_session p connection user digest) }
    ensures activate { (connection : ℕ) (role : List ℕ) → KeepsAuthorization (λ p. rows.activate p connection role) }
    ensures adduser { (user digest : List ℕ) → KeepsAuthorization (λ p. rows.adduser p user digest) }
    ensures addrole { (role : List ℕ) → KeepsAuthorization (λ p. rows.addrole p role) }
    ensures assign { (user role : List ℕ) → KeepsAuthorization (λ p. rows.assign p user role) }
    ensures grant { (grant : Grant) → KeepsAuthorization (λ p. rows.grant p grant) }
    ensures revoke { (grant : Grant) → KeepsAuthorization (λ p. rows.revoke p grant) }
    ensures drop_role { (connection : ℕ) (role : List ℕ) → KeepsAuthorization (λ p. rows.drop_role p connection role) }
    ensures deluser { (user : List ℕ) → KeepsAuthorization (λ p. rows.deluser p user) }
    ensures delrole { (role : List ℕ) → KeepsAuthorization (λ p. rows.delrole p role) }
    ensures deassign { (user role : List ℕ) → KeepsAuthorization (λ p. rows.deassign p user role) }
    ensures inherit { (senior junior : List ℕ) → KeepsAuthorization (λ p. rows.inherit p senior junior) }
    ensures uninherit { (senior junior : List ℕ) → KeepsAuthorization (λ p. rows.uninherit p senior junior) }
    ensures ssd { (set : SeparationSet) → KeepsAuthorization (λ p. rows.ssd p set) }
    ensures dsd { (set : SeparationSet) → KeepsAuthorization (λ p. rows.dsd p set) }
    ensures unssd { (name : List ℕ) → KeepsAuthorization (λ p. rows.unssd p name) }
    ensures undsd { (name : List ℕ) → KeepsAuthorization (λ p. rows.undsd p name) }
{}

/// The policy of a new desk is sound, and stays sound after each accepted request: every active role is authorized, the static sets hold
/// for every user, and the dynamic ones for every session. That a new set doesn't forbid having none of its roles follows from a session:
/// its user would break such a set, and so would the session.
pub fn each_request_keeps_separation()
    ensures new_desk { (officer digest : List ℕ) → Sound (new_policy officer digest) }
    ensures end_session { (connection : ℕ) → KeepsSound (λ p. Ok (rows.end_session p connection)) }
    ensures end_sessions { KeepsSound (λ p. Ok (rows.end_sessions p)) }
    ensures open_session { (connection : ℕ) (user digest : List ℕ) → KeepsSound (λ p. rows.open_session p connection user digest) }
    ensures activate { (connection : ℕ) (role : List ℕ) → KeepsSound (λ p. rows.activate p connection role) }
    ensures drop_role { (connection : ℕ) (role : List ℕ) → KeepsSound (λ p. rows.drop_role p connection role) }
    ensures adduser { (user digest : List ℕ) → KeepsSound (λ p. rows.adduser p user digest) }
    ensures deluser { (user : List ℕ) → KeepsSound (λ p. rows.deluser p user) }
    ensures addrole { (role : List ℕ) → KeepsSound (λ p. rows.addrole p role) }
    ensures delrole { (role : List ℕ) → KeepsSound (λ p. rows.delrole p role) }
    ensures assign { (user role : List ℕ) → KeepsSound (λ p. rows.assign p user role) }
    ensures deassign { (user role : List ℕ) → KeepsSound (λ p. rows.deassign p user role) }
    ensures grant { (grant : Grant) → KeepsSound (λ p. rows.grant p grant) }
    ensures revoke { (grant : Grant) → KeepsSound (λ p. rows.revoke p grant) }
    ensures inherit { (senior junior : List ℕ) → KeepsSound (λ p. rows.inherit p senior junior) }
    ensures uninherit { (senior junior : List ℕ) → KeepsSound (λ p. rows.uninherit p senior junior) }
    ensures ssd { (connection : ℕ) (set : SeparationSet) → KeepsInSession Sound connection (λ p. rows.ssd p set) }
    ensures dsd { (connection : ℕ) (set : SeparationSet) → KeepsInSession Sound connection (λ p. rows.dsd p set) }
    ensures unssd { (name : List ℕ) → KeepsSound (λ p. rows.unssd p name) }
    ensures undsd { (name : List ℕ) → KeepsSound (λ p. rows.undsd p name) }
{}

/// If every session ended, no connection has one, and no connection is permitted anything.
pub fn ended_sessions_permit_nothing()
    ensures sessions { (p : PolicyState) (connection : ℕ) → session_of (rows.end_sessions p) connection ≡ None }
    ensures permits { (p : PolicyState) (connection : ℕ) (operation : Operation) (object : Object) → permits (rows.end_sessions p) connection operation object ≡ false }
{}

/// More active roles never permit less.
pub fn more_active_roles_never_permit_less()
    ensures { (policy : PolicyState) (user : List ℕ) (few many : List (List ℕ)) (operation : Operation) (object : Object) → IsPart few many → PermitsNoLess policy user few many operation object }
{}

/// The activation of a role is denied only if the session's user is not authorized for the role, which the denial names.
pub fn activation_is_denied_only_to_the_unauthorized()
    ensures { (p : PolicyState) (connection : ℕ) (role other : List ℕ) → rows.activate p connection role ≡ Err (Refusal.NotAuthorized other) → (other ≡ role) × (contains_name (authorized p (rows.user_of p connection)) role ≡ false) }
{}

/// A request is denied for a separation set only if the requested policy would break the set, and the set is the first of its kind, in
/// alphabetical order, that it would break.
pub fn denied_only_for_the_least_broken_set()
    ensures assign { (p : PolicyState) (user role name : List ℕ) → rows.assign p user role ≡ Err (Refusal.Ssd name) → IsLeastStatic (rows.with_assigned p user (assigned_roles p user ++ role ∷ [])) name }
    ensures inherit_static { (p : PolicyState) (senior junior name : List ℕ) → rows.inherit p senior junior ≡ Err (Refusal.Ssd name) → IsLeastStatic (record p { roles = with_pair p.roles senior junior }) name }
    ensures inherit_dynamic { (p : PolicyState) (senior junior name : List ℕ) → rows.inherit p senior junior ≡ Err (Refusal.Dsd name) → IsLeastDynamic (record p { roles = with_pair p.roles senior junior }) name }
    ensures activate { (p : PolicyState) (connection : ℕ) (role name : List ℕ) → rows.activate p connection role ≡ Err (Refusal.Dsd name) → IsLeastDynamic (rows.with_active p connection (rows.active_roles p connection ++ role ∷ [])) name }
    ensures ssd { (p : PolicyState) (set : SeparationSet) (name : List ℕ) → rows.ssd p set ≡ Err (Refusal.Ssd name) → IsLeastStatic (record p { ssd = p.ssd ++ set ∷ [] }) name }
    ensures dsd { (p : PolicyState) (set : SeparationSet) (name : List ℕ) → rows.dsd p set ≡ Err (Refusal.Dsd name) → IsLeastDynamic (record p { dsd = p.dsd ++ set ∷ [] }) name }
{}

/// No request that changes users, roles, pairs, grants or sets makes a role active: each session that is left was there before, with all
/// the roles that it has. So a role that left a session doesn't come back by a later assignment.
pub fn only_activation_adds_active_roles()
    ensures end_session { (connection : ℕ) → AddsNoActive (λ p. Ok (rows.end_session p connection)) }
    ensures end_sessions { AddsNoActive (λ p. Ok (rows.end_sessions p)) }
    ensures adduser { (user digest : List ℕ) → AddsNoActive (λ p. rows.adduser p user digest) }
    ensures deluser { (user : List ℕ) → AddsNoActive (λ p. rows.deluser p user) }
    ensures addrole { (role : List ℕ) → AddsNoActive (λ p. rows.addrole p role) }
    ensures delrole { (role : List ℕ) → AddsNoActive (λ p. rows.delrole p role) }
    ensures assign { (user role : List ℕ) → AddsNoActive (λ p. rows.assign p user role) }
    ensures deassign { (user role : List ℕ) → AddsNoActive (λ p. rows.deassign p user role) }
    ensures grant { (grant : Grant) → AddsNoActive (λ p. rows.grant p grant) }
    ensures revoke { (grant : Grant) → AddsNoActive (λ p. rows.revoke p grant) }
    ensures inherit { (senior junior : List ℕ) → AddsNoActive (λ p. rows.inherit p senior junior) }
    ensures uninherit { (senior junior : List ℕ) → AddsNoActive (λ p. rows.uninherit p senior junior) }
    ensures ssd { (set : SeparationSet) → AddsNoActive (λ p. rows.ssd p set) }
    ensures dsd { (set : SeparationSet) → AddsNoActive (λ p. rows.dsd p set) }
    ensures unssd { (name : List ℕ) → AddsNoActive (λ p. rows.unssd p name) }
    ensures undsd { (name : List ℕ) → AddsNoActive (λ p. rows.undsd p name) }
{}

/// In a sound policy, every user is authorized for fewer roles of each static set than its cardinality, and in every session fewer roles of
/// each dynamic set act (ANSI INCITS 359-2004, 6.3 and 6.4).
pub fn sound_policies_keep_duties_apart()
    ensures static_sets { (p : PolicyState) → Sound p → (user : List ℕ) → is_user p user ≡ true → list_all (λ set. nat_lt (count_by (contains_name (authorized p user)) set.roles) set.cardinality) p.ssd ≡ true }
    ensures dynamic_sets { (p : PolicyState) → Sound p → (connection : ℕ) (session : Session) → session_of p connection ≡ Some session → list_all (λ set. nat_lt (count_by (contains_name (acting p session)) set.roles) set.cardinality) p.dsd ≡ true }
{}

/// The static sets are tested before the dynamic ones: a pair is denied for a dynamic set only if the hierarchy with the pair breaks no static set.
pub fn static_sets_are_tested_first()
    ensures { (p : PolicyState) (senior junior name : List ℕ) → rows.inherit p senior junior ≡ Err (Refusal.Dsd name) → sets_hold (with_pair p.roles senior junior) p.ssd (assigned_lists p.users) ≡ true }
{}

/// In a sound policy there is nothing to trim. So a request that only adds leaves the policy that a trim of it would.
pub fn trim_leaves_sound_policies()
    ensures { (p : PolicyState) → Sound p → trim p ≡ p }
{}
