//! One set of roles, and whether it is broken.
ghost use Rattle.std.specs.Prelude.{◌≡◌, ℕ, List, true, nat_le, count_by, IfOk};
ghost use Rattle.mpw_geom.specs.Names.{contains_name};
ghost use Rattle.mpw_roles.specs.Hierarchy.{Hierarchy, role_names};
ghost use Rattle.mpw_roles.specs.Order.{IsHierarchy, are_distinct};
ghost use Rattle.mpw_separation.specs.Placed.{IsPlaced, IsBelow};
ghost use Rattle.mpw_separation.specs.Separation.{breaks, is_reached, has_role};
ghost use Rattle.mpw_separation.specs.Set.{formed, has_form};

use mpw_geom::{Name, Names};
use mpw_lists::Shared;
use mpw_roles::{Below, Mask};
use std::alloc::AllocError;
use std::marker::Model;

/// What a set holds for.
#[derive(Clone, Copy)]
pub enum Kind {
    /// For the roles that a user is authorized for (SSD).
    Static,
    /// For the roles that act in a session (DSD).
    Dynamic,
}

/// Roles of which nobody may have `cardinality` or more. The cardinality is from 2 to the number of the roles, and each role occurs once.
pub struct SeparationSet {
    name: Name,
    cardinality: usize,
    roles: Shared<Names>,
}

impl Drop for SeparationSet {
    fn drop(self) {
        let SeparationSet {
            name,
            cardinality: _,
            roles,
        } = self;
        drop(name);
        drop(roles);
    }
}

impl Model for SeparationSet {
    ghost use Rattle.std.specs.Prelude.{◌≡◌, true};
    ghost use Rattle.mpw_separation.specs.Set.{SeparationSet as SetState, has_form};

    ghost Value = { SetState };

    ghost view = { λ set. record { name = set.name; cardinality = set.cardinality; roles = set.roles } };

    ghost invariant = { λ set. has_form (record { name = set.name; cardinality = set.cardinality; roles = set.roles }) ≡ true };
}

/// Whether each name occurs once. Cost: n log n comparisons.
fn are_distinct(names: &Names) -> Result<bool, AllocError>
    ensures { IfOk result (λ distinct. distinct ≡ are_distinct names.now) }
{
    let mut sorted = names.copy()?;
    sorted.sort()?;
    Ok(sorted.as_slice().len() == names.as_slice().len())
}

/// The names, which copies share. One allocation.
fn shared_names(names: Names) -> Result<Shared<Names>, AllocError>
    ensures { IfOk result (λ shared. shared ≡ names) }
{
    let items = names.into_vec();
    let alloc = *items.allocator();
    Shared::new(alloc, Names::from_vec(items))
}

impl SeparationSet {
    /// The set of that name, cardinality and roles. It is `None` if the cardinality isn't from 2 to the number of the roles, or a role
    /// occurs twice. Cost: n log n comparisons.
    ///
    /// # Errors
    /// Out of memory for the roles, or to sort them.
    pub fn new(
        name: Name,
        cardinality: usize,
        roles: Names,
    ) -> Result<Option<SeparationSet>, AllocError>
        ensures { IfOk result (λ set. set ≡ formed (record { name = name; cardinality = cardinality; roles = roles })) }
    {
        if cardinality < 2 || cardinality > roles.as_slice().len() || !are_distinct(&roles)? {
            return Ok(None);
        }
        let roles = shared_names(roles)?;
        Ok(Some(SeparationSet {
            name,
            cardinality,
            roles,
        }))
    }

    /// The set's name.
    pub fn name(&self) -> &Name
        ensures { result.now ≡ self.now.name }
    {
        &self.name
    }

    /// The set's name, without the set.
    pub fn into_name(self) -> Name
        ensures { result ≡ self.name }
    {
        let SeparationSet {
            name,
            cardinality: _,
            roles,
        } = self;
        drop(roles);
        name
    }

    /// The number of roles that nobody may have: from 2 to the number of the set's roles.
    pub fn cardinality(&self) -> usize
        ensures { result ≡ self.now.cardinality }
    {
        self.cardinality
    }

    /// The set's roles.
    pub fn roles(&self) -> &[Name]
        ensures roles { result.now ≡ self.now.roles }
        ensures form { has_form self.now ≡ true }
    {
        self.roles.get().as_slice()
    }

    /// The same set. Cost: a count for its name, and one for its roles.
    ///
    /// # Errors
    /// Out of memory.
    pub fn copy(&self) -> Result<SeparationSet, AllocError>
        ensures { IfOk result (λ set. set ≡ self.now) }
    {
        let name = self.name.copy()?;
        let roles = self.roles.copy()?;
        Ok(SeparationSet {
            name,
            cardinality: self.cardinality,
            roles,
        })
    }

    /// Whether as many of the set's roles as its cardinality are among these. Cost: a look-up for each role of the set.
    pub(crate) fn is_reached(&self, below: &Below) -> bool
        ensures { result ≡ is_reached below.now self.now }
    {
        let count = self
            .roles
            .get()
            .as_slice()
            .iter()
            .filter(
                |role: &&Name| -> bool
                    ensures { result ≡ contains_name below.entry.now role.now.now }
                { below.contains(role) },
            )
            .count();
        self.cardinality <= count
    }

    /// Whether some seniors break the set, by the indexes of the set's roles and of the roles at or below the seniors: whether as many
    /// indexes as its cardinality are in both. It takes no memory. Cost: an `and` of eight words.
    pub fn is_broken_at(&self, own: &Mask, below: &Mask) -> bool
        ensures { (h : Hierarchy) (seniors : List (List ℕ)) → IsHierarchy h → IsPlaced (role_names h) self.now.roles own.now → IsBelow h seniors below.now → result ≡ breaks h seniors self.now }
    {
        self.cardinality <= own.common(below)
    }

    /// Whether the role is in the set.
    pub(crate) fn has_role(&self, role: &Name) -> bool
        ensures { result ≡ has_role role.now self.now }
    {
        self.roles.get().contains(role)
    }
}

impl Clone for SeparationSet {
    ghost is_clone = { λ set copy. copy ≡ set };

    fn clone(&self) -> Result<SeparationSet, AllocError> {
        self.copy()
    }
}
