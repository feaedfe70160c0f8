//! Random hierarchies: each mask is compared with a plain search over the pairs, in full after each change.
use crate::policy::role_name;
use mpw_geom::Name;
use mpw_roles::{Mask, Roles};
use std::alloc::{AllocError, Global};
use std::io;

/// The greatest number of roles.
const MAX_ROLES: usize = 512;

/// For each hierarchy its number of roles, the number of changes first, and that of changes with a full comparison after each.
const HIERARCHIES: [(usize, usize, usize); 3] = [(8, 0, 300), (64, 0, 300), (512, 300, 300)];

/// A linear congruential generator.
#[derive(Drop)]
struct Random {
    state: u64,
}

impl Random {
    /// A number below another one, which isn't 0.
    fn below(&mut self, limit: usize) -> usize {
        self.state = self
            .state
            .wrapping_mul(6364136223846793005)
            .wrapping_add(1442695040888963407);
        let drawn = (self.state >> 33) as usize;
        if limit == 0 { 0 } else { drawn % limit }
    }
}

/// The second implementation: names, and pairs of indexes of a senior and a junior.
#[derive(Drop)]
struct Plain {
    names: Vec<Name>,
    pairs: Vec<(usize, usize)>,
}

/// Both implementations, and the generator that draws their changes.
#[derive(Drop)]
struct Bodies {
    roles: Roles,
    plain: Plain,
    random: Random,
}

fn is_marked(marks: &[bool], place: usize) -> bool {
    match marks.get(place) {
        Some(mark) => *mark,
        None => false,
    }
}

fn mark(marks: &mut [bool], place: usize) {
    if place < marks.len() {
        marks[place] = true;
    }
}

/// Marks the juniors of marked seniors. It returns whether there was one to mark.
fn pass(pairs: &[(usize, usize)], marks: &mut [bool]) -> bool {
    let mut changed = false;
    for (senior, junior) in pairs {
        if is_marked(marks, *senior) && !is_marked(marks, *junior) {
            mark(marks, *junior);
            changed = true;
        }
    }
    changed
}

/// The indexes at or below one.
fn search(pairs: &[(usize, usize)], senior: usize) -> [bool; MAX_ROLES] {
    let mut marks = [false; MAX_ROLES];
    mark(&mut marks, senior);
    for _ in 0..MAX_ROLES {
        if !pass(pairs, &mut marks) {
            return marks;
        }
    }
    marks
}

/// At how many indexes the mask of a role differs from the search.
fn row_differences(bits: &[usize], mask: &Mask, marks: &[bool]) -> usize {
    let mut wrong: usize = 0;
    for (place, bit) in bits.iter().enumerate() {
        if mask.contains(*bit) != is_marked(marks, place) {
            wrong = wrong.saturating_add(1);
        }
    }
    wrong
}

/// The bit of each role.
fn bits(alloc: Global, roles: &Roles, names: &[Name]) -> Result<Vec<usize>, AllocError> {
    let mut bits = Vec::new(alloc);
    for role in names {
        bits.push(roles.place(role).unwrap_or(MAX_ROLES))?;
    }
    Ok(bits)
}

/// In how many pairs of roles the two implementations differ.
fn differences(alloc: Global, roles: &Roles, plain: &Plain) -> Result<usize, AllocError> {
    let bits = bits(alloc, roles, plain.names.as_slice())?;
    let mut wrong: usize = 0;
    for (place, senior) in plain.names.iter().enumerate() {
        let marks = search(plain.pairs.as_slice(), place);
        let mask = roles.mask(senior);
        let row = row_differences(bits.as_slice(), &mask, &marks);
        wrong = wrong.saturating_add(row);
    }
    Ok(wrong)
}

/// Removes the pair at an index in both implementations. It returns whether they agree that it existed.
fn take_back(roles: &mut Roles, plain: &mut Plain, at: usize) -> bool {
    if at >= plain.pairs.len() {
        return true;
    }
    let (senior, junior) = plain.pairs.swap_remove(at);
    let (Some(above), Some(below)) = (plain.names.get(senior), plain.names.get(junior)) else {
        return false;
    };
    roles.uninherit(above, below).is_ok()
}

/// Makes a pair in both implementations. It returns whether their answers agree.
fn make(
    roles: &mut Roles,
    plain: &mut Plain,
    senior: usize,
    junior: usize,
) -> Result<bool, AllocError> {
    let closes = is_marked(&search(plain.pairs.as_slice(), junior), senior);
    let known = plain.pairs.contains(&(senior, junior));
    let (Some(above), Some(below)) = (plain.names.get(senior), plain.names.get(junior)) else {
        return Ok(false);
    };
    let made = roles.inherit(above, below).is_ok();
    if made {
        plain.pairs.push((senior, junior))?;
    }
    Ok(made != (closes || known))
}

/// Removes a role in both implementations. In the second, the last role takes its index.
fn remove(roles: &mut Roles, plain: &mut Plain, at: usize) -> bool {
    if at >= plain.names.len() {
        return true;
    }
    let gone = plain.names.swap_remove(at);
    let last = plain.names.len();
    plain.pairs.retain(|pair| pair.0 != at && pair.1 != at);
    for pair in plain.pairs.iter_mut() {
        if pair.0 == last {
            pair.0 = at;
        }
        if pair.1 == last {
            pair.1 = at;
        }
    }
    roles.remove(&gone).is_ok()
}

/// Adds a role with that number to both implementations.
fn add(
    alloc: Global,
    roles: &mut Roles,
    plain: &mut Plain,
    number: usize,
) -> Result<bool, AllocError> {
    let role = role_name(alloc, number)?;
    plain.names.push(role.copy()?)?;
    Ok(roles.add(role).is_ok())
}

/// One change, of four kinds. It returns whether the answers of the two implementations agree.
fn change(alloc: Global, bodies: &mut Bodies, number: usize) -> Result<bool, AllocError> {
    let (roles, plain) = (&mut bodies.roles, &mut bodies.plain);
    let count = plain.names.len();
    match bodies.random.below(16) {
        0 => {
            let same = remove(roles, plain, bodies.random.below(count));
            Ok(same & add(alloc, roles, plain, number)?)
        }
        1..=4 => {
            let at = bodies.random.below(plain.pairs.len());
            Ok(take_back(roles, plain, at))
        }
        _ => {
            let senior = bodies.random.below(count);
            let junior = bodies.random.below(count);
            make(roles, plain, senior, junior)
        }
    }
}

/// That many changes, perhaps with a full comparison after each. It returns the number of differences, in answers and in masks.
fn change_all(
    alloc: Global,
    bodies: &mut Bodies,
    first: usize,
    changes: usize,
    is_compared: bool,
) -> Result<usize, AllocError> {
    let mut wrong: usize = 0;
    for number in 0..changes {
        if !change(alloc, bodies, number.saturating_add(first))? {
            wrong = wrong.saturating_add(1);
        }
        if is_compared {
            wrong = wrong.saturating_add(differences(alloc, &bodies.roles, &bodies.plain)?);
        }
    }
    Ok(wrong)
}

/// That many roles, some changes first, and then that many with a full comparison after each.
fn drive(
    alloc: Global,
    bodies: &mut Bodies,
    count: usize,
    first: usize,
    changes: usize,
) -> Result<usize, AllocError> {
    for number in 0..count {
        add(alloc, &mut bodies.roles, &mut bodies.plain, number)?;
    }
    let before = change_all(alloc, bodies, MAX_ROLES, first, false)?;
    let after = change_all(alloc, bodies, 4096, changes, true)?;
    Ok(before.saturating_add(after))
}

/// Two implementations without roles, and changes drawn from a seed.
fn new_bodies(alloc: Global, seed: usize) -> Bodies {
    Bodies {
        roles: Roles::new(alloc),
        plain: Plain {
            names: Vec::new(alloc),
            pairs: Vec::new(alloc),
        },
        random: Random { state: seed as u64 },
    }
}

/// The number of differences.
fn run(alloc: Global, count: usize, first: usize, changes: usize) -> Result<usize, AllocError> {
    let mut bodies = new_bodies(alloc, count);
    drive(alloc, &mut bodies, count, first, changes)
}

/// Prints the part about random hierarchies.
pub fn show(rt: &HostRuntime) -> io::Result<()> {
    println!(rt; "# masks beside a plain search")?;
    for (count, first, changes) in &HIERARCHIES {
        let wrong = run(rt.alloc(), *count, *first, *changes)?;
        println!(rt;
            "{count} roles, {first} changes, and compared in full after each of {changes} more: {wrong} differences"
        )?;
    }
    Ok(())
}
