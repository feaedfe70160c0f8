//! Immediate pairs by the numbers of their roles, and the index of a number in the order of the roles.
ghost use Rattle.std.specs.Prelude.{◌≡◌, ◌==◌, not, true, filter, position};
ghost use Rattle.std.specs.List.{list_any};
ghost use Rattle.mpw_roles.specs.Internal.Table.{are_once, is_pair, is_end};

/// An immediate pair, by the numbers of its roles.
#[derive(Clone, Copy)]
pub(crate) struct Pair {
    pub(crate) senior: usize,
    pub(crate) junior: usize,
}

/// Whether the pair of two numbers exists. Cost: a comparison for each pair.
pub(crate) fn has_pair(pairs: &[Pair], senior: usize, junior: usize) -> bool
    ensures { result ≡ list_any (is_pair senior junior) pairs.now }
{
    for pair in pairs {
        if (senior == pair.senior) & (junior == pair.junior) {
            return true;
        }
    }
    false
}

/// Removes the pair of two numbers. It takes no memory.
pub(crate) fn without_pair(pairs: &mut Vec<Pair>, senior: usize, junior: usize)
    ensures { pairs.new.items ≡ filter (λ pair. not (is_pair senior junior pair)) pairs.old.items }
{
    pairs.retain(
        |pair: &Pair| -> bool
            ensures { result ≡ not (is_pair senior junior pair.now) }
        { !((senior == pair.senior) & (junior == pair.junior)) },
    );
}

/// Removes each pair of a role. It takes no memory.
pub(crate) fn without_ends(pairs: &mut Vec<Pair>, number: usize)
    ensures { pairs.new.items ≡ filter (λ pair. not (is_end number pair)) pairs.old.items }
{
    pairs.retain(
        |pair: &Pair| -> bool
            ensures { result ≡ not (is_end number pair.now) }
        { !((number == pair.senior) | (number == pair.junior)) },
    );
}

/// Removes a number. It takes no memory.
pub(crate) fn without_number(order: &mut Vec<usize>, number: usize)
    ensures { order.new.items ≡ filter (λ other. not (number == other)) order.old.items }
{
    order.retain(
        |other: &usize| -> bool
            ensures { result ≡ not (number == other.now) }
        { number != *other },
    );
}

/// The index of a number in the order. It is found at once if it is the number itself, as always if no role was removed. Else the search
/// compares each.
pub(crate) fn place_of(order: &[usize], number: usize) -> Option<usize>
    requires { are_once order.now ≡ true }
    ensures { result ≡ position (λ other. number == other) order.now }
{
    if let Some(here) = order.get(number) {
        if *here == number {
            return Some(number);
        }
    }
    for place in 0..order.len() {
        if order[place] == number {
            return Some(place);
        }
    }
    None
}
