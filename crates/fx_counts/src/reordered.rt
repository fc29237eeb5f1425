//! The events of a list in another order, and whether each fiber's are in their own there.
ghost use Rattle.std.specs.Prelude.{IfOk, IsTrue, ◌↔◌, ◌≡◌, length, map};
ghost use Rattle.std.specs.List.Sorted.{IsPermutation};
ghost use Rattle.fx_counts.specs.KeepsOrder.{PlacesRise, is_next};
ghost use Rattle.fx_counts.specs.declared.reordered.Ranked.{Ranked};

use fx_order::Occurrence;
use fx_term::Memory;
use std::alloc::Global;
use std::collections::HashMap;

/// An event, and its rank in an order.
#[derive(Clone, Copy)]
struct Ranked {
    rank: usize,
    it: Occurrence,
}

/// Each event of the list with the rank of its place, in the order of the list.
fn with_ranks(alloc: Global, list: &[Occurrence], ranks: &[usize]) -> Result<Vec<Ranked>, Memory>
    ensures { IfOk result (λ all. map (λ (x : Ranked). x.it) all.items ≡ list.now) }
{
    let mut all = Vec::new(alloc);
    for (place, it) in list.iter().enumerate() {
        let rank = ranks.get(place).copied().unwrap_or(place);
        all.push(Ranked { rank, it: *it })?;
    }
    Ok(all)
}

/// The events of the list by these ranks, of which each place of the list has one.
pub(crate) fn by_rank(
    alloc: Global,
    list: &[Occurrence],
    ranks: &[usize],
) -> Result<Vec<Occurrence>, Memory>
    ensures { IfOk result (λ other. IsPermutation list.now other.items) }
{
    let mut all = with_ranks(alloc, list, ranks)?;
    all.sort_by_key(|x| x.rank)?;
    let mut other = Vec::new(alloc);
    for x in &all {
        other.push(x.it)?;
    }
    Ok(other)
}

/// Whether the place comes after that one, if there is one.
fn is_after(place: usize, before: Option<usize>) -> bool
    ensures { result ≡ is_next place before }
{
    match before {
        Some(before) => before < place,
        None => true,
    }
}

/// Whether of two events of one fiber the one with the earlier place always comes first.
pub(crate) fn places_rise(alloc: Global, list: &[Occurrence]) -> Result<bool, Memory>
    ensures { IfOk result (λ rise. IsTrue rise ↔ PlacesRise list.now) }
{
    let mut latest = HashMap::new(alloc);
    for it in list {
        let before = latest.insert(it.fiber, it.place)?;
        if !is_after(it.place, before) {
            return Ok(false);
        }
    }
    Ok(true)
}
