//! What a search of a small script meets.
ghost use Rattle.std.specs.Prelude.{◌≡◌};

use fx_search::{Ending, Met, MoveSet, Nobody, search};
use fx_space::{Choices, Runs};
use fx_term::{CodeBrand, Memory};
use fx_text::{Script, parse};
use std::alloc::Global;
use std::marker::Brand;
use std::test::Fail;

/// The set of these numbers.
pub fn set_of(numbers: &[u32]) -> MoveSet {
    let mut set = MoveSet::none();
    for &number in numbers {
        set = set.with(number);
    }
    set
}

/// What a search by such steps of the script whose code the type names meets, and which states of these were noted.
fn searched_named<J: CodeBrand>(
    alloc: Global,
    script: &Script,
    choices: Choices,
) -> Result<(Met, Vec<usize>), Memory>
    requires code { script.now.code.nodes ≡ J.nodes }
{
    let (mut runs, start) = Runs::<J>::opening(alloc, script, None, choices)?;
    let met = search(alloc, &mut runs, start, 100, &mut Nobody)?;
    let mut noted = Vec::new(alloc);
    for index in 0..met.states.len() {
        let Some(row) = met.states.get(alloc, index)? else {
            return Err(Memory);
        };
        if runs.resting().index_of(&row).is_some() {
            noted.push(index)?;
        }
    }
    Ok((met, noted))
}

/// What a search of the script by such steps meets, and which states of these were noted.
pub fn searched(
    alloc: Global,
    script: &Script,
    choices: Choices,
) -> Result<(Met, Vec<usize>), Memory> {
    searched_named::<Brand>(alloc, script, choices)
}

/// Whether in a search of the script these fibers are asleep, by state in the order in which they are met.
pub(crate) fn sleep_so(rt: &HostRuntime, text: &[u8], asleep: &[&[u32]]) -> Result<bool, Fail> {
    let script = parse(rt.alloc(), text)?;
    let (met, _) = searched(rt.alloc(), &script, Choices::All)?;
    if met.ending != Ending::Exhausted || met.states.len() != asleep.len() {
        return Ok(false);
    }
    for index in 0..asleep.len() {
        if met.asleep.get(index) != Some(&set_of(asleep[index])) {
            return Ok(false);
        }
    }
    Ok(true)
}
