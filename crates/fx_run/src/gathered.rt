//! Gathers what the fibers of a run left.
ghost use Rattle.std.specs.Prelude.{◌≡◌, ◌≢◌, ◌++◌, ◌∷◌, [], Some, option_map, slice_get, map, IfOk, IfErr, OnOk};
ghost use Rattle.std.specs.List.Sorted.{IsStrictlyIncreasing};
ghost use Rattle.std.specs.Vec.Iter.{into_iter_items};
ghost use Rattle.fx_fiber.specs.Fiber.{FiberView};
ghost use Rattle.fx_port.specs.PortView.{PortView};
ghost use Rattle.fx_run.specs.FiberAndPort.{without_port};
ghost use Rattle.fx_run.specs.Reported.{AreAscending};
ghost use Rattle.fx_run.specs.RunFault.{IsLostFault};
ghost use Rattle.fx_run.specs.Gathered.{IsGathered, AreAllowed};
ghost use Rattle.fx_run.specs.declared.run_fault.RunFault.TheVariants.{Lost};

use crate::run_fault::RunFault;
use fx_fiber::{Bare, Port};
use fx_port::{Marks, Passes, RunBrand, ThreadPort, gather};
use fx_queue::FiberQueue;
use fx_sched::Resting;
use fx_term::{Code, Memory};
use fx_word::{WordSeat, Words};
use std::alloc::Global;
use std::sync::Wait;
use std::vec::IntoIter;

/// What the fibers of a run left: themselves, ascending, and what their ports had, taken in by the main
/// fiber's seat and passes, with a mark for each number that was requested from outside.
#[derive(Drop)]
pub(crate) struct Gathered {
    pub bares: Vec<Bare>,
    pub seat: WordSeat,
    pub passes: Passes,
    pub noted: Marks,
}

impl Gathered {
    /// What the main fiber left, with room for so many fibers.
    fn of_main<'a, R: Wait, N: RunBrand>(
        alloc: Global,
        words: &Words,
        code: &Code,
        main: Resting<ThreadPort<'a, R, N>>,
        count: usize,
    ) -> Result<Gathered, Memory>
        requires words { words.now ≡ N.words }
        requires code { code.now.nodes ≡ N.nodes }
        requires main { main.port.words.own.id ≡ 0 }
        ensures gathered { IfOk result (λ g. IsGathered N.nodes N.words N.queues g) }
        ensures bares { IfOk result (λ g. g.bares.items ≡ without_port N.nodes main.entry ∷ []) }
        ensures allowed { IfOk result (λ g. AreAllowed N.may g.noted) }
    {
        let mut bares = Vec::with_capacity(alloc, count)?;
        let mut noted = Marks::new(alloc, words.fibers())?;
        let (bare, port) = main.part(code);
        let (seat, passes, of_main) = port.into_parts();
        noted.join(&of_main);
        bares.push(bare)?;
        Ok(Gathered {
            bares,
            seat,
            passes,
            noted,
        })
    }

    /// Takes in what one more fiber left.
    fn take_in<'a, R: Wait, N: RunBrand>(
        &mut self,
        words: &Words,
        queues: &[FiberQueue],
        code: &Code,
        fiber: Resting<ThreadPort<'a, R, N>>,
    ) -> Result<(), Memory>
        requires words { words.now ≡ N.words }
        requires queues { queues.now ≡ N.queues }
        requires code { code.now.nodes ≡ N.nodes }
        requires gathered { IsGathered N.nodes N.words N.queues self.old }
        requires allowed { AreAllowed N.may self.old.noted }
        ensures gathered { OnOk result (IsGathered N.nodes N.words N.queues self.new) }
        ensures bares { OnOk result
            (self.new.bares.items ≡ self.old.bares.items ++ without_port N.nodes fiber.entry ∷ []) }
        ensures allowed { OnOk result (AreAllowed N.may self.new.noted) }
    {
        let (bare, port) = fiber.part(code);
        let noted = gather(words, queues, &mut self.seat, &mut self.passes, port);
        self.noted.join(&noted);
        self.bares.push(bare)?;
        Ok(())
    }

    /// Takes in what these fibers left, one after the other.
    fn take_in_all<'a, R: Wait, N: RunBrand>(
        &mut self,
        words: &Words,
        queues: &[FiberQueue],
        code: &Code,
        fibers: &mut IntoIter<Resting<ThreadPort<'a, R, N>>>,
    ) -> Result<(), Memory>
        requires words { words.now ≡ N.words }
        requires queues { queues.now ≡ N.queues }
        requires code { code.now.nodes ≡ N.nodes }
        requires gathered { IsGathered N.nodes N.words N.queues self.old }
        requires allowed { AreAllowed N.may self.old.noted }
        ensures gathered { OnOk result (IsGathered N.nodes N.words N.queues self.new) }
        ensures bares { OnOk result (self.new.bares.items
            ≡ self.old.bares.items ++ map (without_port N.nodes) (into_iter_items fibers.old)) }
        ensures allowed { OnOk result (AreAllowed N.may self.new.noted) }
    {
        // A `for` over these fibers is three times as dear to prove.
        while let Some(fiber) = fibers.next() {
            self.take_in(words, queues, code, fiber)?;
        }
        Ok(())
    }
}

/// The main fiber, which must be the first one, and those after it; where it is not, that one is lost.
fn main_and_others<P: Port + Drop>(
    fibers: Vec<Resting<P>>,
) -> Result<(Resting<P>, IntoIter<Resting<P>>), RunFault>
    ensures main { IfOk result (λ parts. (P.theory.facts parts.0.port).number ≡ 0) }
    ensures others { IfOk result (λ parts. fibers.items ≡ parts.0 ∷ into_iter_items parts.1) }
    ensures fault { IfErr result (λ fault. (fault ≡ Lost 0)
        × (option_map (λ (f : FiberView P). (P.theory.facts f.port).number) (slice_get fibers.items 0)
        ≢ Some 0)) }
{
    let mut others = fibers.into_iter();
    let Some(main) = others.next() else {
        return Err(RunFault::Lost(0));
    };
    if main.id() != 0 {
        return Err(RunFault::Lost(0));
    }
    Ok((main, others))
}

/// Parts the fibers from their ports, and gathers what they left. They rise by number, and the first one
/// must be the main fiber; where it is not, that one is lost.
pub(crate) fn gather_all<'a, R: Wait, N: RunBrand>(
    alloc: Global,
    words: &Words,
    queues: &[FiberQueue],
    code: &Code,
    fibers: Vec<Resting<ThreadPort<'a, R, N>>>,
) -> Result<Gathered, RunFault>
    requires words { words.now ≡ N.words }
    requires queues { queues.now ≡ N.queues }
    requires code { code.now.nodes ≡ N.nodes }
    requires ascending { IsStrictlyIncreasing
        (map (λ (f : FiberView PortView). f.port.words.own.id) fibers.items) }
    ensures gathered { IfOk result
        (λ g. IsGathered code.now.nodes words.now queues.now g) }
    ensures bares { IfOk result
        (λ g. g.bares.items ≡ map (without_port code.now.nodes) fibers.entry.items) }
    ensures ascending { IfOk result (λ g. AreAscending g.bares.items) }
    ensures allowed { IfOk result (λ g. AreAllowed N.may g.noted) }
    ensures fault { IfErr result
        (λ fault. IsLostFault (map (without_port code.now.nodes) fibers.entry.items) fault) }
{
    let count = fibers.len();
    let (main, mut others) = main_and_others(fibers)?;
    let mut gathered = Gathered::of_main(alloc, words, code, main, count)?;
    gathered.take_in_all(words, queues, code, &mut others)?;
    Ok(gathered)
}
