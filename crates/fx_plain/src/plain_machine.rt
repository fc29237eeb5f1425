//! All fibers of a script on one thread.
ghost use Rattle.std.specs.Prelude.{◌≡◌, ℕ, ◌<◌, ◌-◌, ◌^◌, ◌∷◌, [], true, false, Some, None, List, IfOk, IfSome, IfNone, OnOk};
ghost use Rattle.std.specs.Prelude.{MatchBool, length, option_and_then, replicate, slice_index_or, slice_set};
ghost use Rattle.std.specs.Bool.{OnTrue};
ghost use Rattle.fx_term.specs.Code.{IsCode};
ghost use Rattle.fx_term.specs.Script.{ScriptView};
ghost use Rattle.fx_text.specs.View.{meaning};
ghost use Rattle.fx_text.specs.declared.pick.Pick.{Pick};
ghost use Rattle.fx_text.specs.declared.pick.Pick.TheVariants as pick;
ghost use Rattle.fx_plain.specs.WholeMachine.{WholeMachine, opening};
ghost use Rattle.fx_plain.specs.Chosen.{IsReplay};
ghost use Rattle.fx_plain.specs.ClassSets.{class_at, is_able};
ghost use Rattle.fx_plain.specs.NumberSet.{IsLeastOf};
ghost use Rattle.fx_plain.specs.World.{is_ready_in};
ghost use Rattle.fx_plain.specs.PlainMachine.{all_reported, StandsForRun, StandsForSome, Tries, IsUnderWay, Halts};
ghost use Rattle.fx_plain.specs.PlainMachine.{IsGoingAt, IsAtQueue, StepsAt, BurstsAt, FlowsAt, GoesOn, GoesByLeast, IsTaken};
ghost use Rattle.fx_plain.specs.PlainMachine.{all_waits};
ghost use Rattle.fx_plain.specs.Started.{wait_of};
ghost use Rattle.fx_plain.specs.declared.plain_machine.Next.TheVariants.{Step};
ghost use Rattle.fx_report.specs.Script.{script_of};

mod standing;
mod telling;

use crate::passed::Why;
use crate::plain_port::PlainPort;
use crate::plain_world::PlainWorld;
use crate::started::Started;
use fx_fiber::{Fiber, FiberReport, Report, Source, Stepped};
use fx_report::Wait;
use fx_term::{Code, CodeBrand, Memory};
use fx_text::{Pick, Script};
use std::alloc::Global;

/// How many have started.
fn count_started<J: CodeBrand>(fibers: &[Option<Started<J>>]) -> usize {
    fibers.iter().filter(|place| place.is_some()).count()
}

/// What is reported of those that have started.
fn reports_of<J: CodeBrand>(
    alloc: Global,
    fibers: Vec<Option<Started<J>>>,
) -> Result<Vec<FiberReport>, Memory>
    ensures { IfOk result (λ reports. reports.items ≡ all_reported J.nodes fibers.items) }
{
    let mut reports = Vec::with_capacity(alloc, count_started(&fibers))?;
    for fiber in fibers {
        if let Some(started) = fiber {
            reports.push(started.into_report())?;
        }
    }
    Ok(reports)
}

/// What the fiber waits for that has this place, if it has started and its leaf is one that can wait.
fn wait_at<J: CodeBrand>(code: &Code, place: &Option<Started<J>>) -> Option<Wait>
    requires { code.now.nodes ≡ J.nodes }
    ensures { result ≡ option_and_then (wait_of J.nodes) place.now }
{
    place.as_ref()?.wait(code)
}

/// What those wait for that have started, and whose leaf is one that can wait.
fn waits_of<J: CodeBrand>(
    alloc: Global,
    code: &Code,
    fibers: &[Option<Started<J>>],
) -> Result<Vec<Wait>, Memory>
    requires { code.now.nodes ≡ J.nodes }
    ensures { IfOk result (λ waits. waits.items ≡ all_waits J.nodes fibers.now) }
{
    let mut waits = Vec::new(alloc);
    for place in fibers {
        if let Some(wait) = wait_at(code, place) {
            waits.push(wait)?;
        }
    }
    Ok(waits)
}

/// The main fiber at its place, and the places of all others, of which none has started.
fn alone<J: CodeBrand>(
    alloc: Global,
    total: u32,
    main: Started<J>,
) -> Result<Vec<Option<Started<J>>>, Memory>
    requires { 0 < total }
    ensures { IfOk result
        (λ fibers. fibers.items ≡ Some main ∷ replicate (total - 1) None) }
{
    let mut fibers = Vec::with_capacity(alloc, total as usize)?;
    fibers.push(Some(main))?;
    for _other in 0..total - 1 {
        fibers.push(None)?;
    }
    Ok(fibers)
}

/// Gives back what memory the fiber of this place does not need once it has ended.
fn spare_at<J: CodeBrand>(place: &mut Option<Started<J>>)
    ensures { place.new ≡ place.old }
{
    if let Some(started) = place.take() {
        *place = Some(started.without_spare());
    }
}

/// Lets the fiber of this place make one step where it stands.
fn step_at<J: CodeBrand>(
    place: &mut Option<Started<J>>,
    code: &Code,
    world: &mut PlainWorld,
) -> Result<Stepped<PlainPort<J>>, Memory>
    requires code { code.now.nodes ≡ J.nodes }
    requires going { IsGoingAt J.nodes place.old }
    ensures { IfOk result (λ answer.
        StepsAt J.nodes place.old world.old answer place.new world.new) }
{
    let Some(started) = place else {
        unreachable!();
    };
    let answer = started.step(code, world)?;
    if matches!(answer, Stepped::Ended) {
        spare_at(place);
    }
    Ok(answer)
}

/// Lets the fiber of this place make steps in one go, where it stands, that need no other fiber.
fn burst_at<J: CodeBrand>(
    place: &mut Option<Started<J>>,
    code: &Code,
    world: &mut PlainWorld,
) -> Result<(), Memory>
    requires code { code.now.nodes ≡ J.nodes }
    requires going { IsGoingAt J.nodes place.old }
    ensures { OnOk result (BurstsAt J.nodes (2 ^ 32 - 1) place.old world.old place.new world.new) }
{
    let Some(started) = place else {
        unreachable!();
    };
    let _ = started.burst(code, world)?;
    Ok(())
}

/// Lets the fiber of this place make rules in one go that need no other fiber, if it stands with a result.
#[inline(always)]
fn burst_from_result_at<J: CodeBrand>(
    place: &mut Option<Started<J>>,
    code: &Code,
    world: &mut PlainWorld,
) -> Result<(), Memory>
    requires code { code.now.nodes ≡ J.nodes }
    requires going { IsGoingAt J.nodes place.old }
    ensures { OnOk result (BurstsAt J.nodes (2 ^ 32 - 1) place.old world.old place.new world.new) }
{
    let Some(started) = place else {
        unreachable!();
    };
    let _ = started.burst_from_result(code, world)?;
    Ok(())
}

/// Lets the fiber of this place make steps in one go from an `offer` or a `take` on, and answers what it waits for
/// then, if it does.
#[inline(always)]
fn flow_at<J: CodeBrand>(
    place: &mut Option<Started<J>>,
    code: &Code,
    world: &mut PlainWorld,
) -> Result<Option<Source>, Memory>
    requires code { code.now.nodes ≡ J.nodes }
    requires going { IsGoingAt J.nodes place.old }
    requires stands { IsAtQueue J.nodes place.old }
    ensures { IfOk result (λ wait. FlowsAt J.nodes place.old world.old wait place.new world.new) }
{
    let Some(started) = place else {
        unreachable!();
    };
    started.flow(code, world)
}

/// What the next try of a fiber begins with.
#[derive(Clone, Copy)]
enum Next {
    /// A burst: rules may come that need no other fiber.
    Burst,
    /// A step: a burst would hardly make a rule.
    Step,
}

/// All fibers of a script on one thread: the world that they share, and by number each one that has
/// started.
#[derive(Drop)]
pub(crate) struct PlainMachine<J: CodeBrand> {
    world: PlainWorld,
    fibers: Vec<Option<Started<J>>>,
}

impl<J: CodeBrand> PlainMachine<J> {
    /// Before any step: the main fiber alone has started.
    pub fn opening(alloc: Global, script: &Script) -> Result<PlainMachine<J>, Memory>
        requires code { script.now.code.nodes ≡ J.nodes }
        ensures stands { IfOk result (λ machine. let s = script_of (meaning script.now) in
            StandsForRun J.nodes s machine (opening s)) }
        ensures code { OnOk result (IsCode script.now.code.queues script.now.code.nodes) }
    {
        let (world, port) = PlainWorld::new(alloc, script)?;
        let fiber = Fiber::new(alloc, &script.code, port)?;
        let fibers = alone(alloc, world.total(), Started::new(None, fiber))?;
        Ok(PlainMachine { world, fibers })
    }

    /// Lays a fiber down at its place.
    fn put(&mut self, id: u32, started: Started<J>)
        requires { id < length self.old.fibers.items }
        ensures fibers { self.new.fibers.items
            ≡ slice_set self.old.fibers.items id (Some started) }
        ensures world { self.new.world ≡ self.old.world }
    {
        self.fibers[id as usize] = Some(started);
    }

    /// Lets a fiber that is able make one step; or notes that it waits. After a start or an end the next fiber
    /// mostly stands where it waits or has waited, so its step is tried at once.
    fn step_able(&mut self, code: &Code, id: u32) -> Result<Next, Memory>
        requires code { code.now.nodes ≡ J.nodes }
        requires able { is_able (class_at self.old.world.classes id) ≡ true }
        requires stands { StandsForSome J.nodes self.old }
        ensures tries { OnOk result ((s : ScriptView) (m : WholeMachine)
            → StandsForRun J.nodes s self.old m → Tries J.nodes s m id self.old self.new) }
    {
        let answer = step_at(&mut self.fibers[id as usize], code, &mut self.world)?;
        Ok(match answer {
            Stepped::Went | Stepped::Gave => Next::Burst,
            Stepped::Ended => Next::Step,
            Stepped::Child(fiber) => {
                self.put(fiber.id(), Started::new(Some(id), fiber));
                Next::Step
            }
            Stepped::Waits(source) => {
                self.world.wait(id, source);
                Next::Burst
            }
        })
    }

    /// Lets a fiber that is able make steps in one go that need no other fiber, where a burst comes next. One
    /// that waits stands at none.
    fn burst(&mut self, code: &Code, id: u32, next: Next) -> Result<(), Memory>
        requires code { code.now.nodes ≡ J.nodes }
        requires stands { StandsForSome J.nodes self.old }
        ensures goes { OnOk result ((s : ScriptView) (m : WholeMachine) → StandsForRun J.nodes s self.old m
            → (m' : WholeMachine) × GoesOn J.nodes s id m self.old m' self.new) }
        ensures none { next ≡ Step → self.new ≡ self.old }
    {
        if matches!(next, Next::Burst) && self.world.is_able(id) {
            burst_at(&mut self.fibers[id as usize], code, &mut self.world)?;
        }
        Ok(())
    }

    /// Lets a fiber that is ready make one step; or notes that it waits. One that waited at a queue may
    /// step, and does.
    fn try_step(&mut self, code: &Code, id: u32) -> Result<Next, Memory>
        requires code { code.now.nodes ≡ J.nodes }
        requires ready { is_ready_in self.old.world id ≡ true }
        requires stands { StandsForSome J.nodes self.old }
        ensures tries { OnOk result ((s : ScriptView) (m : WholeMachine)
            → StandsForRun J.nodes s self.old m → Tries J.nodes s m id self.old self.new) }
    {
        self.world.wake(id);
        self.step_able(code, id)
    }

    /// Lets the least fiber that is ready, which stands at a queue, make steps in one go for as long as it is that; or
    /// notes that it waits. One that waited there may step, and does.
    #[inline(always)]
    fn flow(&mut self, code: &Code, id: u32) -> Result<(), Memory>
        requires code { code.now.nodes ≡ J.nodes }
        requires least { IsLeastOf (is_ready_in self.old.world) (Some id) }
        requires queue { IsAtQueue J.nodes (slice_index_or self.old.fibers.items id None) }
        requires stands { StandsForSome J.nodes self.old }
        ensures goes { OnOk result ((s : ScriptView) (m : WholeMachine)
            → StandsForRun J.nodes s self.old m → GoesByLeast J.nodes s m self.old self.new) }
    {
        self.world.wake(id);
        if let Some(source) = flow_at(&mut self.fibers[id as usize], code, &mut self.world)? {
            self.world.wait(id, source);
        }
        Ok(())
    }

    /// Whether the fiber has started and stands at an `offer` or a `take`, and cancellation is not due there.
    #[inline(always)]
    fn is_at_queue(&self, code: &Code, id: u32) -> bool
        requires { code.now.nodes ≡ J.nodes }
        ensures { OnTrue result (IsAtQueue J.nodes (slice_index_or self.now.fibers.items id None)) }
    {
        match self.fibers.get(id as usize) {
            Some(Some(started)) => started.stands_at_queue(code),
            _ => false,
        }
    }

    /// Lets a fiber that is ready make rules in one go that need no other fiber, where it is able and stands with a result.
    #[inline(always)]
    fn burst_from_result(&mut self, code: &Code, id: u32) -> Result<(), Memory>
        requires code { code.now.nodes ≡ J.nodes }
        requires stands { StandsForSome J.nodes self.old }
        ensures goes { OnOk result ((s : ScriptView) (m : WholeMachine) → StandsForRun J.nodes s self.old m
            → (m' : WholeMachine) × GoesOn J.nodes s id m self.old m' self.new) }
    {
        if !self.world.is_able(id) {
            return Ok(());
        }
        burst_from_result_at(&mut self.fibers[id as usize], code, &mut self.world)?;
        Ok(())
    }

    /// Lets the least fiber that is ready, which stands at a queue, make steps in one go, and then again whoever is the
    /// least, while it comes to one.
    // (not laid into the loop that makes each step, which would be dearer so)
    #[inline(never)]
    fn flow_rounds(&mut self, code: &Code, first: u32) -> Result<(), Memory>
        requires code { code.now.nodes ≡ J.nodes }
        requires least { IsLeastOf (is_ready_in self.old.world) (Some first) }
        requires queue { IsAtQueue J.nodes (slice_index_or self.old.fibers.items first None) }
        requires stands { StandsForSome J.nodes self.old }
        ensures goes { OnOk result ((s : ScriptView) (m : WholeMachine)
            → StandsForRun J.nodes s self.old m → GoesByLeast J.nodes s m self.old self.new) }
    {
        self.flow(code, first)?;
        while let Some(fiber) = self.world.least() {
            self.burst_from_result(code, fiber)?;
            if !self.is_at_queue(code, fiber) {
                return Ok(());
            }
            self.flow(code, fiber)?;
        }
        Ok(())
    }

    /// Lets the fiber that is chosen, where it is the least one that is ready and stands at a queue, make steps in one
    /// go, and whoever is the least after it; and answers whether it did. Where a burst would hardly make a rule, the
    /// fiber hardly stands at a queue, so that is not asked.
    #[inline(always)]
    fn flows(&mut self, code: &Code, only: Option<u32>, id: u32, next: Next) -> Result<bool, Memory>
        requires code { code.now.nodes ≡ J.nodes }
        requires least { IfNone only (IsLeastOf (is_ready_in self.old.world) (Some id)) }
        requires stands { StandsForSome J.nodes self.old }
        ensures goes { IfOk result (λ went. MatchBool went ((only ≡ None) × ((s : ScriptView) (m : WholeMachine)
            → StandsForRun J.nodes s self.old m → GoesByLeast J.nodes s m self.old self.new)) (self.new ≡ self.old)) }
    {
        if matches!(next, Next::Step) || only.is_some() || !self.is_at_queue(code, id) {
            return Ok(false);
        }
        self.flow_rounds(code, id)?;
        Ok(true)
    }

    /// Who makes the next step: the fiber that is given, or else the least one that is ready.
    // (what tells a run calls it too, and then LLVM lays it into the loop of a replay by this hint alone)
    #[inline(always)]
    fn chosen(&mut self, only: Option<u32>) -> Option<u32>
        ensures only { IfSome only (λ f. result ≡ Some f) }
        ensures least { IfNone only (IsLeastOf (is_ready_in self.old.world) result) }
        ensures same { self.new ≡ self.old }
    {
        match only {
            Some(fiber) => Some(fiber),
            None => self.world.least(),
        }
    }

    /// Given a fiber, which is ready, lets it make one step, or notes that it waits. Given none, lets the ready
    /// fiber with the least number make one step, again and again, until none is ready.
    // (both are one loop, since LLVM lays a step into its loop only where nothing else calls it)
    fn go(&mut self, code: &Code, only: Option<u32>) -> Result<(), Memory>
        requires code { code.now.nodes ≡ J.nodes }
        requires ready { IfSome only (λ f. is_ready_in self.old.world f ≡ true) }
        requires stands { StandsForSome J.nodes self.old }
        ensures tries { OnOk result (IfSome only (λ f. (s : ScriptView) (m : WholeMachine)
            → StandsForRun J.nodes s self.old m → Tries J.nodes s m f self.old self.new)) }
        ensures halts { OnOk result (IfNone only (Halts self.new)) }
        ensures way { OnOk result (IfNone only ((s : ScriptView) (all : List Pick)
            → IsUnderWay J.nodes s all [] self.old → IsUnderWay J.nodes s all [] self.new)) }
    {
        let mut next = if only.is_some() {
            Next::Step
        } else {
            Next::Burst
        };
        while let Some(fiber) = self.chosen(only) {
            self.burst(code, fiber, next)?;
            let went = self.flows(code, only, fiber, next)?;
            if went {
                next = Next::Burst;
            } else {
                next = self.try_step(code, fiber)?;
                if only.is_some() {
                    return Ok(());
                }
            }
        }
        Ok(())
    }

    /// Lets the fiber of a pick make one step; or says why it cannot.
    fn take_step(&mut self, code: &Code, fiber: u32) -> Result<Option<Why>, Memory>
        requires code { code.now.nodes ≡ J.nodes }
        requires stands { StandsForSome J.nodes self.old }
        ensures takes { IfOk result (λ why. (s : ScriptView) (m : WholeMachine)
            → StandsForRun J.nodes s self.old m
            → IsTaken J.nodes s m (pick.Step fiber) why self.new) }
    {
        if self.world.is_ready(fiber) {
            self.go(code, Some(fiber))?;
            Ok(self.world.waiting(fiber))
        } else {
            Ok(self.world.why(fiber))
        }
    }

    /// Requests the fiber of a pick from outside; or says why it cannot.
    fn take_request(&mut self, fiber: u32) -> Option<Why>
        requires stands { StandsForSome J.nodes self.old }
        ensures takes { (s : ScriptView) (m : WholeMachine)
            → StandsForRun J.nodes s self.old m
            → IsTaken J.nodes s m (pick.Cancel fiber) result self.new }
    {
        self.world.request_from_outside(fiber);
        if fiber < self.world.total() {
            None
        } else {
            Some(Why::NoFiber)
        }
    }

    /// Takes a pick: the step of a fiber, or a request from outside. What cannot be done is passed over, and
    /// it says why.
    pub fn take_pick(&mut self, code: &Code, pick: Pick) -> Result<Option<Why>, Memory>
        requires code { code.now.nodes ≡ J.nodes }
        requires stands { StandsForSome J.nodes self.old }
        ensures takes { IfOk result (λ why. (s : ScriptView) (m : WholeMachine)
            → StandsForRun J.nodes s self.old m → IsTaken J.nodes s m pick why self.new) }
    {
        match pick {
            Pick::Step(fiber) => self.take_step(code, fiber),
            Pick::Cancel(fiber) => Ok(self.take_request(fiber)),
        }
    }

    /// Lets the ready fiber with the least number make one step, again and again, until none is ready.
    pub fn run_to_halt(&mut self, code: &Code) -> Result<(), Memory>
        requires code { code.now.nodes ≡ J.nodes }
        requires stands { StandsForSome J.nodes self.old }
        ensures halts { OnOk result (Halts self.new) }
        ensures way { OnOk result ((s : ScriptView) (all : List Pick)
            → IsUnderWay J.nodes s all [] self.old → IsUnderWay J.nodes s all [] self.new) }
    {
        self.go(code, None)
    }

    /// What the blocked fibers wait for, once no fiber is ready.
    pub fn waits(&self, alloc: Global, code: &Code) -> Result<Vec<Wait>, Memory>
        requires code { code.now.nodes ≡ J.nodes }
        ensures { IfOk result (λ waits. waits.items ≡ all_waits J.nodes self.now.fibers.items) }
    {
        waits_of(alloc, code, &self.fibers)
    }

    /// The report, once no fiber is ready.
    pub fn into_report(self, alloc: Global) -> Result<Report, Memory>
        requires { Halts self }
        ensures replay { IfOk result (λ report. (s : ScriptView) (all : List Pick)
            → IsUnderWay J.nodes s all [] self → IsReplay s all report) }
        ensures fibers { IfOk result
            (λ report. report.fibers ≡ all_reported J.nodes self.fibers.items) }
    {
        Ok(Report {
            outside: self.world.outside(alloc)?,
            fibers: reports_of(alloc, self.fibers)?,
            left: self.world.into_left(alloc)?,
            late: 0,
        })
    }
}
