//! Laws of what is gathered at the end of a run.
ghost use Rattle.std.specs.Prelude.{◌≡◌, ℕ, List, [], ◌∷◌, ◌++◌};
ghost use Rattle.fx_word.specs.declared.seat_view.SeatView.{SeatView};
ghost use Rattle.fx_word.specs.SeatView as seat;
ghost use Rattle.fx_queue.specs.declared.pass_view.PassView.{PassView};
ghost use Rattle.fx_queue.specs.PassView as queue;
ghost use Rattle.fx_run.specs.RanFiber.{RanFiber, bares_of};
ghost use Rattle.fx_run.specs.Reported.{AreAscending, NoneIsLost};
ghost use Rattle.fx_run.specs.Gathered.{AreEntries, ArePasses};

/// A seat that takes in one fiber's after the other has in the end the entries of all fibers given.
/// Where it is the main fiber's, and no fiber is lost, it can close the words.
pub fn gathered_words_can_be_closed()
    ensures first { (p : RanFiber) (v : SeatView) → v.own ≡ p.words → v.taken ≡ []
        → AreEntries (p ∷ []) v }
    ensures one_more { (ps : List RanFiber) (p : RanFiber) (v w : SeatView) → AreEntries ps v
        → w.own ≡ p.words → w.taken ≡ [] → AreEntries (ps ++ p ∷ []) (seat.joined v w) }
    ensures whole { (ps : List RanFiber) (v : SeatView) → NoneIsLost (bares_of ps)
        → AreAscending (bares_of ps) → AreEntries ps v → v.own.id ≡ 0 → seat.IsWhole v }
{}

/// So it is with the passes of each queue.
pub fn gathered_passes_can_be_closed()
    ensures first { (q : ℕ) (p : RanFiber) (v : PassView) → v.own ≡ p.passes q → v.taken ≡ []
        → ArePasses q (p ∷ []) v }
    ensures one_more { (q : ℕ) (ps : List RanFiber) (p : RanFiber) (v w : PassView)
        → ArePasses q ps v → w.own ≡ p.passes q → w.taken ≡ []
        → ArePasses q (ps ++ p ∷ []) (queue.joined v w) }
    ensures whole { (q : ℕ) (ps : List RanFiber) (v : PassView) → NoneIsLost (bares_of ps)
        → AreAscending (bares_of ps) → ArePasses q ps v → v.own.id ≡ 0 → queue.IsWhole v }
{}
