//! Laws of what a port knows of its fiber.
ghost use Rattle.std.specs.Prelude.{ℕ, Bool, true, Option, Some, List, [], ◌∷◌, ◌++◌};
ghost use Rattle.fx_term.specs.Lists.{Among};
ghost use Rattle.fx_term.specs.Maps.{with_at};
ghost use Rattle.fx_term.specs.declared.begin.Begin.{Begin};
ghost use Rattle.fx_term.specs.declared.item.Item.{Item};
ghost use Rattle.fx_term.specs.declared.outcome.Outcome.{Outcome};
ghost use Rattle.fx_term.specs.declared.queue_event.QueueEvent.TheVariants as queue_event;
ghost use Rattle.fx_fiber.specs.Deed.{Deed, Started, Requested, Saw, Put, Got, FoundFull};
ghost use Rattle.fx_fiber.specs.Deed.{FoundEmpty, FoundEnded, Ended};
ghost use Rattle.fx_fiber.specs.StampedDeed.{StampedDeed, stamped_deed};
ghost use Rattle.fx_word.specs.declared.entry.Entry.{Entry};
ghost use Rattle.fx_word.specs.Entry.{new_entry, asking, looking, splitting, finished, peeked};
ghost use Rattle.fx_queue.specs.declared.entry.Entry as pass;
ghost use Rattle.fx_queue.specs.declared.pass_view.PassView.{PassView};
ghost use Rattle.fx_queue.specs.PassView.{first_view, kept_part, given_part};
ghost use Rattle.fx_queue.specs.Told.{DidPut, DidGet};
ghost use Rattle.fx_queue.specs.Queues.{QueueId};
ghost use Rattle.fx_word.specs.Words.{WordsId};
ghost use Rattle.fx_port.specs.Marks.{is_marked};
ghost use Rattle.fx_port.specs.PortView.{PortView, IsOfRun};
ghost use Rattle.fx_port.specs.ThreadCalls.{ThreadAgrees};
ghost use Rattle.fx_run.specs.Agreement.{PortAgrees, StampedPortAgrees};
ghost use Rattle.fx_run.specs.FiberAndPort.{entry_at};
ghost use Rattle.fx_run.specs.PassChanges.{IsNewPass, IsSplitFor, HasOneMore, AreSplitFor, AddsEvent};

/// What the words and the queues know of a fiber agrees with its deeds before its first step, and each
/// call of its port keeps that, with what the call adds to both. A refusal adds nothing to what is
/// known, and neither does a request for a number that no fiber has.
pub fn calls_keep_the_agreement()
    ensures first { (f : ℕ) (begin : Option (ℕ × Begin)) (next end : ℕ) (ps : ℕ → pass.Entry)
        (noted : ℕ → Bool) → ((q : ℕ) → IsNewPass f (ps q))
        → PortAgrees f (new_entry f begin next end) noted ps [] }
    ensures start { (f : ℕ) (e : Entry) (noted : ℕ → Bool) (ps : ℕ → pass.Entry) (ds : List Deed)
        → PortAgrees f e noted ps ds
        → (b : Begin) (ps' : ℕ → pass.Entry) → AreSplitFor e.next ps ps'
        → PortAgrees f (splitting b e) noted ps' (ds ++ Started e.next b ∷ []) }
    ensures request { (f : ℕ) (e : Entry) (noted : ℕ → Bool) (ps : ℕ → pass.Entry) (ds : List Deed)
        → PortAgrees f e noted ps ds
        → (g t : ℕ) → PortAgrees f (asking g t e) noted ps (ds ++ Requested g ∷ []) }
    ensures nobody { (f : ℕ) (e : Entry) (noted : ℕ → Bool) (ps : ℕ → pass.Entry) (ds : List Deed)
        → PortAgrees f e noted ps ds
        → (g : ℕ) → PortAgrees f e noted ps (ds ++ Requested g ∷ []) }
    ensures outside { (f : ℕ) (e : Entry) (noted : ℕ → Bool) (ps : ℕ → pass.Entry) (ds : List Deed)
        → PortAgrees f e noted ps ds
        → (g : ℕ) → PortAgrees f (asking g 0 e) (with_at g true noted) ps ds }
    ensures look { (f : ℕ) (e : Entry) (noted : ℕ → Bool) (ps : ℕ → pass.Entry) (ds : List Deed)
        → PortAgrees f e noted ps ds
        → (t : ℕ) → PortAgrees f (looking (Some t) e) noted ps (ds ++ Saw ∷ []) }
    ensures peek { (f : ℕ) (e : Entry) (noted : ℕ → Bool) (ps : ℕ → pass.Entry) (ds : List Deed)
        → PortAgrees f e noted ps ds → (g : ℕ) (o : Outcome) (t : ℕ)
        → PortAgrees f (peeked g o t e) noted ps (ds ++ FoundEnded g o ∷ []) }
    ensures put { (f : ℕ) (e : Entry) (noted : ℕ → Bool) (ps : ℕ → pass.Entry) (ds : List Deed)
        → PortAgrees f e noted ps ds
        → (q n t : ℕ) (ps' : ℕ → pass.Entry)
        → AddsEvent q (queue_event.Put f n) (queue_event.Put f t) ps ps'
        → PortAgrees f e noted ps' (ds ++ Put q n ∷ []) }
    ensures full { (f : ℕ) (e : Entry) (noted : ℕ → Bool) (ps : ℕ → pass.Entry) (ds : List Deed)
        → PortAgrees f e noted ps ds
        → (q : ℕ) → PortAgrees f e noted ps (ds ++ FoundFull q ∷ []) }
    ensures got { (f : ℕ) (e : Entry) (noted : ℕ → Bool) (ps : ℕ → pass.Entry) (ds : List Deed)
        → PortAgrees f e noted ps ds
        → (q n t : ℕ) (ps' : ℕ → pass.Entry)
        → AddsEvent q (queue_event.Got f n) (queue_event.Got f t) ps ps'
        → PortAgrees f e noted ps' (ds ++ Got q n ∷ []) }
    ensures empty { (f : ℕ) (e : Entry) (noted : ℕ → Bool) (ps : ℕ → pass.Entry) (ds : List Deed)
        → PortAgrees f e noted ps ds
        → (q : ℕ) → PortAgrees f e noted ps (ds ++ FoundEmpty q ∷ []) }
    ensures finish { (f : ℕ) (e : Entry) (noted : ℕ → Bool) (ps : ℕ → pass.Entry) (ds : List Deed)
        → PortAgrees f e noted ps ds
        → (o : Outcome) (t : ℕ) → PortAgrees f (finished o t e) noted ps (ds ++ Ended o ∷ []) }
{}

/// The stamps that the words and the queues know of a fiber are those of its deeds, or of what it found by
/// them, before its first step, and each call of its port keeps that, with what the call adds to both. A
/// request from outside has the stamp 0, and a fiber ends once.
pub fn calls_keep_the_stamps()
    ensures first { (f : ℕ) (begin : Option (ℕ × Begin)) (next end : ℕ) (ps : ℕ → pass.Entry)
        (noted : ℕ → Bool) → ((q : ℕ) → IsNewPass f (ps q))
        → StampedPortAgrees f (new_entry f begin next end) noted ps [] }
    ensures start { (f : ℕ) (e : Entry) (noted : ℕ → Bool) (ps : ℕ → pass.Entry)
        (ds : List StampedDeed) → StampedPortAgrees f e noted ps ds
        → (b : Begin) (t : ℕ) (ps' : ℕ → pass.Entry) → AreSplitFor e.next ps ps'
        → StampedPortAgrees f (splitting b e) noted ps' (ds ++ stamped_deed (Started e.next b) t ∷ []) }
    ensures request { (f : ℕ) (e : Entry) (noted : ℕ → Bool) (ps : ℕ → pass.Entry)
        (ds : List StampedDeed) → StampedPortAgrees f e noted ps ds → (g t : ℕ)
        → StampedPortAgrees f (asking g t e) noted ps (ds ++ stamped_deed (Requested g) t ∷ []) }
    ensures nobody { (f : ℕ) (e : Entry) (noted : ℕ → Bool) (ps : ℕ → pass.Entry)
        (ds : List StampedDeed) → StampedPortAgrees f e noted ps ds → (g t : ℕ)
        → StampedPortAgrees f e noted ps (ds ++ stamped_deed (Requested g) t ∷ []) }
    ensures outside { (f : ℕ) (e : Entry) (noted : ℕ → Bool) (ps : ℕ → pass.Entry)
        (ds : List StampedDeed) → StampedPortAgrees f e noted ps ds → (g : ℕ)
        → StampedPortAgrees f (asking g 0 e) (with_at g true noted) ps ds }
    ensures look { (f : ℕ) (e : Entry) (noted : ℕ → Bool) (ps : ℕ → pass.Entry)
        (ds : List StampedDeed) → StampedPortAgrees f e noted ps ds → (t : ℕ)
        → StampedPortAgrees f (looking (Some t) e) noted ps (ds ++ stamped_deed Saw t ∷ []) }
    ensures peek { (f : ℕ) (e : Entry) (noted : ℕ → Bool) (ps : ℕ → pass.Entry)
        (ds : List StampedDeed) → StampedPortAgrees f e noted ps ds → (g : ℕ) (o : Outcome) (t : ℕ)
        → StampedPortAgrees f (peeked g o t e) noted ps (ds ++ stamped_deed (FoundEnded g o) t ∷ []) }
    ensures put { (f : ℕ) (e : Entry) (noted : ℕ → Bool) (ps : ℕ → pass.Entry)
        (ds : List StampedDeed) → StampedPortAgrees f e noted ps ds
        → (q n t : ℕ) (ps' : ℕ → pass.Entry)
        → AddsEvent q (queue_event.Put f n) (queue_event.Put f t) ps ps'
        → StampedPortAgrees f e noted ps' (ds ++ stamped_deed (Put q n) t ∷ []) }
    ensures full { (f : ℕ) (e : Entry) (noted : ℕ → Bool) (ps : ℕ → pass.Entry)
        (ds : List StampedDeed) → StampedPortAgrees f e noted ps ds → (q t : ℕ)
        → StampedPortAgrees f e noted ps (ds ++ stamped_deed (FoundFull q) t ∷ []) }
    ensures got { (f : ℕ) (e : Entry) (noted : ℕ → Bool) (ps : ℕ → pass.Entry)
        (ds : List StampedDeed) → StampedPortAgrees f e noted ps ds
        → (q n t : ℕ) (ps' : ℕ → pass.Entry)
        → AddsEvent q (queue_event.Got f n) (queue_event.Got f t) ps ps'
        → StampedPortAgrees f e noted ps' (ds ++ stamped_deed (Got q n) t ∷ []) }
    ensures empty { (f : ℕ) (e : Entry) (noted : ℕ → Bool) (ps : ℕ → pass.Entry)
        (ds : List StampedDeed) → StampedPortAgrees f e noted ps ds → (q t : ℕ)
        → StampedPortAgrees f e noted ps (ds ++ stamped_deed (FoundEmpty q) t ∷ []) }
    ensures finish { (f : ℕ) (e : Entry) (noted : ℕ → Bool) (ps : ℕ → pass.Entry)
        (ds : List StampedDeed) → StampedPortAgrees f e noted ps ds → (o : Outcome) (t : ℕ)
        → ((n : ℕ) (v : Outcome) → Among (stamped_deed (Ended v) n) ds → ⊥)
        → StampedPortAgrees f (finished o t e) noted ps (ds ++ stamped_deed (Ended o) t ∷ []) }
{}

/// The calls of a pass change what it knows of its fiber so.
pub fn passes_change_so()
    ensures first { (capacity fibers : ℕ) → IsNewPass 0 (first_view capacity fibers).own }
    ensures given { (v : PassView) (end : ℕ) → IsNewPass v.own.next (given_part end v).own }
    ensures kept { (v : PassView) (end : ℕ) → IsSplitFor v.own.next v.own (kept_part end v).own }
    ensures put { (v w : PassView) (n t : ℕ) → DidPut v n t w
        → HasOneMore (queue_event.Put v.own.id n) (queue_event.Put v.own.id t) v.own w.own }
    ensures got { (v w : PassView) (x : Item) → DidGet v x w
        → HasOneMore (queue_event.Got v.own.id x.value) (queue_event.Got v.own.id x.stamp) v.own w.own }
{}

/// A port on threads that agrees with the deeds of its fiber agrees with them as these laws ask. At a
/// queue that there is not its fiber did nothing.
pub fn thread_port_agrees()
    ensures { (words : WordsId) (queues : List QueueId) (may : ℕ → Bool) (p : PortView)
        → IsOfRun words queues may p → (ds : List StampedDeed) → ThreadAgrees p ds
        → StampedPortAgrees p.words.own.id p.words.own (is_marked p.noted) (λ q. entry_at q p) ds }
{}
