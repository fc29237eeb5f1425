//! Laws of histories and of what passes know. The functions do nothing: their contracts are the laws.
ghost use Rattle.std.specs.Prelude.{◌≡◌, ◌+◌, ℕ, List, []};
ghost use Rattle.fx_term.specs.declared.item.Item.{Item};
ghost use Rattle.fx_term.specs.Element.{Element};
ghost use Rattle.fx_term.specs.declared.queue_event.QueueEvent.{QueueEvent};
ghost use Rattle.fx_term.specs.Queue.{Leaves, puts};
ghost use Rattle.fx_queue.specs.declared.pass_view.PassView.{PassView};
ghost use Rattle.fx_queue.specs.Told.{Tells, DidPut, DidGet};

/// A legal history leaves one list.
pub fn one_rest()
    ensures { (cap : ℕ) (h : List QueueEvent) (xs ys : List Element)
        → Leaves cap h xs → Leaves cap h ys → xs ≡ ys }
{}

/// The history behind what the main fiber's pass is told, where it split off none and took in none,
/// is its own list. So a fiber that is alone is told of a full queue only where it filled it, and of
/// an empty one only where it emptied it.
pub fn alone()
    ensures { (v : PassView) (log : List QueueEvent) (items : List Item) → Tells v log items
        → v.own.id ≡ 0 → v.own.parts ≡ [] → v.taken ≡ [] → log ≡ v.own.acts }
{}

/// A put counts one, and a get none, among the puts of its fiber.
pub fn puts_are_counted()
    ensures put { (v : PassView) (value stamp : ℕ) (w : PassView) → DidPut v value stamp w
        → puts w.own.acts ≡ puts v.own.acts + 1 }
    ensures got { (v : PassView) (x : Item) (w : PassView) → DidGet v x w
        → puts w.own.acts ≡ puts v.own.acts }
{}
