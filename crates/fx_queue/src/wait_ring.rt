//! The ring of those that wait.
ghost use Rattle.std.specs.Prelude.{◌≡◌, ◌<◌, ◌≤◌, ◌++◌, [], ◌∷◌, ℕ, List, IsTrue, IsFalse, IfOk, Some, None};
ghost use Rattle.fx_term.specs.Lists.{Among};
ghost use Rattle.fx_queue.specs.WaitRing.{Lists};

use crate::link::{Link, link_after, link_before, link_of, set_link};
use fx_term::Memory;
use std::alloc::Global;

/// The ring of those that wait. Each call takes a constant number of steps and no memory.
#[derive(Drop)]
pub struct WaitRing {
    /// By fiber number, and then the head's.
    links: Vec<Link>,
    /// One more number than the fibers have.
    head: u32,
}

impl WaitRing {
    /// A ring in which nobody waits, with room for so many fibers. Want of memory leaves nothing.
    pub fn new(alloc: Global, fibers: u32) -> Result<WaitRing, Memory>
        ensures { IfOk result (λ w. (w.head ≡ fibers) × Lists w.links.items w.head []) }
    {
        let alone = Link {
            before: fibers,
            after: fibers,
            listed: false,
        };
        let Ok(links) = vec![in alloc; alone; fibers as usize + 1] else {
            return Err(Memory);
        };
        Ok(WaitRing {
            links,
            head: fibers,
        })
    }

    /// Whether nobody waits.
    pub fn is_empty(&self) -> bool
        ensures none { Lists self.now.links.items self.now.head [] → IsTrue result }
        ensures some { (x : ℕ) (xs : List ℕ) → Lists self.now.links.items self.now.head (x ∷ xs) → IsFalse result }
    {
        link_of(&self.links, self.head).after == self.head
    }

    /// Lists the fiber as the last, if it is not listed.
    pub fn add(&mut self, fiber: u32)
        ensures listed { (xs : List ℕ) → Lists self.old.links.items self.old.head xs
            → Among fiber xs → Lists self.new.links.items self.new.head xs }
        ensures last { (xs : List ℕ) → Lists self.old.links.items self.old.head xs
            → fiber < self.old.head → (Among fiber xs → ⊥) → Lists self.new.links.items self.new.head (xs ++ fiber ∷ []) }
        ensures beyond { self.old.head ≤ fiber → self.new ≡ self.old }
    {
        if fiber >= self.head || link_of(&self.links, fiber).listed {
            return;
        }
        let head = self.head;
        let last = link_of(&self.links, head).before;
        let links = &mut self.links;
        set_link(
            links,
            fiber,
            Link {
                before: last,
                after: head,
                listed: true,
            },
        );
        link_after(links, last, fiber);
        link_before(links, head, fiber);
    }

    /// Takes the fiber off. True if it was listed.
    pub fn remove(&mut self, fiber: u32) -> bool
        ensures there { (ys zs : List ℕ)
            → Lists self.old.links.items self.old.head (ys ++ fiber ∷ zs) → IsTrue result × Lists self.new.links.items self.new.head (ys ++ zs) }
        ensures absent { (xs : List ℕ) → Lists self.old.links.items self.old.head xs
            → (Among fiber xs → ⊥) → IsFalse result × Lists self.new.links.items self.new.head xs }
    {
        let link = link_of(&self.links, fiber);
        if fiber >= self.head || !link.listed {
            return false;
        }
        let links = &mut self.links;
        link_after(links, link.before, link.after);
        link_before(links, link.after, link.before);
        set_link(
            links,
            fiber,
            Link {
                before: fiber,
                after: fiber,
                listed: false,
            },
        );
        true
    }

    /// Takes off the one that was listed longest.
    pub fn take_first(&mut self) -> Option<u32>
        ensures none { Lists self.old.links.items self.old.head [] → (result ≡ None)
            × Lists self.new.links.items self.new.head [] }
        ensures first { (x : ℕ) (xs : List ℕ) → Lists self.old.links.items self.old.head (x ∷ xs)
            → (result ≡ Some x) × Lists self.new.links.items self.new.head xs }
    {
        let first = link_of(&self.links, self.head).after;
        if self.remove(first) {
            Some(first)
        } else {
            None
        }
    }
}
