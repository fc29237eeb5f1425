//! The links of a ring of waiters.
ghost use Rattle.std.specs.Prelude.{◌≡◌, slice_set};
ghost use Rattle.fx_queue.specs.WaitRing.{link_at, afters, befores};

/// The neighbours of a fiber in the ring of those that wait, whose head is one more number.
#[derive(Clone, Copy)]
pub struct Link {
    /// Who was listed just before it, or the head.
    pub before: u32,
    /// Who was listed just after it, or the head.
    pub after: u32,
    /// Whether it waits.
    pub listed: bool,
}

/// The links of a fiber; of a number that is none, those of one that is alone.
pub(crate) fn link_of(links: &Vec<Link>, fiber: u32) -> Link
    ensures { result ≡ link_at links.now.items fiber }
{
    let place = fiber as usize;
    if place < links.len() {
        links[place]
    } else {
        Link {
            before: fiber,
            after: fiber,
            listed: false,
        }
    }
}

/// Gives the fiber these links.
pub(crate) fn set_link(links: &mut Vec<Link>, fiber: u32, link: Link)
    ensures { links.new.items ≡ slice_set links.old.items fiber link }
{
    let place = fiber as usize;
    if place < links.len() {
        links[place] = link;
    }
}

/// Makes `after` the neighbour after the fiber.
pub(crate) fn link_after(links: &mut Vec<Link>, fiber: u32, after: u32)
    ensures { links.new.items ≡ afters links.old.items fiber after }
{
    let link = link_of(links, fiber);
    set_link(
        links,
        fiber,
        Link {
            before: link.before,
            after,
            listed: link.listed,
        },
    );
}

/// Makes `before` the neighbour before the fiber.
pub(crate) fn link_before(links: &mut Vec<Link>, fiber: u32, before: u32)
    ensures { links.new.items ≡ befores links.old.items fiber before }
{
    let link = link_of(links, fiber);
    set_link(
        links,
        fiber,
        Link {
            before,
            after: link.after,
            listed: link.listed,
        },
    );
}
