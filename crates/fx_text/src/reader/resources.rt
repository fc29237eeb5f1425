//! Reads the forms that acquire and release.
ghost use Rattle.std.specs.Prelude.{◌<◌, ◌≤◌, ◌+◌, ◌*◌, None, [], ◌∷◌, ◌++◌, length, IfOk};
ghost use Rattle.fx_term.specs.Term.{Bracket};
ghost use Rattle.fx_term.specs.Meaning.{term_of};
ghost use Rattle.fx_text.specs.Limits.{most_nodes, form_spares};
ghost use Rattle.fx_text.specs.Group.{OfResource, OfResources};
ghost use Rattle.fx_text.specs.Shape.{shape, pure_zero};
ghost use Rattle.fx_text.specs.Reading.{group_at, parts_at};
ghost use Rattle.fx_text.specs.Given.{Gives};
ghost use Rattle.fx_text.specs.Needs.{AreMade};
ghost use Rattle.fx_text.specs.Trees.{AllBelow, GrowsBy};
ghost use Rattle.fx_text.specs.ReaderState.{scope_of, IsReady, ReadsTerm, WentThrough};
ghost use Rattle.fx_text.specs.Head.{ReadsHead};
ghost use Rattle.fx_text.specs.Made.{CanMake, Makes};
ghost use Rattle.fx_text.specs.ResourceState.{resource_of, resources_of, roots_of, Binds, Nests};

use crate::fault::ReadError;
use crate::form::Form;
use crate::part::{binder, closing, is_closing, opening, too_deep};
use crate::reader::Reader;
use crate::reader::head::{Head, Inner, Then, Triple};
use crate::scope::Bound;
use fx_term::{Arg, NameKind, Node, NodeId};
use std::alloc::AllocError;

/// A resource of `using`: the name of its value, with its slot, and the terms that acquire and
/// release it.
#[derive(Clone, Copy)]
pub(crate) struct Resource<'a> {
    pub(crate) name: &'a [u8],
    pub(crate) slot: u32,
    pub(crate) acquire: NodeId,
    pub(crate) release: NodeId,
}

impl<'a> Reader<'a> {
    #[tactic(auto, using(crate::proofs::ScopeLaws::slot_at))]
    pub(super) fn bracket_head(&self, bytes: &'a [u8]) -> Result<(Head<'a>, &'a [u8]), ReadError>
        requires { IsReady 2 self.now bytes.now }
        ensures { ReadsHead Form.Bracket self.now bytes.now result }
    {
        let (x, rest) = binder(&self.names, self.place, bytes)?;
        let slot = self.names.len() as u32;
        let named = Inner::Name(NameKind::Value, x);
        let then = Then::Three(named, named, Triple::Bracket(slot));
        Ok((Head::Part(Inner::Same, then), rest))
    }

    /// What is used, in a bracket whose resource is the value 0.
    pub(super) fn guarantee_node(
        &mut self,
        used: NodeId,
        finalizer: NodeId,
    ) -> Result<NodeId, AllocError>
        requires { CanMake 47 self.old (used ∷ finalizer ∷ []) }
        ensures { let part = λ (id : NodeId). term_of self.old.nodes.items id.0 in
            IfOk result (λ root. Makes 47 self.old self.new (used ∷ finalizer ∷ [])
            (Bracket None pure_zero (part used) (part finalizer)) root.0) }
    {
        let zero = self.add(Node::Pure(Arg::Number(0)))?;
        self.add(Node::Bracket(None, zero, used, finalizer))
    }

    #[cycle(terms)]
    pub(super) fn using(
        &mut self,
        room: usize,
        bytes: &'a [u8],
    ) -> Result<(NodeId, &'a [u8]), ReadError>
        requires { IsReady 0 self.old bytes.now }
        ensures { ReadsTerm form_spares self.old self.new bytes.now
            (parts_at (group_at room) (shape Form.Using (scope_of self.old)) bytes.now) result }
    {
        let outside = self.names.len();
        let (resources, rest) = self.resources(room, bytes)?;
        let (used, rest) = self.term(Inner::Same, room, rest)?;
        self.names.truncate(outside);
        let rest = closing(rest)?;
        Ok((self.nested(resources, used)?, rest))
    }

    /// The list of resources, each in the scope of the names before it. All their names are in scope
    /// after it.
    #[cycle(terms)]
    #[tactic(auto, using(crate::proofs::GroupLaws::group_is))]
    fn resources(
        &mut self,
        room: usize,
        bytes: &'a [u8],
    ) -> Result<(Vec<Resource<'a>>, &'a [u8]), ReadError>
        requires { IsReady 0 self.old bytes.now }
        ensures read { Gives (λ x. (resources_of self.new.nodes.items x.0.items, x.1.now)) result
            (group_at room OfResources (scope_of self.old) bytes.now) }
        ensures binds { IfOk result (λ x. Binds self.old self.new x.0.items bytes.now x.1.now) }
        ensures grows { IfOk result
            (λ x. GrowsBy self.old.nodes.items self.new.nodes.items (roots_of x.0.items)) }
    {
        if room == 0 {
            return Err(too_deep(bytes));
        }
        let mut resources = Vec::new(self.alloc);
        let mut rest = opening(bytes)?;
        loop {
            let (resource, after) = self.resource(room - 1, rest)?;
            self.names.push(Bound {
                name: resource.name,
                kind: NameKind::Value,
            })?;
            resources.push(resource)?;
            rest = after;
            if is_closing(rest) {
                break;
            }
        }
        let rest = closing(rest)?;
        Ok((resources, rest))
    }

    /// A resource. Its name is in scope in its release alone.
    #[cycle(terms)]
    #[tactic(auto, using(crate::proofs::GroupLaws::resource_is))]
    fn resource(
        &mut self,
        room: usize,
        bytes: &'a [u8],
    ) -> Result<(Resource<'a>, &'a [u8]), ReadError>
        requires { IsReady 0 self.old bytes.now }
        ensures read { Gives (λ x. (resource_of self.new.nodes.items x.0, x.1.now)) result
            (group_at room OfResource (scope_of self.old) bytes.now) }
        ensures went { IfOk result (λ x.
            WentThrough self.old self.new (x.0.acquire ∷ x.0.release ∷ []) bytes.now x.1.now) }
        ensures grows { IfOk result (λ x. GrowsBy self.old.nodes.items self.new.nodes.items
            (x.0.acquire.0 ∷ x.0.release.0 ∷ [])) }
        ensures shorter { IfOk result (λ x. length x.1.now < length bytes.now) }
    {
        let (name, inside, rest) = self.named(room, bytes)?;
        let slot = self.names.len() as u32;
        let (acquire, rest) = self.term(Inner::Same, inside, rest)?;
        let (release, rest) = self.term(Inner::Name(NameKind::Value, name), inside, rest)?;
        let rest = closing(rest)?;
        let resource = Resource {
            name,
            slot,
            acquire,
            release,
        };
        Ok((resource, rest))
    }

    /// A bracket for each resource round what uses them, made from the last to the first.
    fn nested(
        &mut self,
        mut resources: Vec<Resource<'a>>,
        used: NodeId,
    ) -> Result<NodeId, AllocError>
        requires made { AreMade self.old.nodes.items self.old.needs.items }
        requires below { AllBelow (length self.old.nodes.items) (roots_of resources.items) }
        requires has_node { used.0 < length self.old.nodes.items }
        requires small { length self.old.nodes.items + length resources.items ≤ most_nodes }
        ensures { IfOk result
            (λ root. Nests self.old self.new resources.entry.items used.0 root.0) }
    {
        let mut root = used;
        while let Some(r) = resources.pop() {
            root = self.add(Node::Bracket(Some(r.slot), r.acquire, root, r.release))?;
        }
        Ok(root)
    }
}
