//! What stands before the parts of a form and between them, and the nodes that are made of them.
ghost use Rattle.std.specs.Prelude.{◌≡◌, ◌<◌, ◌+◌, [], ◌∷◌, length, IfOk};
ghost use Rattle.fx_term.specs.Meaning.{term_of};
ghost use Rattle.fx_term.specs.Tree.{children};
ghost use Rattle.fx_text.specs.Limits.{most_nodes, form_spares};
ghost use Rattle.fx_text.specs.Head.{ReadsHead, leaf_term, single_term, double_term, triple_term};
ghost use Rattle.fx_text.specs.Head.{spares_for, spares_whole, parts_of_whole, whole_term, EndsWhole, CanGoOn, GoesOn};
ghost use Rattle.fx_text.specs.Group.{OfTerm};
ghost use Rattle.fx_text.specs.Shape.{ends};
ghost use Rattle.fx_text.specs.Made.{CanMake, Makes};
ghost use Rattle.fx_text.specs.Reading.{GroupReading, parts_at};
ghost use Rattle.fx_text.specs.ReaderState.{scope_of, IsReady, ReadsTerm, Ends};
ghost use Rattle.fx_text.specs.Needs.{AreMade};
ghost use Rattle.fx_text.specs.Trees.{AllBelow};

use crate::fault::ReadError;
use crate::form::Form;
use crate::part::closing;
use crate::reader::Reader;
use crate::reader::cases::{Case, CaseRoots, CaseSlots};
use crate::reader::races::RaceSlots;
use fx_term::{Arg, NameKind, Node, NodeId};
use std::alloc::AllocError;

/// A part of a form that has a term in it, by the scope of that term.
#[derive(Clone, Copy)]
pub(crate) enum Inner<'a> {
    /// A term in the scope of the form.
    Same,
    /// With one name more.
    Name(NameKind, &'a [u8]),
    /// In the scope of another fiber.
    Elsewhere,
    /// In that of the left fiber of a race.
    RaceLeft,
    /// In that of the right fiber of a race.
    RaceRight,
    /// With the name of a loop's number, inside a loop of that count.
    Loop(u32, &'a [u8]),
    /// What comes after an outcome that has a number: in parentheses the name of the number, and a
    /// term.
    Outcome,
    /// The same, with the name of a value more.
    OutcomeUnder(&'a [u8]),
}

/// A form of one such part, with what stands before it.
#[derive(Clone, Copy)]
pub(crate) enum Single {
    For(u32, u32),
    Mask(u32),
    Poll(u32),
}

/// A form of two parts, with what stands before the second.
#[derive(Clone, Copy)]
pub(crate) enum Double {
    Let(u32),
    Handle(u32),
    If(Arg),
    Start(u32),
    Race(RaceSlots),
    TryTake(u8, u32),
    OnCancel,
    Guarantee,
    /// A `forcer`, whose first part is already what goes on after its errors too.
    Forcer,
}

/// A form of three parts, with what stands before them.
#[derive(Clone, Copy)]
pub(crate) enum Triple {
    Bracket(u32),
    Join(u32, u32),
}

/// What is still to come of a form after a part of it, with the parts before that one.
#[derive(Clone, Copy)]
pub(crate) enum Then<'a> {
    /// Nothing, since it was the one part.
    One(Single),
    /// The second of two.
    Two(Inner<'a>, Double),
    /// Nothing, since it was the second of two.
    SecondOfTwo(Double, NodeId),
    /// The second and the third of three.
    Three(Inner<'a>, Inner<'a>, Triple),
    /// The third of three.
    SecondOfThree(Inner<'a>, Triple, NodeId),
    /// Nothing, since it was the third of three.
    ThirdOfThree(Triple, NodeId, NodeId),
    /// The parts of a `bracketcase` after this one.
    Case(Case<'a>),
    /// The name of an error, and a term.
    Handle,
    /// What is done after its value or its error.
    Forcer,
}

/// A form all of whose parts were read.
#[derive(Clone, Copy)]
pub(crate) enum Whole {
    One(Single, NodeId),
    Two(Double, NodeId, NodeId),
    Three(Triple, NodeId, NodeId, NodeId),
    Case(CaseSlots, CaseRoots),
}

/// What is still to come of a form that has parts.
#[derive(Clone, Copy)]
pub(crate) enum Ahead<'a> {
    /// A part, and what comes after it.
    Part(Inner<'a>, Then<'a>),
    /// Its `)`.
    End(Whole),
}

/// What is still to come of a form after its first tokens.
#[derive(Clone, Copy)]
pub(crate) enum Head<'a> {
    /// Nothing, and the form is this node.
    Leaf(Node),
    /// A part, and what comes after it.
    Part(Inner<'a>, Then<'a>),
    Seq,
    Using,
}

impl<'a> Reader<'a> {
    /// The tokens before the first term of a form.
    pub(super) fn head(
        &self,
        form: Form,
        bytes: &'a [u8],
    ) -> Result<(Head<'a>, &'a [u8]), ReadError>
        requires { IsReady 2 self.now bytes.now }
        ensures { ReadsHead form self.now bytes.now result }
    {
        match form {
            Form::Pure => self.pure_head(bytes),
            Form::Raise => self.raise_head(bytes),
            Form::Canceled => Ok((Head::Leaf(Node::Canceled), bytes)),
            Form::Never => Ok((Head::Leaf(Node::Never), bytes)),
            Form::Cede => Ok((Head::Leaf(Node::Cede), bytes)),
            Form::Seq => Ok((Head::Seq, bytes)),
            Form::Let => self.let_head(bytes),
            Form::Handle => Ok((Head::Part(Inner::Same, Then::Handle), bytes)),
            Form::If => self.if_head(bytes),
            Form::For => self.for_head(bytes),
            Form::Mask => self.mask_head(bytes),
            Form::Poll => self.poll_head(bytes),
            Form::OnCancel => Ok((
                Head::Part(Inner::Same, Then::Two(Inner::Same, Double::OnCancel)),
                bytes,
            )),
            Form::Bracket => self.bracket_head(bytes),
            Form::BracketCase => self.bracket_case_head(bytes),
            Form::Guarantee => Ok((
                Head::Part(Inner::Same, Then::Two(Inner::Same, Double::Guarantee)),
                bytes,
            )),
            Form::Forcer => Ok((Head::Part(Inner::Same, Then::Forcer), bytes)),
            Form::Using => Ok((Head::Using, bytes)),
            Form::Start => self.start_head(bytes),
            Form::Join => self.join_head(bytes),
            Form::Cancel => self.cancel_head(bytes),
            Form::First => self.first_head(bytes),
            Form::Race => self.race_head(bytes),
            Form::Offer => self.offer_head(bytes),
            Form::Take => self.take_head(bytes),
            Form::TryOffer => self.try_offer_head(bytes),
            Form::TryTake => self.try_take_head(bytes),
        }
    }

    /// The `)` of a form, and its node.
    pub(super) fn end(
        &mut self,
        node: Node,
        bytes: &'a [u8],
    ) -> Result<(NodeId, &'a [u8]), ReadError>
        requires made { AreMade self.old.nodes.items self.old.needs.items }
        requires children { AllBelow (length self.old.nodes.items) (children node) }
        requires small { length self.old.nodes.items < most_nodes }
        ensures { Ends self.old self.new node bytes.now result }
    {
        let rest = closing(bytes)?;
        Ok((self.add(node)?, rest))
    }

    /// A form with no term in it.
    pub(super) fn leaf(
        &mut self,
        node: Node,
        bytes: &'a [u8],
    ) -> Result<(NodeId, &'a [u8]), ReadError>
        requires ready { IsReady 2 self.old bytes.now }
        requires childless { children node ≡ [] }
        ensures { (each : GroupReading)
            → ReadsTerm form_spares self.old self.new bytes.now
            (parts_at {g = OfTerm} each (ends (leaf_term node)) bytes.now) result }
    {
        self.end(node, bytes)
    }

    /// The node of a form of one term.
    pub(super) fn single_node(&mut self, form: Single, part: NodeId) -> Result<NodeId, AllocError>
        requires { CanMake 1 self.old (part ∷ []) }
        ensures { IfOk result (λ root. Makes 1 self.old self.new (part ∷ [])
            (single_term form (term_of self.old.nodes.items part.0)) root.0) }
    {
        match form {
            Single::For(slot, count) => self.add(Node::For(slot, count, part)),
            Single::Mask(slot) => self.add(Node::Mask(slot, part)),
            Single::Poll(slot) => self.add(Node::Poll(slot, part)),
        }
    }

    /// The node of a form of two terms.
    pub(super) fn double_node(
        &mut self,
        form: Double,
        first: NodeId,
        second: NodeId,
    ) -> Result<NodeId, AllocError>
        requires { CanMake (1 + (spares_for form + spares_for form)) self.old (first ∷ second ∷ []) }
        ensures { let part = λ (id : NodeId). term_of self.old.nodes.items id.0 in
            IfOk result (λ root. Makes (1 + (spares_for form + spares_for form)) self.old self.new
            (first ∷ second ∷ [])
            (double_term form (part first) (part second)) root.0) }
    {
        match form {
            Double::Let(slot) => self.add(Node::Let(Some(slot), first, second)),
            Double::Handle(slot) => self.add(Node::Handle(first, Some(slot), second)),
            Double::If(v) => self.add(Node::If(v, first, second)),
            Double::Start(slot) => self.add(Node::Start(slot, first, second)),
            Double::Race(slots) => self.race_node(slots, first, second),
            Double::TryTake(queue, slot) => self.add(Node::TryTake(queue, slot, first, second)),
            Double::OnCancel => self.add(Node::OnCancel(first, second)),
            Double::Guarantee => self.guarantee_node(first, second),
            Double::Forcer => self.add(Node::Let(None, first, second)),
        }
    }

    /// The node of a form of three terms.
    fn triple_node(
        &mut self,
        form: Triple,
        first: NodeId,
        second: NodeId,
        third: NodeId,
    ) -> Result<NodeId, AllocError>
        requires { CanMake 1 self.old (first ∷ second ∷ third ∷ []) }
        ensures { let part = λ (id : NodeId). term_of self.old.nodes.items id.0 in
            IfOk result (λ root. Makes 1 self.old self.new (first ∷ second ∷ third ∷ [])
            (triple_term form (part first) (part second) (part third)) root.0) }
    {
        match form {
            Triple::Bracket(slot) => self.add(Node::Bracket(Some(slot), first, second, third)),
            Triple::Join(fiber, slot) => {
                self.add(Node::Join(fiber, slot, first, slot, second, third))
            }
        }
    }

    /// The node of a form, of its parts.
    fn whole_node(&mut self, whole: Whole) -> Result<NodeId, AllocError>
        requires { CanMake (1 + spares_whole whole) self.old (parts_of_whole whole) }
        ensures { IfOk result (λ root. Makes (1 + spares_whole whole) self.old self.new (parts_of_whole whole)
            (whole_term self.old.nodes.items whole) root.0) }
    {
        match whole {
            Whole::One(form, part) => self.single_node(form, part),
            Whole::Two(form, first, second) => self.double_node(form, first, second),
            Whole::Three(form, first, second, third) => {
                self.triple_node(form, first, second, third)
            }
            Whole::Case(slots, roots) => self.case_node(slots, roots),
        }
    }

    /// The `)` of a form with parts, and the node of these.
    pub(super) fn end_whole(
        &mut self,
        whole: Whole,
        bytes: &'a [u8],
    ) -> Result<(NodeId, &'a [u8]), ReadError>
        requires { CanMake (1 + spares_whole whole) self.old (parts_of_whole whole) }
        ensures { EndsWhole self.old self.new whole bytes.now result }
    {
        let rest = closing(bytes)?;
        Ok((self.whole_node(whole)?, rest))
    }

    /// What comes after a part of a form, up to the next one.
    pub(super) fn go_on(
        &mut self,
        then: Then<'a>,
        part: NodeId,
        bytes: &'a [u8],
    ) -> Result<(Ahead<'a>, &'a [u8]), ReadError>
        requires { CanGoOn self.old then part }
        ensures { GoesOn self.old self.new then.entry part bytes.now result }
    {
        match then {
            Then::One(form) => Ok((Ahead::End(Whole::One(form, part)), bytes)),
            Then::Two(inner, form) => {
                Ok((Ahead::Part(inner, Then::SecondOfTwo(form, part)), bytes))
            }
            Then::SecondOfTwo(form, first) => {
                Ok((Ahead::End(Whole::Two(form, first, part)), bytes))
            }
            Then::Three(second, third, form) => {
                let then = Then::SecondOfThree(third, form, part);
                Ok((Ahead::Part(second, then), bytes))
            }
            Then::SecondOfThree(third, form, first) => {
                let then = Then::ThirdOfThree(form, first, part);
                Ok((Ahead::Part(third, then), bytes))
            }
            Then::ThirdOfThree(form, first, second) => {
                Ok((Ahead::End(Whole::Three(form, first, second, part)), bytes))
            }
            Then::Case(case) => Ok((case.after(part), bytes)),
            Then::Handle => self.handle(part, bytes),
            Then::Forcer => self.forcer(part, bytes),
        }
    }
}
