//! Reads `bracketcase`, which releases by the outcome of its use.
ghost use Rattle.std.specs.Prelude.{◌≡◌, ℕ, List, IfOk};
ghost use Rattle.fx_text.specs.declared.reader.Reader.{Reader as AnyReader};
ghost use Rattle.fx_text.specs.Head.{ReadsHead, CanGoOn, WentOn, case_parts, case_term};
ghost use Rattle.fx_text.specs.Made.{CanMake, Makes};
ghost use Rattle.fx_text.specs.ReaderState.{IsReady};

use crate::fault::ReadError;
use crate::form::Form;
use crate::part::binder;
use crate::reader::Reader;
use crate::reader::head::{Ahead, Head, Inner, Then, Whole};
use fx_term::{NameKind, Node, NodeId};
use std::alloc::AllocError;

/// The slot of the value of a `bracketcase`, and that of the number of its outcome, which is the
/// next one.
#[derive(Clone, Copy)]
pub(crate) struct CaseSlots {
    pub(crate) value: u32,
    pub(crate) outcome: u32,
}

/// The part of a `bracketcase` that is read, with those before it.
#[derive(Clone, Copy)]
pub(crate) enum CasePart {
    Acquire,
    Use(NodeId),
    Success(NodeId, NodeId),
    Failure(NodeId, NodeId, NodeId),
    Cancellation(NodeId, NodeId, NodeId, NodeId),
}

/// A `bracketcase` that is read: the name of its value, its slots, and the part.
#[derive(Clone, Copy)]
pub(crate) struct Case<'a> {
    pub(crate) name: &'a [u8],
    pub(crate) slots: CaseSlots,
    pub(crate) part: CasePart,
}

/// The parts of a `bracketcase`.
#[derive(Clone, Copy)]
pub(crate) struct CaseRoots {
    pub(crate) acquire: NodeId,
    pub(crate) used: NodeId,
    pub(crate) success: NodeId,
    pub(crate) failure: NodeId,
    pub(crate) cancellation: NodeId,
}

impl<'a> Case<'a> {
    /// What comes after its part, whose root this is.
    pub(super) fn after(self, root: NodeId) -> Ahead<'a>
        ensures { (reader : AnyReader) (bytes : List ℕ) → CanGoOn reader (Then.Case self.entry) root
            → WentOn reader reader (Then.Case self.entry) root bytes result bytes }
    {
        let under = Inner::Name(NameKind::Value, self.name);
        let group = Inner::OutcomeUnder(self.name);
        match self.part {
            CasePart::Acquire => self.then(under, CasePart::Use(root)),
            CasePart::Use(a) => self.then(group, CasePart::Success(a, root)),
            CasePart::Success(a, u) => self.then(group, CasePart::Failure(a, u, root)),
            CasePart::Failure(a, u, s) => self.then(under, CasePart::Cancellation(a, u, s, root)),
            CasePart::Cancellation(acquire, used, success, failure) => {
                let roots = CaseRoots {
                    acquire,
                    used,
                    success,
                    failure,
                    cancellation: root,
                };
                Ahead::End(Whole::Case(self.slots, roots))
            }
        }
    }

    /// A part more.
    fn then(self, inner: Inner<'a>, part: CasePart) -> Ahead<'a>
        ensures { result ≡ Ahead.Part inner.entry (Then.Case (record self.entry { part = part })) }
    {
        Ahead::Part(inner, Then::Case(Case { part, ..self }))
    }
}

impl<'a> Reader<'a> {
    pub(super) fn bracket_case_head(
        &self,
        bytes: &'a [u8],
    ) -> Result<(Head<'a>, &'a [u8]), ReadError>
        requires { IsReady 2 self.now bytes.now }
        ensures { ReadsHead Form.BracketCase self.now bytes.now result }
    {
        let (name, rest) = binder(&self.names, self.place, bytes)?;
        let value = self.names.len() as u32;
        let slots = CaseSlots {
            value,
            outcome: value + 1,
        };
        let case = Case {
            name,
            slots,
            part: CasePart::Acquire,
        };
        Ok((Head::Part(Inner::Same, Then::Case(case)), rest))
    }

    /// The node of a `bracketcase`.
    pub(super) fn case_node(
        &mut self,
        slots: CaseSlots,
        roots: CaseRoots,
    ) -> Result<NodeId, AllocError>
        requires { CanMake 1 self.old (case_parts roots) }
        ensures { IfOk result (λ root. Makes 1 self.old self.new (case_parts roots)
            (case_term self.old.nodes.items slots roots) root.0) }
    {
        let CaseSlots { value, outcome } = slots;
        self.add(Node::BracketCase(
            value,
            roots.acquire,
            roots.used,
            outcome,
            roots.success,
            outcome,
            roots.failure,
            roots.cancellation,
        ))
    }
}
