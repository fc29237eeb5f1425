//! Which nodes a form makes.
ghost use Rattle.std.specs.Prelude.{◌≡◌};
ghost use Rattle.fx_places.specs.Makes.{race_makes, makes};

use crate::form::Form;
use fx_term::Node;

/// Whether a race makes such a node.
fn race_makes(node: Node) -> bool
    ensures { result ≡ race_makes node }
{
    matches!(
        node,
        Node::Pure(_)
            | Node::Raise(_)
            | Node::Canceled
            | Node::Never
            | Node::Let(_, _, _)
            | Node::If(_, _, _)
            | Node::Mask(_, _)
            | Node::Poll(_, _)
            | Node::OnCancel(_, _)
            | Node::Start(_, _, _)
            | Node::Join(_, _, _, _, _, _)
            | Node::Cancel(_)
            | Node::First(_, _)
    )
}

/// Whether the form makes such a node.
pub(crate) fn makes(form: Form, node: Node) -> bool
    ensures { result ≡ makes form node }
{
    match form {
        Form::Pure => matches!(node, Node::Pure(_)),
        Form::Raise => matches!(node, Node::Raise(_)),
        Form::Canceled => matches!(node, Node::Canceled),
        Form::Never => matches!(node, Node::Never),
        Form::Cede => matches!(node, Node::Cede),
        Form::Seq => matches!(node, Node::Let(None, _, _)),
        Form::Let => matches!(node, Node::Let(Some(_), _, _)),
        Form::Handle => matches!(node, Node::Handle(_, Some(_), _)),
        Form::If => matches!(node, Node::If(_, _, _)),
        Form::For => matches!(node, Node::For(_, _, _)),
        Form::Mask => matches!(node, Node::Mask(_, _)),
        Form::Poll => matches!(node, Node::Poll(_, _)),
        Form::OnCancel => matches!(node, Node::OnCancel(_, _)),
        Form::Bracket => matches!(node, Node::Bracket(Some(_), _, _, _)),
        Form::BracketCase => matches!(node, Node::BracketCase(_, _, _, _, _, _, _, _)),
        Form::Guarantee => matches!(node, Node::Pure(_) | Node::Bracket(None, _, _, _)),
        Form::Forcer => matches!(
            node,
            Node::Pure(_) | Node::Handle(_, None, _) | Node::Let(None, _, _)
        ),
        Form::Using => matches!(node, Node::Bracket(Some(_), _, _, _)),
        Form::Start => matches!(node, Node::Start(_, _, _)),
        Form::Join => matches!(node, Node::Join(_, _, _, _, _, _)),
        Form::Cancel => matches!(node, Node::Cancel(_)),
        Form::First => matches!(node, Node::First(_, _)),
        Form::Race => race_makes(node),
        Form::Offer => matches!(node, Node::Offer(_, _)),
        Form::Take => matches!(node, Node::Take(_)),
        Form::TryOffer => matches!(node, Node::TryOffer(_, _)),
        Form::TryTake => matches!(node, Node::TryTake(_, _, _, _)),
    }
}
