//! The names in scope.
ghost use Rattle.std.specs.Prelude.{ℕ, ◌≡◌, ◌<◌, ◌≤◌, ◌&&◌, length, string_bytes, IfSome, bytes_eq};
ghost use Rattle.std.specs.List.{list_any, position};
ghost use Rattle.fx_text.specs.Scope.{is_taken, same_kind, slot_of};
ghost use Rattle.fx_term.specs.Scope.{kind_elsewhere};
ghost use Rattle.fx_text.specs.ScopeView.{view_names, seen_past, scope};

use crate::place::Place;
use crate::queue_decl::QueueDecl;
use fx_term::NameKind;

/// A name in scope.
#[derive(Clone, Copy)]
pub(crate) struct Bound<'a> {
    pub(crate) name: &'a [u8],
    pub(crate) kind: NameKind,
}

impl<'a> Bound<'a> {
    ghost use Rattle.std.specs.Prelude.{[]};

    /// A name of no letters, which no token is.
    pub(crate) fn nameless(kind: NameKind) -> Bound<'a>
        ensures name { result.name.now ≡ [] }
        ensures kind { result.kind ≡ kind }
    {
        Bound { name: b"", kind }
    }
}

fn is_among(names: &[Bound<'_>], name: &[u8]) -> bool
    ensures { result ≡ list_any (λ b. bytes_eq b.name.now name.now) names.now }
{
    names.iter().any(|b| b.name == name)
}

fn index_of(names: &[Bound<'_>], kind: NameKind, name: &[u8]) -> Option<usize>
    ensures index { result ≡ position
        (λ b. bytes_eq b.name.now name.now && same_kind b.kind kind)
        names.now }
    ensures within { IfSome result (λ i. i < length names.now) }
{
    names.iter().position(|b| b.name == name && b.kind == kind)
}

fn index_elsewhere(names: &[Bound<'_>], kind: NameKind, name: &[u8]) -> Option<usize>
    ensures index { result ≡ position
        (λ b. bytes_eq b.name.now name.now && same_kind (kind_elsewhere b.kind) kind)
        names.now }
    ensures within { IfSome result (λ i. i < length names.now) }
{
    names
        .iter()
        .position(|b| b.name == name && b.kind.elsewhere() == kind)
}

fn is_queue(queues: &[QueueDecl], name: &[u8]) -> bool
    ensures { result ≡ list_any (λ q. bytes_eq (string_bytes q.name) name.now) queues.now }
{
    queues.iter().any(|queue| queue.name.as_bytes() == name)
}

/// The number of the queue of that name.
pub(crate) fn queue_of(queues: &[QueueDecl], name: &[u8]) -> Option<usize>
    ensures number { result ≡ position (λ q. bytes_eq (string_bytes q.name) name.now) queues.now }
    ensures within { IfSome result (λ i. i < length queues.now) }
{
    queues
        .iter()
        .position(|queue| queue.name.as_bytes() == name)
}

/// Whether the name is in scope there, of whatever kind.
#[tactic(auto, using(crate::proofs::ScopeLaws::is_taken_among))]
pub(crate) fn is_taken(names: &[Bound<'_>], place: Place<'_>, name: &[u8]) -> bool
    ensures { result ≡ is_taken name.now (scope names.now place.entry) }
{
    is_among(names, name) || is_queue(place.queues, name)
}

/// The slot of the name, where it is of that kind, and so many names are bound outside of the fiber.
pub(crate) fn slot_of(
    names: &[Bound<'_>],
    foreign: usize,
    kind: NameKind,
    name: &[u8],
) -> Option<usize>
    requires { foreign ≤ length names.now }
    ensures slot { result ≡ slot_of kind name.now (seen_past foreign (view_names names.now)) }
    ensures within { IfSome result (λ i. i < length names.now) }
{
    let (outside, own) = names.split_at(foreign);
    match index_elsewhere(outside, kind, name) {
        Some(index) => Some(index),
        None => match index_of(own, kind, name) {
            Some(index) => Some(foreign + index),
            None => None,
        },
    }
}
