//! What names stand for.

/// What a name stands for.
#[derive(Clone, Copy, PartialEq, Eq, Debug)]
pub enum NameKind {
    /// A number.
    Value,
    /// The poll of a mask that the fiber itself has entered.
    Poll,
    /// A fiber.
    Fiber,
    /// The poll of a mask of another fiber: the name is in scope, so no binder may have it, but it
    /// may be used as nothing.
    OtherPoll,
}

impl NameKind {
    ghost use Rattle.std.specs.Prelude.{◌≡◌};
    ghost use Rattle.fx_term.specs.Scope.{kind_elsewhere};

    /// What the name stands for inside another fiber.
    pub fn elsewhere(self) -> NameKind
        ensures { result ≡ kind_elsewhere self }
    {
        match self {
            NameKind::Poll | NameKind::OtherPoll => NameKind::OtherPoll,
            NameKind::Value => NameKind::Value,
            NameKind::Fiber => NameKind::Fiber,
        }
    }
}
