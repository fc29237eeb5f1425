//! Where a byte of a text stands.
ghost use Rattle.std.specs.Prelude.{◌≡◌};
ghost use Rattle.fx_command.specs.Position.{line_after, column_after};

/// A line and a column, both from 1. A column is a byte.
#[derive(Clone, Copy, PartialEq, Eq, Debug)]
pub(crate) struct Position {
    pub(crate) line: usize,
    pub(crate) column: usize,
}

impl Position {
    /// The position of the byte that follows these.
    pub(crate) fn after(before: &[u8]) -> Position
        ensures line { result.line ≡ line_after 1 before.now }
        ensures column { result.column ≡ column_after 1 before.now }
    {
        let mut position = Position { line: 1, column: 1 };
        let mut rest = before;
        while let [byte, more @ ..] = rest {
            if *byte == b'\n' {
                position.line += 1;
                position.column = 1;
            } else {
                position.column += 1;
            }
            rest = more;
        }
        position
    }
}
