//! Where the bytes of a text stand.
ghost use Rattle.std.specs.Prelude.{◌≡◌, ◌+◌, ◌<◌, ◌^◌, ◌∷◌, []};
ghost use Rattle.fx_places.specs.Position.{line_after, column_after};

use fx_text::Position;

/// The position of the first byte.
pub(crate) const START: Position = Position { line: 1, column: 1 };

/// The position after this byte, which stands there. A column is a byte.
pub(crate) fn past(there: Position, byte: u8) -> Position
    requires line { there.line + 1 < 2 ^ 32 }
    requires column { there.column + 1 < 2 ^ 32 }
    ensures line { result.line ≡ line_after there.line (byte ∷ []) }
    ensures column { result.column ≡ column_after there.column (byte ∷ []) }
{
    if byte == b'\n' {
        return Position {
            line: there.line + 1,
            column: 1,
        };
    }
    Position {
        line: there.line,
        column: there.column + 1,
    }
}
