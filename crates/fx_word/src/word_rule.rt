//! The rule that the words and all seats keep.
ghost use Rattle.fx_word.specs.Rule.{Ruled};
ghost use Rattle.fx_word.specs.SeatView.{first_view};

use crate::seat_view::SeatView;
use atomic_table::TableRule;

/// The rule of a table of words, whose key is the number of its fibers.
pub struct WordRule;

impl TableRule<(), SeatView, u32> for WordRule {
    ghost holds = { λ n s. Ruled n s.words s.views };

    ghost first = { first_view };
}
