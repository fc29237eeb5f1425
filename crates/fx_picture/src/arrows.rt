//! The arrows from causes to what they caused.
ghost use Rattle.std.specs.Prelude.{◌≡◌, ◌≤◌, ◌++◌, length, take, OnOk, string_bytes};
ghost use Rattle.fx_svg.specs.Content.{rendering};
ghost use Rattle.fx_picture.specs.Picture.{arrow, arrow_by, arrows_to, arrows_from};

use crate::cause::{Cause, cause_of};
use crate::drawn::{Drawn, place_of};
use crate::elements::push_line;
use crate::layout::MOST_EVENTS;
use crate::stood::{EventAt, Stood, told_cause};
use fx_model::FiberReport;
use std::alloc::AllocError;

/// Appends an arrow from the one mark to the other.
fn push_arrow(
    text: &mut String,
    fibers: &[FiberReport],
    from: Drawn,
    to: Drawn,
    cause: Cause,
) -> Result<(), AllocError>
    requires { length fibers.now ≤ MOST_EVENTS }
    ensures { OnOk result (string_bytes text.new ≡ string_bytes text.old
        ++ rendering (arrow fibers.now from to cause)) }
{
    let begins = place_of(fibers, from);
    let ends = place_of(fibers, to);
    push_line(text, cause.class(), begins, ends)
}

/// Appends an arrow from the one mark to the other, if that stands on it. This event, if one, is told to have caused the other.
fn push_arrow_of(
    text: &mut String,
    fibers: &[FiberReport],
    told: Option<EventAt>,
    from: Drawn,
    to: Drawn,
) -> Result<(), AllocError>
    requires { length fibers.now ≤ MOST_EVENTS }
    ensures { OnOk result (string_bytes text.new ≡ string_bytes text.old
        ++ rendering (arrow_by fibers.now told from to)) }
{
    match cause_of(told, from.event, to.event) {
        Some(cause) => push_arrow(text, fibers, from, to, cause),
        None => Ok(()),
    }
}

/// Appends the arrows to that event from those of these that it stands on. This one, if one, is told to have caused it.
fn push_arrows_to(
    text: &mut String,
    fibers: &[FiberReport],
    told: Option<EventAt>,
    above: &[Drawn],
    to: Drawn,
) -> Result<(), AllocError>
    requires { length fibers.now ≤ MOST_EVENTS }
    ensures { OnOk result (string_bytes text.new ≡ string_bytes text.old
        ++ rendering (arrows_to fibers.now told to above.now)) }
{
    let mut rest = above;
    while let Some((it, more)) = rest.split_first() {
        push_arrow_of(text, fibers, told, *it, to)?;
        rest = more;
    }
    Ok(())
}

/// Appends the arrows to each event from those above it that it stands on.
pub(crate) fn push_arrows(
    text: &mut String,
    stood: &[Stood],
    fibers: &[FiberReport],
    list: &[Drawn],
) -> Result<(), AllocError>
    requires fibers { length fibers.now ≤ MOST_EVENTS }
    requires list { length list.now ≤ MOST_EVENTS }
    ensures { OnOk result (string_bytes text.new ≡ string_bytes text.old
        ++ rendering (arrows_from stood.now fibers.now list.now 0 list.now)) }
{
    let mut place = 0;
    let mut rest = list;
    while let Some((it, more)) = rest.split_first() {
        let told = told_cause(stood, it.event.fiber, it.event.place);
        push_arrows_to(text, fibers, told, &list[..place], *it)?;
        place += 1;
        rest = more;
    }
    Ok(())
}
