//! A queue that a script declares.
ghost use Rattle.std.specs.Prelude.{◌<◌, ◌≤◌};
ghost use Rattle.fx_text.specs.Limits.{most_capacity};

/// A queue of a script: its name, and how many elements it can hold, which is from 1 to 1,024.
#[derive(Drop)]
pub struct QueueDecl {
    pub name: String,
    pub cap: u32,
    ghost sized: { (0 < cap) × (cap ≤ most_capacity) },
}
