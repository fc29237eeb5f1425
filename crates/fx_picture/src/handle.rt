//! What a script calls its fibers.
ghost use Rattle.std.specs.Prelude.{◌≡◌, option_map};
ghost use Rattle.fx_picture.specs.Handles.{view_handles, name_of};

/// What a script calls a fiber: the name of the handle that the `start` made.
#[derive(Drop)]
pub struct Handle {
    pub fiber: u32,
    pub name: String,
}

/// What the fiber of that number is called, if it is one of these.
pub(crate) fn name_of(handles: &[Handle], fiber: u32) -> Option<&str>
    ensures { option_map (λ name. name.now) result ≡ name_of (view_handles handles.now) fiber }
{
    let mut rest = handles;
    while let Some((it, more)) = rest.split_first() {
        if it.fiber == fiber {
            return Some(&it.name);
        }
        rest = more;
    }
    None
}
