//! The names of elements.
ghost use Rattle.std.specs.Prelude.{◌≡◌};
ghost use Rattle.fx_svg.specs.Names.{tag_name};

/// What an element is.
#[derive(Clone, Copy, PartialEq, Eq, Debug)]
pub enum Tag {
    /// The picture.
    Svg,
    /// What an element is called; shown where the pointer rests on it, and read aloud.
    Title,
    /// What an element shows, for who does not see it.
    Description,
    /// The style of all elements.
    Style,
    /// What is not shown where it stands.
    Definitions,
    /// The head of an arrow.
    Marker,
    Group,
    Rectangle,
    Line,
    Path,
    Circle,
    /// Words in the picture.
    Text,
}

impl Tag {
    /// Its name in SVG.
    pub fn name(self) -> &'static str
        ensures { result.now ≡ tag_name self }
    {
        match self {
            Tag::Svg => "svg",
            Tag::Title => "title",
            Tag::Description => "desc",
            Tag::Style => "style",
            Tag::Definitions => "defs",
            Tag::Marker => "marker",
            Tag::Group => "g",
            Tag::Rectangle => "rect",
            Tag::Line => "line",
            Tag::Path => "path",
            Tag::Circle => "circle",
            Tag::Text => "text",
        }
    }
}
