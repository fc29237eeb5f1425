//! The names of attributes.
ghost use Rattle.std.specs.Prelude.{◌≡◌};
ghost use Rattle.fx_svg.specs.Names.{key_name};

/// What an attribute is of its element.
#[derive(Clone, Copy, PartialEq, Eq, Debug)]
pub enum Key {
    /// The language that the elements are of.
    Namespace,
    /// What the picture is for who does not see it.
    Role,
    /// The part of the plane that is shown.
    ViewBox,
    Width,
    Height,
    /// A name by which another element means this one.
    Id,
    /// The name by which the style means elements.
    Class,
    /// The left end.
    X,
    /// The upper end; of words, their base line.
    Y,
    /// Where a line begins.
    X1,
    Y1,
    /// Where a line ends.
    X2,
    Y2,
    /// The center of a circle.
    CenterX,
    CenterY,
    Radius,
    /// The way of a path.
    Way,
    /// The point of a marker that lies on the end of its line.
    PointX,
    PointY,
    MarkerWidth,
    MarkerHeight,
    /// How a marker is turned.
    Orient,
}

impl Key {
    /// Its name in SVG.
    pub fn name(self) -> &'static str
        ensures { result.now ≡ key_name self }
    {
        match self {
            Key::Namespace => "xmlns",
            Key::Role => "role",
            Key::ViewBox => "viewBox",
            Key::Width => "width",
            Key::Height => "height",
            Key::Id => "id",
            Key::Class => "class",
            Key::X => "x",
            Key::Y => "y",
            Key::X1 => "x1",
            Key::Y1 => "y1",
            Key::X2 => "x2",
            Key::Y2 => "y2",
            Key::CenterX => "cx",
            Key::CenterY => "cy",
            Key::Radius => "r",
            Key::Way => "d",
            Key::PointX => "refX",
            Key::PointY => "refY",
            Key::MarkerWidth => "markerWidth",
            Key::MarkerHeight => "markerHeight",
            Key::Orient => "orient",
        }
    }
}
