//! Which picture of a script is asked for.

/// What a picture is written as.
#[derive(Clone, Copy)]
pub enum Format {
    /// Lines of UTF-8 text.
    Text,
    /// The language of Graphviz.
    Dot,
    /// A vector graphic.
    Svg,
}

/// Behind what the trees are drawn. Numbers are from 1.
#[derive(Clone, Copy)]
pub enum Until {
    /// The last line.
    Last,
    /// The event of this number.
    Event(u64),
    /// The line of this number.
    Line(u64),
    /// The event of this number among those in which a node failed.
    Failure(u64),
}

/// Which picture is asked for.
#[derive(Clone, Copy)]
pub struct View {
    pub format: Format,
    pub until: Until,
}
