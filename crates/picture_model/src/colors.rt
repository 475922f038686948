//! Colours that colour-blind readers can distinguish, and that differ in grey.
ghost use Rattle.std.specs.Prelude.{◌≡◌};
ghost use Rattle.picture_model.specs.Colors.{edge_text, fill_text, ink_text};

use crate::features::Class;

/// The border of a live node.
pub const BLUE: &str = "#0072B2";

/// What fell with another.
pub const RED: &str = "#D55E00";

/// What failed itself.
pub const DEEP: &str = "#A84300";

/// What ended, and links that no failure followed.
pub const GREY: &str = "#808080";

/// Words.
pub const INK: &str = "#222222";

/// A buffer's ground.
pub const SAND: &str = "#FAF2CC";

/// A buffer's border.
pub const EARTH: &str = "#7A6A00";

/// The ground of a released node.
pub const WHITE: &str = "#FFFFFF";

/// The colour that a node is filled with. Costs O(1).
pub fn fill_color(class: Class) -> &'static str
    ensures { result.now ≡ fill_text class }
{
    match class {
        Class::Live => "#D6E9F5",
        Class::Orphan => WHITE,
        Class::Origin => DEEP,
        Class::Taken => "#FBE0CC",
        Class::Ended => "#EDEDED",
    }
}

/// The colour of a node's border. Costs O(1).
pub fn edge_color(class: Class) -> &'static str
    ensures { result.now ≡ edge_text class }
{
    match class {
        Class::Live | Class::Orphan => BLUE,
        Class::Origin => DEEP,
        Class::Taken => RED,
        Class::Ended => GREY,
    }
}

/// The colour of a node's words. Costs O(1).
pub fn ink_color(class: Class) -> &'static str
    ensures { result.now ≡ ink_text class }
{
    match class {
        Class::Origin => WHITE,
        Class::Live | Class::Orphan | Class::Taken | Class::Ended => INK,
    }
}
