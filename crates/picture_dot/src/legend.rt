//! What the signs of a picture stand for, in the language of Graphviz.
ghost use Rattle.std.specs.Prelude.{◌≡◌, ◌++◌, OnOk};
ghost use Rattle.picture_dot.specs.DotPictures.{box_signs, cell_style, legend_begin, legend_end, legend_text, link_signs, sign_cell};

use picture_model::colors::{edge_color, fill_color, ink_color};
use picture_model::{Class, class_sign};
use script_lines::{Part, push, push_parts};
use std::alloc::AllocError;

// Appends what the signs stand for: a table, of which one row has boxes, and the other tells how links look.
#[tactic(auto, unfolding(crate::specs::DotPictures::legend_text))]
pub(crate) fn push_legend(text: &mut Vec<u8>) -> Result<(), AllocError>
    ensures { OnOk result (text.new.items ≡ text.old.items ++ legend_text) }
{
    push(text, words_for_begin())?;
    push_boxes(text)?;
    push(text, words_for_links())?;
    push(text, words_for_end())
}

// The begin of the legend.
#[tactic(auto, unfolding(crate::specs::DotPictures::legend_begin))]
fn words_for_begin() -> &'static str
    ensures { result.now ≡ legend_begin }
{
    "  subgraph cluster_signs {\n    color=\"#BBBBBB\"; label=\"signs\"; fontsize=11;\n    signs [shape=plain, \
     label=<<table border=\"0\" cellborder=\"0\" cellspacing=\"6\"><tr>"
}

// The row of how links look.
#[tactic(auto, unfolding(crate::specs::DotPictures::link_signs))]
fn words_for_links() -> &'static str
    ensures { result.now ≡ link_signs }
{
    "<td border=\"3\" color=\"#222222\">thick: gone now</td></tr><tr><td>line: child</td><td>dashes: attached</td>\
     <td>dots: dispensable</td><td>thick red: failure up</td><td>red: failure down</td><td>bar: stops</td>"
}

// The end of the legend, which stands below the foot.
#[tactic(auto, unfolding(crate::specs::DotPictures::legend_end))]
fn words_for_end() -> &'static str
    ensures { result.now ≡ legend_end }
{
    "</tr></table>>];\n  }\n  foot -> signs [style=invis];\n"
}

// Appends a cell for each thing that a node is drawn as.
#[tactic(auto, unfolding(crate::specs::DotPictures::box_signs))]
fn push_boxes(text: &mut Vec<u8>) -> Result<(), AllocError>
    ensures { OnOk result (text.new.items ≡ text.old.items ++ box_signs) }
{
    push_cell(text, Class::Live, "live")?;
    push_cell(text, Class::Orphan, " released")?;
    push_cell(text, Class::Origin, " failed, origin")?;
    push_cell(text, Class::Taken, " failed")?;
    push_cell(text, Class::Ended, " ended")
}

// Appends a cell that looks like a box of this class, with its sign and this word.
#[tactic(auto, unfolding(crate::specs::DotPictures::sign_cell))]
fn push_cell(text: &mut Vec<u8>, class: Class, word: &'static str) -> Result<(), AllocError>
    ensures { OnOk result (text.new.items ≡ text.old.items ++ sign_cell class word.now) }
{
    push_parts(
        text,
        &[
            Part::Word("<td border=\"2\" style=\""),
            Part::Word(style_of(class)),
            Part::Word("\" bgcolor=\""),
            Part::Word(fill_color(class)),
            Part::Word("\" color=\""),
            Part::Word(edge_color(class)),
            Part::Word("\"><font color=\""),
            Part::Word(ink_color(class)),
            Part::Word("\">"),
            Part::Word(class_sign(class)),
            Part::Word(word),
            Part::Word("</font></td>"),
        ],
    )
}

// How the border of such a cell looks.
fn style_of(class: Class) -> &'static str
    ensures { result.now ≡ cell_style class }
{
    match class {
        Class::Orphan => "dashed",
        Class::Ended => "dotted",
        Class::Live | Class::Origin | Class::Taken => "solid",
    }
}
