//! The elements of a vector graphic.
ghost use Rattle.std.specs.Prelude.{◌≡◌, ◌++◌, codes, false, true, OnOk};
ghost use Rattle.picture_layout.specs.Lengths.{capped_sum};
ghost use Rattle.picture_svg.specs.Elements.{anchor_text, attribute, circle_text, corner_text, look, look_of, paint_of, paint_text, rect_text, rounded_text, weight_text, words_text};

use picture_layout::plus;
use picture_model::colors::{INK, RED};
use script_lines::{Part, push, push_parts};
use std::alloc::AllocError;

// The margin of a picture.
pub(crate) const MARGIN: u64 = 28;

// How words look.
#[derive(Clone, Copy)]
pub(crate) struct Style {
    pub(crate) size: u64,
    pub(crate) bold: bool,
    pub(crate) fill: &'static str,
    pub(crate) middle: bool,
}

// Words of this size.
pub(crate) fn plain(size: u64) -> Style
    ensures { look_of result ≡ look size false (codes "#222222") false }
{
    colored(size, INK)
}

// Words of this size and colour.
pub(crate) fn colored(size: u64, fill: &'static str) -> Style
    ensures { look_of result ≡ look size false fill.now false }
{
    Style {
        size,
        bold: false,
        fill,
        middle: false,
    }
}

// Bold words of this size and colour.
pub(crate) fn bold(size: u64, fill: &'static str) -> Style
    ensures { look_of result ≡ look size true fill.now false }
{
    Style {
        size,
        bold: true,
        fill,
        middle: false,
    }
}

// A rectangle, and how it looks. `rounded` is 0 for corners that are not round.
#[derive(Clone, Copy)]
pub(crate) struct Rect {
    pub(crate) x: u64,
    pub(crate) y: u64,
    pub(crate) width: u64,
    pub(crate) height: u64,
    pub(crate) rounded: u64,
    pub(crate) fill: &'static str,
    pub(crate) stroke: &'static str,
    pub(crate) stroke_width: &'static str,
    pub(crate) dashes: &'static str,
}

// Appends an attribute with a word; nothing where the word is empty.
pub(crate) fn push_word<'a>(
    body: &mut Vec<u8>,
    name: &'a str,
    value: &'a str,
) -> Result<(), AllocError>
    ensures { OnOk result (body.new.items ≡ body.old.items ++ attribute name.now value.now) }
{
    if value.is_empty() {
        return Ok(());
    }
    push_parts(
        body,
        &[
            Part::Word(" "),
            Part::Word(name),
            Part::Word("=\""),
            Part::Word(value),
            Part::Word("\""),
        ],
    )
}

// Appends words, at this place.
#[tactic(auto, unfolding(crate::specs::Elements::words_text))]
pub(crate) fn push_words(
    body: &mut Vec<u8>,
    x: u64,
    y: u64,
    style: Style,
    words: &[u8],
) -> Result<(), AllocError>
    ensures { OnOk result (body.new.items
        ≡ body.old.items ++ words_text x y (look_of style) words.now) }
{
    push_parts(
        body,
        &[
            Part::Word("<text x=\""),
            Part::Number(x),
            Part::Word("\" y=\""),
            Part::Number(y),
            Part::Word("\" font-size=\""),
            Part::Number(style.size),
            Part::Word(weight_of(style.bold)),
            Part::Word(" fill=\""),
            Part::Word(style.fill),
            Part::Word(anchor_of(style.middle)),
            Part::Bytes(words),
            Part::Word("</text>\n"),
        ],
    )
}

// The end of an attribute, and the weight of the words.
fn weight_of(bold: bool) -> &'static str
    ensures { result.now ≡ weight_text bold }
{
    if bold {
        "\" font-weight=\"bold\""
    } else {
        "\""
    }
}

// The end of an attribute, where the words are anchored, and the end of the tag.
fn anchor_of(middle: bool) -> &'static str
    ensures { result.now ≡ anchor_text middle }
{
    if middle {
        "\" text-anchor=\"middle\">"
    } else {
        "\">"
    }
}

// Appends a rectangle.
#[tactic(auto, unfolding(crate::specs::Elements::rect_text))]
pub(crate) fn push_rect(body: &mut Vec<u8>, rect: &Rect) -> Result<(), AllocError>
    ensures { OnOk result (body.new.items ≡ body.old.items
        ++ rect_text rect.now.x rect.now.y rect.now.width rect.now.height (paint_of rect.now)) }
{
    push_corner(body, rect)?;
    push_paint(body, rect)
}

// Appends where a rectangle lies.
#[tactic(auto, unfolding(crate::specs::Elements::corner_text))]
fn push_corner(body: &mut Vec<u8>, rect: &Rect) -> Result<(), AllocError>
    ensures { OnOk result (body.new.items ≡ body.old.items
        ++ corner_text rect.now.x rect.now.y rect.now.width rect.now.height) }
{
    push_parts(
        body,
        &[
            Part::Word("<rect x=\""),
            Part::Number(rect.x),
            Part::Word("\" y=\""),
            Part::Number(rect.y),
            Part::Word("\" width=\""),
            Part::Number(rect.width),
            Part::Word("\" height=\""),
            Part::Number(rect.height),
            Part::Word("\""),
        ],
    )
}

// Appends how a rectangle looks, and the end of it.
#[tactic(auto, unfolding(crate::specs::Elements::paint_text))]
fn push_paint(body: &mut Vec<u8>, rect: &Rect) -> Result<(), AllocError>
    ensures { OnOk result (body.new.items ≡ body.old.items ++ paint_text (paint_of rect.now)) }
{
    push_rounded(body, rect.rounded)?;
    push_word(body, "fill", rect.fill)?;
    push_word(body, "stroke", rect.stroke)?;
    push_word(body, "stroke-width", rect.stroke_width)?;
    push_word(body, "stroke-dasharray", rect.dashes)?;
    push(body, "/>\n")
}

// Appends how round the corners are, if they are.
fn push_rounded(body: &mut Vec<u8>, rounded: u64) -> Result<(), AllocError>
    ensures { OnOk result (body.new.items ≡ body.old.items ++ rounded_text rounded) }
{
    if 0 < rounded {
        return push_parts(
            body,
            &[
                Part::Word(" rx=\""),
                Part::Number(rounded),
                Part::Word("\""),
            ],
        );
    }
    Ok(())
}

// Appends a number in a circle.
pub(crate) fn push_step(body: &mut Vec<u8>, x: u64, y: u64, step: u64) -> Result<(), AllocError>
    ensures { OnOk result (body.new.items
        ≡ body.old.items ++ circle_text x y (capped_sum y 4) step) }
{
    push_circle(body, x, y, plus(y, 4), step)
}

// Appends a number in a circle, on the line of this row.
#[tactic(auto, unfolding(crate::specs::Elements::circle_text))]
fn push_circle(body: &mut Vec<u8>, x: u64, y: u64, below: u64, step: u64) -> Result<(), AllocError>
    ensures { OnOk result (body.new.items ≡ body.old.items ++ circle_text x y below step) }
{
    push_parts(
        body,
        &[
            Part::Word("<circle cx=\""),
            Part::Number(x),
            Part::Word("\" cy=\""),
            Part::Number(y),
            Part::Word("\" r=\"9\" fill=\"#FFFFFF\" stroke=\""),
            Part::Word(RED),
            Part::Word("\"/>\n<text x=\""),
            Part::Number(x),
            Part::Word("\" y=\""),
            Part::Number(below),
            Part::Word("\" font-size=\"12\" font-weight=\"bold\" fill=\""),
            Part::Word(RED),
            Part::Word("\" text-anchor=\"middle\">"),
            Part::Number(step),
            Part::Word("</text>\n"),
        ],
    )
}
