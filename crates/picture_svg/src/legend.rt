//! What the signs of a vector graphic stand for.
ghost use Rattle.std.specs.Prelude.{◌≡◌, ◌++◌, OnOk};
ghost use Rattle.picture_svg.specs.Elements.{rect_text};
ghost use Rattle.picture_svg.specs.Legend.{box_signs, gone_signs, kept_signs, legend_text, link_signs, plain_signs, sample_end, sample_line, sample_paint, sample_path, sample_text, stop_sample, way_signs};

use crate::elements::{MARGIN, Rect, plain, push_rect, push_words};
use crate::links::{push_line, push_stop};
use crate::tree::dashes_of;
use picture_layout::{Corner, plus};
use picture_model::colors::{edge_color, fill_color};
use picture_model::{Class, LinkStyle, TravelWay};
use script_lines::{Part, push, push_parts};
use std::alloc::AllocError;

// Draws what the signs of boxes stand for, in this row, and those of links below it.
#[tactic(auto, unfolding(crate::specs::Legend::legend_text))]
pub(crate) fn push_legend(body: &mut Vec<u8>, y: u64) -> Result<(), AllocError>
    ensures { OnOk result (body.new.items ≡ body.old.items ++ legend_text y) }
{
    push_boxes(body, y)?;
    push_links(body, plus(y, 22))
}

// Draws a small box for each thing that a node is drawn as, in this row.
#[tactic(auto, unfolding(crate::specs::Legend::box_signs))]
fn push_boxes(body: &mut Vec<u8>, y: u64) -> Result<(), AllocError>
    ensures { OnOk result (body.new.items ≡ body.old.items ++ box_signs y) }
{
    push_kept_boxes(body, y)?;
    push_gone_boxes(body, y)
}

// Draws the boxes of nodes that are live, released, or the origin of a failure.
#[tactic(auto, unfolding(crate::specs::Legend::kept_signs))]
fn push_kept_boxes(body: &mut Vec<u8>, y: u64) -> Result<(), AllocError>
    ensures { OnOk result (body.new.items ≡ body.old.items ++ kept_signs y) }
{
    push_sample(body, MARGIN, y, Class::Live, "live")?;
    push_sample(body, MARGIN + 78, y, Class::Orphan, "○ released")?;
    push_sample(body, MARGIN + 188, y, Class::Origin, "✗ failed, origin")
}

// Draws the boxes of nodes that failed along or ended, and says what a thick edge means.
#[tactic(auto, unfolding(crate::specs::Legend::gone_signs))]
fn push_gone_boxes(body: &mut Vec<u8>, y: u64) -> Result<(), AllocError>
    ensures { OnOk result (body.new.items ≡ body.old.items ++ gone_signs y) }
{
    push_sample(body, MARGIN + 346, y, Class::Taken, "✗ failed")?;
    push_sample(body, MARGIN + 446, y, Class::Ended, "· ended")?;
    push_words(
        body,
        MARGIN + 540,
        plus(y, 12),
        plain(12),
        b"thick: gone now",
    )
}

// Draws a small box of this class, and the word for it.
#[tactic(auto, unfolding(crate::specs::Legend::sample_text))]
fn push_sample(
    body: &mut Vec<u8>,
    x: u64,
    y: u64,
    class: Class,
    word: &'static str,
) -> Result<(), AllocError>
    ensures { OnOk result (body.new.items ≡ body.old.items ++ sample_text x y class word.now) }
{
    push_sample_rect(body, x, y, class)?;
    push_words(body, plus(x, 26), plus(y, 12), plain(12), word.as_bytes())
}

// Draws a small box of this class.
fn push_sample_rect(body: &mut Vec<u8>, x: u64, y: u64, class: Class) -> Result<(), AllocError>
    ensures { OnOk result (body.new.items
        ≡ body.old.items ++ rect_text x y 18 14 (sample_paint class)) }
{
    push_rect(
        body,
        &Rect {
            x,
            y,
            width: 18,
            height: 14,
            rounded: 3,
            fill: fill_color(class),
            stroke: edge_color(class),
            stroke_width: "1.8",
            dashes: dashes_of(class),
        },
    )
}

// Draws a link of each kind, and one for each way of a failure, in this row.
#[tactic(auto, unfolding(crate::specs::Legend::link_signs))]
fn push_links(body: &mut Vec<u8>, y: u64) -> Result<(), AllocError>
    ensures { OnOk result (body.new.items ≡ body.old.items ++ link_signs y) }
{
    push_plain_links(body, y)?;
    push_ways(body, y)
}

// Draws a link of each kind, in this row.
#[tactic(auto, unfolding(crate::specs::Legend::plain_signs))]
fn push_plain_links(body: &mut Vec<u8>, y: u64) -> Result<(), AllocError>
    ensures { OnOk result (body.new.items ≡ body.old.items ++ plain_signs y) }
{
    push_sample_line(body, MARGIN, y, LinkStyle::Normal, None, "child")?;
    push_sample_line(body, MARGIN + 94, y, LinkStyle::Attached, None, "attached")?;
    push_sample_line(
        body,
        MARGIN + 210,
        y,
        LinkStyle::Dispensable,
        None,
        "dispensable",
    )
}

// Draws a link for each way of a failure, in this row.
#[tactic(auto, unfolding(crate::specs::Legend::way_signs))]
fn push_ways(body: &mut Vec<u8>, y: u64) -> Result<(), AllocError>
    ensures { OnOk result (body.new.items ≡ body.old.items ++ way_signs y) }
{
    push_sample_line(
        body,
        MARGIN + 346,
        y,
        LinkStyle::Normal,
        Some(TravelWay::Up(1)),
        "failure up",
    )?;
    push_sample_line(
        body,
        MARGIN + 476,
        y,
        LinkStyle::Normal,
        Some(TravelWay::Down(2)),
        "failure down",
    )?;
    push_stop_sample(body, y)
}

// Draws the bar where a failure stops, in this row.
#[tactic(auto, unfolding(crate::specs::Legend::stop_sample))]
fn push_stop_sample(body: &mut Vec<u8>, y: u64) -> Result<(), AllocError>
    ensures { OnOk result (body.new.items ≡ body.old.items ++ stop_sample y) }
{
    push_stop(
        body,
        Corner {
            x: MARGIN + 622,
            y: plus(y, 8),
        },
        MARGIN + 646,
        Corner {
            x: MARGIN + 654,
            y: plus(y, 12),
        },
    )
}

// Draws a short link of this kind, along which a failure went so, and the word for it.
#[tactic(auto, unfolding(crate::specs::Legend::sample_line))]
fn push_sample_line(
    body: &mut Vec<u8>,
    x: u64,
    y: u64,
    link: LinkStyle,
    way: Option<TravelWay>,
    word: &'static str,
) -> Result<(), AllocError>
    ensures { OnOk result (body.new.items ≡ body.old.items ++ sample_line x y link way word.now) }
{
    push_path(body, x, plus(y, 8), plus(x, 26))?;
    push_line(body, link, way)?;
    push(body, end_of(way))?;
    push_words(body, plus(x, 38), plus(y, 12), plain(12), word.as_bytes())
}

// Appends the begin of a line in this row, from one column to another.
#[tactic(auto, unfolding(crate::specs::Legend::sample_path))]
fn push_path(body: &mut Vec<u8>, x: u64, y: u64, right: u64) -> Result<(), AllocError>
    ensures { OnOk result (body.new.items ≡ body.old.items ++ sample_path x y right) }
{
    push_parts(
        body,
        &[
            Part::Word("<path d=\"M"),
            Part::Number(x),
            Part::Word(" "),
            Part::Number(y),
            Part::Word(" H"),
            Part::Number(right),
        ],
    )
}

// The end of a short link, along which a failure went so.
fn end_of(way: Option<TravelWay>) -> &'static str
    ensures { result.now ≡ sample_end way }
{
    match way {
        Some(TravelWay::Up(_)) => " marker-end=\"url(#a)\"/>\n",
        Some(TravelWay::Down(_)) => " marker-end=\"url(#a)\"/>\n",
        Some(TravelWay::Stop) => "/>\n",
        None => "/>\n",
    }
}
