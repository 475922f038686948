//! The links of a tree as a vector graphic.
ghost use Rattle.std.specs.Prelude.{◌≡◌, ◌++◌, List, OnOk};
ghost use Rattle.std.specs.List.{flat_map};
ghost use Rattle.picture_model.specs.declared.failure_view.Travel.{Travel as Step};
ghost use Rattle.picture_model.specs.Travels.{FindsTravels};
ghost use Rattle.picture_svg.specs.Links.{svg_arrow, svg_stop_end, box_link, svg_end, foot_corner, head_corner, line_color, line_dashes, line_start, svg_line, line_width, svg_link, path_text, svg_stop, way_path};

use crate::elements::{push_step, push_word};
use event_facts::KeyMap;
use forest_store::Node;
use picture_layout::{BOX_HEIGHT, Corner, NodeBox, ROW_GAP, minus, plus};
use picture_model::colors::{GREY, INK, RED};
use picture_model::{LinkStyle, Travel, TravelWay, link_of, way_of};
use script_lines::{Part, push, push_parts};
use std::alloc::AllocError;

// Draws the links of the nodes, in their order, where a box has this width.
pub(crate) fn push_links(
    body: &mut Vec<u8>,
    boxes: &[NodeBox],
    width: u64,
    travels: &KeyMap<Travel>,
) -> Result<(), AllocError>
    ensures { OnOk result ((steps : List Step) → FindsTravels travels.now steps →
        body.new.items ≡ body.old.items ++ flat_map (box_link steps width) boxes.now) }
{
    for node_box in boxes {
        push_box_link(body, node_box, width, travels)?;
    }
    Ok(())
}

// Draws the link of the node, if it has one.
#[tactic(auto, unfolding(crate::specs::Links::box_link))]
fn push_box_link(
    body: &mut Vec<u8>,
    node_box: &NodeBox,
    width: u64,
    travels: &KeyMap<Travel>,
) -> Result<(), AllocError>
    ensures { OnOk result ((steps : List Step) → FindsTravels travels.now steps →
        body.new.items ≡ body.old.items ++ box_link steps width node_box.now) }
{
    match node_box.above {
        Some(above) => push_link(
            body,
            &node_box.node,
            foot_of(above, width),
            head_of(node_box.corner, width),
            way_of(travels, node_box.node.key),
        ),
        None => Ok(()),
    }
}

// Where a link begins, below the middle of a box.
fn foot_of(corner: Corner, width: u64) -> Corner
    ensures { result ≡ foot_corner width corner }
{
    Corner {
        x: plus(corner.x, width / 2),
        y: plus(corner.y, BOX_HEIGHT),
    }
}

// Where a link ends, above the middle of a box.
fn head_of(corner: Corner, width: u64) -> Corner
    ensures { result ≡ head_corner width corner }
{
    Corner {
        x: plus(corner.x, width / 2),
        y: corner.y,
    }
}

// Draws a link from above to a node, and how a failure followed it.
#[tactic(auto, unfolding(crate::specs::Links::svg_link))]
fn push_link(
    body: &mut Vec<u8>,
    node: &Node,
    from: Corner,
    to: Corner,
    way: Option<TravelWay>,
) -> Result<(), AllocError>
    ensures { OnOk result (body.new.items ≡ body.old.items ++ svg_link node.now from to way) }
{
    push_way(body, from, to, way)?;
    push_line(body, link_of(node), way)?;
    push_end(body, to, way)
}

// Appends how a link of this kind looks, along which a failure went so.
#[tactic(auto, unfolding(crate::specs::Links::svg_line))]
pub(crate) fn push_line(
    body: &mut Vec<u8>,
    link: LinkStyle,
    way: Option<TravelWay>,
) -> Result<(), AllocError>
    ensures { OnOk result (body.new.items ≡ body.old.items ++ svg_line link way) }
{
    push_stroke(body, way)?;
    push_word(body, "stroke-dasharray", dashes_of(link))
}

// Appends the colour and the width of a link.
#[tactic(auto, unfolding(crate::specs::Links::line_start))]
fn push_stroke(body: &mut Vec<u8>, way: Option<TravelWay>) -> Result<(), AllocError>
    ensures { OnOk result (body.new.items ≡ body.old.items ++ line_start way) }
{
    push_parts(
        body,
        &[
            Part::Word("\" fill=\"none\" stroke=\""),
            Part::Word(color_of(way)),
            Part::Word("\" stroke-width=\""),
            Part::Word(width_of(way)),
            Part::Word("\""),
        ],
    )
}

// The colour of a link.
fn color_of(way: Option<TravelWay>) -> &'static str
    ensures { result.now ≡ line_color way }
{
    match way {
        Some(TravelWay::Up(_)) => RED,
        Some(TravelWay::Down(_)) => RED,
        Some(TravelWay::Stop) => GREY,
        None => GREY,
    }
}

// The width of a link.
fn width_of(way: Option<TravelWay>) -> &'static str
    ensures { result.now ≡ line_width way }
{
    match way {
        Some(TravelWay::Up(_)) => "4",
        Some(TravelWay::Down(_)) => "2",
        Some(TravelWay::Stop) => "1.5",
        None => "1.5",
    }
}

// The dashes of a link: none, long ones, or dots.
fn dashes_of(link: LinkStyle) -> &'static str
    ensures { result.now ≡ line_dashes link }
{
    match link {
        LinkStyle::Normal => "",
        LinkStyle::Attached => "7 5",
        LinkStyle::Dispensable => "2 4",
    }
}

// Draws the end of a link, and the step at which a failure followed it.
fn push_end(body: &mut Vec<u8>, to: Corner, way: Option<TravelWay>) -> Result<(), AllocError>
    ensures { OnOk result (body.new.items ≡ body.old.items ++ svg_end to way) }
{
    match way {
        Some(TravelWay::Up(step)) => push_arrow(body, to, step),
        Some(TravelWay::Down(step)) => push_arrow(body, to, step),
        Some(TravelWay::Stop) => push_bar(body, to),
        None => push(body, "/>\n"),
    }
}

// Draws the end of a link that a failure followed at this step.
#[tactic(auto, unfolding(crate::specs::Links::svg_arrow))]
fn push_arrow(body: &mut Vec<u8>, to: Corner, step: u64) -> Result<(), AllocError>
    ensures { OnOk result (body.new.items ≡ body.old.items ++ svg_arrow to step) }
{
    push(body, " marker-end=\"url(#a)\"/>\n")?;
    push_step(body, to.x, plus(minus(to.y, ROW_GAP / 2), 13), step)
}

// Draws the end of a link at which a failure stopped.
#[tactic(auto, unfolding(crate::specs::Links::svg_stop_end))]
fn push_bar(body: &mut Vec<u8>, to: Corner) -> Result<(), AllocError>
    ensures { OnOk result (body.new.items ≡ body.old.items ++ svg_stop_end to) }
{
    push(body, "/>\n")?;
    push_stop(
        body,
        Corner {
            x: minus(to.x, 16),
            y: minus(to.y, 10),
        },
        plus(to.x, 16),
        Corner {
            x: plus(to.x, 22),
            y: minus(to.y, 6),
        },
    )
}

// Appends the path of a link, in the direction of a failure that followed it.
#[tactic(auto, unfolding(crate::specs::Links::way_path))]
fn push_way(
    body: &mut Vec<u8>,
    from: Corner,
    to: Corner,
    way: Option<TravelWay>,
) -> Result<(), AllocError>
    ensures { OnOk result (body.new.items ≡ body.old.items ++ way_path from to way) }
{
    let middle = minus(to.y, ROW_GAP / 2);
    match way {
        Some(TravelWay::Up(_)) => push_bends(body, to, middle, plus(from.x, 12), plus(from.y, 9)),
        Some(TravelWay::Down(_)) => {
            let start = Corner {
                x: minus(from.x, 12),
                y: from.y,
            };
            push_bends(body, start, minus(middle, 12), to.x, minus(to.y, 9))
        }
        Some(TravelWay::Stop) => push_bends(body, from, middle, to.x, to.y),
        None => push_bends(body, from, middle, to.x, to.y),
    }
}

// Appends a path, from a corner down or up to a row, along it, and on to its end.
#[tactic(auto, unfolding(crate::specs::Links::path_text))]
fn push_bends(
    body: &mut Vec<u8>,
    start: Corner,
    middle: u64,
    x: u64,
    y: u64,
) -> Result<(), AllocError>
    ensures { OnOk result (body.new.items
        ≡ body.old.items ++ path_text start.x start.y middle x y) }
{
    push_parts(
        body,
        &[
            Part::Word("<path d=\"M"),
            Part::Number(start.x),
            Part::Word(" "),
            Part::Number(start.y),
            Part::Word(" V"),
            Part::Number(middle),
            Part::Word(" H"),
            Part::Number(x),
            Part::Word(" V"),
            Part::Number(y),
        ],
    )
}

// Draws a bar from this corner to this column, and at the other corner that a failure stopped.
#[tactic(auto, unfolding(crate::specs::Links::svg_stop))]
pub(crate) fn push_stop(
    body: &mut Vec<u8>,
    start: Corner,
    right: u64,
    words: Corner,
) -> Result<(), AllocError>
    ensures { OnOk result (body.new.items
        ≡ body.old.items ++ svg_stop start.x start.y right words.x words.y) }
{
    push_parts(
        body,
        &[
            Part::Word("<path d=\"M"),
            Part::Number(start.x),
            Part::Word(" "),
            Part::Number(start.y),
            Part::Word(" H"),
            Part::Number(right),
            Part::Word("\" stroke=\""),
            Part::Word(INK),
            Part::Word("\" stroke-width=\"5\"/>\n<text x=\""),
            Part::Number(words.x),
            Part::Word("\" y=\""),
            Part::Number(words.y),
            Part::Word("\" font-size=\"12\" font-weight=\"bold\" fill=\""),
            Part::Word(INK),
            Part::Word("\">stops</text>\n"),
        ],
    )
}
