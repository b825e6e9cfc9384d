// Lanes as pictures in SVG.

use crate::lane::{Lane, Mark};
use crate::look::Look;
use crate::place::{COLUMN, NAMES, ROW, UPRIGHT, columns_of, height_of, left_of, top_of, width_of};
use picture_page::{Attribute, Name, Page, Tag};

/// Draws lanes below one another, those of each group below the ones before: their names, and beside
/// them a picture of so many columns, which is moved under the page where it is wider. Lanes without
/// a mark are left away.
pub fn put_lanes(groups: &[&[Lane]], columns: u32, page: &mut Page) {
    let height = height_of_all(groups);
    page.begin(Tag::Div, &[class("pass")]);
    put_names(groups, height, page);
    page.begin(Tag::Div, &[class("scroll")]);
    put_marks_of_all(groups, columns.saturating_mul(COLUMN), height, page);
    page.end();
    page.end();
}

fn class(octets: &str) -> Attribute<'_> {
    Attribute::octets(Name::Class, octets.as_bytes())
}

fn is_there(lane: &Lane) -> bool {
    !lane.marks().is_empty()
}

fn height_of_all(groups: &[&[Lane]]) -> u32 {
    let mut height = 0u32;
    for group in groups {
        height = height.saturating_add(height_of_group(group));
    }
    height
}

fn height_of_group(lanes: &[Lane]) -> u32 {
    let mut height = 0u32;
    for lane in lanes {
        if is_there(lane) {
            height = height.saturating_add(height_of(lane));
        }
    }
    height
}

// Begins a picture that is so wide and so high.
fn begin_picture(name: &str, width: u32, height: u32, page: &mut Page) {
    page.begin(
        Tag::Svg,
        &[
            class(name),
            Attribute::octets(Name::Role, b"img"),
            Attribute::number(Name::Width, width),
            Attribute::number(Name::Height, height),
        ],
    );
}

fn put_names(groups: &[&[Lane]], height: u32, page: &mut Page) {
    begin_picture("names", NAMES, height, page);
    let mut top = 0u32;
    for group in groups {
        put_names_of(group, top, page);
        top = top.saturating_add(height_of_group(group));
    }
    page.end();
}

fn put_names_of(lanes: &[Lane], top: u32, page: &mut Page) {
    let mut top = top;
    for lane in lanes {
        if is_there(lane) {
            put_name(lane, top, page);
            top = top.saturating_add(height_of(lane));
        }
    }
}

fn put_name(lane: &Lane, top: u32, page: &mut Page) {
    put_ground(top, NAMES, height_of(lane), page);
    page.element(
        Tag::Text,
        &[
            Attribute::number(Name::X, 8),
            Attribute::number(Name::Y, top.saturating_add(17)),
        ],
        lane.name(),
    );
}

// The ground of a lane.
fn put_ground(top: u32, width: u32, height: u32, page: &mut Page) {
    page.element(
        Tag::Rect,
        &[
            class("ground"),
            Attribute::number(Name::X, 0),
            Attribute::number(Name::Y, top),
            Attribute::number(Name::Width, width),
            Attribute::number(Name::Height, height.saturating_sub(1)),
        ],
        b"",
    );
}

fn put_marks_of_all(groups: &[&[Lane]], width: u32, height: u32, page: &mut Page) {
    begin_picture("lanes", width, height, page);
    let mut top = 0u32;
    for group in groups {
        put_marks_of_group(group, top, width, page);
        top = top.saturating_add(height_of_group(group));
    }
    page.end();
}

fn put_marks_of_group(lanes: &[Lane], top: u32, width: u32, page: &mut Page) {
    let mut top = top;
    for lane in lanes {
        if is_there(lane) {
            put_lane(lane, top, width, page);
            top = top.saturating_add(height_of(lane));
        }
    }
}

fn put_lane(lane: &Lane, top: u32, width: u32, page: &mut Page) {
    page.begin(Tag::G, &[class("lane")]);
    put_ground(top, width, height_of(lane), page);
    for mark in lane.marks() {
        put_mark(mark, lane.is_upright(), top, page);
    }
    page.end();
}

// A mark: what is told of it, its box and its texts.
fn put_mark(mark: &Mark, is_upright: bool, top: u32, page: &mut Page) {
    let top = top.saturating_add(top_of(mark));
    let is_tall = is_upright && mark.row > 0;
    let height = if is_tall { UPRIGHT } else { ROW } - 2;
    page.begin(Tag::G, &[class(mark.look.class())]);
    page.element(Tag::Title, &[], mark.tip.as_slice());
    put_box(mark, top, height, page);
    if is_tall {
        put_upright(mark, top, page);
    } else {
        put_texts(mark, top, page);
    }
    page.end();
}

fn put_box(mark: &Mark, top: u32, height: u32, page: &mut Page) {
    page.element(
        Tag::Rect,
        &[
            Attribute::number(Name::X, left_of(mark)),
            Attribute::number(Name::Y, top),
            Attribute::number(Name::Width, width_of(mark)),
            Attribute::number(Name::Height, height),
        ],
        b"",
    );
}

fn put_upright(mark: &Mark, top: u32, page: &mut Page) {
    put_text(
        left_of(mark).saturating_add(COLUMN / 2 - 1),
        top.saturating_add(4),
        mark.text.as_slice(),
        page,
    );
}

// How many columns one text of a long mark stands before the next.
const REPEATED: usize = 16;

// How many characters a column has room for, about.
const CHARACTERS: usize = 13;

// The texts of a mark: one, or in a long mark one every 16 columns.
fn put_texts(mark: &Mark, top: u32, page: &mut Page) {
    let columns = columns_of(mark) as usize;
    for column in (0..columns).step_by(REPEATED) {
        let room = (columns - column).min(REPEATED) * CHARACTERS;
        let text = &mark.text[..mark.text.len().min(room)];
        let left = left_of(mark).saturating_add((column as u32).saturating_mul(COLUMN));
        put_text(left.saturating_add(4), top.saturating_add(14), text, page);
    }
}

fn put_text(x: u32, y: u32, text: &[u8], page: &mut Page) {
    page.element(
        Tag::Text,
        &[Attribute::number(Name::X, x), Attribute::number(Name::Y, y)],
        text,
    );
}
