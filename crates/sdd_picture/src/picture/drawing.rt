//! A picture, drawn: time from left to right, a column for each line.

mod items;
mod key;
mod participants;
mod times;

use crate::picture::layout::Layout;
use crate::picture::model::Picture;
use crate::picture::style;
use crate::picture::svg::Page;
use std::alloc::{AllocError, Global};

/// The picture as an SVG. Each of the lines has a text, which is shown as a tooltip.
pub fn draw(alloc: Global, picture: &Picture, lines: &[String]) -> Result<Vec<u8>, AllocError> {
    let layout = Layout::of(lines.len(), picture, Vec::new(alloc))?;
    let count = lines.len();
    let title = format!(in alloc; "A run of {count} lines")?;
    let mut page = Page::new(
        alloc,
        layout.width(),
        layout.height(),
        title.as_str(),
        style::STYLE,
    )?;
    let mut drawing = Drawing {
        alloc,
        layout,
        page,
    };
    drawing.times(picture, lines)?;
    drawing.participants(picture)?;
    drawing.items(picture)?;
    drawing.key()?;
    let Drawing { page, .. } = drawing;
    page.end()
}

/// A picture that is being drawn.
#[derive(Drop)]
struct Drawing {
    alloc: Global,
    layout: Layout,
    page: Page,
}
