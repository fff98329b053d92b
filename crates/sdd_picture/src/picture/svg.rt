//! Elements of an SVG, as text.
//!
//! What they are given as text has none of the characters that mark elements: names, numbers, words, and lines that are
//! calls.

use crate::picture::layout::Area;
use std::alloc::{AllocError, Global};

/// A point.
#[derive(Clone, Copy)]
pub struct Point {
    pub x: u64,
    pub y: u64,
}

/// An SVG that is being written.
#[derive(Drop)]
pub struct Page {
    text: String,
}

impl Page {
    /// An empty page with this title. Its elements are styled by classes.
    pub fn new(
        alloc: Global,
        width: u64,
        height: u64,
        title: &str,
        style: &str,
    ) -> Result<Page, AllocError> {
        let mut text = String::new(alloc);
        write!(
            text,
            "<svg xmlns=\"http://www.w3.org/2000/svg\" width=\"{width}\" height=\"{height}\" "
        )?;
        writeln!(text, "viewBox=\"0 0 {width} {height}\">")?;
        writeln!(text, "<title>{title}</title>")?;
        text.push_str(style)?;
        Ok(Page { text })
    }

    /// A rectangle. Its title is a tooltip; with an empty one it has none.
    pub fn area(&mut self, class: &str, area: Area, title: &str) -> Result<(), AllocError> {
        let Area {
            x,
            y,
            width,
            height,
        } = area;
        write!(
            self.text,
            "<rect class=\"{class}\" x=\"{x}\" y=\"{y}\" width=\"{width}\" height=\"{height}\">"
        )?;
        self.title(title)?;
        self.text.push_str("</rect>\n")
    }

    /// A straight line, with a title as a rectangle has it.
    pub fn line(
        &mut self,
        class: &str,
        from: Point,
        to: Point,
        title: &str,
    ) -> Result<(), AllocError> {
        let Point { x, y } = from;
        let Point { x: to_x, y: to_y } = to;
        write!(
            self.text,
            "<path class=\"{class}\" d=\"M{x} {y}L{to_x} {to_y}\">"
        )?;
        self.title(title)?;
        self.text.push_str("</path>\n")
    }

    /// A closed shape, with a title as a rectangle has it. Its path goes on from a point.
    pub fn shape(
        &mut self,
        class: &str,
        from: Point,
        path: &str,
        title: &str,
    ) -> Result<(), AllocError> {
        let Point { x, y } = from;
        write!(self.text, "<path class=\"{class}\" d=\"M{x} {y}{path}z\">")?;
        self.title(title)?;
        self.text.push_str("</path>\n")
    }

    /// A text whose baseline begins, has its middle or ends at a point, as its class says.
    pub fn text(&mut self, class: &str, at: Point, text: &str) -> Result<(), AllocError> {
        let Point { x, y } = at;
        writeln!(
            self.text,
            "<text class=\"{class}\" x=\"{x}\" y=\"{y}\">{text}</text>"
        )
    }

    fn title(&mut self, title: &str) -> Result<(), AllocError> {
        if title.is_empty() {
            Ok(())
        } else {
            write!(self.text, "<title>{title}</title>")
        }
    }

    /// The whole text.
    pub fn end(self) -> Result<Vec<u8>, AllocError> {
        let Page { mut text } = self;
        text.push_str("</svg>\n")?;
        Ok(text.into_bytes())
    }
}
