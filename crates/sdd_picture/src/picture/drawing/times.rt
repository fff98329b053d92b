//! What goes through the whole height: the lines' columns and numbers, and the epochs.

use super::Drawing;
use crate::picture::layout::Area;
use crate::picture::model::{Picture, Raise};
use crate::picture::style;
use crate::picture::svg::Point;
use std::alloc::AllocError;

impl Drawing {
    pub(super) fn times(&mut self, picture: &Picture, lines: &[String]) -> Result<(), AllocError> {
        self.backgrounds()?;
        self.numbers()?;
        self.columns(lines)?;
        for raise in picture.raises.iter() {
            self.raise(*raise)?;
        }
        Ok(())
    }

    fn backgrounds(&mut self) -> Result<(), AllocError> {
        let page = Area {
            x: 0,
            y: 0,
            width: self.layout.width(),
            height: self.layout.height(),
        };
        self.page.area("page", page, "")?;
        self.heading("line", style::LINES_BASE)?;
        self.heading("epoch", style::EPOCHS_BASE)?;
        let first = Point {
            x: style::LEFT.saturating_add(style::PAD),
            y: style::EPOCHS_BASE,
        };
        self.page.text("", first, "0")
    }

    fn heading(&mut self, text: &str, base: u64) -> Result<(), AllocError> {
        let at = Point {
            x: style::LEFT.saturating_sub(style::PAD),
            y: base,
        };
        self.page.text("end small", at, text)
    }

    /// The numbers of the lines, from 1 on, each over a vertical line.
    fn numbers(&mut self) -> Result<(), AllocError> {
        let tick = style::tick(self.layout.lines);
        for line in 0..self.layout.lines {
            let number = line.saturating_add(1);
            if number % tick == 0 {
                self.number(line, number)?;
            }
        }
        Ok(())
    }

    fn number(&mut self, line: u64, number: u64) -> Result<(), AllocError> {
        let x = self.layout.middle(line as usize);
        let top = Point {
            x,
            y: style::GUIDES_TOP,
        };
        let bottom = Point {
            x,
            y: self.layout.bottom,
        };
        let text = format!(in self.alloc; "{number}")?;
        self.page.line("guide", top, bottom, "")?;
        let at = Point {
            x,
            y: style::LINES_BASE,
        };
        self.page.text("middle small", at, text.as_str())
    }

    /// Beside all else a column shows its line's text.
    fn columns(&mut self, lines: &[String]) -> Result<(), AllocError> {
        for (line, text) in lines.iter().enumerate() {
            let column = Area {
                x: self.layout.left(line as u64),
                y: 0,
                width: self.layout.column,
                height: self.layout.bottom,
            };
            self.page.area("column", column, text.as_str())?;
        }
        Ok(())
    }

    fn raise(&mut self, raise: Raise) -> Result<(), AllocError> {
        let Raise { line, epoch } = raise;
        let x = self.layout.middle(line);
        let number = line.saturating_add(1);
        let top = Point {
            x,
            y: style::GUIDES_TOP,
        };
        let bottom = Point {
            x,
            y: self.layout.bottom,
        };
        let title = format!(in self.alloc; "line {number} raises the epoch to {epoch}")?;
        self.page.line("raise", top, bottom, title.as_str())?;
        let text = format!(in self.alloc; "{epoch}")?;
        let at = Point {
            x: x.saturating_add(style::PAD),
            y: style::EPOCHS_BASE,
        };
        self.page.text("", at, text.as_str())
    }
}
