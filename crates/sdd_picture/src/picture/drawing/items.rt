//! The items: a row for each, with what became of it.

use super::Drawing;
use super::participants::name_of;
use crate::picture::layout::Area;
use crate::picture::model::{Fate, ItemRow, Picture, Stay};
use crate::picture::style::{self, colour};
use crate::picture::svg::Point;
use std::alloc::AllocError;

impl Drawing {
    pub(super) fn items(&mut self, picture: &Picture) -> Result<(), AllocError> {
        for (index, item) in picture.items.iter().enumerate() {
            self.label(index, item)?;
            self.stays(picture, index, item)?;
            self.end(index, item)?;
        }
        Ok(())
    }

    fn label(&mut self, index: usize, item: &ItemRow) -> Result<(), AllocError> {
        let Some(first) = item.stays.first() else {
            return Ok(());
        };
        let name = item.name;
        let label = format!(in self.alloc; "i{name}")?;
        let at = Point {
            x: self.layout.middle(first.from).saturating_sub(style::PAD),
            y: self.layout.item(index).saturating_add(style::ITEM_BAR),
        };
        self.page.text("end", at, label.as_str())
    }

    fn stays(&mut self, picture: &Picture, index: usize, item: &ItemRow) -> Result<(), AllocError> {
        let mut end = item.end.map(|(_, line)| line);
        for stay in item.stays.iter().rev() {
            self.stay(picture, index, item.name, *stay, end)?;
            end = Some(stay.from);
        }
        Ok(())
    }

    fn stay(
        &mut self,
        picture: &Picture,
        index: usize,
        name: u64,
        stay: Stay,
        end: Option<usize>,
    ) -> Result<(), AllocError> {
        let x = self.layout.middle(stay.from);
        let area = Area {
            x,
            y: self.layout.item(index),
            width: self.layout.middle_or_end(end).saturating_sub(x),
            height: style::ITEM_BAR,
        };
        if area.width == 0 {
            return Ok(());
        }
        let lines = self.lines(stay.from, end)?;
        match stay.with {
            Some(with) => {
                let holder = name_of(picture, with);
                let class = format!(in self.alloc; "wait {}", colour(with))?;
                let title = format!(in self.alloc; "i{name} waits with p{holder}, {lines}")?;
                self.page.area(class.as_str(), area, title.as_str())
            }
            None => {
                let title = format!(in self.alloc; "i{name} in use, {lines}")?;
                self.page.area("use", area, title.as_str())
            }
        }
    }

    /// How it went.
    fn end(&mut self, index: usize, item: &ItemRow) -> Result<(), AllocError> {
        let Some((fate, line)) = item.end else {
            return Ok(());
        };
        let name = item.name;
        let number = line.saturating_add(1);
        let at = Point {
            x: self.layout.middle(line),
            y: self.layout.item(index),
        };
        let how = match fate {
            Fate::Reclaimed => "reclaimed",
            Fate::DroppedInPlace => "dropped in its place",
        };
        let title = format!(in self.alloc; "i{name} {how}, line {number}")?;
        self.fate(fate, at, title.as_str())
    }

    /// The mark of an item's end, whose bar has its upper edge here.
    pub(super) fn fate(&mut self, fate: Fate, at: Point, title: &str) -> Result<(), AllocError> {
        let middle = at.y.saturating_add(style::ITEM_BAR / 2);
        match fate {
            Fate::Reclaimed => {
                let area = Area {
                    x: at.x.saturating_sub(style::MARK),
                    y: middle.saturating_sub(style::MARK),
                    width: 2 * style::MARK,
                    height: 2 * style::MARK,
                };
                self.page.area("mark", area, title)
            }
            Fate::DroppedInPlace => {
                let left = Point {
                    x: at.x.saturating_sub(style::MARK),
                    y: middle,
                };
                self.page.shape("place", left, "l4 -4l4 4l-4 4", title)
            }
        }
    }
}
