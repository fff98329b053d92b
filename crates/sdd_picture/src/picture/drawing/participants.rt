//! The participants: a row for each, with its life, its guards, and an arrow where another adopts what it left.

use super::Drawing;
use crate::picture::layout::{Area, Row};
use crate::picture::model::{Adoption, Bar, GuardPhase, ParticipantRow, Picture};
use crate::picture::style::{self, colour};
use crate::picture::svg::Point;
use std::alloc::AllocError;

impl Drawing {
    pub(super) fn participants(&mut self, picture: &Picture) -> Result<(), AllocError> {
        for adoption in picture.adoptions.iter() {
            self.adoption(picture, *adoption)?;
        }
        for (index, participant) in picture.participants.iter().enumerate() {
            self.participant(index, participant)?;
        }
        Ok(())
    }

    fn participant(
        &mut self,
        index: usize,
        participant: &ParticipantRow,
    ) -> Result<(), AllocError> {
        self.life(index, participant)?;
        for bar in participant.bars.iter() {
            self.guard(index, participant.name, *bar)?;
        }
        Ok(())
    }

    /// Its name, and from where to where it took part; what it left is a line of its own.
    fn life(&mut self, index: usize, participant: &ParticipantRow) -> Result<(), AllocError> {
        let ParticipantRow {
            name,
            from,
            to,
            adopted,
            ..
        } = participant;
        let y = self.layout.life(index);
        let start = Point {
            x: self.layout.middle(*from),
            y,
        };
        let end = Point {
            x: self.layout.middle_or_end(*to),
            y,
        };
        let lines = self.lines(*from, *to)?;
        let title = format!(in self.alloc; "p{name}, {lines}")?;
        self.page.line("life", start, end, title.as_str())?;
        if to.is_some() {
            let adopted = Point {
                x: self.arrow_or_end(*adopted),
                y,
            };
            let title = format!(in self.alloc; "left behind by p{name}")?;
            self.page.line("left", end, adopted, title.as_str())?;
        }
        let label = format!(in self.alloc; "p{name}")?;
        let class = format!(in self.alloc; "end {}", colour(index))?;
        let at = Point {
            x: start.x.saturating_sub(style::PAD),
            y: y.saturating_add(style::PAD),
        };
        self.page.text(class.as_str(), at, label.as_str())
    }

    /// A guard in one of its phases.
    fn guard(&mut self, index: usize, name: u64, bar: Bar) -> Result<(), AllocError> {
        let x = self.layout.middle(bar.from);
        let area = Area {
            x,
            y: self.layout.lane(index, bar.lane),
            width: self.layout.middle_or_end(bar.to).saturating_sub(x),
            height: style::BAR,
        };
        let lines = self.lines(bar.from, bar.to)?;
        match bar.phase {
            GuardPhase::Reading => {
                let title = format!(in self.alloc; "p{name} has read the count, {lines}")?;
                let class = format!(in self.alloc; "read {}", colour(index))?;
                self.page.area(class.as_str(), area, title.as_str())
            }
            GuardPhase::Open { epoch } => {
                let label = match bar.guard {
                    Some(guard) => format!(in self.alloc; "g{guard} epoch {epoch}")?,
                    None => format!(in self.alloc; "epoch {epoch}")?,
                };
                let title = format!(in self.alloc; "p{name}: {label}, {lines}")?;
                self.page.area(colour(index), area, title.as_str())?;
                self.in_bar(area, label.as_str(), epoch)
            }
        }
    }

    /// Writes a text into a bar where it has room, else the epoch alone where that has.
    fn in_bar(&mut self, area: Area, label: &str, epoch: u64) -> Result<(), AllocError> {
        let short = format!(in self.alloc; "{epoch}")?;
        let at = Point {
            x: area.x.saturating_add(style::PAD / 2),
            y: area
                .y
                .saturating_add(style::BAR.saturating_sub(style::PAD / 2)),
        };
        if fits(label, area.width) {
            self.page.text("in", at, label)
        } else if fits(short.as_str(), area.width) {
            self.page.text("in", at, short.as_str())
        } else {
            Ok(())
        }
    }

    /// An arrow from the row of who left something to the row of who adopts it.
    fn adoption(&mut self, picture: &Picture, adoption: Adoption) -> Result<(), AllocError> {
        let Adoption { line, from, to } = adoption;
        let x = self.arrow_or_end(Some(line));
        let start = Point {
            x,
            y: self.layout.life(from),
        };
        let Row { top, bottom } = self.layout.row(to);
        let (y, head) = if from < to {
            (top.saturating_sub(1), "l-3 -6h6")
        } else {
            (bottom, "l-3 6h6")
        };
        let end = Point { x, y };
        let number = line.saturating_add(1);
        let left = name_of(picture, from);
        let adopter = name_of(picture, to);
        let title = format!(in self.alloc; "line {number}: p{adopter} adopts what p{left} left")?;
        self.page.line("adopt", start, end, title.as_str())?;
        self.page.shape("head", end, head, title.as_str())
    }

    /// Where an arrow stands that belongs to a line, left of what else the line shows.
    fn arrow_or_end(&self, line: Option<usize>) -> u64 {
        match line {
            Some(_) => self
                .layout
                .middle_or_end(line)
                .saturating_sub(self.layout.column / 4),
            None => self.layout.right(),
        }
    }

    /// From which line to which, as they are numbered.
    pub(super) fn lines(&self, from: usize, to: Option<usize>) -> Result<String, AllocError> {
        let first = from.saturating_add(1);
        match to {
            Some(to) => {
                let last = to.saturating_add(1);
                format!(in self.alloc; "lines {first} to {last}")
            }
            None => format!(in self.alloc; "from line {first} on"),
        }
    }
}

pub(super) fn name_of(picture: &Picture, participant: usize) -> u64 {
    match picture.participants.get(participant) {
        Some(participant) => participant.name,
        None => 0,
    }
}

/// A text has room in a bar.
fn fits(text: &str, width: u64) -> bool {
    (text.len() as u64)
        .saturating_mul(style::LETTER)
        .saturating_add(style::PAD)
        <= width
}
