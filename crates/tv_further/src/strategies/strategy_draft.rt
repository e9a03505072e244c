// Areas for which a strategy is sought.

use crate::areas::area::{Area, both};
use crate::areas::cutting::halves_of;
use crate::areas::stages::Stages;
use crate::limits::{AREAS, STRATEGY_CUTS};
use crate::strategies::link::Link;
use std::alloc::{AllocError, Global};
use tv_farkas::are_same;
use tv_linear::{Row, copies};
use tv_walks::{Effort, Question, Way};

/// Areas for which a strategy is sought.
#[derive(Drop)]
pub(crate) struct Draft {
    pub stages: Stages,
    /// For each area the number of the term that is not to grow over its links, from 1; 0 where all links are tried.
    pub favoured: Vec<usize>,
    /// How often areas were cut, and how often they were split.
    pub cuts: u32,
    pub splits: u32,
    /// How many areas were left out, or cut for the sake of a term.
    pub lost: usize,
    /// How many areas were cut to nothing, or found no room.
    pub dropped: usize,
    pub first: First,
}

/// What is tried first where no term helps.
#[derive(Clone, Copy, PartialEq, Eq)]
pub(crate) enum First {
    /// To cut areas to where a term need not grow.
    Cuts,
    /// To split areas by where a term is below 0.
    Splits,
}

/// How areas are cut whose states do not all have a link.
#[derive(Clone, Copy)]
pub(crate) enum Cut {
    /// To the guards of their links.
    Guards,
    /// To what is owed where a link is taken.
    Owed,
    /// They are left out.
    Whole,
}

impl Draft {
    /// The draft of these stages, in which all links are tried.
    pub(crate) fn new(alloc: Global, stages: Stages, first: First) -> Result<Draft, AllocError> {
        let favoured = vec![in alloc; 0; stages.areas.len()]?;
        Ok(Draft {
            stages,
            favoured,
            cuts: 0,
            splits: 0,
            lost: 0,
            dropped: 0,
            first,
        })
    }

    /// The number of the term that is favoured at an area.
    pub(crate) fn favoured_at(&self, place: usize) -> usize {
        self.favoured.get(place).copied().unwrap_or(0)
    }

    /// The greatest number of a term that is favoured at the areas at these places.
    pub(crate) fn greatest_at(&self, places: &[usize]) -> usize {
        let mut greatest = 0;
        for place in places {
            greatest = greatest.max(self.favoured_at(*place));
        }
        greatest
    }

    /// The least number of a term that is favoured at the areas at these places.
    pub(crate) fn least_at(&self, places: &[usize]) -> usize {
        let mut least = usize::MAX;
        for place in places {
            least = least.min(self.favoured_at(*place));
        }
        least
    }

    /// The places of the areas at which this term is favoured.
    pub(crate) fn favouring(&self, alloc: Global, term: usize) -> Result<Vec<usize>, AllocError> {
        let mut places = Vec::new(alloc);
        for place in self.stages.done..self.stages.areas.len() {
            if self.favoured_at(place) == term {
                places.push(place)?;
            }
        }
        Ok(places)
    }

    /// Favours the term at the areas at these places.
    pub(crate) fn favour(&mut self, places: &[usize], term: usize) {
        for place in places {
            if let Some(number) = self.favoured.get_mut(*place) {
                *number = term;
            }
        }
    }

    /// How areas are cut next.
    pub(crate) fn next_cut(&self) -> Cut {
        if self.cuts == 0 {
            Cut::Guards
        } else if self.cuts < STRATEGY_CUTS {
            Cut::Owed
        } else {
            Cut::Whole
        }
    }

    /// A draft with as many areas at the end, and none yet.
    fn emptied(&self, alloc: Global) -> Draft {
        Draft {
            stages: Stages {
                done: self.stages.done,
                areas: Vec::new(alloc),
            },
            favoured: Vec::new(alloc),
            cuts: self.cuts,
            splits: self.splits,
            lost: self.lost,
            dropped: self.dropped,
            first: self.first,
        }
    }

    /// Whether no other way can show more: no area was lost or dropped. Where there are draws, not all of them are tried before areas are
    /// cut.
    pub(crate) fn is_whole(&self, question: &Question) -> bool {
        let is_exact = self.cuts == 0 || question.about.list().iter().all(|case| case.draws == 0);
        self.lost == 0 && self.dropped == 0 && is_exact
    }

    /// Puts an area at the end, at which the term is favoured, unless there are too many.
    fn push(&mut self, location: u32, rows: Vec<Row>, term: usize) -> Result<(), AllocError> {
        if self.stages.areas.len() < AREAS {
            self.stages.areas.push(Area { location, rows })?;
            self.favoured.push(term)?;
        } else {
            self.dropped = self.dropped.saturating_add(1);
        }
        Ok(())
    }

    /// Puts the pieces of an area that is cut at the end.
    fn push_pieces(
        &mut self,
        location: u32,
        pieces: Vec<Vec<Row>>,
        term: usize,
    ) -> Result<(), AllocError> {
        if pieces.is_empty() {
            self.dropped = self.dropped.saturating_add(1);
        }
        for rows in pieces {
            self.push(location, rows, term)?;
        }
        Ok(())
    }

    /// Whether the row splits one of the areas at these places.
    pub(crate) fn are_split(
        &self,
        question: &Question,
        places: &[usize],
        row: &Row,
        effort: &mut Effort,
    ) -> Result<bool, AllocError> {
        for place in places {
            if let Some(area) = self.stages.areas.get(*place)
                && halves_of(question, area, row, effort)?.is_some()
            {
                return Ok(true);
            }
        }
        Ok(false)
    }

    /// The draft in which the areas at these places are split by the row, and no term is favoured.
    pub(crate) fn split(
        &self,
        question: &Question,
        places: &[usize],
        row: &Row,
        effort: &mut Effort,
    ) -> Result<Draft, AllocError> {
        let alloc = question.alloc;
        let mut next = self.emptied(alloc);
        next.splits = self.splits.saturating_add(1);
        for (place, area) in self.stages.areas.iter().enumerate() {
            let halves = if places.contains(&place) {
                halves_of(question, area, row, effort)?
            } else {
                None
            };
            match halves {
                None => next.push(area.location, copies(alloc, &area.rows)?, 0)?,
                Some((met, other)) => {
                    next.push(area.location, met, 0)?;
                    next.push(area.location, other, 0)?;
                }
            }
        }
        Ok(next)
    }

    /// The draft without the areas at these places.
    pub(crate) fn without(&self, alloc: Global, places: &[usize]) -> Result<Draft, AllocError> {
        let mut next = self.emptied(alloc);
        next.lost = self.lost.saturating_add(places.len());
        for (place, area) in self.stages.areas.iter().enumerate() {
            if !places.contains(&place) {
                let term = self.favoured_at(place);
                next.push(area.location, copies(alloc, &area.rows)?, term)?;
            }
        }
        Ok(next)
    }

    /// The draft in which the areas at these places are cut.
    pub(crate) fn cut(
        &self,
        question: &Question,
        cutting: &Cutting,
        places: &[usize],
        effort: &mut Effort,
    ) -> Result<Draft, AllocError> {
        let mut next = self.emptied(question.alloc);
        next.cuts = self.cuts.saturating_add(1);
        if self.greatest_at(places) > 0 {
            next.lost = self.lost.saturating_add(1);
        }
        for (place, area) in self.stages.areas.iter().enumerate() {
            let term = self.favoured_at(place);
            if !places.contains(&place) {
                next.push(area.location, copies(question.alloc, &area.rows)?, term)?;
            } else {
                let pieces = cutting.pieces(question, area, place, effort)?;
                next.push_pieces(area.location, pieces, term)?;
            }
        }
        Ok(next)
    }
}

/// The links to which areas are cut.
#[derive(Drop)]
pub(crate) struct Cutting<'a> {
    pub ways: &'a [Way],
    pub links: &'a [Link],
    /// The costs of the links: those without any are left out.
    pub costs: &'a [Option<u32>],
    pub cut: Cut,
}

impl Cutting<'_> {
    /// The rows to which an area is cut by one of its links; `None` where it is left out.
    fn rows_of<'b>(&'b self, link: &'b Link) -> Option<&'b [Row]> {
        match self.cut {
            Cut::Whole => None,
            Cut::Owed => Some(&link.owed),
            Cut::Guards => Some(&self.ways.get(link.way)?.guards),
        }
    }

    /// The rows of the pieces of an area, each once.
    fn pieces(
        &self,
        question: &Question,
        area: &Area,
        place: usize,
        effort: &mut Effort,
    ) -> Result<Vec<Vec<Row>>, AllocError> {
        let columns = question.about.variables() as usize;
        let mut pieces: Vec<Vec<Row>> = Vec::new(question.alloc);
        for (link, cost) in self.links.iter().zip(self.costs) {
            if cost.is_some()
                && link.passage.from == place
                && let Some(rows) = self.rows_of(link)
                && let Some(piece) = both(question.alloc, columns, &area.rows, rows, effort)?
                && pieces.iter().all(|other| !are_same(other, &piece))
            {
                pieces.push(piece)?;
            }
        }
        Ok(pieces)
    }
}
