// Ways between areas.

use crate::areas::area::{Area, both};
use crate::areas::passage::{Effect, Passage};
use crate::areas::stages::Stages;
use std::alloc::{AllocError, Global};
use tv_farkas::are_same;
use tv_linear::{Row, copies};
use tv_walks::{Effort, Question, Way, all_put_in, ways_under};

/// A way that may be taken from one area into another.
#[derive(Drop)]
pub(crate) struct Link {
    /// The place of the way.
    pub way: usize,
    /// What is owed where it is taken: the guards, and the rows of the area that is entered, read before the way.
    pub owed: Vec<Row>,
    /// The passage between the areas, whose case is taken as the way says.
    pub passage: Passage,
}

/// The ways to take the cases of the program, each once.
pub(crate) fn distinct_ways(question: &Question) -> Result<Vec<Way>, AllocError> {
    let mut kept: Vec<Way> = Vec::new(question.alloc);
    for way in ways_under(question, None)? {
        let is_new = kept.iter().all(|other| other.number != way.number
            || !are_same(&other.draws, &way.draws));
        if is_new {
            kept.push(way)?;
        }
    }
    Ok(kept)
}

/// What is owed where the way is taken into the area; `None` where a row is too wide.
pub(crate) fn owed_into(
    alloc: Global,
    columns: usize,
    way: &Way,
    area: &Area,
) -> Result<Option<Vec<Row>>, AllocError> {
    let Some(mut entered) = all_put_in(alloc, columns, &area.rows, &way.terms)? else {
        return Ok(None);
    };
    let mut owed = copies(alloc, &way.guards)?;
    owed.append(&mut entered)?;
    Ok(Some(owed))
}

/// The effect of a way.
pub(crate) fn effect_of_way(
    alloc: Global,
    columns: usize,
    way: &Way,
) -> Result<Effect, AllocError> {
    let terms = copies(alloc, &way.terms)?;
    Ok(Effect {
        width: columns,
        terms,
    })
}

/// The ways between areas that are sought: the stages, and the ways of the program.
#[derive(Drop)]
pub(crate) struct Between<'a> {
    pub stages: &'a Stages,
    pub ways: &'a [Way],
}

impl Between<'_> {
    /// The link by the way from the one area into the other; `None` where it is never taken.
    fn link(
        &self,
        question: &Question,
        from: usize,
        way: usize,
        to: usize,
        effort: &mut Effort,
    ) -> Result<Option<Link>, AllocError> {
        let alloc = question.alloc;
        let columns = question.about.variables() as usize;
        let (Some(left), Some(taken), Some(entered)) = (
            self.stages.areas.get(from),
            self.ways.get(way),
            self.stages.areas.get(to),
        ) else {
            return Ok(None);
        };
        let Some(owed) = owed_into(alloc, columns, taken, entered)? else {
            return Ok(None);
        };
        let Some(rows) = both(alloc, columns, &left.rows, &owed, effort)? else {
            return Ok(None);
        };
        let passage = Passage {
            from,
            number: taken.number as usize,
            effect: effect_of_way(alloc, columns, taken)?,
            to,
            rows,
            fall: 0,
        };
        Ok(Some(Link { way, owed, passage }))
    }

    /// Puts the links by the way from the area at the end of the list.
    fn push_by(
        &self,
        question: &Question,
        from: usize,
        way: usize,
        effort: &mut Effort,
        links: &mut Vec<Link>,
    ) -> Result<(), AllocError> {
        let Some(taken) = self.ways.get(way) else {
            return Ok(());
        };
        for (to, area) in self.stages.areas.iter().enumerate() {
            if area.location == taken.to
                && let Some(link) = self.link(question, from, way, to, effort)?
            {
                links.push(link)?;
            }
        }
        Ok(())
    }

    /// Puts the links from the area at the end of the list.
    fn push_from(
        &self,
        question: &Question,
        from: usize,
        effort: &mut Effort,
        links: &mut Vec<Link>,
    ) -> Result<(), AllocError> {
        let Some(area) = self.stages.areas.get(from) else {
            return Ok(());
        };
        for (way, taken) in self.ways.iter().enumerate() {
            if taken.from == area.location {
                self.push_by(question, from, way, effort, links)?;
            }
        }
        Ok(())
    }

    /// The links from the areas that go on.
    pub(crate) fn links(
        &self,
        question: &Question,
        effort: &mut Effort,
    ) -> Result<Vec<Link>, AllocError> {
        let mut links = Vec::new(question.alloc);
        for from in self.stages.done..self.stages.areas.len() {
            self.push_from(question, from, effort, &mut links)?;
        }
        Ok(links)
    }
}
