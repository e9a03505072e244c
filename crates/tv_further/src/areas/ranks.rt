// Ranks of areas, so that over each passage a component falls before which none grows. The terms that are tried are those that the rows
// of the areas and the guards keep from falling below 0. Areas that reach one another are a part, and each part has a term of its own in
// each component, so the number of components grows with the loops inside of one another, and not with those one after another.

use crate::areas::area::Area;
use crate::areas::changes::{Change, change_over, growth, not_below, raised};
use crate::areas::passage::{Effect, Passage, effect_of};
use crate::areas::reach::Reach;
use crate::areas::terms::terms_of;
use crate::limits::RANK_ROUNDS;
use std::alloc::{AllocError, Global};
use tv_linear::Row;
use tv_walks::{Effort, Question, number_row};

/// The places of the passages left inside the part of an area over which the term falls; `None` where it may grow over one of them.
fn falling_in(
    question: &Question,
    passages: &[Passage],
    reach: &Reach,
    area: usize,
    term: &Row,
    effort: &mut Effort,
) -> Result<Option<Vec<usize>>, AllocError> {
    let mut falling = Vec::new(question.alloc);
    for (place, passage) in passages.iter().enumerate() {
        if passage.fall == 0 && reach.are_joined(area, passage.from) {
            match change_over(question, passage, term, effort)? {
                Change::Grows => return Ok(None),
                Change::Stays => {}
                Change::Falls => falling.push(place)?,
            }
        }
    }
    Ok(Some(falling))
}

/// Sets the fall of the passages at these places.
fn set_falls(passages: &mut [Passage], places: &[usize], fall: u32) {
    for place in places {
        if let Some(passage) = passages.get_mut(*place) {
            passage.fall = fall;
        }
    }
}

/// The ranks of areas while they are found.
#[derive(Drop)]
pub(crate) struct Ranks {
    /// The ranks of each area.
    pub rows: Vec<Vec<Row>>,
    /// How many ranks each area has.
    pub count: u32,
}

impl Ranks {
    /// `areas` areas without ranks, where others have `count` ranks.
    pub(crate) fn new(alloc: Global, areas: usize, count: u32) -> Result<Ranks, AllocError> {
        let mut rows = Vec::new(alloc);
        for _ in 0..areas {
            rows.push(Vec::new(alloc))?;
        }
        Ok(Ranks { rows, count })
    }

    /// Adds the number of areas that are reached as a rank, and sets the falls over the passages that never come back.
    fn add_reach(
        &mut self,
        alloc: Global,
        columns: usize,
        reach: &Reach,
        passages: &mut [Passage],
    ) -> Result<(), AllocError> {
        self.count = self.count.saturating_add(1);
        for (area, ranks) in self.rows.iter_mut().enumerate() {
            if let Some(row) = number_row(alloc, columns, reach.count_from(area))? {
                ranks.push(row)?;
            }
        }
        for passage in passages {
            if passage.fall == 0 && !reach.are_joined(passage.from, passage.to) {
                passage.fall = self.count;
            }
        }
        Ok(())
    }

    /// Adds the reach as a rank, and one of the terms that fall in each part with a passage left.
    fn add_round(
        &mut self,
        question: &Question,
        terms: &[Row],
        passages: &mut [Passage],
        effort: &mut Effort,
    ) -> Result<Round, AllocError> {
        let alloc = question.alloc;
        let columns = question.about.variables() as usize;
        let areas = self.rows.len();
        let reach = Reach::new(alloc, areas, passages)?;
        self.add_reach(alloc, columns, &reach, passages)?;
        let tried = Tried {
            terms,
            reach: &reach,
        };
        match tried.falling_parts(question, passages, effort)? {
            Parts::Stuck(area) => Ok(Round::Stuck(joined_with(alloc, &reach, areas, area)?)),
            Parts::Falling(parts) => self.add_falls(question, &tried, &parts, passages),
        }
    }

    /// Adds the terms that fall in the parts as a rank, and sets its falls; there is nothing to do where there is no part.
    fn add_falls(
        &mut self,
        question: &Question,
        tried: &Tried,
        parts: &[Falling],
        passages: &mut [Passage],
    ) -> Result<Round, AllocError> {
        if parts.is_empty() {
            return Ok(Round::Ended);
        }
        let columns = question.about.variables() as usize;
        self.add_terms(question.alloc, columns, tried, parts)?;
        set_falls_in(passages, parts, self.count);
        Ok(Round::Added)
    }

    /// Adds a rank: of each area the term that falls in its part, and 0 where none does.
    fn add_terms(
        &mut self,
        alloc: Global,
        columns: usize,
        tried: &Tried,
        parts: &[Falling],
    ) -> Result<(), AllocError> {
        self.count = self.count.saturating_add(1);
        for (area, ranks) in self.rows.iter_mut().enumerate() {
            match tried.term_at(parts, area) {
                Some(term) => ranks.push(term.copy(alloc)?)?,
                None => {
                    if let Some(zero) = number_row(alloc, columns, 0)? {
                        ranks.push(zero)?;
                    }
                }
            }
        }
        Ok(())
    }
}

/// What a round of ranks comes to.
#[derive(Drop)]
enum Round {
    /// Ranks were added that fall over some passages, but not over all.
    Added,
    /// A rank falls over each passage.
    Ended,
    /// No term falls between the areas at these places.
    Stuck(Vec<usize>),
}

/// The terms that are tried, over the passages that are left.
#[derive(Drop)]
struct Tried<'a> {
    terms: &'a [Row],
    reach: &'a Reach,
}

/// A term that falls in a part of the areas, whose areas reach one another.
#[derive(Drop)]
struct Falling {
    /// An area of the part.
    area: usize,
    /// The place of the term.
    term: usize,
    /// The places of the passages over which it falls.
    passages: Vec<usize>,
}

impl Tried<'_> {
    /// The term that falls in the part of the area.
    fn term_at(&self, parts: &[Falling], area: usize) -> Option<&Row> {
        for part in parts {
            if self.reach.are_joined(part.area, area) {
                return self.terms.get(part.term);
            }
        }
        None
    }

    /// What falls in the parts with a passage left.
    fn falling_parts(
        &self,
        question: &Question,
        passages: &[Passage],
        effort: &mut Effort,
    ) -> Result<Parts, AllocError> {
        let mut list = Vec::new(question.alloc);
        for area in parts_left(question.alloc, self.reach, passages)? {
            match falling_at(question, self, area, passages, effort)? {
                None => return Ok(Parts::Stuck(area)),
                Some(falling) => list.push(falling)?,
            }
        }
        Ok(Parts::Falling(list))
    }
}

/// An area of each part with a passage over which no rank falls yet.
fn parts_left(
    alloc: Global,
    reach: &Reach,
    passages: &[Passage],
) -> Result<Vec<usize>, AllocError> {
    let mut parts: Vec<usize> = Vec::new(alloc);
    for passage in passages {
        if passage.fall == 0
            && parts
                .iter()
                .all(|area| !reach.are_joined(*area, passage.from))
        {
            parts.push(passage.from)?;
        }
    }
    Ok(parts)
}

/// The first of the terms that falls over a passage left in the part of the area and grows over none.
fn falling_at(
    question: &Question,
    tried: &Tried,
    area: usize,
    passages: &[Passage],
    effort: &mut Effort,
) -> Result<Option<Falling>, AllocError> {
    for (place, term) in tried.terms.iter().enumerate() {
        if let Some(falling) = falling_in(question, passages, tried.reach, area, term, effort)?
            && !falling.is_empty()
        {
            return Ok(Some(Falling {
                area,
                term: place,
                passages: falling,
            }));
        }
    }
    Ok(None)
}

/// What falls in the parts with a passage left.
#[derive(Drop)]
enum Parts {
    /// A term in each of them.
    Falling(Vec<Falling>),
    /// None in the part of this area.
    Stuck(usize),
}

/// Sets the fall of the passages over which a term falls in a part.
fn set_falls_in(passages: &mut [Passage], parts: &[Falling], fall: u32) {
    for part in parts {
        set_falls(passages, &part.passages, fall);
    }
}

/// What the search for ranks ends with.
#[derive(Drop)]
pub(crate) enum Ranking {
    /// A rank falls over each passage.
    Found(Ranks),
    /// No term falls over a passage between the areas at these places and grows over none.
    Stuck(Vec<usize>),
}

/// The places of the areas that are joined with one.
fn joined_with(
    alloc: Global,
    reach: &Reach,
    count: usize,
    area: usize,
) -> Result<Vec<usize>, AllocError> {
    let mut places = Vec::new(alloc);
    for other in 0..count {
        if reach.are_joined(area, other) {
            places.push(other)?;
        }
    }
    Ok(places)
}

/// Ranks of the areas, where one falls over each passage, or where none was found.
pub(crate) fn ranks_of(
    question: &Question,
    areas: &[Area],
    passages: &mut [Passage],
    effort: &mut Effort,
) -> Result<Ranking, AllocError> {
    let terms = terms_of(question, areas)?;
    ranks_among(question, &terms, areas.len(), passages, effort)
}

/// The same of `areas` areas, where these terms are tried.
pub(crate) fn ranks_among(
    question: &Question,
    terms: &[Row],
    areas: usize,
    passages: &mut [Passage],
    effort: &mut Effort,
) -> Result<Ranking, AllocError> {
    let mut ranks = Ranks::new(question.alloc, areas, 0)?;
    for _ in 0..RANK_ROUNDS {
        match ranks.add_round(question, terms, passages, effort)? {
            Round::Added => {}
            Round::Ended => return Ok(Ranking::Found(ranks)),
            Round::Stuck(places) => return Ok(Ranking::Stuck(places)),
        }
    }
    Ok(Ranking::Stuck(Vec::new(question.alloc)))
}

/// Puts the rows of the fall from some ranks to others over the case of this number at the end of the list; whether none is too wide.
pub(crate) fn push_fall(
    question: &Question,
    number: usize,
    fall: usize,
    old: &[Row],
    new: &[Row],
    rows: &mut Vec<Row>,
) -> Result<bool, AllocError> {
    let columns = question.about.variables() as usize;
    match question.about.list().get(number) {
        None => Ok(false),
        Some(case) => {
            let effect = effect_of(question.alloc, columns, case)?;
            push_fall_over(question, &effect, fall, old, new, rows)
        }
    }
}

/// The same over a step of this effect.
pub(crate) fn push_fall_over(
    question: &Question,
    effect: &Effect,
    fall: usize,
    old: &[Row],
    new: &[Row],
    rows: &mut Vec<Row>,
) -> Result<bool, AllocError> {
    for (place, (before, after)) in old.iter().zip(new).enumerate() {
        if place < fall {
            let falls = place.saturating_add(1) == fall;
            match growth_owed(question, effect, before, after, falls)? {
                None => return Ok(false),
                Some(row) => rows.push(row)?,
            }
        }
    }
    match fall.checked_sub(1).and_then(|place| old.get(place)) {
        None => Ok(false),
        Some(last) => match not_below(question, effect.width, last)? {
            None => Ok(false),
            Some(row) => {
                rows.push(row)?;
                Ok(true)
            }
        },
    }
}

/// The row that is met where a rank does not grow, or falls, over a step of this effect; `None` where it is too wide.
fn growth_owed(
    question: &Question,
    effect: &Effect,
    before: &Row,
    after: &Row,
    falls: bool,
) -> Result<Option<Row>, AllocError> {
    match growth(question, effect, before, after)? {
        Some(more) if falls => raised(question.alloc, effect.width, &more),
        more => Ok(more),
    }
}
