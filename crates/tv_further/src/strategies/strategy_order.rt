// In which order the links from an area are tried.

use crate::areas::changes::{Change, drift_over, steady_change};
use crate::areas::reach::Reach;
use crate::limits::AREAS;
use crate::strategies::link::Link;
use crate::strategies::strategy_draft::Draft;
use std::alloc::{AllocError, Global};
use tv_linear::Row;
use tv_walks::{Effort, Question};

/// What a link is worth.
#[derive(Clone, Copy)]
pub(crate) enum Worth {
    /// It is not taken, since the favoured term may grow.
    Barred,
    /// It leads to where another term is favoured, or none.
    Leaves,
    /// The favoured term falls.
    Falls,
    /// The favoured term does not grow.
    Stays,
}

/// The links between the areas of a draft, and the terms that may be favoured.
#[derive(Drop)]
pub(crate) struct Field<'a> {
    pub question: &'a Question<'a>,
    pub terms: &'a [Row],
    pub links: &'a [Link],
    /// How the terms change over the links, as far as that was asked: a place for each link, term by term.
    changes: Vec<Option<Change>>,
}

impl<'a> Field<'a> {
    /// The field of these terms and links.
    pub(crate) fn new(
        question: &'a Question<'a>,
        terms: &'a [Row],
        links: &'a [Link],
    ) -> Result<Field<'a>, AllocError> {
        let count = terms.len().saturating_mul(links.len());
        let changes = vec![in question.alloc; None; count]?;
        Ok(Field {
            question,
            terms,
            links,
            changes,
        })
    }

    /// How the favoured term, which counts from 1, changes over the link at this place; it stays where there is none.
    pub(crate) fn change(
        &mut self,
        favoured: usize,
        place: usize,
        effort: &mut Effort,
    ) -> Result<Change, AllocError> {
        let (links, terms) = (self.links, self.terms);
        let number = favoured.saturating_sub(1);
        let (Some(link), Some(term)) = (links.get(place), terms.get(number)) else {
            return Ok(Change::Stays);
        };
        if favoured == 0 {
            return Ok(Change::Stays);
        }
        let slot = number.saturating_mul(links.len()).saturating_add(place);
        if let Some(Some(change)) = self.changes.get(slot) {
            return Ok(*change);
        }
        let change = drift_over(self.question, &link.passage, term, effort)?;
        if let Some(known) = self.changes.get_mut(slot) {
            *known = Some(change);
        }
        Ok(change)
    }

    /// Which of `areas` areas are reached from which over the links.
    pub(crate) fn reach(&self, areas: usize) -> Result<Reach, AllocError> {
        let mut reach = Reach::alone(self.question.alloc, areas)?;
        for link in self.links {
            reach.set(link.passage.from, link.passage.to);
        }
        reach.close();
        Ok(reach)
    }

    /// What the link at this place is worth.
    fn worth(
        &mut self,
        draft: &Draft,
        place: usize,
        link: &Link,
        effort: &mut Effort,
    ) -> Result<Worth, AllocError> {
        let favoured = draft.favoured_at(link.passage.from);
        if favoured == 0 || favoured != draft.favoured_at(link.passage.to) {
            return Ok(Worth::Leaves);
        }
        match self.change(favoured, place, effort)? {
            Change::Grows => Ok(Worth::Barred),
            Change::Stays => Ok(Worth::Stays),
            Change::Falls => Ok(Worth::Falls),
        }
    }

    /// What the links are worth.
    pub(crate) fn worths(
        &mut self,
        draft: &Draft,
        effort: &mut Effort,
    ) -> Result<Vec<Worth>, AllocError> {
        let links = self.links;
        let mut worths = Vec::new(self.question.alloc);
        for (place, link) in links.iter().enumerate() {
            worths.push(self.worth(draft, place, link, effort)?)?;
        }
        Ok(worths)
    }
}

/// The distance at a place.
fn distance_at(distances: &[Option<u32>], place: usize) -> Option<u32> {
    match distances.get(place) {
        Some(distance) => *distance,
        None => None,
    }
}

/// Sets a distance, if it is less than the one that is known.
fn set_nearer(distances: &mut [Option<u32>], place: usize, distance: u32) {
    if let Some(known) = distances.get_mut(place) {
        let is_nearer = match *known {
            None => true,
            Some(other) => distance < other,
        };
        if is_nearer {
            *known = Some(distance);
        }
    }
}

/// So many areas at no known distance, but for the first ones, which are at distance 0.
fn first_distances(
    alloc: Global,
    areas: usize,
    done: usize,
) -> Result<Vec<Option<u32>>, AllocError> {
    let mut distances = Vec::new(alloc);
    for place in 0..areas {
        distances.push(if place < done { Some(0) } else { None })?;
    }
    Ok(distances)
}

/// How many links it takes to come to the end, and to come to where something is gained.
#[derive(Drop)]
struct Distances {
    end: Vec<Option<u32>>,
    gain: Vec<Option<u32>>,
}

impl Distances {
    /// Whether the link leads nearer to the end.
    fn leads_nearer(&self, link: &Link) -> bool {
        match (
            distance_at(&self.end, link.passage.from),
            distance_at(&self.end, link.passage.to),
        ) {
            (Some(old), Some(new)) => new < old,
            _ => false,
        }
    }

    /// How many links it takes, after this one, to come to where something is gained; `None` where that is not known.
    fn left_to_gain(&self, link: &Link, worth: Worth) -> Option<u32> {
        match worth {
            Worth::Barred => None,
            Worth::Falls => Some(0),
            Worth::Leaves if self.leads_nearer(link) => Some(0),
            Worth::Leaves => None,
            Worth::Stays => distance_at(&self.gain, link.passage.to),
        }
    }

    /// Sets the distances to the end that one link more gives.
    fn follow_to_end(&mut self, links: &[Link], worths: &[Worth]) {
        for (link, worth) in links.iter().zip(worths) {
            if !matches!(worth, Worth::Barred)
                && let Some(distance) = distance_at(&self.end, link.passage.to)
            {
                set_nearer(&mut self.end, link.passage.from, distance.saturating_add(1));
            }
        }
    }

    /// Sets the distances to a gain that one link more gives.
    fn follow_to_gain(&mut self, links: &[Link], worths: &[Worth]) {
        for (link, worth) in links.iter().zip(worths) {
            if let Some(left) = self.left_to_gain(link, *worth) {
                set_nearer(&mut self.gain, link.passage.from, left.saturating_add(1));
            }
        }
    }

    /// The distances over the links between `areas` areas. The first `done` of them are at the end.
    fn new(
        alloc: Global,
        areas: usize,
        done: usize,
        links: &[Link],
        worths: &[Worth],
    ) -> Result<Distances, AllocError> {
        let end = first_distances(alloc, areas, done)?;
        let gain = first_distances(alloc, areas, 0)?;
        let mut distances = Distances { end, gain };
        for _ in 0..areas {
            distances.follow_to_end(links, worths);
        }
        for _ in 0..areas {
            distances.follow_to_gain(links, worths);
        }
        Ok(distances)
    }

    /// What the link costs, where `areas` is more than any distance: links that lead nearer to the end come first, then those over which
    /// the favoured term falls, then those that lead there, and then the others.
    fn cost(&self, link: &Link, worth: Worth, favours: bool, areas: u32) -> Option<u32> {
        let left = distance_at(&self.end, link.passage.to);
        match worth {
            Worth::Barred => None,
            Worth::Leaves if favours && !self.leads_nearer(link) => {
                Some(left?.saturating_add(areas.saturating_mul(3)))
            }
            Worth::Leaves => left,
            Worth::Falls => Some(areas),
            Worth::Stays => {
                let gain = distance_at(&self.gain, link.passage.to)?;
                Some(gain.saturating_add(areas).saturating_add(1))
            }
        }
    }
}

/// The cost of each link between the areas of a draft.
pub(crate) fn costs_of(
    alloc: Global,
    draft: &Draft,
    links: &[Link],
    worths: &[Worth],
) -> Result<Vec<Option<u32>>, AllocError> {
    let areas = draft.stages.areas.len();
    let distances = Distances::new(alloc, areas, draft.stages.done, links, worths)?;
    let mut costs = Vec::new(alloc);
    for (link, worth) in links.iter().zip(worths) {
        let favours = draft.favoured_at(link.passage.from) > 0;
        costs.push(distances.cost(link, *worth, favours, AREAS as u32))?;
    }
    Ok(costs)
}

/// The place of the cheapest link from the area.
fn cheapest_from(links: &[Link], costs: &[Option<u32>], from: usize) -> Option<usize> {
    let mut best = None;
    let mut least = u32::MAX;
    for (place, (link, cost)) in links.iter().zip(costs).enumerate() {
        if link.passage.from == from
            && let Some(cost) = *cost
            && cost < least
        {
            least = cost;
            best = Some(place);
        }
    }
    best
}

/// How far the link leads from what is owed by another one: 0 where one of these rows falls over it, 2 where one grows and none falls, and
/// else 1.
fn away_from(question: &Question, link: &Link, owed: &[Row]) -> Result<u32, AllocError> {
    let mut away = 1;
    for row in owed {
        match steady_change(question, &link.passage.effect, row)? {
            Change::Falls => return Ok(0),
            Change::Grows => away = 2,
            Change::Stays => {}
        }
    }
    Ok(away)
}

/// Whether one of the rows alone shows the row, since it is no less at each point.
fn is_shown_at_once(known: &[Row], row: &Row) -> bool {
    known.iter().any(|other| {
        other.coefficients() == row.coefficients() && other.constant() >= row.constant()
    })
}

/// The rows that are owed by the cheapest link from the area and that its own rows do not show at once.
fn wanted_rows(
    alloc: Global,
    links: &[Link],
    costs: &[Option<u32>],
    from: usize,
    rows: &[Row],
) -> Result<Vec<Row>, AllocError> {
    let mut wanted = Vec::new(alloc);
    if let Some(place) = cheapest_from(links, costs, from)
        && let Some(link) = links.get(place)
    {
        for row in &link.owed {
            if !is_shown_at_once(rows, row) {
                wanted.push(row.copy(alloc)?)?;
            }
        }
    }
    Ok(wanted)
}

/// The key by which the links are ordered: the cost, and then how far a link leads from the cheapest one.
fn keys_from(
    question: &Question,
    links: &[Link],
    costs: &[Option<u32>],
    from: usize,
    rows: &[Row],
) -> Result<Vec<Option<u32>>, AllocError> {
    let wanted = wanted_rows(question.alloc, links, costs, from, rows)?;
    let mut keys = Vec::new(question.alloc);
    for (link, cost) in links.iter().zip(costs) {
        let key = match *cost {
            Some(cost) if link.passage.from == from => {
                let away = away_from(question, link, &wanted)?;
                Some(cost.saturating_mul(3).saturating_add(away))
            }
            _ => None,
        };
        keys.push(key)?;
    }
    Ok(keys)
}

/// The place of the first of the least keys.
fn least_place(keys: &[Option<u32>]) -> Option<usize> {
    let mut best = None;
    let mut least = u32::MAX;
    for (place, key) in keys.iter().enumerate() {
        if let Some(key) = *key
            && key < least
        {
            least = key;
            best = Some(place);
        }
    }
    best
}

/// The places of the links from an area with these rows, the cheapest first, and of two that cost the same the one first that leads to
/// where the cheapest can be taken.
pub(crate) fn options_from(
    question: &Question,
    links: &[Link],
    costs: &[Option<u32>],
    from: usize,
    rows: &[Row],
) -> Result<Vec<usize>, AllocError> {
    let mut keys = keys_from(question, links, costs, from, rows)?;
    let mut options = Vec::new(question.alloc);
    for _ in 0..links.len() {
        match least_place(&keys) {
            None => return Ok(options),
            Some(place) => {
                options.push(place)?;
                if let Some(key) = keys.get_mut(place) {
                    *key = None;
                }
            }
        }
    }
    Ok(options)
}
