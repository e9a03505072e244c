// Until over some path, by a strategy: at each area that goes on a way for each of its states, so that ranks fall over the ways that do not
// lead to the end.

use crate::areas::area::Area;
use crate::areas::passage::{Effect, Passage};
use crate::areas::ranks::{Ranking, ranks_among};
use crate::areas::sides::Sides;
use crate::areas::stages::stages_of;
use crate::areas::terms::{push_terms, terms_of};
use crate::formulas::found::{Ended, Found, better};
use crate::limits::{STRATEGY_CUTS, STRATEGY_ROUNDS, STRATEGY_SPLITS};
use crate::strategies::favouring::favour_next;
use crate::strategies::link::{Between, Link, distinct_ways};
use crate::strategies::plan::{Leaf, Plan, Planner, plan_of};
use crate::strategies::splitting::{Attempted, Splitting, splitting_at};
use crate::strategies::strategy_draft::{Cutting, Draft, First};
use crate::strategies::strategy_order::{Field, costs_of, options_from};
use crate::strategies::strategy_proofs::{Proving, Strategy, proofs_of};
use std::alloc::{AllocError, Global};
use tv_linear::{Row, copies};
use tv_walks::{Effort, Question, Way, denied};

/// What is known of a draft.
#[derive(Drop)]
enum Tried {
    Shown(Strategy),
    Holes(Holes),
    /// The ranks do not fall between the areas at these places.
    Stuck(Vec<usize>),
    /// Nor do they, but for where the row is met they may.
    Split(Splitting),
}

/// Areas some of whose states have no link.
#[derive(Drop)]
struct Holes {
    places: Vec<usize>,
    /// The costs of the links: those without any were not tried.
    costs: Vec<Option<u32>>,
}

/// A plan for each area that goes on, and the leaves of all plans.
#[derive(Drop)]
struct Plans {
    plans: Vec<Plan>,
    leaves: Vec<Leaf>,
    /// The places of the areas that have no plan.
    holes: Vec<usize>,
    costs: Vec<Option<u32>>,
}

impl Plans {
    /// No plan yet over links that cost this.
    fn new(alloc: Global, costs: Vec<Option<u32>>) -> Plans {
        Plans {
            plans: Vec::new(alloc),
            leaves: Vec::new(alloc),
            holes: Vec::new(alloc),
            costs,
        }
    }

    /// Adds the plan of the area at this place, or the place where it has none.
    fn add(
        &mut self,
        field: &Field,
        place: usize,
        area: &Area,
        effort: &mut Effort,
    ) -> Result<(), AllocError> {
        let rows = &area.rows;
        let options = options_from(field.question, field.links, &self.costs, place, rows)?;
        let planner = Planner {
            alloc: field.question.alloc,
            columns: field.question.about.variables() as usize,
            links: field.links,
            options: &options,
        };
        match plan_of(&planner, rows, STRATEGY_SPLITS, &mut self.leaves, effort)? {
            Some(plan) => self.plans.push(plan)?,
            None => self.holes.push(place)?,
        }
        Ok(())
    }
}

/// The cost of each link of the draft.
fn link_costs(
    field: &mut Field,
    draft: &Draft,
    effort: &mut Effort,
) -> Result<Vec<Option<u32>>, AllocError> {
    let worths = field.worths(draft, effort)?;
    costs_of(field.question.alloc, draft, field.links, &worths)
}

/// The plans of the areas of a draft.
fn plans_of(field: &mut Field, draft: &Draft, effort: &mut Effort) -> Result<Plans, AllocError> {
    let costs = link_costs(field, draft, effort)?;
    let mut plans = Plans::new(field.question.alloc, costs);
    for (place, area) in draft.stages.areas.iter().enumerate() {
        if place >= draft.stages.done {
            plans.add(field, place, area, effort)?;
        }
    }
    Ok(plans)
}

/// The passages over the leaves, in their order. Those that lead to the end are marked as fallen.
fn passages_of(field: &Field, draft: &Draft, leaves: &[Leaf]) -> Result<Vec<Passage>, AllocError> {
    let alloc = field.question.alloc;
    let mut passages = Vec::new(alloc);
    for leaf in leaves {
        if let Some(link) = field.links.get(leaf.link) {
            let is_end = link.passage.to < draft.stages.done;
            let fall = if is_end { 1 } else { 0 };
            passages.push(passage_at(alloc, link, &leaf.known, fall)?)?;
        }
    }
    Ok(passages)
}

/// The passage over the link where these rows are met, with this fall.
fn passage_at(alloc: Global, link: &Link, known: &[Row], fall: u32) -> Result<Passage, AllocError> {
    let own = &link.passage;
    let width = own.effect.width;
    let terms = copies(alloc, &own.effect.terms)?;
    let rows = copies(alloc, known)?;
    Ok(Passage {
        from: own.from,
        number: own.number,
        effect: Effect { width, terms },
        to: own.to,
        rows,
        fall,
    })
}

/// What is known of the draft where each area has a plan.
fn ranked(
    field: &Field,
    draft: &Draft,
    plans: Plans,
    effort: &mut Effort,
) -> Result<Tried, AllocError> {
    let mut passages = passages_of(field, draft, &plans.leaves)?;
    let areas = draft.stages.areas.len();
    match ranks_among(field.question, field.terms, areas, &mut passages, effort)? {
        Ranking::Stuck(places) => Ok(Tried::Stuck(places)),
        Ranking::Found(ranks) => Ok(Tried::Shown(Strategy {
            plans: plans.plans,
            leaves: plans.leaves,
            passages,
            ranks,
        })),
    }
}

/// What is known of the draft.
fn try_once(field: &mut Field, draft: &Draft, effort: &mut Effort) -> Result<Tried, AllocError> {
    let plans = plans_of(field, draft, effort)?;
    if plans.holes.is_empty() {
        return ranked(field, draft, plans, effort);
    }
    Ok(Tried::Holes(Holes {
        places: plans.holes,
        costs: plans.costs,
    }))
}

/// Holes that are left where a term is favoured at some areas.
#[derive(Drop)]
struct Held {
    term: usize,
    group: Vec<usize>,
    holes: Holes,
}

/// What is left to try where no term helps.
#[derive(Drop)]
struct Left {
    /// The terms that were favoured: areas may be split by where they are below 0.
    tried: Vec<Attempted>,
    /// The first term that left holes.
    held: Option<Held>,
}

impl Left {
    /// Adds that the term did not help at the areas at these places.
    fn add(&mut self, alloc: Global, term: usize, places: &[usize]) -> Result<(), AllocError> {
        let places = Vec::from_slice(alloc, places)?;
        self.tried.push(Attempted { term, places })?;
        Ok(())
    }

    /// Notes what is left of a term that is favoured at the areas at these places; which areas it is favoured at.
    fn note(
        &mut self,
        alloc: Global,
        draft: &Draft,
        term: usize,
        holes: Holes,
    ) -> Result<Vec<usize>, AllocError> {
        let group = draft.favouring(alloc, term)?;
        let places = Vec::from_slice(alloc, &group)?;
        self.add(alloc, term, &group)?;
        if self.held.is_none() {
            self.held = Some(Held { term, group, holes });
        }
        Ok(places)
    }
}

/// What is known of the areas of the draft, whatever term is favoured: places are stuck only where no term helps.
fn try_terms(
    field: &mut Field,
    draft: &mut Draft,
    effort: &mut Effort,
) -> Result<Tried, AllocError> {
    let alloc = field.question.alloc;
    let mut left = Left {
        tried: Vec::new(alloc),
        held: None,
    };
    let mut places = Vec::new(alloc);
    for _ in 0..STRATEGY_ROUNDS {
        places = match try_once(field, draft, effort)? {
            Tried::Stuck(places) => {
                left.add(alloc, draft.greatest_at(&places), &places)?;
                places
            }
            Tried::Holes(holes) => match draft.greatest_at(&holes.places) {
                0 => return Ok(Tried::Holes(holes)),
                term => left.note(alloc, draft, term, holes)?,
            },
            tried => return Ok(tried),
        };
        if !favour_next(field, draft, &places, effort)? {
            break;
        }
    }
    no_term(field, draft, left, places, effort)
}

/// What is known where no term is left for the areas at these places: how they may be split, or where the first term that left holes did.
fn no_term(
    field: &Field,
    draft: &mut Draft,
    left: Left,
    places: Vec<usize>,
    effort: &mut Effort,
) -> Result<Tried, AllocError> {
    let Left { tried, held } = left;
    let may_cut = draft.cuts < STRATEGY_CUTS && held.is_some();
    let splits_first = draft.first == First::Splits || !may_cut;
    if splits_first
        && draft.splits < STRATEGY_CUTS
        && let Some(split) = splitting_at(field, draft, &tried, &places, effort)?
    {
        return Ok(Tried::Split(split));
    }
    match held {
        Some(held) if may_cut => {
            draft.favour(&held.group, held.term);
            Ok(Tried::Holes(held.holes))
        }
        _ => Ok(Tried::Stuck(places)),
    }
}

/// The terms that are tried: those that the guards and the areas keep from falling below 0, and those that their denials do.
fn terms_for(question: &Question, ways: &[Way], draft: &Draft) -> Result<Vec<Row>, AllocError> {
    let columns = question.about.variables() as usize;
    let mut terms = terms_of(question, &draft.stages.areas)?;
    for way in ways {
        push_terms(question.alloc, columns, &way.guards, &mut terms)?;
        push_denied_terms(question, &way.guards, &mut terms)?;
    }
    for area in &draft.stages.areas {
        push_denied_terms(question, &area.rows, &mut terms)?;
    }
    Ok(terms)
}

/// Puts the terms that are not below 0 where one of the rows is denied at the end of the list.
fn push_denied_terms(
    question: &Question,
    rows: &[Row],
    terms: &mut Vec<Row>,
) -> Result<(), AllocError> {
    let columns = question.about.variables() as usize;
    for row in rows {
        if let Some(denial) = denied(question.alloc, row)? {
            push_terms(question.alloc, columns, &[denial], terms)?;
        }
    }
    Ok(())
}

/// What becomes of a draft.
#[derive(Drop)]
enum Round {
    Ended(Option<Ended>),
    Next(Draft),
}

/// What a strategy is sought for.
#[derive(Drop)]
struct Sought<'a> {
    question: &'a Question<'a>,
    sides: &'a Sides<'a>,
    ways: Vec<Way>,
    terms: Vec<Row>,
}

impl<'a> Sought<'a> {
    /// What is sought from the draft on.
    fn new(
        question: &'a Question<'a>,
        sides: &'a Sides<'a>,
        draft: &Draft,
    ) -> Result<Sought<'a>, AllocError> {
        let ways = distinct_ways(question)?;
        let terms = terms_for(question, &ways, draft)?;
        Ok(Sought {
            question,
            sides,
            ways,
            terms,
        })
    }

    /// The links between the areas of the draft.
    fn links(&self, draft: &Draft, effort: &mut Effort) -> Result<Vec<Link>, AllocError> {
        let between = Between {
            stages: &draft.stages,
            ways: &self.ways,
        };
        between.links(self.question, effort)
    }
}

/// What is found of the draft by this strategy.
fn found_by(
    sought: &Sought,
    draft: Draft,
    links: &[Link],
    strategy: Strategy,
    effort: &mut Effort,
) -> Result<Option<Ended>, AllocError> {
    let proving = Proving {
        question: sought.question,
        stages: &draft.stages,
        ways: &sought.ways,
        links,
        strategy: &strategy,
    };
    let Some(proofs) = proofs_of(&proving, sought.sides, effort)? else {
        return Ok(None);
    };
    let lost = draft.lost;
    let is_whole = draft.is_whole(sought.question);
    let found = Found {
        stages: draft.stages,
        ranks: strategy.ranks,
        proofs,
    };
    Ok(Some(Ended {
        found,
        lost,
        is_whole,
    }))
}

/// The draft in which the areas with holes are cut.
fn cut_at(
    sought: &Sought,
    draft: &Draft,
    links: &[Link],
    holes: &Holes,
    effort: &mut Effort,
) -> Result<Draft, AllocError> {
    let cutting = Cutting {
        ways: &sought.ways,
        links,
        costs: &holes.costs,
        cut: draft.next_cut(),
    };
    draft.cut(sought.question, &cutting, &holes.places, effort)
}

/// What becomes of the draft by what is known of it.
fn round_of(
    sought: &Sought,
    draft: Draft,
    links: &[Link],
    tried: Tried,
    effort: &mut Effort,
) -> Result<Round, AllocError> {
    let next = match tried {
        Tried::Shown(strategy) => {
            let ended = found_by(sought, draft, links, strategy, effort)?;
            return Ok(Round::Ended(ended));
        }
        Tried::Holes(holes) => cut_at(sought, &draft, links, &holes, effort)?,
        Tried::Split(split) => { draft.split(sought.question, &split.places, &split.row, effort)? }
        Tried::Stuck(places) => {
            if places.is_empty() {
                return Ok(Round::Ended(None));
            }
            draft.without(sought.question.alloc, &places)?
        }
    };
    Ok(Round::Next(next))
}

/// One round: what is found of the draft, or the draft that is tried next.
fn settle(sought: &Sought, draft: Draft, effort: &mut Effort) -> Result<Round, AllocError> {
    let mut draft = draft;
    let links = sought.links(&draft, effort)?;
    let mut field = Field::new(sought.question, &sought.terms, &links)?;
    let tried = try_terms(&mut field, &mut draft, effort)?;
    round_of(sought, draft, &links, tried, effort)
}

/// What the rounds from the first draft end with.
fn ended_from(
    question: &Question,
    sides: &Sides,
    first: First,
    effort: &mut Effort,
) -> Result<Option<Ended>, AllocError> {
    let Some(stages) = stages_of(question, sides, effort)? else {
        return Ok(None);
    };
    let draft = Draft::new(question.alloc, stages, first)?;
    let sought = Sought::new(question, sides, &draft)?;
    rounds_of(&sought, draft, effort)
}

/// The same of this draft.
fn rounds_of(
    sought: &Sought,
    draft: Draft,
    effort: &mut Effort,
) -> Result<Option<Ended>, AllocError> {
    let mut draft = draft;
    for _ in 0..STRATEGY_ROUNDS {
        match settle(sought, draft, effort)? {
            Round::Ended(ended) => return Ok(ended),
            Round::Next(next) => draft = next,
        }
    }
    Ok(None)
}

/// Until over some path: at each state of an area a way is taken, so that ranks fall until the end. Areas for which no such ways are found
/// are cut to where some can be taken, or split, and then left out.
pub(crate) fn any_until_by_strategy(
    question: &Question,
    sides: &Sides,
    effort: &mut Effort,
) -> Result<Option<Ended>, AllocError> {
    let cut = ended_from(question, sides, First::Cuts, effort)?;
    if let Some(ended) = &cut
        && ended.lost == 0
    {
        return Ok(cut);
    }
    let split = ended_from(question, sides, First::Splits, effort)?;
    Ok(better(cut, split))
}
