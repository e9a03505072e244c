use crate::graphs::graph::Graph;
use crate::graphs::proving::number_row;
use crate::graphs::rule::layer_at;
use crate::graphs::selecting::is_set;
use crate::graphs::spot::Spot;
use crate::question::Question;
use std::alloc::{AllocError, Global};
use tv_cert::{Mark, Marked, Node, Proof};
use tv_linear::Row;
use tv_shape::node_of;

/// A node whose pieces are states of a graph, in their order.
#[derive(Drop)]
pub(crate) struct Made {
    pub node: Node,
    /// Whether a state has a piece.
    pub selected: Vec<bool>,
}

/// How the pieces of a node are marked.
#[derive(Clone, Copy)]
pub(crate) enum Marks {
    /// All go on.
    Plain,
    /// Those of layer 0 are done.
    Ended,
    /// Those of layer 0 are done, and the others have their layer as a rank.
    Ranked,
}

/// What the piece of a state of this layer is for.
fn mark_of(marks: Marks, layer: u32) -> Mark {
    match marks {
        Marks::Plain => Mark::Go,
        Marks::Ended | Marks::Ranked => { if layer == 0 { Mark::Done } else { Mark::Go } }
    }
}

/// How many ranks the pieces have that go on.
fn rank_count(marks: Marks) -> u32 {
    match marks {
        Marks::Plain | Marks::Ended => 0,
        Marks::Ranked => 1,
    }
}

/// Puts the row that is 1 or -1 at a variable and less or more its value at the end of the list; whether it is narrow.
fn push_unit(
    alloc: Global,
    values: &[i64],
    variable: usize,
    sign: i128,
    rows: &mut Vec<Row>,
) -> Result<bool, AllocError> {
    let mut coefficients = vec![in alloc; 0; values.len()]?;
    if coefficients.len() >= 1 << 31 || variable >= coefficients.len() || variable >= values.len() {
        return Ok(false);
    }
    coefficients[variable] = sign;
    let value = i128::from(values[variable]);
    let constant = if sign > 0 { -value } else { value };
    match Row::new(alloc, &coefficients, constant)? {
        None => Ok(false),
        Some(row) => {
            rows.push(row)?;
            Ok(true)
        }
    }
}

/// The rows that the values alone meet; `None` where a value is not narrow.
pub(crate) fn rows_of(alloc: Global, values: &[i64]) -> Result<Option<Vec<Row>>, AllocError> {
    let mut rows = Vec::new(alloc);
    for variable in 0..values.len() {
        if !push_unit(alloc, values, variable, 1, &mut rows)? {
            return Ok(None);
        }
        if !push_unit(alloc, values, variable, -1, &mut rows)? {
            return Ok(None);
        }
    }
    Ok(Some(rows))
}

/// The ranks of a piece of this layer.
fn ranks_of(
    alloc: Global,
    variables: usize,
    marks: Marks,
    layer: u32,
) -> Result<Vec<Row>, AllocError> {
    let mut ranks = Vec::new(alloc);
    if rank_count(marks) == 1
        && layer > 0
        && let Some(row) = number_row(alloc, variables, i64::from(layer))?
    {
        ranks.push(row)?;
    }
    Ok(ranks)
}

/// The piece of a spot of this layer.
fn piece_of(
    alloc: Global,
    columns: usize,
    spot: &Spot,
    marks: Marks,
    layer: u32,
) -> Result<Option<Marked>, AllocError> {
    if columns >= 1 << 31 {
        return Ok(None);
    }
    let Some(rows) = spot.rows(alloc)? else {
        return Ok(None);
    };
    let ranks = ranks_of(alloc, columns, marks, layer)?;
    Marked::from_rows(
        alloc,
        spot.location,
        mark_of(marks, layer),
        columns as u32,
        &rows,
        &ranks,
    )
}

/// The pieces of the selected states.
fn pieces_of(
    alloc: Global,
    graph: &Graph,
    layers: &[Option<u32>],
    marks: Marks,
    selected: &[bool],
) -> Result<Option<Vec<Marked>>, AllocError> {
    let mut pieces = Vec::new(alloc);
    for (place, spot) in graph.spots.iter().enumerate() {
        if is_set(selected, place) {
            let layer = layer_at(layers, place).unwrap_or(0);
            match piece_of(alloc, graph.variables, spot, marks, layer)? {
                None => return Ok(None),
                Some(piece) => pieces.push(piece)?,
            }
        }
    }
    Ok(Some(pieces))
}

impl Made {
    /// The node of the selected states with these children and proofs; `None` where a value is not narrow.
    pub(crate) fn new(
        question: &Question,
        graph: &Graph,
        layers: &[Option<u32>],
        marks: Marks,
        selected: Vec<bool>,
        parts: Parts,
    ) -> Result<Option<Made>, AllocError> {
        let Some(pieces) = pieces_of(question.alloc, graph, layers, marks, &selected)? else {
            return Ok(None);
        };
        let Parts { children, proofs } = parts;
        let node = node_of(question.alloc, pieces, rank_count(marks), children, proofs)?;
        Ok(Some(Made { node, selected }))
    }
}

/// What a node has below it and for its pieces.
#[derive(Drop)]
pub(crate) struct Parts {
    pub children: Vec<Node>,
    pub proofs: Vec<Proof>,
}
