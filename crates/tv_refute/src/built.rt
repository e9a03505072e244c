ghost use Rattle.std.specs.Prelude.{◌≡◌, ◌≤◌, ◌<◌, pos, length, get_or, SomeIff};
ghost use Rattle.tv_linear.specs.Known.{KnownHeld, known_number};
ghost use Rattle.tv_refute.specs.Blocks.{further, AreTold, LessHeld, lessened, ConstantHeld, with_constant, TermsHeld, terms_sum};
ghost use Rattle.tv_refute.specs.Built.{built};
ghost use Rattle.tv_refute.specs.Terms.{terms_of};

use crate::blocks::{add_term, compose_row, put_row};
use crate::steps::{Deny, Lessen, PutSame, SameMore, change_each};
use crate::terms::{Terms, term_count};
use tv_linear::RowView;

/// A row by how it is made. It is never built: its numbers are read one by one.
#[derive(Drop)]
pub enum Built<'a> {
    /// The row without columns whose constant is 0.
    Zero,
    Given(RowView<'a>),
    /// `1 - r`.
    Denied(&'a Built<'a>),
    /// The terms put in for the columns.
    Composed(&'a Built<'a>, &'a Terms<'a>),
    /// The first less the second, plus a number.
    Less(&'a Built<'a>, &'a Built<'a>, i128),
}

/// How many columns are read at once: as many as a program's variables and an edge's draws are at most.
pub(crate) const BLOCK: usize = 576;

/// So many columns or fewer are read into a short list, which is made at once.
pub(crate) const FEW: usize = 16;

/// The number of a row in a column, 0 past the last, or its constant where no column is named; `None` where
/// a number on the way is 2^127 or more in magnitude.
pub fn number_of(known: &Built, column: Option<usize>) -> Option<i128>
    ensures { SomeIff result (KnownHeld (built known.now) column) (known_number (built known.now) column) }
{
    let mut numbers = [0; 1];
    if read_numbers(known, column, 1, &mut numbers) {
        Some(numbers[0])
    } else {
        None
    }
}

/// Puts the numbers of a row in `count` columns from one on, or its constant; whether no number on the way is
/// 2^127 or more in magnitude.
#[cycle(numbers)]
pub(crate) fn read_numbers(
    known: &Built,
    column: Option<usize>,
    count: usize,
    numbers: &mut [i128],
) -> bool
    requires size { count ≤ length numbers.old }
    requires some { 0 < count }
    requires bounded { count ≤ 576 }
    ensures size { length numbers.new ≡ length numbers.old }
    ensures told { AreTold result count (λ k. KnownHeld (built known.now) (further column k))
        (λ k. known_number (built known.now) (further column k)) numbers.new }
{
    match known {
        Built::Zero => change_each(numbers, count, &PutSame(0)),
        Built::Given(row) => put_row(*row, column, count, numbers),
        Built::Denied(inner) => {
            if !read_numbers(inner, column, count, numbers) {
                return false;
            }
            change_each(numbers, count, &Deny { column })
        }
        Built::Composed(inner, terms) => {
            if !compose(inner, terms, column, count, numbers) {
                return false;
            }
            add_constant(inner, column, count, numbers)
        }
        Built::Less(first, second, more) => {
            if !read_numbers(first, column, count, numbers) {
                return false;
            }
            lessen(second, *more, column, count, numbers)
        }
    }
}

/// Takes the numbers of a row away, and adds a number to the constant.
#[cycle(numbers)]
fn lessen(
    second: &Built,
    more: i128,
    column: Option<usize>,
    count: usize,
    numbers: &mut [i128],
) -> bool
    requires size { count ≤ length numbers.old }
    requires some { 0 < count }
    requires bounded { count ≤ 576 }
    ensures size { length numbers.new ≡ length numbers.old }
    ensures told { let k = built second.now in AreTold result count
        (λ i. KnownHeld k (further column i) × LessHeld column more (get_or numbers.old i (pos 0)) (known_number k (further column i)))
        (λ i. lessened column more (get_or numbers.old i (pos 0)) (known_number k (further column i))) numbers.new }
{
    if count <= FEW {
        let mut others = [0; FEW];
        lessen_by(second, more, column, count, &mut others, numbers)
    } else {
        let mut others = [0; BLOCK];
        lessen_by(second, more, column, count, &mut others, numbers)
    }
}

/// The same, with room for the numbers that are read.
#[cycle(numbers)]
fn lessen_by(
    second: &Built,
    more: i128,
    column: Option<usize>,
    count: usize,
    others: &mut [i128],
    numbers: &mut [i128],
) -> bool
    requires room { count ≤ length others.old }
    requires size { count ≤ length numbers.old }
    requires some { 0 < count }
    requires bounded { count ≤ 576 }
    ensures size { length numbers.new ≡ length numbers.old }
    ensures told { let k = built second.now in AreTold result count
        (λ i. KnownHeld k (further column i) × LessHeld column more (get_or numbers.old i (pos 0)) (known_number k (further column i)))
        (λ i. lessened column more (get_or numbers.old i (pos 0)) (known_number k (further column i))) numbers.new }
{
    if !read_numbers(second, column, count, others) {
        return false;
    }
    let step = Lessen {
        column,
        second: others,
        more,
    };
    change_each(numbers, count, &step)
}

/// Adds the constant of a row, where no column is named.
#[cycle(numbers)]
fn add_constant(inner: &Built, column: Option<usize>, count: usize, numbers: &mut [i128]) -> bool
    requires size { count ≤ length numbers.old }
    requires some { 0 < count }
    ensures size { length numbers.new ≡ length numbers.old }
    ensures told { let k = built inner.now in AreTold result count
        (λ i. ConstantHeld k column (get_or numbers.old i (pos 0)))
        (λ i. with_constant k column (get_or numbers.old i (pos 0))) numbers.new }
{
    match column {
        Some(_) => true,
        None => {
            let mut constant = [0; 1];
            if !read_numbers(inner, None, 1, &mut constant) {
                return false;
            }
            change_each(numbers, count, &SameMore(constant[0]))
        }
    }
}

/// Puts the sums over the terms that are put in for the columns of a row. Each number of the row is read once
/// for `count` columns, and its term is passed where it is 0.
#[cycle(numbers)]
fn compose(
    inner: &Built,
    terms: &Terms,
    column: Option<usize>,
    count: usize,
    totals: &mut [i128],
) -> bool
    requires size { count ≤ length totals.old }
    requires some { 0 < count }
    ensures size { length totals.new ≡ length totals.old }
    ensures told { let k = built inner.now in let ts = terms_of terms.now in AreTold result count
        (λ i. TermsHeld k ts (further column i)) (λ i. terms_sum k ts (further column i)) totals.new }
{
    if let Built::Given(row) = inner {
        return compose_row(*row, terms, column, count, totals);
    }
    if term_count(terms) <= FEW {
        let mut numbers = [0; FEW];
        compose_read(inner, terms, column, count, &mut numbers, totals)
    } else {
        let mut numbers = [0; BLOCK];
        compose_read(inner, terms, column, count, &mut numbers, totals)
    }
}

/// The same, with room for the numbers that are read.
#[cycle(numbers)]
fn compose_read(
    inner: &Built,
    terms: &Terms,
    column: Option<usize>,
    count: usize,
    numbers: &mut [i128],
    totals: &mut [i128],
) -> bool
    requires room { 0 < length numbers.old }
    requires block { length numbers.old ≤ 576 }
    requires size { count ≤ length totals.old }
    requires some { 0 < count }
    ensures size { length totals.new ≡ length totals.old }
    ensures told { let k = built inner.now in let ts = terms_of terms.now in AreTold result count
        (λ i. TermsHeld k ts (further column i)) (λ i. terms_sum k ts (further column i)) totals.new }
{
    change_each(totals, count, &PutSame(0));
    let places = term_count(terms);
    let block = numbers.len();
    let mut first = 0;
    'blocks: while first < places {
        let width = block.min(places - first);
        if !read_numbers(inner, Some(first), width, numbers) {
            return false;
        }
        'places: for i in 0..width {
            if !add_term(totals, count, numbers[i], terms, first + i, column) {
                return false;
            }
        }
        first += width;
    }
    true
}
