//! Numbers of rows and terms, for many columns at once.

ghost use Rattle.std.specs.Prelude.{◌≡◌, ◌≤◌, ◌<◌, pos, ◌+ℤ◌, ◌*ℤ◌, length, drop, get_or};
ghost use Rattle.tv_linear.specs.Known.{number, kept, term_number, given};
ghost use Rattle.tv_refute.specs.Blocks.{further, AreTold, IsAddedHeld, AreHeld, TermsHeld, terms_sum};
ghost use Rattle.tv_refute.specs.Terms.{terms_of};
ghost use Rattle.tv_linear.specs.Views.{row_seen};

use crate::addends::{RowNumbers, Same, add_each};
use crate::steps::{Put, PutSame, at, change_each};
use crate::terms::{Terms, row_put, term_count};
use tv_linear::RowView;
use tv_linear::held::add_product;

/// What is left from a place on.
fn tail(numbers: &[i64], from: usize) -> &[i64]
    ensures { result.now ≡ drop from numbers.now }
{
    if from <= numbers.len() {
        let (_, after) = numbers.split_at(from);
        after
    } else {
        &[]
    }
}

/// Puts the numbers of a row from a column on, or its constant.
pub(crate) fn put_row(
    row: RowView,
    column: Option<usize>,
    count: usize,
    numbers: &mut [i128],
) -> bool
    requires { count ≤ length numbers.old }
    ensures size { length numbers.new ≡ length numbers.old }
    ensures told { AreTold result count (λ k. Unit {0}) (λ k. number (further column k) (row_seen row.entry)) numbers.new }
{
    match column {
        None => change_each(numbers, count, &PutSame(row.constant())),
        Some(j) => change_each(numbers, count, &Put(tail(row.coefficients(), j))),
    }
}

/// Adds the products of a factor and the numbers of a row from a column on, or its constant.
pub(crate) fn add_row(
    totals: &mut [i128],
    count: usize,
    factor: i128,
    row: RowView,
    column: Option<usize>,
) -> bool
    requires size { count ≤ length totals.old }
    requires held { AreHeld count totals.old }
    ensures size { length totals.new ≡ length totals.old }
    ensures told { AreTold result count
        (λ k. IsAddedHeld (get_or totals.old k (pos 0)) factor (number (further column k) (row_seen row.entry)))
        (λ k. get_or totals.old k (pos 0) +ℤ factor *ℤ number (further column k) (row_seen row.entry)) totals.new }
{
    match column {
        None => add_each(totals, count, factor, &Same(row.constant())),
        Some(j) => add_each(
            totals,
            count,
            factor,
            &RowNumbers(tail(row.coefficients(), j)),
        ),
    }
}

/// Adds the product of a factor and a variable, which stands in its own column alone.
fn add_kept(
    totals: &mut [i128],
    count: usize,
    factor: i128,
    v: usize,
    column: Option<usize>,
) -> bool
    requires size { count ≤ length totals.old }
    requires held { AreHeld count totals.old }
    ensures size { length totals.new ≡ length totals.old }
    ensures told { AreTold result count
        (λ k. IsAddedHeld (get_or totals.old k (pos 0)) factor (term_number (further column k) (kept v)))
        (λ k. get_or totals.old k (pos 0) +ℤ factor *ℤ term_number (further column k) (kept v)) totals.new }
{
    match column {
        None => true,
        Some(j) => {
            if v < j || v - j >= count {
                return true;
            }
            match add_product(totals[v - j], factor, 1) {
                None => false,
                Some(sum) => {
                    totals[v - j] = sum;
                    true
                }
            }
        }
    }
}

/// Adds the products of a factor and the numbers of a term, as `add_term` does: without a test for 0.
fn add_multiple(
    totals: &mut [i128],
    count: usize,
    factor: i128,
    terms: &Terms,
    v: usize,
    column: Option<usize>,
) -> bool
    requires size { count ≤ length totals.old }
    requires held { AreHeld count totals.old }
    requires there { v < length (terms_of terms.now) }
    ensures size { length totals.new ≡ length totals.old }
    ensures told { let term = get_or (terms_of terms.now) v (kept 0) in AreTold result count
        (λ k. IsAddedHeld (get_or totals.old k (pos 0)) factor (term_number (further column k) term))
        (λ k. get_or totals.old k (pos 0) +ℤ factor *ℤ term_number (further column k) term) totals.new }
{
    match row_put(terms, v) {
        None => add_kept(totals, count, factor, v, column),
        Some(row) => add_row(totals, count, factor, RowView::of(row), column),
    }
}

/// Adds the products of a factor and the numbers of a term from a column on, or its constant. Most factors are 0.
#[inline(always)]
pub(crate) fn add_term(
    totals: &mut [i128],
    count: usize,
    factor: i128,
    terms: &Terms,
    v: usize,
    column: Option<usize>,
) -> bool
    requires size { count ≤ length totals.old }
    requires held { AreHeld count totals.old }
    requires there { v < length (terms_of terms.now) }
    ensures size { length totals.new ≡ length totals.old }
    ensures told { let term = get_or (terms_of terms.now) v (kept 0) in AreTold result count
        (λ k. IsAddedHeld (get_or totals.old k (pos 0)) factor (term_number (further column k) term))
        (λ k. get_or totals.old k (pos 0) +ℤ factor *ℤ term_number (further column k) term) totals.new }
{
    factor == 0 || add_multiple(totals, count, factor, terms, v, column)
}

/// Puts the sums over the terms that are put in for the columns of a row. A term is passed where the row's number
/// is 0.
pub(crate) fn compose_row(
    row: RowView,
    terms: &Terms,
    column: Option<usize>,
    count: usize,
    totals: &mut [i128],
) -> bool
    requires { count ≤ length totals.old }
    ensures size { length totals.new ≡ length totals.old }
    ensures told { let k = given (row_seen row.entry) in let ts = terms_of terms.now in AreTold result count
        (λ i. TermsHeld k ts (further column i)) (λ i. terms_sum k ts (further column i)) totals.new }
{
    change_each(totals, count, &PutSame(0));
    let coefficients = row.coefficients();
    for v in 0..term_count(terms) {
        if !add_term(totals, count, at(coefficients, v), terms, v, column) {
            return false;
        }
    }
    true
}
