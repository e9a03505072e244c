//! Conditions.

ghost use Rattle.std.specs.Prelude.{◌≡◌, ◌++◌, ◌≤◌, ◌||◌, IfOk, OnOk, IsTrue, length};
ghost use Rattle.tv_program.specs.Limits.{condition_depth};
ghost use Rattle.tv_program.specs.Trees.{compare};
ghost use Rattle.tv_program.specs.Views.{condition, conditions, expression};
ghost use Rattle.tv_spelling.specs.Conditions.{is_truth, is_negated, is_all, is_some, as_denied, as_literal, as_conjunction, truth_text, relation_text, condition_text, all_text, some_text};
ghost use Rattle.tv_spelling.specs.Named.{test_is_named};
ghost use Rattle.tv_spelling.specs.ReadAgain.{IsConditionAgain, IsConditionReadAgain};
ghost use Rattle.tv_spelling.specs.Sums.{in_brackets};

use crate::sums::append_sum;
use crate::writing::append_text;
use std::alloc::{AllocError, Global};
use tv_program::{Cond, Expr, Names, Relation};

/// The word of a truth value.
pub fn truth_text(holds: bool) -> &'static [u8]
    ensures { result.now ≡ truth_text holds }
{
    if holds { b"true" } else { b"false" }
}

/// The sign of a relation between single spaces.
pub fn relation_text(relation: Relation) -> &'static [u8]
    ensures { result.now ≡ relation_text relation }
{
    match relation {
        Relation::Less => b" < ",
        Relation::LessEqual => b" <= ",
        Relation::Greater => b" > ",
        Relation::GreaterEqual => b" >= ",
        Relation::Equal => b" == ",
        Relation::NotEqual => b" != ",
    }
}

/// Whether the condition is a truth value or denies another.
fn is_bare_behind_not(tested: &Cond) -> bool
    ensures { result ≡ (is_truth (condition tested.now) || is_negated (condition tested.now)) }
{
    matches!(tested, Cond::Truth(_) | Cond::Not(_))
}

fn is_all(tested: &Cond) -> bool
    ensures { result ≡ is_all (condition tested.now) }
{
    matches!(tested, Cond::And(_))
}

fn is_some(tested: &Cond) -> bool
    ensures { result ≡ is_some (condition tested.now) }
{
    matches!(tested, Cond::Or(_))
}

/// The text of a comparison is added.
fn append_comparison(
    alloc: Global,
    out: &mut Vec<u8>,
    relation: Relation,
    left: &Expr,
    right: &Expr,
    names: &Names,
) -> Result<(), AllocError>
    ensures { OnOk result (out.new.items ≡ out.old.items ++ condition_text names.now (compare relation (expression left.now) (expression right.now))) }
{
    append_sum(alloc, out, left, names)?;
    append_text(out, relation_text(relation))?;
    append_sum(alloc, out, right, names)
}

/// The text of a condition is added, without brackets round the whole. Where memory runs out, a prefix of it may have been added.
#[cycle(conditions)]
pub fn append_condition(
    alloc: Global,
    out: &mut Vec<u8>,
    written: &Cond,
    names: &Names,
) -> Result<(), AllocError>
    ensures { OnOk result (out.new.items ≡ out.old.items ++ condition_text names.now (condition written.now)) }
{
    match written {
        Cond::Truth(holds) => append_text(out, truth_text(*holds)),
        Cond::Compare(relation, left, right) => {
            append_comparison(alloc, out, *relation, left, right, names)
        }
        Cond::Not(inner) => {
            append_text(out, b"!")?;
            append_in_brackets(alloc, out, !is_bare_behind_not(inner), inner, names)
        }
        Cond::And(parts) => append_all(alloc, out, parts, names),
        Cond::Or(parts) => append_some(alloc, out, parts, names),
    }
}

/// The same, in brackets or not.
#[cycle(conditions)]
fn append_in_brackets(
    alloc: Global,
    out: &mut Vec<u8>,
    has_brackets: bool,
    written: &Cond,
    names: &Names,
) -> Result<(), AllocError>
    ensures { OnOk result (out.new.items ≡ out.old.items ++ in_brackets has_brackets (condition_text names.now (condition written.now))) }
{
    if !has_brackets {
        return append_condition(alloc, out, written, names);
    }
    append_text(out, b"(")?;
    append_condition(alloc, out, written, names)?;
    append_text(out, b")")
}

#[cycle(conditions)]
fn append_literal(
    alloc: Global,
    out: &mut Vec<u8>,
    part: &Cond,
    names: &Names,
) -> Result<(), AllocError>
    ensures { let c = condition part.now in
        OnOk result (out.new.items ≡ out.old.items ++ as_literal c (condition_text names.now c)) }
{
    append_in_brackets(alloc, out, is_all(part) || is_some(part), part, names)
}

#[cycle(conditions)]
fn append_all(
    alloc: Global,
    out: &mut Vec<u8>,
    parts: &[Cond],
    names: &Names,
) -> Result<(), AllocError>
    ensures { OnOk result (out.new.items ≡ out.old.items ++ all_text names.now (conditions parts.now)) }
{
    match parts {
        [] => Ok(()),
        [first, others @ ..] => {
            append_literal(alloc, out, first, names)?;
            for part in others {
                append_text(out, b" && ")?;
                append_literal(alloc, out, part, names)?;
            }
            Ok(())
        }
    }
}

#[cycle(conditions)]
fn append_conjunction(
    alloc: Global,
    out: &mut Vec<u8>,
    part: &Cond,
    names: &Names,
) -> Result<(), AllocError>
    ensures { let c = condition part.now in
        OnOk result (out.new.items ≡ out.old.items ++ as_conjunction c (condition_text names.now c)) }
{
    append_in_brackets(alloc, out, is_some(part), part, names)
}

#[cycle(conditions)]
fn append_some(
    alloc: Global,
    out: &mut Vec<u8>,
    parts: &[Cond],
    names: &Names,
) -> Result<(), AllocError>
    ensures { OnOk result (out.new.items ≡ out.old.items ++ some_text names.now (conditions parts.now)) }
{
    match parts {
        [] => Ok(()),
        [first, others @ ..] => {
            append_conjunction(alloc, out, first, names)?;
            for part in others {
                append_text(out, b" || ")?;
                append_conjunction(alloc, out, part, names)?;
            }
            Ok(())
        }
    }
}

/// The text of a condition, without brackets round the whole.
pub fn write_condition(alloc: Global, written: &Cond, names: &Names) -> Result<Vec<u8>, AllocError>
    requires named { IsTrue (test_is_named (length names.now) (condition written.now)) }
    requires shallow { condition_depth (condition written.now) ≤ 400 }
    ensures spelled { IfOk result (λ text. text.items ≡ condition_text names.now (condition written.now)) }
    // Where some text stands for the condition, this one does.
    ensures again { IfOk result (λ text. IsConditionAgain names.now (condition written.now) text.items) }
    // What a reading with these names found is found again, with the end of the text after it.
    ensures read { IfOk result (λ text. IsConditionReadAgain names.now (condition written.now) text.items) }
{
    let mut text = Vec::new(alloc);
    append_condition(alloc, &mut text, written, names)?;
    Ok(text)
}
