ghost use Rattle.std.specs.Prelude.{◌≡◌, ◌++◌, ◌||◌, [], true, false, IfOk, OnOk, codes, slice_index_or};
ghost use Rattle.tv_program.specs.Programs.{system_of};
ghost use Rattle.tv_program.specs.Views.{expression};
ghost use Rattle.tv_formula.specs.Formulas.{property_of};
ghost use Rattle.tv_formula.specs.Properties.{compare, truth};
ghost use Rattle.tv_formula.specs.Views.{property, properties};
ghost use Rattle.tv_spelling.specs.Sums.{in_brackets};
ghost use Rattle.tv_formula_spelling.specs.Formulas.{path_letter, shape_letter, operator_text, is_joined, is_all, is_some, as_denied, as_literal, as_conjunction, is_truth, form_of, formula_text, all_text, some_text, text_of, IsFormulaAgain};

use std::alloc::{AllocError, Global};
use tv_formula::{Formula, Path, Shape, Tree};
use tv_program::{Expr, Names, Program, Relation};
use tv_spelling::{append_name, append_sum, append_text, relation_text, truth_text};

/// The words of the variables and the labels of the locations.
#[derive(Drop)]
struct Words<'a> {
    variables: &'a Names,
    labels: &'a Names,
    alloc: Global,
}

fn path_letter(path: Path) -> u8
    ensures { result ≡ path_letter path }
{
    match path {
        Path::Every => b'A',
        Path::Any => b'E',
    }
}

fn shape_letter(shape: Shape) -> u8
    ensures { result ≡ shape_letter shape }
{
    match shape {
        Shape::Until => b'U',
        Shape::Weak => b'W',
        Shape::Release => b'R',
        Shape::Strong => b'M',
    }
}

fn append_operator(out: &mut Vec<u8>, path: Path, letter: u8) -> Result<(), AllocError>
    ensures { OnOk result (out.new.items ≡ out.old.items ++ operator_text path letter) }
{
    append_text(out, &[b'[', path_letter(path), letter, b']'])
}

/// The label of a location is added; one that has none is ignored.
fn append_place(out: &mut Vec<u8>, labels: &Names, location: u32) -> Result<(), AllocError>
    ensures { OnOk result (out.new.items ≡ out.old.items ++ (codes "at(" ++ (slice_index_or labels.now location [] ++ codes ")"))) }
{
    append_text(out, b"at(")?;
    append_name(out, labels, location)?;
    append_text(out, b")")
}

/// Whether the formula stands in brackets after `!`.
fn is_joined(tree: &Tree) -> bool
    ensures { result ≡ is_joined (property tree.now) }
{
    matches!(tree, Tree::Compare(_, _, _) | Tree::And(_) | Tree::Or(_))
}

fn is_all(tree: &Tree) -> bool
    ensures { result ≡ is_all (property tree.now) }
{
    matches!(tree, Tree::And(_))
}

fn is_some(tree: &Tree) -> bool
    ensures { result ≡ is_some (property tree.now) }
{
    matches!(tree, Tree::Or(_))
}

/// How a fixpoint is written: by an operator of one argument where it has its form.
#[derive(Clone, Copy)]
enum Form {
    Finally,
    Globally,
    Both,
}

fn is_truth(tree: &Tree, truth: bool) -> bool
    ensures { result ≡ is_truth (property tree.now) truth }
{
    match tree {
        Tree::Truth(holds) => *holds == truth,
        _ => false,
    }
}

fn form_of(shape: Shape, first: &Tree, second: &Tree) -> Form
    ensures { result ≡ form_of shape (property first.now) (property second.now) }
{
    match shape {
        Shape::Until if is_truth(first, true) => Form::Finally,
        Shape::Weak if is_truth(second, false) => Form::Globally,
        _ => Form::Both,
    }
}

fn append_comparison(
    words: &Words,
    out: &mut Vec<u8>,
    relation: Relation,
    left: &Expr,
    right: &Expr,
) -> Result<(), AllocError>
    ensures { let f = compare relation (expression left.now) (expression right.now) in
        OnOk result (out.new.items ≡ out.old.items ++ formula_text words.now.variables.now words.now.labels.now f) }
{
    append_sum(words.alloc, out, left, words.variables)?;
    append_text(out, relation_text(relation))?;
    append_sum(words.alloc, out, right, words.variables)
}

/// The text of a formula is added, without brackets round the whole. Where memory runs out, a prefix of it may have been added.
#[cycle(formulas)]
fn append_formula(words: &Words, out: &mut Vec<u8>, tree: &Tree) -> Result<(), AllocError>
    ensures { OnOk result (out.new.items ≡ out.old.items ++ formula_text words.now.variables.now words.now.labels.now (property tree.now)) }
{
    match tree {
        Tree::Truth(holds) => append_text(out, truth_text(*holds)),
        Tree::Compare(relation, left, right) => {
            append_comparison(words, out, *relation, left, right)
        }
        Tree::At(location) => append_place(out, words.labels, *location),
        Tree::Term => append_text(out, b"term"),
        Tree::Not(inner) => {
            append_text(out, b"!")?;
            append_in_brackets(words, out, is_joined(inner), inner)
        }
        Tree::And(parts) => append_all(words, out, parts),
        Tree::Or(parts) => append_some(words, out, parts),
        Tree::Next(path, inner) => {
            append_operator(out, *path, b'X')?;
            append_in_brackets(words, out, true, inner)
        }
        Tree::Fix(path, shape, first, second) => match form_of(*shape, first, second) {
            Form::Finally => {
                append_operator(out, *path, b'F')?;
                append_in_brackets(words, out, true, second)
            }
            Form::Globally => {
                append_operator(out, *path, b'G')?;
                append_in_brackets(words, out, true, first)
            }
            Form::Both => {
                append_operator(out, *path, shape_letter(*shape))?;
                append_in_brackets(words, out, true, first)?;
                append_in_brackets(words, out, true, second)
            }
        },
    }
}

/// The same, in brackets or not.
#[cycle(formulas)]
fn append_in_brackets(
    words: &Words,
    out: &mut Vec<u8>,
    has_brackets: bool,
    tree: &Tree,
) -> Result<(), AllocError>
    ensures { let text = formula_text words.now.variables.now words.now.labels.now (property tree.now) in
        OnOk result (out.new.items ≡ out.old.items ++ in_brackets has_brackets text) }
{
    if !has_brackets {
        return append_formula(words, out, tree);
    }
    append_text(out, b"(")?;
    append_formula(words, out, tree)?;
    append_text(out, b")")
}

#[cycle(formulas)]
fn append_literal(words: &Words, out: &mut Vec<u8>, part: &Tree) -> Result<(), AllocError>
    ensures { let f = property part.now in
        OnOk result (out.new.items ≡ out.old.items ++ as_literal f (formula_text words.now.variables.now words.now.labels.now f)) }
{
    append_in_brackets(words, out, is_all(part) || is_some(part), part)
}

#[cycle(formulas)]
fn append_all(words: &Words, out: &mut Vec<u8>, parts: &[Tree]) -> Result<(), AllocError>
    ensures { OnOk result (out.new.items ≡ out.old.items ++ all_text words.now.variables.now words.now.labels.now (properties parts.now)) }
{
    match parts {
        [] => Ok(()),
        [first, others @ ..] => {
            append_literal(words, out, first)?;
            for part in others {
                append_text(out, b" && ")?;
                append_literal(words, out, part)?;
            }
            Ok(())
        }
    }
}

#[cycle(formulas)]
fn append_conjunction(words: &Words, out: &mut Vec<u8>, part: &Tree) -> Result<(), AllocError>
    ensures { let f = property part.now in
        OnOk result (out.new.items ≡ out.old.items ++ as_conjunction f (formula_text words.now.variables.now words.now.labels.now f)) }
{
    append_in_brackets(words, out, is_some(part), part)
}

#[cycle(formulas)]
fn append_some(words: &Words, out: &mut Vec<u8>, parts: &[Tree]) -> Result<(), AllocError>
    ensures { OnOk result (out.new.items ≡ out.old.items ++ some_text words.now.variables.now words.now.labels.now (properties parts.now)) }
{
    match parts {
        [] => Ok(()),
        [first, others @ ..] => {
            append_conjunction(words, out, first)?;
            for part in others {
                append_text(out, b" || ")?;
                append_conjunction(words, out, part)?;
            }
            Ok(())
        }
    }
}

/// The text of a formula over the words of a program, without brackets round the whole.
pub fn write_formula(
    alloc: Global,
    formula: &Formula,
    program: &Program,
) -> Result<Vec<u8>, AllocError>
    ensures spelled { IfOk result (λ text. text.items ≡ text_of (system_of program.now) (property_of formula.now)) }
    // Where some text is one of the formula, this one is.
    ensures again { IfOk result (λ text. IsFormulaAgain (system_of program.now) (property_of formula.now) text.items) }
{
    let words = Words {
        variables: program.variables(),
        labels: program.locations(),
        alloc,
    };
    let mut text = Vec::new(alloc);
    append_formula(&words, &mut text, formula.tree())?;
    Ok(text)
}
