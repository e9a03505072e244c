ghost use Rattle.std.specs.Prelude.{◌≡◌, Some, false, drop};
ghost use Rattle.tv_grammar.specs.Langs.{unit};
ghost use Rattle.tv_grammar.specs.Reads.{next};
ghost use Rattle.tv_language.specs.Symbols.{lexeme};
ghost use Rattle.tv_formula.specs.Views.{property};
ghost use Rattle.tv_reading.specs.Marks.{first};
ghost use Rattle.tv_reading.specs.SumGrammar.{every};
ghost use Rattle.tv_reading.specs.Views.{is_last};
ghost use Rattle.tv_reading.specs.Answers.{Gives};
ghost use Rattle.tv_formula_reader.specs.Answers.{left, IsOver, Stays, nothing, the_nothing, kind_seen, word_seen, IsLabelOf, Ends};
ghost use Rattle.tv_formula_reader.specs.Seen.{label_by};
ghost use Rattle.tv_formula_reader.specs.Signs.{word_in};
ghost use Rattle.tv_formula_reader.specs.Operators.{operator_of};
ghost use Rattle.tv_formula_reader.specs.FormulaGrammar.{opened, closed, behind_square, at_end, labelled, place, leaves, operator_word};

use crate::operators::{Operator, operator_of};
use crate::source::{Source, next_kind, next_token, pass, pass_kind};
use tv_formula::Tree;
use tv_language::{Token, TokenKind, is_word, word_of};
use tv_reading::{Reading, Reason, is_formula_word};

/// `(`.
pub fn open(source: &Source, reading: &mut Reading) -> Result<(), Reason>
    requires over { IsOver source.now reading.old }
    ensures reads { Gives nothing result (left source.now reading.new) ((opened (unit the_nothing)).read (left source.now reading.old)) }
    ensures stays { Stays source.now reading.old reading.new }
{
    match next_kind(source, reading) {
        TokenKind::LeftRound => {
            pass_kind(source, reading);
            Ok(())
        }
        _ => Err(Reason::Syntax),
    }
}

/// `)` after what is read.
pub fn close(source: &Source, reading: &mut Reading, tree: Tree) -> Result<Tree, Reason>
    requires over { IsOver source.now reading.old }
    ensures reads { Gives property result (left source.now reading.new) ((closed (property tree)).read (left source.now reading.old)) }
    ensures stays { Stays source.now reading.old reading.new }
{
    match next_kind(source, reading) {
        TokenKind::RightRound => {
            pass_kind(source, reading);
            Ok(tree)
        }
        _ => Err(Reason::Syntax),
    }
}

/// `]`.
pub fn close_square(source: &Source, reading: &mut Reading) -> Result<(), Reason>
    requires over { IsOver source.now reading.old }
    ensures reads { Gives nothing result (left source.now reading.new) ((behind_square (unit the_nothing)).read (left source.now reading.old)) }
    ensures stays { Stays source.now reading.old reading.new }
{
    match next_kind(source, reading) {
        TokenKind::RightSquare => {
            pass_kind(source, reading);
            Ok(())
        }
        _ => Err(Reason::Syntax),
    }
}

/// Takes the next token, where it is a name or a number.
fn pass_word(source: &Source, reading: &mut Reading, token: Token)
    requires over { IsOver source.now reading.old }
    requires next { Some token ≡ first (drop reading.old.at source.now.list.now) }
    requires inner { is_last token.kind ≡ false }
    ensures rest { left source.now reading.new ≡ drop 1 (left source.now reading.old) }
    ensures stays { Stays source.now reading.old reading.new }
{
    pass(source, reading);
}

/// The location of a label.
fn label_of(source: &Source, token: Token) -> Result<u32, Reason>
    ensures { IsLabelOf result (label_by source.now.labels.now token.kind (lexeme source.now.text.now token).word) }
{
    match token.kind {
        TokenKind::Name => {
            let word = word_of(source.text, token);
            if is_formula_word(word) {
                return Err(Reason::Syntax);
            }
            source.labels.find(word).ok_or(Reason::UnknownName)
        }
        TokenKind::Number => source
            .labels
            .find(word_of(source.text, token))
            .ok_or(Reason::UnknownName),
        TokenKind::Wide => Err(Reason::Wide),
        _ => Err(Reason::Syntax),
    }
}

/// A label, and the `)` after it.
fn label(source: &Source, reading: &mut Reading) -> Result<Tree, Reason>
    requires over { IsOver source.now reading.old }
    ensures reads { Gives property result (left source.now reading.new) ((labelled every).read (left source.now reading.old)) }
    ensures stays { Stays source.now reading.old reading.new }
{
    match next_token(source, reading) {
        Some(token) => {
            let location = label_of(source, token)?;
            pass_word(source, reading, token);
            close(source, reading, Tree::At(location))
        }
        None => Err(Reason::Syntax),
    }
}

/// What follows `at`.
pub fn place(source: &Source, reading: &mut Reading) -> Result<Tree, Reason>
    requires over { IsOver source.now reading.old }
    ensures reads { Gives property result (left source.now reading.new) ((place every).read (left source.now reading.old)) }
    ensures stays { Stays source.now reading.old reading.new }
{
    open(source, reading)?;
    label(source, reading)
}

/// The operator after a `[`.
pub fn operator(source: &Source, reading: &mut Reading) -> Result<Operator, Reason>
    requires over { IsOver source.now reading.old }
    ensures reads { Gives (λ o. o) result (left source.now reading.new) (operator_word.read (left source.now reading.old)) }
    ensures stays { Stays source.now reading.old reading.new }
{
    match next_token(source, reading) {
        Some(token) => match operator_at(source, token) {
            Some(operator) => {
                pass_word(source, reading, token);
                Ok(operator)
            }
            None => Err(Reason::Syntax),
        },
        None => Err(Reason::Syntax),
    }
}

/// The operator that a token is, if it is one.
fn operator_at(source: &Source, token: Token) -> Option<Operator>
    ensures { result ≡ operator_of (word_in token.kind (lexeme source.now.text.now token).word) }
{
    match token.kind {
        TokenKind::Name => operator_of(word_of(source.text, token)),
        _ => None,
    }
}

/// The end of the text after a formula.
pub fn end(source: &Source, reading: &mut Reading, tree: Tree) -> Result<Tree, Reason>
    requires over { IsOver source.now reading.old }
    ensures same { reading.new ≡ reading.old }
    ensures reads { Ends property result (left source.now reading.old) ((at_end (property tree)).read (left source.now reading.old)) }
{
    match next_kind(source, reading) {
        TokenKind::End => Ok(tree),
        _ => Err(Reason::Syntax),
    }
}

/// The bytes of the next token, if it is a name.
fn next_word<'a>(source: &Source<'a>, reading: &Reading) -> &'a [u8]
    requires over { IsOver source.now reading.now }
    ensures { result.now ≡ word_seen (next (left source.now reading.now)) }
{
    match next_token(source, reading) {
        Some(token) => match token.kind {
            TokenKind::Name => word_of(source.text, token),
            _ => b"",
        },
        None => b"",
    }
}

/// `at` with its label, and `term`.
fn worded(source: &Source, reading: &mut Reading) -> Result<Tree, Reason>
    requires over { IsOver source.now reading.old }
    requires name { TokenKind.Name ≡ kind_seen (next (left source.now reading.old)) }
    ensures reads { Gives property result (left source.now reading.new) ((leaves every).read (left source.now reading.old)) }
    ensures stays { Stays source.now reading.old reading.new }
{
    let word = next_word(source, reading);
    if is_word(word, b"at") {
        pass_kind(source, reading);
        return place(source, reading);
    }
    if is_word(word, b"term") {
        pass_kind(source, reading);
        return Ok(Tree::Term);
    }
    Err(Reason::Syntax)
}

/// A plain formula that opens no level.
pub fn leaf(source: &Source, reading: &mut Reading) -> Result<Tree, Reason>
    requires over { IsOver source.now reading.old }
    ensures reads { Gives property result (left source.now reading.new) ((leaves every).read (left source.now reading.old)) }
    ensures stays { Stays source.now reading.old reading.new }
{
    match next_kind(source, reading) {
        TokenKind::True => {
            pass_kind(source, reading);
            Ok(Tree::Truth(true))
        }
        TokenKind::False => {
            pass_kind(source, reading);
            Ok(Tree::Truth(false))
        }
        TokenKind::Name => worded(source, reading),
        _ => Err(Reason::Syntax),
    }
}
