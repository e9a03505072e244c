ghost use Rattle.std.specs.Prelude.{◌≡◌, ◌≤◌, ◌<◌, ◌+◌, ◌∷◌, ℕ, List, length, true, false, IfOk, OnOk, MatchResult, IsTrue};
ghost use Rattle.tv_program.specs.Views.{expression, condition};
ghost use Rattle.tv_program.specs.Limits.{expression_fits, expression_depth, condition_fits, condition_depth};
ghost use Rattle.tv_language.specs.Symbols.{is_colon, fixed, name};
ghost use Rattle.tv_language.specs.Programs.{draws_in, draws_tested};
ghost use Rattle.tv_grammar.specs.Reads.{next};
ghost use Rattle.tv_grammar.specs.Langs.{headed};
ghost use Rattle.tv_language.specs.declared.token.TokenKind.TheVariants as kinds;
ghost use Rattle.tv_reading.specs.Marks as marks;
ghost use Rattle.tv_reading.specs.Marks.{plain};
ghost use Rattle.tv_reading.specs.SumGrammar.{every, sum_at};
ghost use Rattle.tv_reading.specs.ConditionGrammar.{condition_at};
ghost use Rattle.tv_reading.specs.Views.{kind_at};
ghost use Rattle.tv_reader.specs.ProgramGrammar as grammar;
ghost use Rattle.tv_reading.specs.Answers.{Gives};
ghost use Rattle.tv_reader.specs.Readers.{left, next_kind, next_mark, IsKept, Keeps, Settled, IsSteady, is_passing, is_fixed};
ghost use Rattle.tv_reading.specs.declared.reason.Reason.TheVariants as reasons;

use std::alloc::Global;
use tv_language::{TokenKind, is_colon, word_of};
use tv_program::{Cond, Expr, Names};
use tv_reading::{Reading, Reason};

/// What reads a program from its tokens. The names of its variables are in the reading, and the labels beside it.
#[derive(Drop)]
pub struct Reader<'a> {
    pub alloc: Global,
    pub text: &'a [u8],
    pub labels: Names,
    pub reading: Reading<'a>,
    /// The next token comes right after a colon.
    pub behind_colon: bool,
}

impl<'a> Reader<'a> {
    /// What the next token is.
    #[inline(always)]
    pub fn kind(&self) -> TokenKind
        ensures { result ≡ next_kind self.now }
    {
        self.reading.peek().kind
    }

    /// Takes the next token.
    #[inline(always)]
    pub fn advance(&mut self)
        requires steady { IsSteady self.old }
        requires passing { is_passing (next_kind self.old) ≡ true }
        ensures steady { IsSteady self.new }
        ensures kept { IsKept self.old self.new }
        ensures taken { left self.old ≡ next_mark self.old ∷ left self.new }
        ensures colon { self.new.behind_colon ≡ is_colon (next_kind self.old) }
        ensures draws { self.new.reading.draws ≡ self.old.reading.draws }
    {
        self.behind_colon = is_colon(self.reading.peek().kind);
        self.reading.take();
    }

    /// Takes the `FROM` of an edge, whose draws are counted from 0.
    pub fn begin_edge(&mut self)
        requires steady { IsSteady self.old }
        requires from { next_kind self.old ≡ kinds.From }
        ensures steady { IsSteady self.new }
        ensures kept { IsKept self.old self.new }
        ensures taken { left self.old ≡ plain (fixed kinds.From) ∷ left self.new }
        ensures colon { self.new.behind_colon ≡ false }
        ensures draws { self.new.reading.draws ≡ 0 }
    {
        self.behind_colon = false;
        self.reading.take();
        self.reading.edge();
    }

    /// Takes a token of this kind.
    #[inline(always)]
    pub fn expect(&mut self, kind: TokenKind) -> Result<(), Reason>
        requires steady { IsSteady self.old }
        requires constant { is_fixed kind ≡ true }
        ensures steady { IsSteady self.new }
        ensures kept { IsKept self.old self.new }
        ensures taken { let before = left self.old in let after = left self.new in
            MatchResult result (λ _. before ≡ plain (fixed kind) ∷ after)
            (λ e. (e ≡ reasons.Syntax) × (after ≡ before) × (kind_at (next before) ≡ kind → ⊥)) }
        ensures colon { MatchResult result (λ _. self.new.behind_colon ≡ is_colon kind) (λ _. self.new.behind_colon ≡ self.old.behind_colon) }
        ensures draws { self.new.reading.draws ≡ self.old.reading.draws }
    {
        if self.kind() != kind {
            return Err(Reason::Syntax);
        }
        self.advance();
        Ok(())
    }

    /// A label, by its number.
    fn label(&mut self) -> Result<u32, Reason>
        requires steady { IsSteady self.old }
        requires behind { self.old.behind_colon ≡ true }
        ensures steady { IsSteady self.new }
        ensures kept { IsKept self.old self.new }
        ensures reads { Gives (λ l. l) result (left self.new) ((headed marks.Syntax (grammar.label_cases every)).read (left self.old)) }
        ensures colon { OnOk result (self.new.behind_colon ≡ false) }
        ensures draws { self.new.reading.draws ≡ self.old.reading.draws }
        ensures within { IfOk result (λ l. l < length self.new.labels) }
    {
        let token = self.reading.peek();
        match token.kind {
            TokenKind::Name | TokenKind::Number => {
                match self.labels.find(word_of(self.text, token)) {
                    Some(number) => {
                        self.advance();
                        Ok(number)
                    }
                    None => Err(Reason::TooMany),
                }
            }
            TokenKind::Wide => Err(Reason::Wide),
            _ => Err(Reason::Syntax),
        }
    }

    /// `: label ;`
    pub fn place(&mut self) -> Result<u32, Reason>
        requires steady { IsSteady self.old }
        ensures steady { IsSteady self.new }
        ensures kept { IsKept self.old self.new }
        ensures reads { Gives (λ l. l) result (left self.new) ((grammar.place every).read (left self.old)) }
        ensures colon { OnOk result (self.new.behind_colon ≡ false) }
        ensures draws { self.new.reading.draws ≡ self.old.reading.draws }
        ensures within { IfOk result (λ l. l < length self.new.labels) }
    {
        self.expect(TokenKind::Colon)?;
        let number = self.label()?;
        self.expect(TokenKind::Semicolon)?;
        Ok(number)
    }

    /// A sum.
    #[inline(always)]
    pub fn sum(&mut self) -> Result<Expr, Reason>
        requires steady { IsSteady self.old }
        requires behind { self.old.behind_colon ≡ false }
        ensures steady { Settled result (IsSteady self.new) }
        ensures kept { Keeps result self.old self.new }
        ensures reads { Gives expression result (left self.new) ((sum_at every 64 true).read (left self.old)) }
        ensures colon { self.new.behind_colon ≡ false }
        ensures draws { IfOk result (λ e. self.new.reading.draws ≡ self.old.reading.draws + draws_in (expression e)) }
        ensures fits { IfOk result (λ e. IsTrue (expression_fits (length self.new.reading.names) self.new.reading.draws (expression e))) }
        ensures shallow { IfOk result (λ e. expression_depth (expression e) ≤ 400) }
    {
        Ok(self.reading.sum()?)
    }

    /// A condition inside an assumption.
    pub fn condition(&mut self) -> Result<Cond, Reason>
        requires steady { IsSteady self.old }
        requires behind { self.old.behind_colon ≡ false }
        ensures steady { Settled result (IsSteady self.new) }
        ensures kept { Keeps result self.old self.new }
        ensures reads { Gives condition result (left self.new) ((condition_at every 63).read (left self.old)) }
        ensures colon { self.new.behind_colon ≡ false }
        ensures draws { IfOk result (λ c. self.new.reading.draws ≡ self.old.reading.draws + draws_tested (condition c)) }
        ensures fits { IfOk result (λ c. IsTrue (condition_fits (length self.new.reading.names) self.new.reading.draws (condition c))) }
        ensures shallow { IfOk result (λ c. condition_depth (condition c) ≤ 400) }
    {
        Ok(self.reading.condition()?)
    }
}
