ghost use Rattle.std.specs.Prelude.{◌≡◌, ◌+◌, ◌-◌, ◌^◌, ◌<◌, ◌≤◌, ◌≢◌, ℕ, Err, List, length, IfOk, IsTrue, cond, true, false};
ghost use Rattle.tv_language.specs.Tokens.{IsTokens};
ghost use Rattle.tv_program.specs.Trees.{Expression, Condition};
ghost use Rattle.tv_program.specs.Views.{expression, condition};
ghost use Rattle.tv_program.specs.Limits.{expression_fits, expression_depth, condition_fits, condition_depth};
ghost use Rattle.tv_language.specs.Sums.{IsSum};
ghost use Rattle.tv_language.specs.Conditions.{IsCondition};
ghost use Rattle.tv_reading.specs.Marks.{Mark, left, Passes};
ghost use Rattle.tv_reading.specs.SumGrammar.{every, sum_at};
ghost use Rattle.tv_reading.specs.ConditionGrammar.{condition_at};
ghost use Rattle.tv_reading.specs.Refusals.{Refuses};
ghost use Rattle.tv_reading.specs.Texts.{IsLongest};
ghost use Rattle.tv_reading.specs.Readings.{begun, moved, taken, at_edge, token_at, sum_levels, condition_levels, IsTold, IsRead, IsPlaced, IsKept, IsGiven, OnRefusal, one_name};
ghost use Rattle.tv_reading.specs.Views.{stand, Keeps};
ghost use Rattle.tv_reading.specs.Answers as answers;

use crate::conditions::condition;
use crate::cursor::{Cursor, current, pass, peek};
use crate::fault::PartFault;
use crate::marks::{MOST_LEVELS, Part};
use crate::reason::Reason;
use crate::source::Source;
use crate::sums::sum;
use std::alloc::Global;
use std::marker::Model;
use tv_language::{Recent, Token, TokenKind};
use tv_program::{Cond, Expr, Names};

/// What reads parts of a text from its tokens, and numbers the names and draws that it comes by.
#[derive(Drop)]
pub struct Reading<'a> {
    source: Source<'a>,
    cursor: Cursor,
}

impl<'a> Model for Reading<'a> {
    ghost use Rattle.tv_reading.specs.Marks.{Stand};
    ghost use Rattle.tv_reading.specs.Views.{stand};

    ghost Value = { Stand };

    ghost view = { λ r. stand r.source r.cursor };
}

/// How many levels a sum may open.
#[inline(always)]
fn sum_levels(level: u32) -> u32
    ensures { result ≡ 64 - level }
{
    MOST_LEVELS.saturating_sub(level)
}

/// How many levels a condition may open: one less where names are added, since it then stands in the bracket of an assumption.
fn condition_levels(grows: bool, level: u32) -> u32
    ensures { result ≡ cond grows 63 (64 - level) }
{
    if grows {
        MOST_LEVELS - 1
    } else {
        MOST_LEVELS.saturating_sub(level)
    }
}

/// One name, by its number.
fn name(source: &Source, cursor: &mut Cursor) -> Result<u32, Reason>
    ensures reads { answers.Gives (λ v. v) result (left (stand source.now cursor.new)) (one_name.read (left (stand source.now cursor.old))) }
    ensures passed { Keeps source.now cursor.old cursor.new }
{
    match peek(source, cursor) {
        Some(Part::Variable(number)) => {
            pass(source, cursor)?;
            Ok(number)
        }
        Some(Part::NameTooMany) => Err(Reason::TooMany),
        Some(Part::UnknownName) => Err(Reason::UnknownName),
        _ => Err(Reason::Syntax),
    }
}

/// The fault for a reason, at this place.
fn fault_at(reason: Reason, at: u32) -> PartFault
    requires { reason ≢ Reason.TwoStarts }
    ensures { IsTold reason result at }
{
    match reason {
        Reason::Syntax => PartFault::Syntax { at },
        Reason::Wide => PartFault::Wide { at },
        Reason::Deep => PartFault::Deep { at },
        Reason::NotLinear => PartFault::NotLinear { at },
        Reason::TwoStarts => unreachable!(),
        Reason::TooMany => PartFault::TooMany { at },
        Reason::UnknownName => PartFault::UnknownName { at },
        Reason::Memory => PartFault::Memory,
    }
}

impl<'a> Reading<'a> {
    /// A reading at the front of a text, given its tokens by `tv_language::scan`.
    ///
    /// Where `grows` is true, a name that is not known is added, up to 512 of them, and there may be draws. Else no name is added,
    /// `nondet` stands in no text, and `at` and `term` are no names.
    pub fn new(
        alloc: Global,
        text: &'a [u8],
        list: &'a [Token],
        names: Names,
        grows: bool,
    ) -> Reading<'a>
        requires short { length text.now + 1 < 2 ^ 32 }
        requires scanned { IsTokens 0 text.now list.now }
        requires bounded { length names ≤ 512 }
        ensures { result ≡ begun text.now list.now names grows }
    {
        Reading {
            source: Source {
                text,
                list,
                grows,
                level: 0,
                alloc,
            },
            cursor: Cursor {
                at: 0,
                names,
                draws: 0,
                recent: Recent { last: 0, before: 1 },
            },
        }
    }

    /// The next token.
    #[inline(always)]
    pub fn peek(&self) -> Token
        ensures { result ≡ token_at self.now }
    {
        current(self.source.list, self.cursor.at).unwrap_or(Token {
            at: 0,
            len: 0,
            kind: TokenKind::End,
        })
    }

    /// Takes one token; the last one stays. A name that is taken is not added.
    #[inline(always)]
    pub fn take(&mut self)
        ensures { self.new ≡ taken self.old }
    {
        if (self.cursor.at as usize) < self.source.list.len().saturating_sub(1) {
            self.cursor.at += 1;
        }
    }

    /// How many tokens are taken.
    #[inline(always)]
    pub fn place(&self) -> u32
        ensures { result ≡ self.now.at }
    {
        self.cursor.at
    }

    /// The names that are known.
    #[inline(always)]
    pub fn names(&self) -> &Names
        ensures { result.now ≡ self.now.names }
    {
        &self.cursor.names
    }

    /// How many draws were come by since the edge began.
    #[inline(always)]
    pub fn draws(&self) -> u32
        ensures { result ≡ self.now.draws }
    {
        self.cursor.draws
    }

    /// Goes to the place after `place` tokens, and counts brackets from `level` on.
    pub fn go(&mut self, place: u32, level: u32)
        requires fixed { self.old.grows ≡ false }
        requires within { place < length self.old.tokens }
        requires bounded { level ≤ 64 }
        ensures { self.new ≡ moved self.old place level }
    {
        self.cursor.at = place;
        self.source.level = level;
    }

    /// Begins an edge, whose draws are counted from 0.
    #[inline(always)]
    pub fn edge(&mut self)
        ensures { self.new ≡ at_edge self.old }
    {
        self.cursor.draws = 0;
    }

    /// The names, with those that were added.
    pub fn finish(self) -> Names
        ensures { result ≡ self.entry.names }
    {
        self.cursor.names
    }

    fn fault(&self, reason: Reason) -> PartFault
        requires { reason ≢ Reason.TwoStarts }
        ensures { IsTold reason result (token_at self.now).at }
    {
        fault_at(reason, self.peek().at)
    }

    fn read_name(&mut self) -> Result<u32, PartFault>
        ensures reads { IsRead (λ v. v) result self.new (one_name.read (left self.old)) }
        ensures passed { Passes self.old self.new }
    {
        match name(&self.source, &mut self.cursor) {
            Ok(number) => Ok(number),
            Err(reason) => Err(self.fault(reason)),
        }
    }

    /// The number of one name.
    pub fn variable(&mut self) -> Result<u32, PartFault>
        ensures reads { IsRead (λ v. v) result self.new (one_name.read (left self.old)) }
        ensures passed { Passes self.old self.new }
        ensures kept { IsKept self.old self.new }
        ensures fits { IfOk result (λ v. v < length self.new.names) }
        // Where no name is added, none is too many.
        ensures room { self.old.grows ≡ false → (at : ℕ) → result ≢ Err (PartFault.TooMany at) }
    {
        self.read_name()
    }

    #[inline(always)]
    fn read_sum(&mut self) -> Result<Expr, PartFault>
        ensures reads { IsRead expression result self.new ((sum_at every (sum_levels self.old) true).read (left self.old)) }
        ensures passed { Passes self.old self.new }
    {
        let levels = sum_levels(self.source.level);
        match sum(&self.source, &mut self.cursor, levels, true) {
            Ok(made) => Ok(made.expr),
            Err(reason) => Err(self.fault(reason)),
        }
    }

    fn read_condition(&mut self) -> Result<Cond, PartFault>
        ensures reads { IsRead condition result self.new ((condition_at every (condition_levels self.old)).read (left self.old)) }
        ensures passed { Passes self.old self.new }
    {
        let levels = condition_levels(self.source.grows, self.source.level);
        match condition(&self.source, &mut self.cursor, levels) {
            Ok(cond) => Ok(cond),
            Err(reason) => Err(self.fault(reason)),
        }
    }

    /// The longest front that is a sum: it is read on as long as its next token can go on.
    ///
    /// The time is linear in the tokens that are passed.
    #[inline(always)]
    pub fn sum(&mut self) -> Result<Expr, PartFault>
        // What is passed is a sum, and none begins with it and the next token.
        ensures found { IfOk result (λ e. IsLongest (IsSum (sum_levels self.old)) (expression e) (left self.old) (left self.new)) }
        // Such a sum is read.
        ensures only { (e : Expression) (rest : List Mark) → IsLongest (IsSum (sum_levels self.old)) e (left self.old) rest →
            IsGiven result (λ f. (expression f ≡ e) × (left self.new ≡ rest)) }
        // Else the first token at fault is reported, with the first kind of fault that it is.
        ensures refused { OnRefusal result (λ k. Refuses (λ kept n. sum_at kept n true) (sum_levels self.old) k (left self.old) (left self.new)) }
        ensures placed { IsPlaced result self.new }
        ensures passed { Passes self.old self.new }
        ensures kept { IsKept self.old self.new }
        ensures fits { IfOk result (λ e. IsTrue (expression_fits (length self.new.names) self.new.draws (expression e))) }
        ensures shallow { IfOk result (λ e. expression_depth (expression e) ≤ 400) }
        // Where no name is added, none is too many, and no draw.
        ensures room { self.old.grows ≡ false → (at : ℕ) → result ≢ Err (PartFault.TooMany at) }
        // The same by the grammar of sums, for grammars that it stands in.
        ensures reads { IsRead expression result self.new ((sum_at every (sum_levels self.old) true).read (left self.old)) }
    {
        self.read_sum()
    }

    /// The longest front that is a condition, likewise.
    pub fn condition(&mut self) -> Result<Cond, PartFault>
        ensures found { IfOk result (λ c. IsLongest (IsCondition (condition_levels self.old)) (condition c) (left self.old) (left self.new)) }
        ensures only { (c : Condition) (rest : List Mark) → IsLongest (IsCondition (condition_levels self.old)) c (left self.old) rest →
            IsGiven result (λ d. (condition d ≡ c) × (left self.new ≡ rest)) }
        ensures refused { OnRefusal result (λ k. Refuses condition_at (condition_levels self.old) k (left self.old) (left self.new)) }
        ensures placed { IsPlaced result self.new }
        ensures passed { Passes self.old self.new }
        ensures kept { IsKept self.old self.new }
        ensures fits { IfOk result (λ c. IsTrue (condition_fits (length self.new.names) self.new.draws (condition c))) }
        ensures shallow { IfOk result (λ c. condition_depth (condition c) ≤ 400) }
        // Where no name is added, none is too many, and no draw.
        ensures room { self.old.grows ≡ false → (at : ℕ) → result ≢ Err (PartFault.TooMany at) }
        ensures reads { IsRead condition result self.new ((condition_at every (condition_levels self.old)).read (left self.old)) }
    {
        self.read_condition()
    }
}
