ghost use Rattle.std.specs.Prelude.{◌≡◌, ◌≤◌, ◌<◌, ◌+◌, ◌∷◌, ◌++◌, [], ℕ, List, length, true, false, Some, None, IfOk, OnOk, MatchOption, IfSome, IsTrue, ◌⊎◌};
ghost use Rattle.tv_language.specs.declared.token.TokenKind.TheVariants as kinds;
ghost use Rattle.tv_program.specs.Trees.{Instruction, assign};
ghost use Rattle.tv_program.specs.Views.{instruction, transition};
ghost use Rattle.tv_program.specs.Limits.{instruction_fits, transition_fits};
ghost use Rattle.tv_program.specs.Words.{number_of};
ghost use Rattle.tv_language.specs.Symbols.{fixed, name};
ghost use Rattle.tv_language.specs.Programs.{draws_of, edge_of};
ghost use Rattle.tv_grammar.specs.Reads.{next};
ghost use Rattle.tv_grammar.specs.Langs.{headed, turns};
ghost use Rattle.tv_reading.specs.Marks as marks;
ghost use Rattle.tv_reading.specs.Marks.{plain, refused};
ghost use Rattle.tv_reading.specs.SumGrammar.{every};
ghost use Rattle.tv_reading.specs.Views.{kind_at};
ghost use Rattle.tv_reader.specs.ProgramGrammar as grammar;
ghost use Rattle.tv_reader.specs.ProgramGrammar.{Items};
ghost use Rattle.tv_reading.specs.Answers.{Gives, Turned};
ghost use Rattle.tv_reader.specs.Readers.{left, next_kind, IsKept, Keeps, Settled, IsSteady, turn_value, instructions, CommandsFit, edge_added};

use crate::reader::Reader;
use std::alloc::AllocFailed;
use tv_language::{TokenKind, word_of};
use tv_program::{Command, Edge};
use tv_reading::{Reason, Turn};

/// The list of commands has room for this many before it grows.
const ROOM: usize = 32;

#[inline(always)]
fn with_command(
    commands: Vec<Command>,
    command: Command,
) -> Result<Vec<Command>, AllocFailed<Command>>
    ensures { IfOk result (λ cs. instructions cs ≡ instructions commands ++ instruction command ∷ []) }
{
    let mut commands = commands;
    commands.push(command)?;
    Ok(commands)
}

/// The same edge, with no room for more commands.
#[inline(always)]
fn fitted(edge: Edge) -> Edge
    ensures { transition result ≡ transition edge }
{
    let mut edge = edge;
    edge.commands.shrink_to_fit();
    edge
}

impl Reader<'_> {
    /// `( condition ) ;`
    fn assumption(&mut self) -> Result<Command, Reason>
        requires steady { IsSteady self.old }
        requires behind { self.old.behind_colon ≡ false }
        ensures steady { Settled result (IsSteady self.new) }
        ensures kept { Keeps result self.old self.new }
        ensures reads { (cs : List Instruction) → let found = (grammar.assumption every 63 cs).read (left self.old) in
            Gives (λ c. cs ++ instruction c ∷ []) result (left self.new) found }
        ensures colon { OnOk result (self.new.behind_colon ≡ false) }
        ensures draws { IfOk result (λ c. self.new.reading.draws ≡ self.old.reading.draws + draws_of (instruction c)) }
        ensures fits { IfOk result (λ c. IsTrue (instruction_fits (length self.new.reading.names) self.new.reading.draws (instruction c))) }
    {
        self.expect(TokenKind::LeftRound)?;
        let cond = self.condition()?;
        self.expect(TokenKind::RightRound)?;
        self.expect(TokenKind::Semicolon)?;
        Ok(Command::Assume(cond))
    }

    /// `:= sum ;`
    #[inline(always)]
    fn assignment(&mut self, variable: u32) -> Result<Command, Reason>
        requires steady { IsSteady self.old }
        requires behind { self.old.behind_colon ≡ false }
        requires known { variable < length self.old.reading.names }
        ensures steady { Settled result (IsSteady self.new) }
        ensures kept { Keeps result self.old self.new }
        ensures reads { (cs : List Instruction) → let found = (grammar.assignment every 63 cs variable).read (left self.old) in
            Gives (λ c. cs ++ instruction c ∷ []) result (left self.new) found }
        ensures colon { OnOk result (self.new.behind_colon ≡ false) }
        ensures draws { IfOk result (λ c. self.new.reading.draws ≡ self.old.reading.draws + draws_of (instruction c)) }
        ensures fits { IfOk result (λ c. IsTrue (instruction_fits (length self.new.reading.names) self.new.reading.draws (instruction c))) }
    {
        self.expect(TokenKind::Assign)?;
        let value = self.sum()?;
        self.expect(TokenKind::Semicolon)?;
        Ok(Command::Assign(variable, value))
    }

    /// The number of the variable that the next token names, where it is one of those that have a number.
    #[inline(always)]
    fn variable(&self) -> Option<u32>
        requires steady { IsSteady self.now }
        requires behind { self.now.behind_colon ≡ false }
        requires named { next_kind self.now ≡ kinds.Name }
        ensures marked { let first = next (left self.now) in
            MatchOption result (first ≡ Some (refused marks.TooMany kinds.Name)) (λ v. first ≡ Some (plain (name v))) }
        ensures within { IfSome result (λ v. v < length self.now.reading.names) }
    {
        let word = word_of(self.text, self.reading.peek());
        self.reading.names().find(word)
    }

    /// Takes a `;`, if one comes.
    pub fn perhaps_ended(&mut self)
        requires steady { IsSteady self.old }
        requires behind { self.old.behind_colon ≡ false }
        ensures steady { IsSteady self.new }
        ensures kept { IsKept self.old self.new }
        ensures taken { let before = left self.old in let after = left self.new in
            (before ≡ plain (fixed kinds.Semicolon) ∷ after) ⊎ ((after ≡ before) × (kind_at (next before) ≡ kinds.Semicolon → ⊥)) }
        ensures colon { self.new.behind_colon ≡ false }
        ensures draws { self.new.reading.draws ≡ self.old.reading.draws }
    {
        let _ = self.expect(TokenKind::Semicolon);
    }

    /// Adds the assumption after its word.
    fn assumed(&mut self, commands: Vec<Command>) -> Result<Vec<Command>, Reason>
        requires steady { IsSteady self.old }
        requires behind { self.old.behind_colon ≡ false }
        requires fits { CommandsFit self.old commands }
        ensures steady { Settled result (IsSteady self.new) }
        ensures kept { Keeps result self.old self.new }
        ensures reads { Gives instructions result (left self.new) ((grammar.assumption every 63 (instructions commands)).read (left self.old)) }
        ensures colon { OnOk result (self.new.behind_colon ≡ false) }
        ensures fits { IfOk result (λ cs. CommandsFit self.new cs) }
    {
        let command = self.assumption()?;
        Ok(with_command(commands, command)?)
    }

    /// Adds the assignment after its variable.
    #[inline(always)]
    fn assigned(&mut self, variable: u32, commands: Vec<Command>) -> Result<Vec<Command>, Reason>
        requires steady { IsSteady self.old }
        requires behind { self.old.behind_colon ≡ false }
        requires known { variable < length self.old.reading.names }
        requires fits { CommandsFit self.old commands }
        ensures steady { Settled result (IsSteady self.new) }
        ensures kept { Keeps result self.old self.new }
        ensures reads { Gives instructions result (left self.new) ((grammar.assignment every 63 (instructions commands) variable).read (left self.old)) }
        ensures colon { OnOk result (self.new.behind_colon ≡ false) }
        ensures fits { IfOk result (λ cs. CommandsFit self.new cs) }
    {
        let command = self.assignment(variable)?;
        Ok(with_command(commands, command)?)
    }

    /// Adds one command, if one comes.
    #[inline(always)]
    fn command(&mut self, commands: Vec<Command>) -> Result<Turn<Vec<Command>>, Reason>
        requires steady { IsSteady self.old }
        requires behind { self.old.behind_colon ≡ false }
        requires fits { CommandsFit self.old commands }
        ensures steady { Settled result (IsSteady self.new) }
        ensures kept { Keeps result self.old self.new }
        ensures reads { Turned instructions result (left self.new) (grammar.command_cases every 63) (instructions commands) (left self.old) }
        ensures colon { OnOk result (self.new.behind_colon ≡ false) }
        ensures fits { IfOk result (λ t. CommandsFit self.new (turn_value t)) }
    {
        match self.kind() {
            TokenKind::Assume => {
                self.advance();
                Ok(Turn::On(self.assumed(commands)?))
            }
            TokenKind::Name => match self.variable() {
                Some(variable) => {
                    self.advance();
                    Ok(Turn::On(self.assigned(variable, commands)?))
                }
                None => Ok(Turn::Off(commands)),
            },
            TokenKind::Mark => {
                self.advance();
                self.perhaps_ended();
                Ok(Turn::On(commands))
            }
            _ => Ok(Turn::Off(commands)),
        }
    }

    /// The commands of an edge, whose draws are counted from 0.
    fn commands(&mut self) -> Result<Vec<Command>, Reason>
        requires steady { IsSteady self.old }
        requires behind { self.old.behind_colon ≡ false }
        requires begun { self.old.reading.draws ≡ 0 }
        ensures steady { Settled result (IsSteady self.new) }
        ensures kept { Keeps result self.old self.new }
        ensures reads { Gives instructions result (left self.new) ((turns (grammar.command_cases every 63) []).read (left self.old)) }
        ensures colon { OnOk result (self.new.behind_colon ≡ false) }
        ensures fits { IfOk result (λ cs. CommandsFit self.new cs) }
    {
        let mut commands = Vec::with_capacity(self.alloc, ROOM)?;
        'turns: loop {
            match self.command(commands)? {
                Turn::On(more) => commands = more,
                Turn::Off(all) => return Ok(all),
            }
        }
    }

    /// `TO : label ;`
    fn to(&mut self) -> Result<u32, Reason>
        requires steady { IsSteady self.old }
        requires behind { self.old.behind_colon ≡ false }
        ensures steady { IsSteady self.new }
        ensures kept { IsKept self.old self.new }
        ensures reads { (s : Items) (from : ℕ) (cs : List Instruction) →
            let found = (headed marks.Syntax (grammar.last_of_edge every s from cs)).read (left self.old) in
            Gives (λ l. grammar.with_edge s from cs l) result (left self.new) found }
        ensures colon { OnOk result (self.new.behind_colon ≡ false) }
        ensures draws { self.new.reading.draws ≡ self.old.reading.draws }
        ensures within { IfOk result (λ l. l < length self.new.labels) }
    {
        match self.kind() {
            TokenKind::To => {
                self.advance();
                self.place()
            }
            // A name would begin a command, if it had a number.
            TokenKind::Name => match self.variable() {
                Some(_) => Err(Reason::Syntax),
                None => Err(Reason::TooMany),
            },
            _ => Err(Reason::Syntax),
        }
    }

    /// The edge after its `FROM`.
    pub fn edge(&mut self) -> Result<Edge, Reason>
        requires steady { IsSteady self.old }
        requires behind { self.old.behind_colon ≡ false }
        requires begun { self.old.reading.draws ≡ 0 }
        ensures steady { Settled result (IsSteady self.new) }
        ensures kept { Keeps result self.old self.new }
        ensures reads { (s : Items) → Gives (edge_added s) result (left self.new) ((grammar.edge every 63 s).read (left self.old)) }
        ensures colon { OnOk result (self.new.behind_colon ≡ false) }
        ensures fits { IfOk result (λ e. IsTrue (transition_fits (length self.new.reading.names) (length self.new.labels) (transition e))) }
    {
        let from = self.place()?;
        let commands = self.commands()?;
        let to = self.to()?;
        Ok(fitted(Edge {
            from,
            to,
            draws: self.reading.draws(),
            commands,
        }))
    }
}
