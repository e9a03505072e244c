ghost use Rattle.std.specs.Prelude.{◌≡◌, ◌≤◌, ◌<◌, ◌+◌, ◌∷◌, [], ℕ, List, length, drop, true, false, Ok, IfOk, OnOk, IfSome, IsTrue, vec_len};
ghost use Rattle.tv_program.specs.Views.{transition};
ghost use Rattle.tv_program.specs.Limits.{transition_fits};
ghost use Rattle.tv_grammar.specs.Reads.{fault};
ghost use Rattle.tv_grammar.specs.Langs.{headed, mapped, turns};
ghost use Rattle.tv_reading.specs.Marks as marks;
ghost use Rattle.tv_reading.specs.SumGrammar.{every};
ghost use Rattle.tv_reader.specs.ProgramGrammar as grammar;
ghost use Rattle.tv_reader.specs.ProgramGrammar.{Items};
ghost use Rattle.tv_reading.specs.Answers.{Gives, Turned};
ghost use Rattle.tv_reader.specs.Readers.{left, IsKept, Keeps, Settled, IsSteady, turn_value, items_view, ItemsFit, Ends, rest_of, edge_added};

use crate::items::ItemsRead;
use crate::reader::Reader;
use std::alloc::AllocFailed;
use tv_language::TokenKind;
use tv_program::Edge;
use tv_reading::{Reason, Turn};

/// The most edges of a program.
const MOST_EDGES: usize = 4096;

fn with_edge(items: ItemsRead, edge: Edge) -> Result<ItemsRead, AllocFailed<Edge>>
    ensures { IfOk result (λ x. items_view x ≡ edge_added (items_view items) edge) }
{
    let ItemsRead { start, edges } = items;
    let mut edges = edges;
    edges.push(edge)?;
    Ok(ItemsRead { start, edges })
}

impl Reader<'_> {
    /// Adds the location after `START`.
    fn started(&mut self, items: ItemsRead) -> Result<ItemsRead, Reason>
        requires steady { IsSteady self.old }
        requires first { (items_view items).starts ≡ [] }
        requires fits { ItemsFit self.old items }
        ensures steady { Settled result (IsSteady self.new) }
        ensures kept { Keeps result self.old self.new }
        ensures reads { Gives items_view result (left self.new) ((mapped (grammar.with_start (items_view items)) (grammar.place every)).read (left self.old)) }
        ensures colon { OnOk result (self.new.behind_colon ≡ false) }
        ensures fits { IfOk result (λ x. ItemsFit self.new x) }
    {
        let location = self.place()?;
        let ItemsRead { start: _, edges } = items;
        Ok(ItemsRead {
            start: Some(location),
            edges,
        })
    }

    /// Adds the edge after its `FROM`.
    fn connected(&mut self, items: ItemsRead) -> Result<ItemsRead, Reason>
        requires steady { IsSteady self.old }
        requires behind { self.old.behind_colon ≡ false }
        requires begun { self.old.reading.draws ≡ 0 }
        requires bounded { vec_len items.edges < 4096 }
        requires fits { ItemsFit self.old items }
        ensures steady { Settled result (IsSteady self.new) }
        ensures kept { Keeps result self.old self.new }
        ensures reads { Gives items_view result (left self.new) ((grammar.edge every 63 (items_view items)).read (left self.old)) }
        ensures colon { OnOk result (self.new.behind_colon ≡ false) }
        ensures fits { IfOk result (λ x. ItemsFit self.new x) }
    {
        let edge = self.edge()?;
        Ok(with_edge(items, edge)?)
    }

    /// Adds one item, if one comes that may stand here.
    fn item(&mut self, items: ItemsRead) -> Result<Turn<ItemsRead>, Reason>
        requires steady { IsSteady self.old }
        requires behind { self.old.behind_colon ≡ false }
        requires fits { ItemsFit self.old items }
        ensures steady { Settled result (IsSteady self.new) }
        ensures kept { Keeps result self.old self.new }
        ensures reads { Turned items_view result (left self.new) (grammar.item_cases every 63) (items_view items) (left self.old) }
        ensures colon { OnOk result (self.new.behind_colon ≡ false) }
        ensures fits { IfOk result (λ t. ItemsFit self.new (turn_value t)) }
    {
        match self.kind() {
            TokenKind::Start => {
                if items.start.is_some() {
                    return Ok(Turn::Off(items));
                }
                self.advance();
                Ok(Turn::On(self.started(items)?))
            }
            TokenKind::From => {
                if items.edges.len() >= MOST_EDGES {
                    return Ok(Turn::Off(items));
                }
                self.begin_edge();
                Ok(Turn::On(self.connected(items)?))
            }
            TokenKind::Passed => {
                self.advance();
                Ok(Turn::On(items))
            }
            TokenKind::Mark => {
                self.advance();
                self.perhaps_ended();
                Ok(Turn::On(items))
            }
            _ => Ok(Turn::Off(items)),
        }
    }

    /// The items up to the first token that begins none.
    fn items(&mut self) -> Result<ItemsRead, Reason>
        requires steady { IsSteady self.old }
        requires behind { self.old.behind_colon ≡ false }
        ensures steady { Settled result (IsSteady self.new) }
        ensures kept { Keeps result self.old self.new }
        ensures reads { Gives items_view result (left self.new) ((turns (grammar.item_cases every 63) grammar.no_items).read (left self.old)) }
        ensures colon { OnOk result (self.new.behind_colon ≡ false) }
        ensures fits { IfOk result (λ x. ItemsFit self.new x) }
    {
        let mut items = ItemsRead {
            start: None,
            edges: Vec::new(self.alloc),
        };
        'turns: loop {
            match self.item(items)? {
                Turn::On(more) => items = more,
                Turn::Off(all) => return Ok(all),
            }
        }
    }

    /// The end of the text.
    fn end(&self) -> Result<(), Reason>
        requires steady { IsSteady self.now }
        requires behind { self.now.behind_colon ≡ false }
        ensures { (s : Items) → Ends s result (left self.now) }
    {
        match self.kind() {
            TokenKind::End => Ok(()),
            TokenKind::Start => Err(Reason::TwoStarts),
            TokenKind::From => Err(Reason::TooMany),
            _ => Err(Reason::Syntax),
        }
    }

    /// The items of a whole program.
    pub fn program(&mut self) -> Result<ItemsRead, Reason>
        requires steady { IsSteady self.old }
        requires behind { self.old.behind_colon ≡ false }
        ensures steady { Settled result (IsSteady self.new) }
        ensures kept { Keeps result self.old self.new }
        ensures reads { Gives items_view result (rest_of result (left self.new)) ((grammar.program_at every 63).read (left self.old)) }
        ensures fits { IfOk result (λ x. ItemsFit self.new x) }
    {
        let items = self.items()?;
        self.end()?;
        Ok(items)
    }
}
