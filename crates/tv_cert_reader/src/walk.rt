ghost use Rattle.std.specs.Prelude.{◌≡◌, ◌+◌, ◌≤◌, ◌<◌, ◌^◌, true, IfOk, length, map};
ghost use Rattle.tv_cases.specs.Systems.{cases_of};
ghost use Rattle.tv_cert.specs.AimViews.{aim_states};
ghost use Rattle.tv_cert.specs.NodeViews.{pieces_list};
ghost use Rattle.tv_cert.specs.Nodes.{node_owes};
ghost use Rattle.tv_cert.specs.OwesViews.{OwedIn, obligation_by};
ghost use Rattle.tv_cert_reader.specs.Nodes.{node_of};
ghost use Rattle.tv_cert_reader.specs.Visits.{IsStopped};
ghost use Rattle.tv_cert_reader.specs.Walks.{HasRoom, IsPassed, PassesProof, TakesOwn, Walks};

use crate::context::Context;
use crate::cursor::Cursor;
use crate::failure::Failure;
use crate::nodes::kind_of;
use crate::taker::Taker;
use std::alloc::Global;
use std::mem;
use tv_cases::Cases;
use tv_cert::{Aim, Kind, Node, Owes, Pieces, Proof, Visitor, part, visit_pieces};
use tv_shape::{argument_count, may_be_done, may_rank};

/// What goes over the lines of nodes, and hands on each proof that they owe.
#[derive(Drop)]
pub struct Walk<'t, T> {
    pub alloc: Global,
    pub cursor: Cursor<'t>,
    /// How many nodes were begun.
    pub nodes: u32,
    pub taker: T,
    /// The proofs of one node that are kept.
    pub proofs: Vec<Proof>,
    /// Why it stopped among the proofs of a node, if it did.
    pub failure: Option<Failure>,
}

impl<T: Taker> Visitor for Walk<'_, T> {
    ghost passes = { λ system v o w. IsPassed T.takes T.whole o v w };

    ghost stops = { λ system v o w. IsStopped o v.cursor w.failure };

    ghost room = { λ v. T.room v.taker };

    fn visit(&mut self, about: &Cases, node: u32, kind: Kind, owes: &Owes) -> bool {
        match self.pass(about, node, kind, owes) {
            Ok(()) => true,
            Err(failure) => {
                self.failure = Some(failure);
                false
            }
        }
    }
}

impl<T: Taker> Walk<'_, T> {
    /// Hands on the proof that comes next.
    fn pass(&mut self, about: &Cases, node: u32, kind: Kind, owes: &Owes) -> Result<(), Failure>
        requires owed { OwedIn (cases_of about.now) owes.now }
        requires room { 0 < T.room self.old.taker }
        ensures passed { PassesProof T.takes T.whole (obligation_by (cases_of about.now) node kind owes.now) self.old self.new result }
        ensures room { T.room self.old.taker ≤ T.room self.new.taker + 1 }
    {
        let context = Context {
            alloc: self.alloc,
            about,
        };
        match self
            .taker
            .take(&context, &mut self.cursor, node, kind, owes)?
        {
            None => Ok(()),
            Some(proof) => {
                self.proofs.push(proof)?;
                Ok(())
            }
        }
    }

    /// Hands on the proofs of the node with this number, given its pieces and its children. Those that are kept come back.
    fn own_proofs(
        &mut self,
        about: &Cases,
        number: u32,
        aim: &Aim,
        pieces: &Pieces,
        children: &[Node],
    ) -> Result<Vec<Proof>, Failure>
        requires bounded { length pieces.now + length children.now < 2 ^ 32 }
        requires room { HasRoom T.room self.old }
        ensures taken { let system = cases_of about.now in
            let states = aim_states aim.now in
            let owed = node_owes number system states pieces.now (map pieces_list children.now) in
            TakesOwn T.takes T.whole owed self.old self.new result }
        ensures room { IfOk result (λ _. HasRoom T.room self.new) }
    {
        self.proofs = Vec::new(self.alloc);
        if visit_pieces(self, about, number, aim, pieces, children) {
            let nothing = Vec::new(self.alloc);
            return Ok(mem::replace(&mut self.proofs, nothing));
        }
        match self.failure {
            Some(failure) => Err(failure),
            None => unreachable!(),
        }
    }

    /// What is kept of a node.
    fn kept(&self, pieces: Pieces, ranks: u32, children: Vec<Node>, proofs: Vec<Proof>) -> Node
        ensures whole { T.whole ≡ true → result ≡ node_of pieces ranks children proofs }
        ensures pieces { pieces_list result ≡ pieces }
    {
        if self.taker.is_whole() {
            Node {
                pieces,
                ranks,
                children,
                proofs,
            }
        } else {
            Node {
                pieces,
                ranks,
                children: Vec::new(self.alloc),
                proofs: Vec::new(self.alloc),
            }
        }
    }

    /// Goes over a node that is to show this, and those below it. What is kept of it comes back.
    pub fn node(&mut self, about: &Cases, aim: &Aim) -> Result<Node, Failure>
        requires { HasRoom T.room self.old }
        ensures walked { Walks T.takes T.room T.whole (cases_of about.now) (aim_states aim.now) self.old self.new result }
        ensures bounded { IfOk result (λ n. length (pieces_list n) < 2 ^ 32) }
    {
        let context = Context {
            alloc: self.alloc,
            about,
        };
        let number = self.nodes;
        let (pieces, ranks) = context.region(
            &mut self.cursor,
            kind_of(aim),
            may_rank(aim),
            may_be_done(aim),
        )?;
        self.nodes = number + 1;
        let mut children = Vec::new(self.alloc);
        'children: for i in 0..argument_count(aim) {
            let child = self.node(about, part(aim, i))?;
            children.push(child)?;
        }
        let proofs = self.own_proofs(about, number, aim, &pieces, &children)?;
        Ok(self.kept(pieces, ranks, children, proofs))
    }
}
