use crate::amounts::{node_count, obligation_count};
use crate::fault::ShapeFault;
use crate::fitting::look_through;
use crate::kinds::kinds_of;
use std::alloc::Global;
use tv_cases::Cases;
use tv_cert::{Claim, Node, Verdict};
use tv_lines::NodeKind;

/// A tree of nodes that fits the cases of a program and what is claimed of it, and what it says of the start.
#[derive(Drop)]
pub struct Certificate {
    verdict: Verdict,
    root: Node,
    kinds: Vec<NodeKind>,
    obligations: u64,
}

impl Certificate {
    ghost use Rattle.std.specs.Prelude.{◌≡◌, MatchResult};
    ghost use Rattle.tv_cases.specs.Systems.{cases_of};
    ghost use Rattle.tv_cert.specs.Claims.{about_with, claim_variables, shown};
    ghost use Rattle.tv_shape.specs.Certificates.{IsOf, IsRefused};

    /// The certificate of these nodes: `Ok` exactly where they fit, for the property where the verdict is that it is proved, and for
    /// its negation where it is disproved.
    ///
    /// Else `Deep` or `Shape` names the first node at fault, each before its children; at one node `Deep` comes first. A fault of
    /// the verdict is one of the root, and comes after all others. `Memory` comes for nodes that fit, or 2^32 of them, alone.
    pub fn new(
        alloc: Global,
        about: &Cases,
        claim: &Claim,
        verdict: Verdict,
        root: Node,
    ) -> Result<Certificate, ShapeFault>
        requires variables { claim_variables claim.now ≡ (cases_of about.now).variables }
        ensures { let system = cases_of about.now in
            let property = shown claim.now verdict in
            let about = about_with system in
            MatchResult result
            (λ c. IsOf about property c × (c.root ≡ root) × (c.verdict ≡ verdict))
            (IsRefused about property root verdict) }
    {
        if node_count(&root).is_none() {
            return Err(ShapeFault::Memory);
        }
        let aim = claim.aim(&verdict);
        match look_through(about, aim, &root, &verdict) {
            Err(fault) => return Err(fault),
            Ok(()) => {}
        }
        let obligations = match obligation_count(&root) {
            None => return Err(ShapeFault::Memory),
            Some(count) => count,
        };
        match kinds_of(alloc, aim) {
            Err(_) => Err(ShapeFault::Memory),
            Ok(kinds) => Ok(Certificate {
                verdict,
                root,
                kinds,
                obligations,
            }),
        }
    }

    /// What it says of its property.
    pub fn verdict(&self) -> &Verdict
        ensures { result.now ≡ self.now.verdict }
    {
        &self.verdict
    }

    pub fn root(&self) -> &Node
        ensures { result.now ≡ self.now.root }
    {
        &self.root
    }

    /// The kinds of its nodes, each before its children.
    pub fn kinds(&self) -> &[NodeKind]
        ensures { result.now ≡ self.now.kinds.items }
    {
        &self.kinds
    }

    /// How many obligations it has.
    pub fn obligations(&self) -> u64
        ensures { result ≡ self.now.obligations }
    {
        self.obligations
    }
}
