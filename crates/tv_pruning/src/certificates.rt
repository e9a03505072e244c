// Certificates without the pieces that are not needed.

ghost use Rattle.std.specs.Prelude.{◌≡◌, ◌<◌, ◌≤◌, IfOk, IfSome};
ghost use Rattle.tv_cases.specs.Systems.{cases_of};
ghost use Rattle.tv_cert.specs.Claims.{claim_variables};
ghost use Rattle.tv_shape.specs.Certificates.{IsSettling};

use crate::copying::Counting;
use crate::entering::{Target, push_covered};
use crate::marks::Marks;
use crate::numbering::Numbering;
use crate::owner::{Among, Owner};
use crate::pruning::{Context, pruned};
use std::alloc::{AllocError, Global};
use tv_cases::Cases;
use tv_cert::{Claim, Node, Verdict};
use tv_shape::Certificate;
use tv_sound::accepted;

/// Marks the pieces of the root that the verdict speaks of.
fn mark_said(
    alloc: Global,
    start: u32,
    verdict: &Verdict,
    own: &mut Marks,
) -> Result<(), AllocError> {
    let mut targets = Vec::new(alloc);
    match verdict {
        Verdict::Proved(cover) => push_covered(cover.tree(), start, &mut targets)?,
        Verdict::Disproved { piece, .. } => {
            let location = start;
            let number = *piece;
            targets.push(Target { location, number })?;
        }
    }
    for target in &targets {
        let _ = own.mark(*target);
    }
    Ok(())
}

/// The verdict, in which the pieces of the root are counted among those that stay.
fn verdict_of<'a>(
    alloc: Global,
    about: &'a Cases,
    verdict: &Verdict,
    numbering: Numbering<'a>,
) -> Result<Option<Verdict>, AllocError> {
    let location = about.start();
    let owner = Owner::Own;
    match verdict {
        Verdict::Proved(cover) => {
            let location = Some(location);
            let among = Among { owner, location };
            let counting = Counting {
                alloc,
                about,
                numbering,
                among,
            };
            match counting.cover(cover)? {
                None => Ok(None),
                Some(cover) => Ok(Some(Verdict::Proved(cover))),
            }
        }
        Verdict::Disproved { piece, values } => {
            let number = *piece;
            let piece = numbering.number_of(owner, Target { location, number });
            let values = Vec::from_slice(alloc, values)?;
            Ok(Some(Verdict::Disproved { piece, values }))
        }
    }
}

/// The verdict and the root of the certificate without the pieces that are not needed.
fn pruned_parts(
    context: Context,
    certificate: &Certificate,
) -> Result<Option<(Verdict, Node)>, AllocError> {
    let Context { alloc, about, .. } = context;
    let root = certificate.root();
    let mut own = Marks::none_of(alloc, &root.pieces)?;
    mark_said(alloc, about.start(), certificate.verdict(), &mut own)?;
    let Some(node) = pruned(context, root, &mut own)? else {
        return Ok(None);
    };
    let none = Vec::new(alloc);
    let numbering = Numbering {
        own: &own,
        children: &none,
    };
    match verdict_of(alloc, about, certificate.verdict(), numbering)? {
        None => Ok(None),
        Some(verdict) => Ok(Some((verdict, node))),
    }
}

/// The certificate without the pieces that no proof enters on the way from those that its verdict speaks of, where it has fewer obligations
/// then. What is made is checked, so that nothing rests on how it was found.
fn with_fewer(
    alloc: Global,
    about: &Cases,
    claim: &Claim,
    certificate: &Certificate,
) -> Result<Option<Certificate>, AllocError>
    requires variables { claim_variables claim.now ≡ (cases_of about.now).variables }
    ensures settling { IfOk result (λ found. IfSome found (IsSettling (cases_of about.now) claim.now)) }
    ensures fewer { IfOk result (λ found. IfSome found (λ c. c.obligations < certificate.now.obligations)) }
{
    let aim = claim.aim(certificate.verdict());
    let Some((verdict, root)) = pruned_parts(Context { alloc, about, aim }, certificate)? else {
        return Ok(None);
    };
    match accepted(alloc, about, claim, verdict, root)? {
        None => Ok(None),
        Some(found) => {
            if found.obligations() < certificate.obligations() {
                Ok(Some(found))
            } else {
                Ok(None)
            }
        }
    }
}

/// A certificate of the same claim with as few obligations as leaving pieces out gives: the given one, or the same without the pieces that no
/// proof enters on the way from those that its verdict speaks of.
pub fn smaller(
    alloc: Global,
    about: &Cases,
    claim: &Claim,
    certificate: Certificate,
) -> Result<Certificate, AllocError>
    requires variables { claim_variables claim.now ≡ (cases_of about.now).variables }
    requires settling { IsSettling (cases_of about.now) claim.now certificate }
    ensures settling { IfOk result (IsSettling (cases_of about.now) claim.now) }
    ensures no_more { IfOk result (λ c. c.obligations ≤ certificate.obligations) }
{
    match with_fewer(alloc, about, claim, &certificate)? {
        None => Ok(certificate),
        Some(found) => Ok(found),
    }
}
