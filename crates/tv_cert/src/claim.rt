ghost use Rattle.std.specs.Prelude.{◌≡◌};
ghost use Rattle.tv_formula.specs.Formulas.{property_of, variables_of};
ghost use Rattle.tv_cases.specs.Comparisons.{comparison_lists};
ghost use Rattle.tv_cert.specs.AimViews.{aim_states};
ghost use Rattle.tv_cert.specs.Statements.{stated};
ghost use Rattle.tv_cert.specs.StatementSets.{equal_once};

use crate::aim::Aim;
use crate::aims::aim_of;
use crate::node::Verdict;
use std::alloc::{AllocError, Global};
use tv_formula::{Formula, negate, normal};

/// What is claimed of a program: a property in normal form, and its negation, each with what the root of a certificate of it states.
#[derive(Drop)]
pub struct Claim {
    proved: Formula,
    denied: Formula,
    proved_aim: Aim,
    denied_aim: Aim,
    pub ghost proved_stated: { aim_states proved_aim ≡ stated (comparison_lists (variables_of proved)) (property_of proved) } by { equal_once _ _ },
    pub ghost denied_stated: { aim_states denied_aim ≡ stated (comparison_lists (variables_of proved)) (property_of denied) } by { equal_once _ _ },
}

impl Claim {
    ghost use Rattle.std.specs.Prelude.{◌<◌, ◌-◌, ◌^◌, IfOk};
    ghost use Rattle.tv_formula.specs.Formulas.{locations_of};
    ghost use Rattle.tv_cert.specs.Claims.{IsClaim, claim_variables, claim_locations, shown};

    /// The claim of a property.
    pub fn new(alloc: Global, property: &Formula) -> Result<Claim, AllocError>
        requires bounded { variables_of property.now < 2 ^ 32 - 1 }
        ensures of_property { IfOk result (λ c. IsClaim c (property_of property.now)) }
        ensures variables { IfOk result (λ c. claim_variables c ≡ variables_of property.now) }
        ensures locations { IfOk result (λ c. claim_locations c ≡ locations_of property.now) }
    {
        let proved = normal(alloc, property)?;
        let denied = negate(alloc, property)?;
        let proved_aim = aim_of(alloc, &proved)?;
        let denied_aim = aim_of(alloc, &denied)?;
        Ok(Claim {
            proved,
            denied,
            proved_aim,
            denied_aim,
        })
    }

    /// The normal form of the property.
    pub fn proved(&self) -> &Formula
        ensures { result.now ≡ self.now.proved }
    {
        &self.proved
    }

    /// The negation of the property, in normal form.
    pub fn denied(&self) -> &Formula
        ensures { result.now ≡ self.now.denied }
    {
        &self.denied
    }

    /// What the root of a certificate states that says proved.
    pub fn proved_aim(&self) -> &Aim
        ensures { aim_states result.now ≡ stated (comparison_lists (claim_variables self.now)) (property_of self.now.proved) }
    {
        &self.proved_aim
    }

    /// What the root of a certificate states that says disproved.
    pub fn denied_aim(&self) -> &Aim
        ensures { aim_states result.now ≡ stated (comparison_lists (claim_variables self.now)) (property_of self.now.denied) }
    {
        &self.denied_aim
    }

    /// What the root of a certificate with this verdict states.
    pub fn aim(&self, verdict: &Verdict) -> &Aim
        ensures { aim_states result.now ≡ stated (comparison_lists (claim_variables self.now)) (shown self.now verdict.now) }
    {
        match verdict {
            Verdict::Proved(_) => &self.proved_aim,
            Verdict::Disproved { .. } => &self.denied_aim,
        }
    }
}
