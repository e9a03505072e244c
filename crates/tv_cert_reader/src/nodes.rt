ghost use Rattle.std.specs.Prelude.{◌≡◌};
ghost use Rattle.tv_cert.specs.AimViews.{aim_states};
ghost use Rattle.tv_cert.specs.Shapes.{IsSaid};
ghost use Rattle.tv_cert_reader.specs.LineGrammar.{kind_of};

use tv_cert::Aim;
use tv_lines::NodeKind;

/// The kind of a node that is to show this.
pub(crate) fn kind_of(aim: &Aim) -> NodeKind
    ensures kind { result ≡ kind_of (aim_states aim.now) }
    ensures said { IsSaid (aim_states aim.now) }
{
    match aim {
        Aim::Rows(_) | Aim::Here(_) | Aim::Elsewhere(_) => NodeKind::Atom,
        Aim::Ends => NodeKind::Term,
        Aim::NeverEnds => NodeKind::NoTerm,
        Aim::EachOf(_) => NodeKind::And,
        Aim::OneOf(_) => NodeKind::Or,
        Aim::After(..) => NodeKind::Next,
        Aim::Along(..) => NodeKind::Fix,
    }
}
