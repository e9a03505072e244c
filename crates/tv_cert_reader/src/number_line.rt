ghost use Rattle.std.specs.Prelude.{◌≡◌};
ghost use Rattle.tv_cert_reader.specs.NumberLines.{head_of};

use tv_lines::Head;

/// A line of numbers whose count is given.
#[derive(Clone, Copy)]
pub enum NumberLine {
    Header,
    Row,
    Rank,
    Draw,
    By,
    End,
}

impl NumberLine {
    /// What begins the line.
    pub fn head(self) -> Head
        ensures { result ≡ head_of self }
    {
        match self {
            NumberLine::Header => Head::Header,
            NumberLine::Row => Head::Row,
            NumberLine::Rank => Head::Rank,
            NumberLine::Draw => Head::Draw,
            NumberLine::By => Head::By,
            NumberLine::End => Head::End,
        }
    }
}
