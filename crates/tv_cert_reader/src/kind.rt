/// Why a line may not stand where it does. At one line the order is the one here.
#[derive(Clone, Copy, Debug, PartialEq, Eq)]
pub enum LineKind {
    /// It has none of the forms, or is missing, or comes after the last line.
    Syntax,
    /// It has a number of 2^62 or more in magnitude.
    Wide,
    /// It is the 129th split on a path.
    Deep,
    /// Its form, its numbers or how many there are, is not what is wanted there.
    Shape,
}
