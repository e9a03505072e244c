/// A run that was found to come to a location.
#[derive(Clone, Copy)]
pub struct Found<'a> {
    pub location: u32,
    /// The number of each case that is taken, in order.
    pub path: &'a [u32],
    /// The value of each variable at the start.
    pub values: &'a [i128],
    /// The draws of each case.
    pub draws: &'a [Vec<i128>],
}
