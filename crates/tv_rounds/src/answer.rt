use tv_linear::Region;

/// A round that equals the next one, or the last that was asked for.
///
/// Of until and strong until the layers are what each round adds: layer k has the states that are in round k + 1 by their own steps into
/// round k. With the end side before them they make up the region. The other shapes have none.
#[derive(Drop)]
pub enum Rounds {
    /// Round `at` equals the next one, so the region has the states where the fixpoint holds.
    Settled {
        region: Region,
        at: u32,
        layers: Vec<Region>,
    },
    /// The last round, which differs from the next one.
    Open {
        region: Region,
        layers: Vec<Region>,
    },
}
