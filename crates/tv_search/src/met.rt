/// A path of cases from the start to a location, and an integer point of its rows.
#[derive(Drop)]
pub(crate) struct MetPath {
    pub path: Vec<u32>,
    pub point: Vec<i128>,
}
