// The regions of formulas.

pub(crate) mod atom_part;
pub(crate) mod cycles_within;
pub(crate) mod ending_part;
pub(crate) mod endless_part;
pub(crate) mod falling_choice;
pub(crate) mod fixed_part;
pub(crate) mod formula_part;
pub(crate) mod found;
pub(crate) mod going_cut;
pub(crate) mod joined_part;
pub(crate) mod kept;
pub(crate) mod layer_steps;
pub(crate) mod layers;
pub(crate) mod next_part;
pub(crate) mod ranked_regions;
pub(crate) mod region_part;
pub(crate) mod stopping_rows;
pub(crate) mod until_by_ranks;
pub(crate) mod until_splits;
