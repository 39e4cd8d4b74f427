// The library that programs in C and Rust call (crates/cobalnis_c): functions on numbers and slices that reach every function of
// docs/REFERENCE.md, Ported, the walk along a table, the sheet's calls, the cards and a float's class. Each tests its own input, and none has a
// `requires`; what a caller owes is valid memory alone.
//
// An answer is a status: 0 is accepted, else the refusal's number plus 256 times the code of refusal 1; `NO_SUCH` is for a number that names
// nothing. `cobalnis_classify` answers a class's number, `cobalnis_print` how many bytes it wrote, `cobalnis_version` and `cobalnis_layout` which library this is. A float is handed out by its bits, 7ff8000000000000 for every NaN. `words` has a part and a sheet as words.
#![tactic(auto)]

mod answers;
mod floats;
mod formulas;
mod noses;
mod sheets;
mod stream;
mod version;
mod words;

pub use floats::cobalnis_classify;
pub use formulas::{cobalnis_check_dimension, cobalnis_formula, cobalnis_takes_cone_formula};
pub use noses::{cobalnis_curve, cobalnis_nose_lookup, cobalnis_nose_point, cobalnis_nose_walk};
pub use sheets::{
    cobalnis_burnout, cobalnis_ignite, cobalnis_insert, cobalnis_open, cobalnis_remove,
    cobalnis_replace, cobalnis_set_column,
};
pub use stream::{cobalnis_print, cobalnis_read_part, cobalnis_read_settings};
pub use version::{cobalnis_layout, cobalnis_version};
pub use words::{
    COLUMNS_AT, FINENESS_AT, FINISHES_AT, FIRST_PART, MACHS_AT, NOZZLE_AT, PART_WORDS, PARTS_AT,
    REYNOLDS_AT, ROUGHNESSES_AT, SHEET_WORDS,
};
