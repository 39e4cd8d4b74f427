// Pressure drag of noses, shoulders and steps at every Mach number (nose_drag.rs): Niskanen's semi-empirical method (2009, eq. 3.86, 3.87 and
// appendix B), with Stoney's measured curves for the shapes that have no closed form. Names, order of tests and order of operations are the Rust's.
#![tactic(auto)]

mod builder;
mod cone;
mod curve;
mod ellipsoid;
mod fit;
mod scaling;

pub use builder::takes_cone_formula;
pub use cone::{CONE_SUPERSONIC_MACH, ogive_pressure_drag_factor};
pub use curve::{PressureDrag, PressureDragCurve, Reference, Transonic};
pub use ellipsoid::{
    HEMISPHERE_FOREBODY_PRESSURE_DRAG, ROUND_HEAD_FOREBODY_PRESSURE_DRAG,
    ellipsoid_subsonic_pressure_drag,
};
pub use fit::{Fit, subsonic_pressure_drag_coefficient};
pub use scaling::fineness_scaled_pressure_drag;
