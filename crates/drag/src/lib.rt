// Skin friction, stagnation pressure, base drag, joint drag and the boattail rule (drag.rs): the terms of Niskanen's drag buildup
// as functions of their inputs, with the Rust's names, order of tests and order of operations. Each answers the value or the refusal.
#![tactic(auto)]

ghost use Rattle.std.specs.Prelude.{◌≡◌, cond};
ghost use Rattle.drag.specs.Friction.{mach_checked, machs_test, flow_checked, turbulent_friction, critical_reynolds, limited_friction, wall_of, on_wall, incompressible_skin_friction, friction_on, skin_friction_coefficient, body_friction_form_factor};
ghost use Rattle.drag.specs.Walls.{limited_from, wall_at};
ghost use Rattle.drag.specs.Flows.{limits_at, turbulent_where, flow_of, friction_in};
ghost use Rattle.drag.specs.Pressure.{stagnation_ratio, stagnation_pressure_ratio, stagnation_drag_coefficient, base_drag, base_drag_coefficient, joint_pressure_drag_coefficient, boattail_share, boattail_factor};

use aero_error::{AeroError, Quantity, check_dimension, require};
use elementary::{is_between, is_finite, max};

// Reynolds number below which the friction formulas no longer hold (Niskanen 2009 p. 44).
pub const LOW_REYNOLDS: f64 = 1.0e4;

// The skin-friction coefficient below LOW_REYNOLDS (eq. 3.81).
pub const LOW_REYNOLDS_FRICTION: f64 = 1.48e-2;

// A quarter turn, the bits 3ff921fb54442d18 (docs/REFERENCE.md, Friction and base).
pub const FRAC_PI_2: f64 = 1.57079632679489661923132169163975144;

// A Mach number of any speed regime: finite and not negative.
#[tactic(auto, unfolding(crate::specs::Friction::mach_checked))]
pub fn check_mach_any(mach: f64) -> Result<(), AeroError>
    ensures { result ≡ mach_checked mach }
{
    let ok = is_finite(mach) && mach >= 0.0;
    require(ok, Quantity::Mach, mach)
}

// The first bad Mach number's refusal.
#[tactic(auto, unfolding(crate::specs::Friction::machs_test), using(aero_error::specs::CheckLaws::up_none, aero_error::specs::CheckLaws::up_end, aero_error::proofs::HandedOn::one_more))]
pub fn check_machs(machs: &[f64]) -> Result<(), AeroError>
    ensures { result ≡ machs_test machs.now }
{
    for mach in machs {
        check_mach_any(*mach)?;
    }
    Ok(())
}

// Mach, then Reynolds number: the flow that a friction is asked for.
pub fn check_flow(mach: f64, reynolds: f64) -> Result<(), AeroError>
    ensures { result ≡ flow_checked mach reynolds }
{
    check_mach_any(mach)?;
    check_dimension(Quantity::Reynolds, reynolds, true)
}

// ---- skin friction

// What a roughness alone decides of the friction: the critical Reynolds number (eq. 3.79), from which on it limits the friction, and
// the friction that it limits (eq. 3.80). Worked out once, it serves every Reynolds and Mach number.
#[derive(Clone, Copy, Debug, PartialEq)]
pub struct Wall {
    pub critical: Result<f64, AeroError>,
    pub limited: f64,
}

// What a Mach and a Reynolds number alone decide of the friction (eq. 3.82 to 3.84), below Mach 1 and from there on: the turbulent
// friction, and the factor that corrects a limited one. Worked out once, it serves every wall.
#[derive(Clone, Copy, Debug, PartialEq)]
pub enum Flow {
    Subsonic {
        reynolds: f64,
        turbulent: f64,
        factor: f64,
    },
    Supersonic {
        reynolds: f64,
        turbulent: f64,
        factor: f64,
    },
}

// Smooth fully turbulent friction (eq. 3.78), held below LOW_REYNOLDS (eq. 3.81).
#[tactic(auto, unfolding(crate::specs::Friction::turbulent_friction))]
fn turbulent_friction(reynolds: f64) -> f64
    ensures { result ≡ turbulent_friction reynolds }
{
    if reynolds < LOW_REYNOLDS {
        LOW_REYNOLDS_FRICTION
    } else {
        let d = 1.50 * elementary::ln(reynolds) - 5.6;
        1.0 / (d * d)
    }
}

// The roughness-limited critical Reynolds number (eq. 3.79), +infinity for roughness 0.
#[tactic(auto, unfolding(crate::specs::Friction::critical_reynolds))]
pub fn critical_reynolds(relative_roughness: f64) -> Result<f64, AeroError>
    ensures { result ≡ critical_reynolds relative_roughness }
{
    check_dimension(Quantity::Roughness, relative_roughness, true)?;
    Ok(51.0 * elementary::powf(relative_roughness, -1.039))
}

// The friction that a roughness limits (eq. 3.80).
#[tactic(auto, unfolding(crate::specs::Friction::limited_friction))]
fn limited_friction(relative_roughness: f64) -> f64
    ensures { result ≡ limited_friction relative_roughness }
{
    0.032 * elementary::powf(relative_roughness, 0.2)
}

pub fn wall_of(relative_roughness: f64) -> Wall
    ensures { result ≡ wall_of relative_roughness }
{
    let critical = critical_reynolds(relative_roughness);
    Wall {
        critical,
        limited: limited_friction(relative_roughness),
    }
}

// Eq. 3.80 where the roughness limits at this Reynolds number, and otherwise 0, which nobody reads. No Option: the definitions of a wall and of a flow
// have that 0, and they stand.
fn limited_from(critical: Result<f64, AeroError>, reynolds: f64, relative_roughness: f64) -> f64
    ensures { result ≡ limited_from critical reynolds relative_roughness }
{
    match critical {
        Ok(at) if reynolds >= at => limited_friction(relative_roughness),
        _ => 0.0,
    }
}

// The wall as far as a Reynolds number asks for it: below LOW_REYNOLDS the roughness isn't looked at.
#[tactic(auto, unfolding(crate::specs::Walls::wall_at))]
fn wall_at(reynolds: f64, relative_roughness: f64) -> Wall
    ensures { result ≡ wall_at reynolds relative_roughness }
{
    if reynolds >= LOW_REYNOLDS {
        let critical = critical_reynolds(relative_roughness);
        let limited = limited_from(critical, reynolds, relative_roughness);
        return Wall { critical, limited };
    }
    Wall {
        critical: Ok(0.0),
        limited: 0.0,
    }
}

// Incompressible skin friction of a fully turbulent boundary layer (eq. 3.81).
#[tactic(auto, unfolding(crate::specs::Friction::incompressible, crate::specs::Friction::incompressible_skin_friction))]
pub fn incompressible_skin_friction(
    reynolds: f64,
    relative_roughness: f64,
) -> Result<f64, AeroError>
    ensures { result ≡ incompressible_skin_friction reynolds relative_roughness }
{
    check_dimension(Quantity::Reynolds, reynolds, true)?;
    if LOW_REYNOLDS <= reynolds && reynolds >= critical_reynolds(relative_roughness)? {
        Ok(limited_friction(relative_roughness))
    } else {
        Ok(turbulent_friction(reynolds))
    }
}

// Whether the roughness of a wall limits the friction at a Reynolds number.
#[tactic(auto, unfolding(crate::specs::Flows::limits_at))]
fn limits(wall: Wall, reynolds: f64) -> bool
    ensures { result ≡ limits_at wall reynolds }
{
    LOW_REYNOLDS <= reynolds && wall.critical.is_ok_and(|critical| reynolds >= critical)
}

// The turbulent friction where it is asked for, and otherwise 0, which nobody reads. No Option, as in `limited_from`.
fn turbulent_where(asked: bool, reynolds: f64) -> f64
    ensures { result ≡ turbulent_where asked reynolds }
{
    if asked {
        turbulent_friction(reynolds)
    } else {
        0.0
    }
}

// The flow at a Reynolds and a Mach number. Whether the turbulent friction is asked for below Mach 1 too is the caller's to say: where
// the roughness limits it isn't read.
#[tactic(auto, unfolding(crate::specs::Flows::flow_of))]
pub fn flow_of(asked: bool, reynolds: f64, mach: f64) -> Result<Flow, AeroError>
    ensures { result ≡ flow_of asked reynolds mach }
{
    check_flow(mach, reynolds)?;
    let m2 = mach * mach;
    if mach < 1.0 {
        return Ok(Flow::Subsonic {
            reynolds,
            turbulent: turbulent_where(asked, reynolds),
            factor: 1.0 - 0.1 * m2,
        });
    }
    Ok(Flow::Supersonic {
        reynolds,
        turbulent: turbulent_friction(reynolds) / elementary::powf(1.0 + 0.15 * m2, 0.58),
        factor: 1.0 + 0.18 * m2,
    })
}

// One friction where the roughness of a wall limits, the other where it doesn't; a roughness refused is handed on.
fn on_wall(wall: Wall, reynolds: f64, rough: f64, smooth: f64) -> Result<f64, AeroError>
    ensures { result ≡ on_wall wall reynolds (λ limited x. cond limited rough smooth) }
{
    if LOW_REYNOLDS <= reynolds && reynolds >= wall.critical? {
        Ok(rough)
    } else {
        Ok(smooth)
    }
}

// Skin friction on a wall in a flow (eq. 3.82 to 3.84).
#[tactic(auto, unfolding(crate::specs::Flows::friction_in), using(aero_error::proofs::HandedOn::handed_on))]
pub fn friction_in(wall: Wall, flow: Result<Flow, AeroError>) -> Result<f64, AeroError>
    ensures { result ≡ friction_in wall flow }
{
    match flow? {
        Flow::Subsonic {
            reynolds,
            turbulent,
            factor,
        } => on_wall(wall, reynolds, wall.limited * factor, turbulent * factor),
        Flow::Supersonic {
            reynolds,
            turbulent,
            factor,
        } => on_wall(
            wall,
            reynolds,
            max(wall.limited / factor, turbulent),
            turbulent,
        ),
    }
}

// Skin friction with compressibility on a wall.
pub fn friction_on(wall: Wall, reynolds: f64, mach: f64) -> Result<f64, AeroError>
    ensures { result ≡ friction_on wall reynolds mach }
{
    let flow = flow_of(!limits(wall, reynolds), reynolds, mach);
    friction_in(wall, flow)
}

// Skin friction with compressibility (eq. 3.82 to 3.84).
#[tactic(auto, using(crate::specs::Walls::friction_at))]
pub fn skin_friction_coefficient(
    reynolds: f64,
    relative_roughness: f64,
    mach: f64,
) -> Result<f64, AeroError>
    ensures { result ≡ skin_friction_coefficient reynolds relative_roughness mach }
{
    friction_on(wall_at(reynolds, relative_roughness), reynolds, mach)
}

// Body friction form factor 1 + 1/(2 f_B) (eq. 3.85).
#[tactic(auto, unfolding(crate::specs::Friction::body_friction_form_factor))]
pub fn body_friction_form_factor(fineness_ratio: f64) -> Result<f64, AeroError>
    ensures { result ≡ body_friction_form_factor fineness_ratio }
{
    check_dimension(Quantity::BodyFineness, fineness_ratio, false)?;
    Ok(1.0 + 0.5 / fineness_ratio)
}

// ---- pressure drag

// Stagnation-pressure ratio q_stag/q (eq. B.1).
#[tactic(auto, unfolding(crate::specs::Pressure::stagnation_pressure_ratio))]
pub fn stagnation_pressure_ratio(mach: f64) -> Result<f64, AeroError>
    ensures { result ≡ stagnation_pressure_ratio mach }
{
    check_mach_any(mach)?;
    Ok(stagnation_ratio(mach))
}

// The same at a Mach number already checked.
#[tactic(auto, unfolding(crate::specs::Pressure::stagnation_ratio))]
pub fn stagnation_ratio(mach: f64) -> f64
    ensures { result ≡ stagnation_ratio mach }
{
    let m2 = mach * mach;
    if mach < 1.0 {
        1.0 + 0.25 * m2 + m2 * m2 / 40.0
    } else {
        let i2 = 1.0 / m2;
        1.84 - 0.76 * i2 + 0.166 * i2 * i2 + 0.035 * i2 * i2 * i2
    }
}

// Pressure drag of a blunt cylinder's face (eq. B.2).
#[tactic(auto, unfolding(crate::specs::Pressure::stagnation_drag_coefficient))]
pub fn stagnation_drag_coefficient(mach: f64) -> Result<f64, AeroError>
    ensures { result ≡ stagnation_drag_coefficient mach }
{
    let ratio = stagnation_pressure_ratio(mach)?;
    Ok(0.85 * ratio)
}

// Base drag on the base area (eq. 3.94).
#[tactic(auto, unfolding(crate::specs::Pressure::base_drag_coefficient))]
pub fn base_drag_coefficient(mach: f64) -> Result<f64, AeroError>
    ensures { result ≡ base_drag_coefficient mach }
{
    check_mach_any(mach)?;
    Ok(base_drag(mach))
}

// The same at a Mach number already checked.
#[tactic(auto, unfolding(crate::specs::Pressure::base_drag))]
fn base_drag(mach: f64) -> f64
    ensures { result ≡ base_drag mach }
{
    if mach < 1.0 {
        0.12 + 0.13 * mach * mach
    } else {
        0.25 / mach
    }
}

// Pressure drag at rest of a nose or shoulder, 0.8 sin² φ (eq. 3.86), for a joint angle in [0, π/2].
#[tactic(auto, unfolding(crate::specs::Pressure::joint_pressure_drag_coefficient))]
pub fn joint_pressure_drag_coefficient(joint_angle_rad: f64) -> Result<f64, AeroError>
    ensures { result ≡ joint_pressure_drag_coefficient joint_angle_rad }
{
    let ok = is_between(0.0, joint_angle_rad, FRAC_PI_2);
    require(ok, Quantity::JointAngle, joint_angle_rad)?;
    let s = elementary::sin(joint_angle_rad);
    Ok(0.8 * s * s)
}

// The boattail rule's share of base drag by the length ratio (eq. 3.88).
#[tactic(auto, unfolding(crate::specs::Pressure::boattail_share))]
fn boattail_share(gamma: f64) -> f64
    ensures { result ≡ boattail_share gamma }
{
    if gamma <= 1.0 {
        1.0
    } else if gamma < 3.0 {
        0.5 * (3.0 - gamma)
    } else {
        0.0
    }
}

// The boattail rule of a length and two diameters that must narrow.
#[tactic(auto, unfolding(crate::specs::Pressure::boattail_factor))]
pub fn boattail_factor(
    length_m: f64,
    fore_diameter_m: f64,
    aft_diameter_m: f64,
) -> Result<f64, AeroError>
    ensures { result ≡ boattail_factor length_m fore_diameter_m aft_diameter_m }
{
    let ok = is_finite(fore_diameter_m) && fore_diameter_m > aft_diameter_m;
    check_dimension(Quantity::BoattailLength, length_m, true)?;
    check_dimension(Quantity::BoattailAft, aft_diameter_m, true)?;
    require(ok, Quantity::BoattailFore, fore_diameter_m)?;
    Ok(boattail_share(length_m / (fore_diameter_m - aft_diameter_m)))
}
