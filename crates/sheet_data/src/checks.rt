// The tests of what a call is given, in the order of docs/REFERENCE.md, Order of tests: the settings, a part, and a whole sheet with the number of cells
// lent.
ghost use Rattle.std.specs.Prelude.{◌≡◌, ◌≤◌};
ghost use Rattle.sheet_data.specs.Layout.{most_parts, most_columns, most_finishes};
ghost use Rattle.sheet_data.specs.Contents.{parts_of, contents_of};
ghost use Rattle.sheet_data.specs.Tests.{in_interval, own_test, columns_test, finishes_test, roughnesses_test, body_test, settings_test, nozzle_test, part_test, parts_test, sheet_test};

use crate::layout::{COLUMNS, FINISHES, Layout, PARTS};
use crate::{Design, Part, Settings, Sheet};
use aero_error::{AeroError, Quantity, Rule, unless};

// The ends of the house intervals, each interval with both ends in it.
pub const LEAST_REFERENCE: f64 = 0.001;

pub const MOST_LENGTH: f64 = 100.0;

pub const MOST_ROUGHNESS: f64 = 1.0;

pub const MOST_WETTED: f64 = 10000.0;

fn in_interval(low: f64, x: f64, high: f64) -> Result<(), AeroError>
    ensures { result ≡ in_interval low x high }
{
    unless(!elementary::is_between(low, x, high), Rule::OutsideInterval)
}

#[tactic(auto, unfolding(crate::specs::Tests::columns_test), using(aero_error::specs::CheckLaws::up_none, aero_error::specs::CheckLaws::up_end, aero_error::proofs::HandedOn::one_more))]
fn check_columns(settings: Settings) -> Result<(), AeroError>
    requires { settings.count ≤ most_columns }
    ensures { result ≡ columns_test settings }
{
    let machs = &settings.machs[..settings.count];
    let reynolds = &settings.reynolds[..settings.count];
    for (mach, reynolds) in machs.iter().zip(reynolds) {
        drag::check_flow(*mach, *reynolds)?;
    }
    Ok(())
}

// The number of finishes, of settings or in a card.
pub fn check_finishes(finishes: usize) -> Result<(), AeroError>
    ensures { result ≡ finishes_test finishes }
{
    unless(finishes == 0 || FINISHES < finishes, Rule::FinishCount)
}

#[tactic(auto, unfolding(crate::specs::Tests::roughnesses_test), using(aero_error::specs::CheckLaws::up_none, aero_error::specs::CheckLaws::up_end, aero_error::proofs::HandedOn::one_more))]
fn check_roughnesses(settings: Settings) -> Result<(), AeroError>
    requires { settings.finishes ≤ most_finishes }
    ensures { result ≡ roughnesses_test settings }
{
    for roughness in &settings.roughnesses[..settings.finishes] {
        in_interval(0.0, *roughness, MOST_ROUGHNESS)?;
    }
    Ok(())
}

// D, the finishes with their roughnesses, and B.
fn check_body(settings: Settings) -> Result<(), AeroError>
    ensures { result ≡ body_test settings }
{
    in_interval(LEAST_REFERENCE, settings.reference_diameter, MOST_LENGTH)?;
    check_finishes(settings.finishes)?;
    check_roughnesses(settings)?;
    aero_error::check_dimension(Quantity::BodyFineness, settings.body_fineness, false)
}

// The settings of a sheet for which `cells` cells are lent.
#[tactic(auto, unfolding(crate::specs::Tests::settings_test))]
pub fn check_settings(settings: Settings, cells: usize) -> Result<(), AeroError>
    ensures { result ≡ settings_test settings cells }
{
    let count = settings.count;
    unless(COLUMNS < count, Rule::TooManyColumns)?;
    check_body(settings)?;
    check_columns(settings)?;
    let layout = Layout {
        finishes: settings.finishes,
        columns: count,
    };
    unless(cells < layout.cells(), Rule::TooFewCells)
}

// A nozzle diameter, held or given.
pub fn check_nozzle(nozzle_diameter: f64) -> Result<(), AeroError>
    ensures { result ≡ nozzle_test nozzle_diameter }
{
    in_interval(0.0, nozzle_diameter, MOST_LENGTH)
}

// A roughness of a part's own.
fn check_own(roughness: Option<f64>) -> Result<(), AeroError>
    ensures { result ≡ own_test roughness }
{
    match roughness {
        None => Ok(()),
        Some(x) => in_interval(0.0, x, MOST_ROUGHNESS),
    }
}

pub fn check_part(part: Part) -> Result<(), AeroError>
    ensures { result ≡ part_test part }
{
    in_interval(0.0, part.length, MOST_LENGTH)?;
    in_interval(0.0, part.aft_diameter, MOST_LENGTH)?;
    in_interval(0.0, part.wetted_ratio, MOST_WETTED)?;
    check_own(part.roughness)
}

#[tactic(auto, unfolding(crate::specs::Tests::parts_test), using(aero_error::specs::CheckLaws::up_none, aero_error::specs::CheckLaws::up_end, aero_error::proofs::HandedOn::one_more))]
fn check_parts(design: Design) -> Result<(), AeroError>
    requires { design.count ≤ most_parts }
    ensures { result ≡ parts_test (parts_of design) }
{
    for part in &design.parts[..design.count] {
        check_part(*part)?;
    }
    Ok(())
}

// The sheet that a call is given, with `cells` cells lent.
#[tactic(auto, unfolding(crate::specs::Tests::sheet_test))]
pub fn check_sheet(sheet: Sheet, cells: usize) -> Result<(), AeroError>
    ensures { result ≡ sheet_test (contents_of sheet) cells sheet.design.count }
{
    check_settings(sheet.settings, cells)?;
    check_nozzle(sheet.nozzle_diameter)?;
    unless(PARTS < sheet.design.count, Rule::DesignFull)?;
    check_parts(sheet.design)
}
