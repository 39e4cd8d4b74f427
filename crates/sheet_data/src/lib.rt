// What a sheet is (docs/REFERENCE.md, Sheet): settings, parts, design and sheet, their bounds, and the tests that a sheet given has
// to pass. `layout` says where the cells lie, and `rows` reads them by row. All go by value; an array has room for as many as there
// may be, and what stands past the count is not looked at. A count stands beside its array, since C lends it as it is and there is
// no heap for a Vec; Machs and Reynolds numbers are two arrays: rows, text and C take the Machs alone.
#![tactic(auto)]

ghost use Rattle.std.specs.Prelude.{◌≡◌};
ghost use Rattle.sheet_data.specs.Contents.{empty_part, blank};

pub mod checks;
pub mod layout;
pub mod rows;

use layout::{COLUMNS, FINISHES, PARTS};
use shapes::NoseShape;

// The reference diameter D, `finishes` roughnesses, the body fineness B, and `count` columns of a Mach
// and a Reynolds number.
#[derive(Clone, Copy, Debug, PartialEq)]
pub struct Settings {
    pub reference_diameter: f64,
    pub finishes: usize,
    pub roughnesses: [f64; FINISHES],
    pub body_fineness: f64,
    pub count: usize,
    pub machs: [f64; COLUMNS],
    pub reynolds: [f64; COLUMNS],
}

// A part: its shape, length L, aft diameter d, joint angle, wetted ratio w, and a roughness of its own in every finish, where it hasn't the settings' ones.
#[derive(Clone, Copy, Debug, PartialEq)]
pub struct Part {
    pub shape: NoseShape,
    pub length: f64,
    pub aft_diameter: f64,
    pub joint_angle: f64,
    pub wetted_ratio: f64,
    pub roughness: Option<f64>,
}

// `count` parts in places 0, 1, ..
#[derive(Clone, Copy, Debug, PartialEq)]
pub struct Design {
    pub count: usize,
    pub parts: [Part; PARTS],
}

// A sheet: the settings, the design that is looked at under them, and the nozzle diameter n, 0 when coasting.
#[derive(Clone, Copy, Debug, PartialEq)]
pub struct Sheet {
    pub settings: Settings,
    pub design: Design,
    pub nozzle_diameter: f64,
}

impl Part {
    // What stands in a place that was never filled.
    pub fn empty() -> Part
        ensures { result ≡ empty_part }
    {
        Part {
            shape: NoseShape::Conical,
            length: 0.0,
            aft_diameter: 0.0,
            joint_angle: 0.0,
            wetted_ratio: 0.0,
            roughness: None,
        }
    }
}

impl Sheet {
    // A sheet with no parts, coasting.
    pub fn blank(settings: Settings) -> Sheet
        ensures { result ≡ blank settings }
    {
        let empty = Part::empty();
        Sheet {
            settings,
            design: Design {
                count: 0,
                parts: [empty; PARTS],
            },
            nozzle_diameter: 0.0,
        }
    }
}
