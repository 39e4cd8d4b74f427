// Checks the last two rows of docs/REFERENCE.md, Values, by running: a line for each, compared with the file stdout. The others are a theorem,
// in specs/.
#![tactic(auto)]

use aero_error::AeroError;
use drag::joint_pressure_drag_coefficient;
use nose_drag::PressureDragCurve;
use shapes::NoseShape;

// The descriptor of standard output. Lines are written by hand: std's `println!` stands on two axioms of os (errno and strerror_r) that no program
// here stands on.
const STDOUT_FILENO: i32 = 1;

// What was asked, and whether a value or which refusal came.
fn write_line<T: Drop>(asked: &[u8], answer: Result<T, AeroError>) {
    io::write_all(STDOUT_FILENO, asked);
    match answer {
        Ok(_) => {
            io::write_all(STDOUT_FILENO, b" passes\n");
        }
        Err(refusal) => {
            io::write_all(STDOUT_FILENO, b" refused ");
            io::print_decimal(STDOUT_FILENO, u64::from(refusal.number()));
            io::write_all(STDOUT_FILENO, b" code ");
            io::print_decimal(STDOUT_FILENO, u64::from(refusal.code()));
            io::write_all(STDOUT_FILENO, b"\n");
        }
    }
}

// Haack's parameter at 1/3, and at the next number up.
fn write_haack() {
    let third = NoseShape::Haack {
        parameter: elementary::from_bits(0x3fd5555555555555),
    };
    let above = NoseShape::Haack {
        parameter: elementary::from_bits(0x3fd5555555555556),
    };
    write_line(
        b"Haack 3fd5555555555555",
        PressureDragCurve::new(third, 3.0, 0.0),
    );
    write_line(
        b"Haack 3fd5555555555556",
        PressureDragCurve::new(above, 3.0, 0.0),
    );
}

fn main() {
    let quarter = elementary::from_bits(0x3ff921fb54442d18);
    let above = elementary::from_bits(0x3ff921fb54442d19);
    write_line(
        b"joint angle 3ff921fb54442d18",
        joint_pressure_drag_coefficient(quarter),
    );
    write_line(
        b"joint angle 3ff921fb54442d19",
        joint_pressure_drag_coefficient(above),
    );
    write_haack();
}
