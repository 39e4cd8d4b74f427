// A whole flight in one pass (docs/REFERENCE.md, Walk): the values of one of Stoney's tables at up to 256 Mach numbers, each at or above the one
// before, in one walk along the table, with the number of times that a query was set against a table point. All is tested before the first
// answer is written.
#![tactic(auto)]

ghost use Rattle.std.specs.Prelude.{◌≡◌, ◌+◌, ◌≤◌, length};
ghost use Rattle.walk.specs.Tests.{given_test, rising_test};
ghost use Rattle.walk.specs.Walk.{went, read_at, walk_from};
ghost use Rattle.walk.specs.Answers.{Answered};
ghost use Rattle.walk.specs.Walker.{stand, stood, after, at_first, WalkMade};

use aero_error::{AeroError, Rule, unless};
use stoney::{StoneyNose, StoredPoint};

// The most Mach numbers of one flight.
pub const QUERIES: usize = 256;

// Where a walk along a table stands: the last point that it passed, the points from the current one on, and how many times a query was set
// against one.
#[derive(Drop)]
struct Walker<'a> {
    passed: Option<StoredPoint>,
    ahead: &'a [StoredPoint],
    compared: usize,
}

// Room for the queries and their answers, then every Mach number by itself.
fn check_given(machs: &[f64], cells: usize) -> Result<(), AeroError>
    ensures { result ≡ given_test machs.now cells }
{
    let count = machs.len();
    unless(QUERIES < count, Rule::TooFewCells)?;
    unless(cells < count, Rule::TooFewCells)?;
    drag::check_machs(machs)
}

// No Mach number is below its forerunner.
fn check_rising(machs: &[f64]) -> Result<(), AeroError>
    ensures { result ≡ rising_test machs.now }
{
    let rises = machs.is_sorted_by(|before, mach| !(mach < before));
    unless(!rises, Rule::FallingMach)
}

impl Walker<'_> {
    // One query, from where the one before ended: it is set against the current point and moves one on while that point is at or below it.
    fn advance(&mut self, mach: f64)
        requires { self.old.compared + length self.old.ahead.now ≤ usize.MAX }
        ensures made { stood self.new ≡ after self.old.compared (went (stand self.old) mach) }
        ensures room { self.new.compared + length self.new.ahead.now ≤ self.old.compared + length self.old.ahead.now + 1 }
    {
        // No `for`: the walker keeps what is ahead of it for the next query.
        while let [point, rest @ ..] = self.ahead {
            self.compared += 1;
            if point.mach <= mach {
                self.passed = Some(*point);
                self.ahead = rest;
            } else {
                return;
            }
        }
    }

    // What the table says at `mach`, where its query ends.
    fn value(&self, mach: f64) -> f64
        ensures { result ≡ (read_at (stand self.now) mach).value }
    {
        match (self.passed, self.ahead) {
            (None, []) => 0.0,
            (None, [first, ..]) => first.run_down(mach).value,
            (Some(last), []) => last.drag,
            (Some(last), [next, ..]) => last.line_to(*next, mach).value,
        }
    }
}

// All queries, one after the other, and how many comparisons they made.
#[tactic(auto, using(crate::proofs::Turns::none_left))]
fn walk_along(table: &[StoredPoint], queries: &[f64], answers: &mut [f64]) -> usize
    requires { length queries.now ≤ length answers.old }
    ensures { WalkMade (walk_from (at_first table.now) queries.now) answers.old result answers.new }
{
    let mut walker = Walker {
        passed: None,
        ahead: table,
        compared: 0,
    };
    // The answers by place: of what is written through a zip nothing is known.
    for (i, mach) in queries.iter().enumerate() {
        walker.advance(*mach);
        answers[i] = walker.value(*mach);
    }
    walker.compared
}

// The nose's value at each of these Mach numbers, into the first answers, and how many times a query was set against a point.
pub fn values(nose: StoneyNose, machs: &[f64], answers: &mut [f64]) -> Result<usize, AeroError>
    ensures { Answered nose machs.now answers.old result answers.new }
{
    check_given(machs, answers.len())?;
    check_rising(machs)?;
    Ok(walk_along(nose.table(), machs, answers))
}
