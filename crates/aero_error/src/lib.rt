// The refusals of every layer, with their numbers (docs/REFERENCE.md, Refusals), and the tests that give refusal 1 (error.rs). A test
// answers `Result<(), AeroError>` and a formula `Result<f64, AeroError>`, so that a caller hands a refusal on by `?`.
#![tactic(auto)]

ghost use Rattle.std.specs.Prelude.{◌≡◌};
ghost use Rattle.aero_error.specs.Refusals.{code_of_quantity, Coded, number_of_rule, number_of, code_of, refused_value};
ghost use Rattle.aero_error.specs.Checks.{required, dimension, unless};

// What a refused value is: the Rust's `what`, in the order of its codes 1 to 22 (docs/REFERENCE.md, Codes).
#[derive(Clone, Copy, Debug, PartialEq, Eq)]
pub enum Quantity {
    Mach = 1,
    Fineness = 2,
    JointAngle = 3,
    PowerExponent = 4,
    ParabolicParameter = 5,
    HaackParameter = 6,
    EllipsoidFineness = 7,
    EllipsoidMach = 8,
    OgiveKappa = 9,
    FinenessThreeDrag = 10,
    BluntDrag = 11,
    TransonicLowerBound = 12,
    DragAtRest = 13,
    DragAtLowerBound = 14,
    SlopeAtLowerBound = 15,
    MachBelowLowerBound = 16,
    Reynolds = 17,
    Roughness = 18,
    BodyFineness = 19,
    BoattailLength = 20,
    BoattailAft = 21,
    BoattailFore = 22,
}

// A rule that a refusal other than 1 names, in the order of the numbers.
#[derive(Clone, Copy, Debug, PartialEq, Eq)]
pub enum Rule {
    OgiveRadiusRatio = 2,
    HaackAboveThird = 3,
    CardEnds = 4,
    ReservedBit = 5,
    FieldMissing = 6,
    TooManyColumns = 7,
    NoSuchPlace = 8,
    DesignFull = 9,
    TooFewCells = 10,
    OutsideInterval = 11,
    FallingMach = 16,
    FinishCount = 19,
}

// A refusal: a value outside its domain, which is refusal 1, or a broken rule.
#[derive(Clone, Copy, Debug, PartialEq)]
pub enum AeroError {
    Domain { what: Quantity, value: f64 },
    Broken(Rule),
}

impl Quantity {
    // Its code, 1 to 22 (docs/REFERENCE.md, Codes).
    pub fn code(self) -> u8
        ensures { result ≡ code_of_quantity self }
    {
        self as u8
    }
}

// A code that names no quantity.
#[derive(Clone, Copy, Debug, PartialEq, Eq)]
pub struct NoSuchQuantity(pub u32);

impl TryFrom<u32> for Quantity {
    type Error = NoSuchQuantity;

    ghost try_from_gives = { Coded };

    fn try_from(code: u32) -> Result<Quantity, NoSuchQuantity> {
        match code {
            1 => Ok(Quantity::Mach),
            2 => Ok(Quantity::Fineness),
            3 => Ok(Quantity::JointAngle),
            4 => Ok(Quantity::PowerExponent),
            5 => Ok(Quantity::ParabolicParameter),
            6 => Ok(Quantity::HaackParameter),
            7 => Ok(Quantity::EllipsoidFineness),
            8 => Ok(Quantity::EllipsoidMach),
            9 => Ok(Quantity::OgiveKappa),
            10 => Ok(Quantity::FinenessThreeDrag),
            11 => Ok(Quantity::BluntDrag),
            12 => Ok(Quantity::TransonicLowerBound),
            13 => Ok(Quantity::DragAtRest),
            14 => Ok(Quantity::DragAtLowerBound),
            15 => Ok(Quantity::SlopeAtLowerBound),
            16 => Ok(Quantity::MachBelowLowerBound),
            17 => Ok(Quantity::Reynolds),
            18 => Ok(Quantity::Roughness),
            19 => Ok(Quantity::BodyFineness),
            20 => Ok(Quantity::BoattailLength),
            21 => Ok(Quantity::BoattailAft),
            22 => Ok(Quantity::BoattailFore),
            _ => Err(NoSuchQuantity(code)),
        }
    }
}

impl Rule {
    // The table's number, from 2 on.
    pub fn number(self) -> u8
        ensures { result ≡ number_of_rule self }
    {
        self as u8
    }
}

impl AeroError {
    // The refusal's number (docs/REFERENCE.md, Refusals).
    pub fn number(self) -> u8
        ensures { result ≡ number_of self }
    {
        match self {
            AeroError::Domain { what: _, value: _ } => 1,
            AeroError::Broken(rule) => rule.number(),
        }
    }

    // The code that refusal 1 adds, and 0 with any other.
    pub fn code(self) -> u8
        ensures { result ≡ code_of self }
    {
        match self {
            AeroError::Domain { what, value: _ } => what.code(),
            AeroError::Broken(_) => 0,
        }
    }

    // The value that refusal 1 adds, and +0 with any other.
    pub fn value(self) -> f64
        ensures { result ≡ refused_value self }
    {
        match self {
            AeroError::Domain { what: _, value } => value,
            AeroError::Broken(_) => 0.0,
        }
    }
}

// A test, then refusal 1 with this quantity and value.
pub fn require(ok: bool, what: Quantity, value: f64) -> Result<(), AeroError>
    ensures { result ≡ required ok what value }
{
    if ok {
        Ok(())
    } else {
        Err(AeroError::Domain { what, value })
    }
}

// The rule's refusal where it is broken.
pub fn unless(broken: bool, rule: Rule) -> Result<(), AeroError>
    ensures { result ≡ unless broken rule }
{
    if broken {
        Err(AeroError::Broken(rule))
    } else {
        Ok(())
    }
}

// Finite and positive, or zero of either sign where zero is allowed.
#[tactic(auto, unfolding(crate::specs::Checks::dimension))]
fn is_dimension(value: f64, allow_zero: bool) -> bool
    ensures { result ≡ dimension value allow_zero }
{
    elementary::is_finite(value) && (value > 0.0 || (allow_zero && value == 0.0))
}

pub fn check_dimension(what: Quantity, value: f64, allow_zero: bool) -> Result<(), AeroError>
    ensures { result ≡ required (dimension value allow_zero) what value }
{
    require(is_dimension(value, allow_zero), what, value)
}
