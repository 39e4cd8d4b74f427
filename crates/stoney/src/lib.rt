// Stoney's nine measured noses (NASA TR R-100, 1961, figure 12, fineness 3) as points of Mach and pressure drag, and the value and slope that a
// table gives at any Mach number (nose_drag.rs, `StoneyNose`), with whether that Mach is beyond the table's last point. One table holds the points
// of all nine, and each nose has its range in it.
#![tactic(auto)]

ghost use Rattle.std.specs.Prelude.{◌≡◌, ◌<◌, ◌≤◌, length, OkIff};
ghost use Rattle.stoney.specs.Tables.{nose_at};
ghost use Rattle.stoney.specs.Points.{points, mach_at, drag_at, range_of, first_mach, last_mach};
ghost use Rattle.stoney.specs.Lookup.{before, line, lookup, value_and_slope, reading};

// The top of the subsonic region, where the transonic methods start (Niskanen 2009, Table 3.1, p. 47), and where a table that starts
// above it is run down to 0.
pub const SUBSONIC_MACH_LIMIT: f64 = 0.8;

// How many points the nine tables hold.
pub const POINTS: usize = 149;

macro_rules! points {
    ($(($mach:literal, $drag:literal),)*) => { [$(StoredPoint { mach: $mach, drag: $drag }),*] };
}

// All points, nose after nose: Mach, and the pressure drag on the base area.
static TABLE: [StoredPoint; POINTS] = points![
    // PowerQuarter
    (1.2, 0.141), (1.25, 0.148), (1.3, 0.1558), (1.4, 0.1689), (1.5, 0.1809), (1.6, 0.1894),
    (1.8, 0.2051), (2.0, 0.2165), (2.4, 0.2331), (2.8, 0.2441), (3.2, 0.248), (3.587, 0.2491),
    // PowerHalf
    (0.8, 0.0), (0.85, 0.0), (0.9, 0.0), (0.934, 0.0), (0.95, 0.0069), (1.0, 0.046), (1.05, 0.0597),
    (1.1, 0.0573), (1.15, 0.0675), (1.2, 0.08), (1.25, 0.0853), (1.3, 0.0851), (1.4, 0.0847),
    (1.5, 0.0856), (1.6, 0.086), (1.8, 0.0885), (1.941, 0.0898),
    // PowerThreeQuarters
    (0.8, 0.0), (0.85, 0.0), (0.87, 0.0), (0.9, 0.0131), (0.95, 0.0375), (1.0, 0.0848),
    (1.05, 0.1185), (1.057, 0.1185), (1.1, 0.1095), (1.15, 0.1089), (1.2, 0.109), (1.25, 0.1032),
    (1.3, 0.1001), (1.4, 0.097), (1.5, 0.0932), (1.6, 0.09), (1.8, 0.0847), (1.967, 0.0789),
    // ParabolaHalf
    (0.8, 0.0), (0.817, 0.0), (0.85, 0.0057), (0.9, 0.0155), (0.95, 0.0403), (1.0, 0.094),
    (1.05, 0.1231), (1.081, 0.1247), (1.1, 0.1235), (1.15, 0.1149), (1.2, 0.1139), (1.25, 0.1068),
    (1.3, 0.1009), (1.4, 0.0936), (1.5, 0.0877), (1.6, 0.0854), (1.8, 0.0854), (1.968, 0.0864),
    // ParabolaThreeQuarters
    (0.8, 0.0), (0.85, 0.0), (0.9, 0.0), (0.902, 0.0), (0.95, 0.0182), (1.0, 0.069), (1.05, 0.0889),
    (1.1, 0.1049), (1.136, 0.1078), (1.15, 0.1072), (1.2, 0.1036), (1.25, 0.0997), (1.3, 0.0932),
    (1.4, 0.0861), (1.5, 0.082), (1.6, 0.0817), (1.8, 0.0797), (1.968, 0.0814),
    // Parabola
    (0.8, 0.0), (0.85, 0.0), (0.9, 0.0), (0.95, 0.0), (0.952, 0.0), (1.0, 0.037), (1.05, 0.0898),
    (1.1, 0.1073), (1.15, 0.1149), (1.165, 0.1162), (1.2, 0.1161), (1.25, 0.1145), (1.3, 0.1134),
    (1.4, 0.1103), (1.5, 0.1078), (1.6, 0.1067), (1.8, 0.1062), (1.975, 0.1073),
    // Ellipsoid
    (1.2, 0.111), (1.25, 0.1298), (1.3, 0.14), (1.4, 0.1478), (1.5, 0.1509), (1.6, 0.1523),
    (1.8, 0.1552), (2.0, 0.1576), (2.4, 0.1601), (2.8, 0.1601), (3.2, 0.16), (3.587, 0.158),
    // LvHaack
    (0.8, 0.0), (0.85, 0.0), (0.9, 0.0), (0.915, 0.0), (0.95, 0.0077), (1.0, 0.0253), (1.05, 0.065),
    (1.1, 0.0847), (1.15, 0.095), (1.2, 0.1002), (1.25, 0.1028), (1.3, 0.107), (1.4, 0.1135),
    (1.5, 0.1156), (1.6, 0.117), (1.617, 0.1172), (1.8, 0.1155), (1.977, 0.1115),
    // VonKarman
    (0.8, 0.0), (0.85, 0.0), (0.9, 0.0), (0.915, 0.0), (0.95, 0.0077), (1.0, 0.0253),
    (1.05, 0.0581), (1.1, 0.0694), (1.15, 0.0734), (1.2, 0.0758), (1.25, 0.0779), (1.3, 0.0825),
    (1.4, 0.0879), (1.5, 0.0893), (1.553, 0.0898), (1.6, 0.0898), (1.8, 0.0869), (1.994, 0.0794),
];

// A nose that Stoney measured, in the order of the Rust's `ALL`.
#[derive(Clone, Copy, Debug, PartialEq, Eq)]
pub enum StoneyNose {
    // Power series x^1/4.
    PowerQuarter,
    // Power series x^1/2.
    PowerHalf,
    // Power series x^3/4.
    PowerThreeQuarters,
    // Half parabola, K' = 1/2.
    ParabolaHalf,
    // Three-quarter parabola, K' = 3/4.
    ParabolaThreeQuarters,
    // Full parabola, K' = 1.
    Parabola,
    // Ellipsoid, the elliptical nose.
    Ellipsoid,
    // L-V Haack, C = 1/3.
    LvHaack,
    // Von Kármán, the Haack series with C = 0.
    VonKarman,
}

// The places of one nose's points in the table: `count` of them from `first` on.
#[derive(Clone, Copy, Debug, PartialEq, Eq)]
pub struct PointRange {
    pub first: usize,
    pub count: usize,
}

// A stored point: a Mach number, and the pressure drag there.
#[derive(Clone, Copy, Debug, PartialEq)]
pub struct StoredPoint {
    pub mach: f64,
    pub drag: f64,
}

// A pressure drag coefficient and its slope in Mach.
#[derive(Clone, Copy, Debug, PartialEq)]
pub struct ValueAndSlope {
    pub value: f64,
    pub slope: f64,
}

// What a table says at a Mach number, and whether that is above the table's last Mach, so that its last value is held.
#[derive(Clone, Copy, Debug, PartialEq)]
pub struct Reading {
    pub at: ValueAndSlope,
    pub beyond: bool,
}

// The point at a place of the table; past its end both numbers are +0.
pub fn point_at(place: usize) -> StoredPoint
    ensures { (result.mach ≡ mach_at place) × (result.drag ≡ drag_at place) }
{
    if place < POINTS {
        TABLE[place]
    } else {
        StoredPoint {
            mach: 0.0,
            drag: 0.0,
        }
    }
}

impl StoredPoint {
    // Below this point, the first of its table.
    #[tactic(auto, unfolding(crate::specs::Lookup::before))]
    pub fn run_down(self, mach: f64) -> ValueAndSlope
        ensures { result ≡ before self mach }
    {
        if self.mach > SUBSONIC_MACH_LIMIT {
            if mach >= SUBSONIC_MACH_LIMIT {
                let slope = self.drag / (self.mach - SUBSONIC_MACH_LIMIT);
                ValueAndSlope {
                    value: slope * (mach - SUBSONIC_MACH_LIMIT),
                    slope,
                }
            } else {
                ValueAndSlope {
                    value: 0.0,
                    slope: 0.0,
                }
            }
        } else {
            ValueAndSlope {
                value: self.drag,
                slope: 0.0,
            }
        }
    }

    // On the line from this point to the next one.
    #[tactic(auto, unfolding(crate::specs::Lookup::line))]
    pub fn line_to(self, next: StoredPoint, mach: f64) -> ValueAndSlope
        ensures { result ≡ line self next mach }
    {
        let slope = (next.drag - self.drag) / (next.mach - self.mach);
        ValueAndSlope {
            value: self.drag + slope * (mach - self.mach),
            slope,
        }
    }
}

// What these points say at `mach`: they are walked up to the first one above it. A NaN has no point above it.
fn walk_points(points: &[StoredPoint], mach: f64) -> ValueAndSlope
    requires { 0 < length points.now }
    ensures { result ≡ lookup points.now mach }
{
    let mut last = points[0];
    if mach < last.mach {
        return last.run_down(mach);
    }
    for next in &points[1..] {
        if mach < next.mach {
            return last.line_to(*next, mach);
        }
        last = *next;
    }
    ValueAndSlope {
        value: last.drag,
        slope: 0.0,
    }
}

impl StoneyNose {
    // The nose of a number, in the order of the Rust's `ALL`; a number above 8 counts as 8. `try_from` refuses it; this one can't fail.
    pub fn of_number(number: u64) -> StoneyNose
        ensures { result ≡ nose_at number }
    {
        match number {
            0 => StoneyNose::PowerQuarter,
            1 => StoneyNose::PowerHalf,
            2 => StoneyNose::PowerThreeQuarters,
            3 => StoneyNose::ParabolaHalf,
            4 => StoneyNose::ParabolaThreeQuarters,
            5 => StoneyNose::Parabola,
            6 => StoneyNose::Ellipsoid,
            7 => StoneyNose::LvHaack,
            _ => StoneyNose::VonKarman,
        }
    }

    // Where the nose's points stand in the table.
    pub fn points(self) -> PointRange
        ensures { result ≡ range_of self }
    {
        let (first, count) = match self {
            StoneyNose::PowerQuarter => (0, 12),
            StoneyNose::PowerHalf => (12, 17),
            StoneyNose::PowerThreeQuarters => (29, 18),
            StoneyNose::ParabolaHalf => (47, 18),
            StoneyNose::ParabolaThreeQuarters => (65, 18),
            StoneyNose::Parabola => (83, 18),
            StoneyNose::Ellipsoid => (101, 12),
            StoneyNose::LvHaack => (113, 18),
            StoneyNose::VonKarman => (131, 18),
        };
        PointRange { first, count }
    }

    // The nose's points.
    pub fn table(self) -> &'static [StoredPoint]
        ensures points { result.now ≡ points self }
        ensures some { 0 < length result.now }
    {
        let range = self.points();
        &TABLE[range.first..range.first + range.count]
    }

    // The first Mach number of the nose's table.
    pub fn first_mach(self) -> f64
        ensures { result ≡ first_mach self }
    {
        self.table()[0].mach
    }

    // The last Mach number of the nose's table.
    pub fn last_mach(self) -> f64
        ensures { result ≡ last_mach self }
    {
        let table = self.table();
        table[table.len() - 1].mach
    }

    // The table's value and slope at `mach`: linear between the points, with the segment to the right at a point; the last value held past the
    // last point; a table that starts above Mach 0.8 run down to 0 there. A NaN has no point above it, so it is held like a Mach past the end.
    #[tactic(auto, unfolding(crate::specs::Lookup::value_and_slope))]
    fn at(self, mach: f64) -> ValueAndSlope
        ensures { result ≡ value_and_slope self mach }
    {
        // Each nose's walk has its own table, so that the compiler unrolls it: by `self.table()` lookups in one nose take a seventh longer.
        match self {
            StoneyNose::PowerQuarter => walk_points(StoneyNose::PowerQuarter.table(), mach),
            StoneyNose::PowerHalf => walk_points(StoneyNose::PowerHalf.table(), mach),
            StoneyNose::PowerThreeQuarters => walk_points(
                StoneyNose::PowerThreeQuarters.table(),
                mach,
            ),
            StoneyNose::ParabolaHalf => walk_points(StoneyNose::ParabolaHalf.table(), mach),
            StoneyNose::ParabolaThreeQuarters => walk_points(
                StoneyNose::ParabolaThreeQuarters.table(),
                mach,
            ),
            StoneyNose::Parabola => walk_points(StoneyNose::Parabola.table(), mach),
            StoneyNose::Ellipsoid => walk_points(StoneyNose::Ellipsoid.table(), mach),
            StoneyNose::LvHaack => walk_points(StoneyNose::LvHaack.table(), mach),
            StoneyNose::VonKarman => walk_points(StoneyNose::VonKarman.table(), mach),
        }
    }

    // The same, with whether `mach` is above the table's last Mach. A NaN isn't. Inlined, so that whoever takes the value alone compares no more, and a reading goes
    // through no memory.
    #[inline(always)]
    #[tactic(auto, unfolding(crate::specs::Lookup::beyond))]
    pub fn value_and_slope(self, mach: f64) -> Reading
        ensures { result ≡ reading self mach }
    {
        Reading {
            at: self.at(mach),
            beyond: self.last_mach() < mach,
        }
    }
}

// A number that is no nose's.
#[derive(Clone, Copy, Debug, PartialEq, Eq)]
pub struct NoSuchNose;

impl TryFrom<u32> for StoneyNose {
    type Error = NoSuchNose;

    ghost try_from_gives = { λ number r. OkIff r (number ≤ 8) (nose_at number) };

    // The nose of a number from 0 to 8, in the order of the Rust's `ALL`.
    fn try_from(number: u32) -> Result<StoneyNose, NoSuchNose> {
        if number <= 8 {
            Ok(StoneyNose::of_number(u64::from(number)))
        } else {
            Err(NoSuchNose)
        }
    }
}
