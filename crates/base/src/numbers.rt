// The numbers that have a name: the index that is none, the refusals in the order in which they are tried, the tolerance and the limits; and an index as a length.
ghost use Rattle.std.specs.Prelude.{◌≡◌};

// An unpaired half-edge, a cleared entry, a site without half-edges.
pub const EMPTY: u32 = 4294967295;

// 2^-50, inclusive, on the computed difference.
pub const TOLERANCE: f64 = 8.881784197001252e-16;

// The limit of a coordinate and of a box's size, 2^100.
pub const LARGE: f64 = 1267650600228229401496703205376.0;

// The limit of an edge that is given itself, 2^101.
pub const EDGE: f64 = 2535301200456458802993406410752.0;

// The limit of a circumcenter's coordinate, 2^400.
pub const HUGE: f64 =
    2582249878086908589655919172003011874329705792829223512830659356540647622016841194629645353280137831435903171972747493376.0;

// docs/use/RULES.md says when each is given.
pub const REFUSED_COUNT: u32 = 1;

pub const REFUSED_ROOM: u32 = 2;

pub const REFUSED_BOX: u32 = 3;

pub const REFUSED_SITE: u32 = 4;

pub const REFUSED_DESTINATION: u32 = 5;

pub const REFUSED_COORDINATE: u32 = 6;

pub const REFUSED_TRIANGLE: u32 = 7;

pub const REFUSED_PAIRING: u32 = 8;

pub const REFUSED_HULL: u32 = 9;

pub const REFUSED_FAN: u32 = 10;

pub const REFUSED_CIRCUMCENTER: u32 = 11;

pub const REFUSED_EXTENSION: u32 = 12;

pub const REFUSED_NO_CROSSING: u32 = 13;

pub const REFUSED_ONE_CROSSING: u32 = 14;

pub const REFUSED_OFFSETS: u32 = 16;

pub const REFUSED_FORM: u32 = 17;

pub const REFUSED_ENTRY: u32 = 18;

pub const REFUSED_TWICE: u32 = 19;

pub const REFUSED_UNCLIPPED: u32 = 20;

pub const REFUSED_POINTS: u32 = 21;

pub const REFUSED_GRID: u32 = 22;

pub const REFUSED_FLIP: u32 = 23;

pub const REFUSED_CORNER: u32 = 24;

// An index as a length: of 64 bits, nothing is lost.
pub fn wide(x: u32) -> usize
    ensures { result ≡ x }
{
    x as usize
}
