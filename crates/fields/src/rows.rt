// The listing of document 01: a row for each byte of a patch. Each of its numbers is typed here and nowhere else in code.
use crate::{Field, PLACES};

// Stands where a place has no parameter, the name and the buses, and where a number is no parameter's. A byte and no `Option`: so the rows of
// the definition have it.
pub(crate) const NONE: u8 = 255;

// The last code of 000's Table 3, Portamento Time.
const LAST_DESTINATION: u8 = 32;

// The name.
pub(crate) const R0: Field = Field(0, NONE, 0, 63);

const R1: Field = Field(1, NONE, 0, 63);

const R2: Field = Field(2, NONE, 0, 63);

const R3: Field = Field(3, NONE, 0, 63);

const R4: Field = Field(4, NONE, 0, 63);

const R5: Field = Field(5, NONE, 0, 63);

const R6: Field = Field(6, NONE, 0, 63);

const R7: Field = Field(7, NONE, 0, 63);

// The numbered fields.
const R8: Field = Field(8, 48, 0, 3);

const R9: Field = Field(9, 0, 0, 63);

const R10: Field = Field(10, 5, 0, 63);

const R11: Field = Field(11, 3, 0, 63);

const R12: Field = Field(12, 7, 0, 3);

const R13: Field = Field(13, 6, 0, 3);

const R14: Field = Field(14, 10, 0, 63);

const R15: Field = Field(15, 15, 0, 63);

const R16: Field = Field(16, 13, 0, 63);

const R17: Field = Field(17, 17, 0, 3);

const R18: Field = Field(18, 16, 0, 7);

const R19: Field = Field(19, 12, 0xE0, 0x1F);

const R20: Field = Field(20, 20, 0, 63);

const R21: Field = Field(21, 8, 0, 3);

const R22: Field = Field(22, 9, 0, 1);

const R23: Field = Field(23, 18, 0, 3);

const R24: Field = Field(24, 19, 0, 1);

const R25: Field = Field(25, 2, 0, 3);

pub(crate) const R26: Field = Field(26, 21, 0, 127);

const R27: Field = Field(27, 24, 0, 63);

const R28: Field = Field(28, 25, 0, 3);

const R29: Field = Field(29, 26, 0, 3);

const R30: Field = Field(30, 30, 0, 63);

const R31: Field = Field(31, 27, 0, 63);

const R32: Field = Field(32, 44, 0, 63);

const R33: Field = Field(33, 46, 0, 3);

const R34: Field = Field(34, 47, 0, 1);

const R35: Field = Field(35, 80, 0, 63);

const R36: Field = Field(36, 86, 0, 3);

const R37: Field = Field(37, 87, 0, 1);

const R38: Field = Field(38, 82, 0, 6);

const R39: Field = Field(39, 83, 0, 31);

const R40: Field = Field(40, 88, 0, 20);

const R41: Field = Field(41, 84, 0, 63);

const R42: Field = Field(42, 90, 0, 63);

const R43: Field = Field(43, 96, 0, 3);

const R44: Field = Field(44, 97, 0, 1);

const R45: Field = Field(45, 92, 0, 6);

const R46: Field = Field(46, 93, 0, 31);

const R47: Field = Field(47, 98, 0, 20);

const R48: Field = Field(48, 94, 0, 63);

const R49: Field = Field(49, 57, 0, 7);

const R50: Field = Field(50, 50, 0, 63);

const R51: Field = Field(51, 51, 0, 63);

const R52: Field = Field(52, 52, 0, 63);

const R53: Field = Field(53, 53, 0, 63);

const R54: Field = Field(54, 54, 0, 63);

const R55: Field = Field(55, 55, 0, 63);

const R56: Field = Field(56, 59, 0, 3);

const R57: Field = Field(57, 58, 0, 3);

const R58: Field = Field(58, 67, 0, 7);

const R59: Field = Field(59, 60, 0, 63);

const R60: Field = Field(60, 61, 0, 63);

const R61: Field = Field(61, 62, 0, 63);

const R62: Field = Field(62, 63, 0, 63);

const R63: Field = Field(63, 64, 0, 63);

const R64: Field = Field(64, 65, 0, 63);

const R65: Field = Field(65, 69, 0, 3);

const R66: Field = Field(66, 68, 0, 3);

const R67: Field = Field(67, 77, 0, 7);

const R68: Field = Field(68, 70, 0, 63);

const R69: Field = Field(69, 71, 0, 63);

const R70: Field = Field(70, 72, 0, 63);

const R71: Field = Field(71, 73, 0, 63);

const R72: Field = Field(72, 74, 0, 63);

const R73: Field = Field(73, 75, 0, 63);

const R74: Field = Field(74, 79, 0, 3);

const R75: Field = Field(75, 78, 0, 3);

const R76: Field = Field(76, 33, 1, 20);

const R77: Field = Field(77, 34, 0, 63);

const R78: Field = Field(78, 35, 0, 63);

const R79: Field = Field(79, 36, 0, 63);

const R80: Field = Field(80, 37, 0, 63);

const R81: Field = Field(81, 38, 0, 63);

const R82: Field = Field(82, 40, 0, 63);

const R83: Field = Field(83, 41, 0, 3);

const R84: Field = Field(84, 42, 0, 63);

const R85: Field = Field(85, 43, 0, 3);

// Signed amounts.
const R86: Field = Field(86, 1, 0xC0, 0x3F);

const R87: Field = Field(87, 4, 0xC0, 0x3F);

const R88: Field = Field(88, 11, 0xC0, 0x3F);

const R89: Field = Field(89, 14, 0xC0, 0x3F);

const R90: Field = Field(90, 22, 0xC0, 0x3F);

const R91: Field = Field(91, 23, 0xC0, 0x3F);

const R92: Field = Field(92, 28, 0xC0, 0x3F);

const R93: Field = Field(93, 29, 0xC0, 0x3F);

const R94: Field = Field(94, 56, 0xC0, 0x3F);

const R95: Field = Field(95, 66, 0xC0, 0x3F);

const R96: Field = Field(96, 76, 0xC0, 0x3F);

const R97: Field = Field(97, 85, 0xC0, 0x3F);

const R98: Field = Field(98, 95, 0xC0, 0x3F);

const R99: Field = Field(99, 45, 0xC0, 0x3F);

const R100: Field = Field(100, 31, 0xC0, 0x3F);

const R101: Field = Field(101, 32, 0xC0, 0x3F);

const R102: Field = Field(102, 81, 0xC0, 0x3F);

const R103: Field = Field(103, 91, 0xC0, 0x3F);

// The ten buses: source, amount, destination.
pub(crate) const R104: Field = Field(104, NONE, 0, 20);

pub(crate) const R105: Field = Field(105, NONE, 0xC0, 0x3F);

pub(crate) const R106: Field = Field(106, NONE, 0, LAST_DESTINATION);

const R107: Field = Field(107, NONE, 0, 20);

const R108: Field = Field(108, NONE, 0xC0, 0x3F);

const R109: Field = Field(109, NONE, 0, LAST_DESTINATION);

const R110: Field = Field(110, NONE, 0, 20);

const R111: Field = Field(111, NONE, 0xC0, 0x3F);

const R112: Field = Field(112, NONE, 0, LAST_DESTINATION);

const R113: Field = Field(113, NONE, 0, 20);

const R114: Field = Field(114, NONE, 0xC0, 0x3F);

const R115: Field = Field(115, NONE, 0, LAST_DESTINATION);

const R116: Field = Field(116, NONE, 0, 20);

const R117: Field = Field(117, NONE, 0xC0, 0x3F);

const R118: Field = Field(118, NONE, 0, LAST_DESTINATION);

const R119: Field = Field(119, NONE, 0, 20);

const R120: Field = Field(120, NONE, 0xC0, 0x3F);

const R121: Field = Field(121, NONE, 0, LAST_DESTINATION);

const R122: Field = Field(122, NONE, 0, 20);

const R123: Field = Field(123, NONE, 0xC0, 0x3F);

const R124: Field = Field(124, NONE, 0, LAST_DESTINATION);

const R125: Field = Field(125, NONE, 0, 20);

const R126: Field = Field(126, NONE, 0xC0, 0x3F);

const R127: Field = Field(127, NONE, 0, LAST_DESTINATION);

const R128: Field = Field(128, NONE, 0, 20);

const R129: Field = Field(129, NONE, 0xC0, 0x3F);

const R130: Field = Field(130, NONE, 0, LAST_DESTINATION);

const R131: Field = Field(131, NONE, 0, 20);

const R132: Field = Field(132, NONE, 0xC0, 0x3F);

const R133: Field = Field(133, NONE, 0, LAST_DESTINATION);

// The whole listing: 134 rows of four numbers. They have names since a constant's value that cites the table counts all of it, and then the
// tables below were too large.
pub static FIELDS: [Field; PLACES] = [
    R0, R1, R2, R3, R4, R5, R6, R7, R8, R9, R10, R11, R12, R13, R14, R15, R16, R17, R18, R19, R20,
    R21, R22, R23, R24, R25, R26, R27, R28, R29, R30, R31, R32, R33, R34, R35, R36, R37, R38, R39,
    R40, R41, R42, R43, R44, R45, R46, R47, R48, R49, R50, R51, R52, R53, R54, R55, R56, R57, R58,
    R59, R60, R61, R62, R63, R64, R65, R66, R67, R68, R69, R70, R71, R72, R73, R74, R75, R76, R77,
    R78, R79, R80, R81, R82, R83, R84, R85, R86, R87, R88, R89, R90, R91, R92, R93, R94, R95, R96,
    R97, R98, R99, R100, R101, R102, R103, R104, R105, R106, R107, R108, R109, R110, R111, R112,
    R113, R114, R115, R116, R117, R118, R119, R120, R121, R122, R123, R124, R125, R126, R127, R128,
    R129, R130, R131, R132, R133,
];

// Two columns, for the test of a patch: where its bytes are compared sixteen at once, their bounds have to lie side by side. By the rows a pass
// over them takes two and a half times as long.
pub static LEAST: [u8; PLACES] = [
    R0.2, R1.2, R2.2, R3.2, R4.2, R5.2, R6.2, R7.2, R8.2, R9.2, R10.2, R11.2, R12.2, R13.2, R14.2,
    R15.2, R16.2, R17.2, R18.2, R19.2, R20.2, R21.2, R22.2, R23.2, R24.2, R25.2, R26.2, R27.2,
    R28.2, R29.2, R30.2, R31.2, R32.2, R33.2, R34.2, R35.2, R36.2, R37.2, R38.2, R39.2, R40.2,
    R41.2, R42.2, R43.2, R44.2, R45.2, R46.2, R47.2, R48.2, R49.2, R50.2, R51.2, R52.2, R53.2,
    R54.2, R55.2, R56.2, R57.2, R58.2, R59.2, R60.2, R61.2, R62.2, R63.2, R64.2, R65.2, R66.2,
    R67.2, R68.2, R69.2, R70.2, R71.2, R72.2, R73.2, R74.2, R75.2, R76.2, R77.2, R78.2, R79.2,
    R80.2, R81.2, R82.2, R83.2, R84.2, R85.2, R86.2, R87.2, R88.2, R89.2, R90.2, R91.2, R92.2,
    R93.2, R94.2, R95.2, R96.2, R97.2, R98.2, R99.2, R100.2, R101.2, R102.2, R103.2, R104.2,
    R105.2, R106.2, R107.2, R108.2, R109.2, R110.2, R111.2, R112.2, R113.2, R114.2, R115.2, R116.2,
    R117.2, R118.2, R119.2, R120.2, R121.2, R122.2, R123.2, R124.2, R125.2, R126.2, R127.2, R128.2,
    R129.2, R130.2, R131.2, R132.2, R133.2,
];

// How far the greatest value of a row is above its least, as bytes: where the least is above, the range goes on from 255 to 0.
macro_rules! width {
    ($row:ident) => {
        (($row.3 as u16 + 256 - $row.2 as u16) % 256) as u8
    };
}

pub static WIDTH: [u8; PLACES] = [
    width!(R0),
    width!(R1),
    width!(R2),
    width!(R3),
    width!(R4),
    width!(R5),
    width!(R6),
    width!(R7),
    width!(R8),
    width!(R9),
    width!(R10),
    width!(R11),
    width!(R12),
    width!(R13),
    width!(R14),
    width!(R15),
    width!(R16),
    width!(R17),
    width!(R18),
    width!(R19),
    width!(R20),
    width!(R21),
    width!(R22),
    width!(R23),
    width!(R24),
    width!(R25),
    width!(R26),
    width!(R27),
    width!(R28),
    width!(R29),
    width!(R30),
    width!(R31),
    width!(R32),
    width!(R33),
    width!(R34),
    width!(R35),
    width!(R36),
    width!(R37),
    width!(R38),
    width!(R39),
    width!(R40),
    width!(R41),
    width!(R42),
    width!(R43),
    width!(R44),
    width!(R45),
    width!(R46),
    width!(R47),
    width!(R48),
    width!(R49),
    width!(R50),
    width!(R51),
    width!(R52),
    width!(R53),
    width!(R54),
    width!(R55),
    width!(R56),
    width!(R57),
    width!(R58),
    width!(R59),
    width!(R60),
    width!(R61),
    width!(R62),
    width!(R63),
    width!(R64),
    width!(R65),
    width!(R66),
    width!(R67),
    width!(R68),
    width!(R69),
    width!(R70),
    width!(R71),
    width!(R72),
    width!(R73),
    width!(R74),
    width!(R75),
    width!(R76),
    width!(R77),
    width!(R78),
    width!(R79),
    width!(R80),
    width!(R81),
    width!(R82),
    width!(R83),
    width!(R84),
    width!(R85),
    width!(R86),
    width!(R87),
    width!(R88),
    width!(R89),
    width!(R90),
    width!(R91),
    width!(R92),
    width!(R93),
    width!(R94),
    width!(R95),
    width!(R96),
    width!(R97),
    width!(R98),
    width!(R99),
    width!(R100),
    width!(R101),
    width!(R102),
    width!(R103),
    width!(R104),
    width!(R105),
    width!(R106),
    width!(R107),
    width!(R108),
    width!(R109),
    width!(R110),
    width!(R111),
    width!(R112),
    width!(R113),
    width!(R114),
    width!(R115),
    width!(R116),
    width!(R117),
    width!(R118),
    width!(R119),
    width!(R120),
    width!(R121),
    width!(R122),
    width!(R123),
    width!(R124),
    width!(R125),
    width!(R126),
    width!(R127),
    width!(R128),
    width!(R129),
    width!(R130),
    width!(R131),
    width!(R132),
    width!(R133),
];

// How many parameter numbers there are.
const PARAMETERS: usize = 100;

// The place of each parameter: that of the row which has it.
pub(crate) static PLACE_OF: [u8; PARAMETERS] = [
    R9.0, R86.0, R25.0, R11.0, R87.0, R10.0, R13.0, R12.0, R21.0, R22.0, R14.0, R88.0, R19.0,
    R16.0, R89.0, R15.0, R18.0, R17.0, R23.0, R24.0, R20.0, R26.0, R90.0, R91.0, R27.0, R28.0,
    R29.0, R31.0, R92.0, R93.0, R30.0, R100.0, R101.0, R76.0, R77.0, R78.0, R79.0, R80.0, R81.0,
    NONE, R82.0, R83.0, R84.0, R85.0, R32.0, R99.0, R33.0, R34.0, R8.0, NONE, R50.0, R51.0, R52.0,
    R53.0, R54.0, R55.0, R94.0, R49.0, R57.0, R56.0, R59.0, R60.0, R61.0, R62.0, R63.0, R64.0,
    R95.0, R58.0, R66.0, R65.0, R68.0, R69.0, R70.0, R71.0, R72.0, R73.0, R96.0, R67.0, R75.0,
    R74.0, R35.0, R102.0, R38.0, R39.0, R41.0, R97.0, R36.0, R37.0, R40.0, NONE, R42.0, R103.0,
    R45.0, R46.0, R48.0, R98.0, R43.0, R44.0, R47.0, NONE,
];
