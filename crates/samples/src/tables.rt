// The tables A (2 3), B (3 2), C (2 2) and a scalar D, and the same rounded up to multiples of 4.
use shapes::declaration::Declaration;

const A: Declaration = Declaration {
    rank: 2,
    extents: [2, 3, 0, 0],
};

const B: Declaration = Declaration {
    rank: 2,
    extents: [3, 2, 0, 0],
};

const C: Declaration = Declaration {
    rank: 2,
    extents: [2, 2, 0, 0],
};

const D: Declaration = Declaration {
    rank: 0,
    extents: [0; 4],
};

const SQUARE: Declaration = Declaration {
    rank: 2,
    extents: [4, 4, 0, 0],
};

pub const TABLES: [Declaration; 3] = [A, B, C];

pub const WIDE: [Declaration; 3] = [SQUARE; 3];

pub const WITH_SCALAR: [Declaration; 4] = [A, B, C, D];

pub const WIDE_WITH_SCALAR: [Declaration; 4] = [SQUARE, SQUARE, SQUARE, D];
