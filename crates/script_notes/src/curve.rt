// Which bytes are the x coordinate of a point of the curve secp256k1 (SEC 2, 2.4.1), or both coordinates of one.

// A number of 256 bits.
#[derive(Clone, Copy)]
struct Wide {
    high: u128,
    low: u128,
}

const ZERO: Wide = Wide { high: 0, low: 0 };

const SEVEN: Wide = Wide { high: 0, low: 7 };

// The number of elements of the field: 2^256 - 2^32 - 977.
const FIELD: Wide = Wide {
    high: 0xffff_ffff_ffff_ffff_ffff_ffff_ffff_ffff,
    low: 0xffff_ffff_ffff_ffff_ffff_fffe_ffff_fc2f,
};

// The turns that a Jacobi symbol takes at most: each halves a number, or makes it even, and two numbers have 512 bits.
const TURNS: usize = 1_024;

impl Wide {
    // The number that bytes are, the most significant first; of more than 32 bytes the last.
    fn of(bytes: &[u8]) -> Wide {
        let mut number = ZERO;
        for byte in bytes {
            number = Wide {
                high: (number.high << 8) | (number.low >> 120),
                low: (number.low << 8) | u128::from(*byte),
            };
        }
        number
    }

    fn is_below(self, other: Wide) -> bool {
        self.high < other.high || (self.high == other.high && self.low < other.low)
    }

    fn is_odd(self) -> bool {
        self.low % 2 == 1
    }

    fn plus(self, other: Wide) -> Wide {
        let low = self.low.wrapping_add(other.low);
        let carry: u128 = if low < other.low { 1 } else { 0 };
        let high = self.high.wrapping_add(other.high).wrapping_add(carry);
        Wide { high, low }
    }

    // What is left of a number that is not less.
    fn minus(self, other: Wide) -> Wide {
        let low = self.low.wrapping_sub(other.low);
        let borrow: u128 = if self.low < other.low { 1 } else { 0 };
        let high = self.high.wrapping_sub(other.high).wrapping_sub(borrow);
        Wide { high, low }
    }

    fn half(self) -> Wide {
        Wide {
            high: self.high >> 1,
            low: (self.low >> 1) | (self.high << 127),
        }
    }
}

// The sum in the field.
fn sum(one: Wide, other: Wide) -> Wide {
    let gap = FIELD.minus(other);
    if one.is_below(gap) {
        one.plus(other)
    } else {
        one.minus(gap)
    }
}

// The product in the field, by doubling.
fn product(one: Wide, other: Wide) -> Wide {
    let (mut found, mut doubled, mut rest) = (ZERO, one, other);
    for _bit in 0..256 {
        if rest.is_odd() {
            found = sum(found, doubled);
        }
        doubled = sum(doubled, doubled);
        rest = rest.half();
    }
    found
}

// Whether an element of the field is a square: its Jacobi symbol is 1, by halving and reciprocity.
fn is_square(element: Wide) -> bool {
    let (mut rest, mut modulus, mut is_one) = (element, FIELD, true);
    for _turn in 0..TURNS {
        if rest.is_odd() {
            if rest.is_below(modulus) {
                if rest.low % 4 == 3 && modulus.low % 4 == 3 {
                    is_one = !is_one;
                }
                (rest, modulus) = (modulus, rest);
            }
            rest = rest.minus(modulus);
        } else {
            rest = rest.half();
            if modulus.low % 8 == 3 || modulus.low % 8 == 5 {
                is_one = !is_one;
            }
        }
    }
    is_one
}

// What the square of y is, where x is an element of the field: x³ + 7.
fn square_of_y(x: Wide) -> Wide {
    sum(product(product(x, x), x), SEVEN)
}

/// Whether 32 bytes are the x coordinate of a point of the curve, so that they are a key (BIP 340, `lift_x`): x³ + 7 is a square in the field. It is tested, not proved.
pub fn is_curve_x(bytes: &[u8]) -> bool {
    let x = Wide::of(bytes);
    x.is_below(FIELD) && is_square(square_of_y(x))
}

/// Whether bytes are a key of 65 bytes that consensus takes: 04 and both coordinates of a point of the curve (SEC 1, 2.3.4), or 06 or 07 and those of one whose y coordinate is even or odd.
/// It is tested, not proved.
pub fn is_long_key(bytes: &[u8]) -> bool {
    if bytes.len() != 65 {
        return false;
    }
    let (x, y) = (Wide::of(&bytes[1..33]), Wide::of(&bytes[33..]));
    let (square, wanted) = (product(y, y), square_of_y(x));
    let hybrid: u8 = if y.is_odd() { 7 } else { 6 };
    (bytes[0] == 4 || bytes[0] == hybrid)
        && x.is_below(FIELD)
        && y.is_below(FIELD)
        && square.high == wanted.high
        && square.low == wanted.low
}
