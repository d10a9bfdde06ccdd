// A pen over a lent buffer: bytes and numbers go to its place, which moves on behind them.
//
// What the pen has put is said in specs/Pens.antt. Assumes that the buffer has room, as each contract says.
ghost use Rattle.flat.specs.Lists.{each};
ghost use Rattle.text.specs.Decimal.{decimal, spaced};
ghost use Rattle.text.specs.Pens.{Room, Wrote};

use crate::decimals;

// A lent buffer, and the place in it where the next byte goes.
#[derive(Drop)]
pub struct Pen<'a> {
    pub out: &'a mut [u8],
    pub at: usize,
}

impl Pen<'_> {
    // Puts the bytes.
    pub fn put(&mut self, bytes: &[u8])
        requires { Room bytes.now self.old }
        ensures { Wrote bytes.now self.old self.new }
    {
        let end = self.at + bytes.len();
        self.out[self.at..end].copy_from_slice(bytes);
        self.at = end;
    }

    // Puts a number in decimal.
    pub fn put_decimal(&mut self, n: usize)
        requires { Room (decimal n) self.old }
        ensures { Wrote (decimal n) self.old self.new }
    {
        let end = self.at + decimals::decimal_length(n);
        decimals::write_decimal(n, &mut self.out[self.at..end]);
        self.at = end;
    }

    // Puts a space and a number.
    pub fn put_spaced(&mut self, n: usize)
        requires { Room (spaced n) self.old }
        ensures { Wrote (spaced n) self.old self.new }
    {
        self.put(b" ");
        self.put_decimal(n);
    }

    // Puts all numbers, each with a space before it.
    pub fn put_numbers(&mut self, numbers: &[usize])
        requires { Room (each spaced numbers.now) self.old }
        ensures { Wrote (each spaced numbers.now) self.old self.new }
    {
        for number in numbers {
            self.put_spaced(*number);
        }
    }
}
