// Numbers in decimal: how long they are, and their digits.
//
// What a number is in decimal stands in specs/Decimal.antt. Assumes nothing.
ghost use Rattle.std.specs.Prelude.{◌≡◌, ◌≤◌, length};
ghost use Rattle.flat.specs.Lists.{each};
ghost use Rattle.text.specs.Decimal.{decimal, spaced};

// How many digits n has.
pub fn decimal_length(n: usize) -> usize
    ensures value { result ≡ length (decimal n) }
    ensures bound { result ≤ 20 }
{
    match n.checked_ilog10() {
        Some(power) => power as usize + 1,
        None => 1,
    }
}

// The length of all numbers, each with a space before it.
pub fn numbers_length(numbers: &[usize]) -> usize
    requires { length numbers.now ≤ 32 }
    ensures value { result ≡ length (each spaced numbers.now) }
    ensures bound { result ≤ 672 }
{
    let mut sum = 0;
    for number in numbers {
        sum += 1 + decimal_length(*number);
    }
    sum
}

// Writes n into a slice of its length, from its last digit to its first.
pub fn write_decimal(n: usize, digits: &mut [u8])
    requires { length digits.old ≡ length (decimal n) }
    ensures { digits.new ≡ decimal n }
{
    let mut rest = n;
    for place in (0..digits.len()).rev() {
        digits[place] = b'0' + (rest % 10) as u8;
        rest /= 10;
    }
}
