// The lines of a listing: how long they are, and how a pen puts them.
//
// What the lines are stands in specs/Lines.antt, and the listing in specs/Text.antt. Assumes nothing.
ghost use Rattle.std.specs.Prelude.{◌≡◌, ◌≤◌, length};
ghost use Rattle.flat.specs.Lists.{each};
ghost use Rattle.text.specs.Lines.{line, entry_line};
ghost use Rattle.text.specs.Text.{listing_text};
ghost use Rattle.text.specs.Pens.{Room, Wrote};

use crate::decimals;
use crate::pen::Pen;

// The length of a set's line.
pub fn entry_length(set: u32) -> usize
    ensures value { result ≡ length (entry_line set) }
    ensures bound { result ≤ 42 }
{
    decimals::decimal_length(gf2::size(set) as usize) + decimals::decimal_length(set as usize) + 2
}

// The length of all sets' lines.
pub fn entries_length(entries: &[u32]) -> usize
    requires { length entries.now ≤ 65536 }
    ensures value { result ≡ length (each entry_line entries.now) }
    ensures bound { result ≤ 2752512 }
{
    let mut sum = 0;
    for set in entries {
        sum += entry_length(*set);
    }
    sum
}

// The length of a word's line.
pub fn line_length(word: &[u8], numbers: &[usize]) -> usize
    requires { (length word.now ≤ 16) × (length numbers.now ≤ 32) }
    ensures value { result ≡ length (line word.now numbers.now) }
    ensures bound { result ≤ 689 }
{
    word.len() + decimals::numbers_length(numbers) + 1
}

// The length of a listing.
pub fn listing_length(k: usize, m: usize, entries: &[u32], vector: &[usize]) -> usize
    requires { (length entries.now ≤ 65536) × (length vector.now ≤ 32) }
    ensures { result ≡ length (listing_text k m entries.now vector.now) }
{
    line_length(b"code", &[k, m]) + entries_length(entries) + line_length(b"vector", vector)
}

impl Pen<'_> {
    // Puts a set's line.
    pub fn put_entry(&mut self, set: u32)
        requires { Room (entry_line set) self.old }
        ensures { Wrote (entry_line set) self.old self.new }
    {
        let size = gf2::size(set) as usize;
        let number = set as usize;
        self.put_decimal(size);
        self.put_spaced(number);
        self.put(b"\n");
    }

    // Puts all sets' lines.
    pub fn put_entries(&mut self, entries: &[u32])
        requires { Room (each entry_line entries.now) self.old }
        ensures { Wrote (each entry_line entries.now) self.old self.new }
    {
        for set in entries {
            self.put_entry(*set);
        }
    }

    // Puts a word's line.
    pub fn put_line(&mut self, word: &[u8], numbers: &[usize])
        requires { Room (line word.now numbers.now) self.old }
        ensures { Wrote (line word.now numbers.now) self.old self.new }
    {
        self.put(word);
        self.put_numbers(numbers);
        self.put(b"\n");
    }

    // Puts a listing.
    pub fn put_listing(&mut self, k: usize, m: usize, entries: &[u32], vector: &[usize])
        requires { Room (listing_text k m entries.now vector.now) self.old }
        ensures { Wrote (listing_text k m entries.now vector.now) self.old self.new }
    {
        self.put_line(b"code", &[k, m]);
        self.put_entries(entries);
        self.put_line(b"vector", vector);
    }
}
