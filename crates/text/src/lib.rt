// The text that a listing prints, rendered into a lent buffer: its length first, then its bytes.
//
// Module pen puts bytes and numbers at a place of a buffer, module lines the lines. What the text is stands in
// specs/Text.antt, over the lines of specs/Lines.antt and the numbers of specs/Decimal.antt; what is
// answered for a buffer stands in specs/Answers.antt. Assumes nothing.
#![tactic(auto)]

ghost use Rattle.std.specs.Prelude.{◌≡◌, ◌≤◌, length};
ghost use Rattle.text.specs.Text.{listing_text, refused_text};
ghost use Rattle.text.specs.Answers.{text_answer, text_buffer};

mod decimals;
mod lines;
mod pen;

use pen::Pen;

// The buffer is too short for the text, which has so many bytes, and was left as it was.
#[derive(Clone, Copy, PartialEq, Eq, Debug)]
pub struct TooShort {
    pub needed: usize,
}

// The listing into the buffer, and its length; where it doesn't fit, the length needed.
pub fn listing(
    k: usize,
    m: usize,
    entries: &[u32],
    vector: &[usize],
    out: &mut [u8],
) -> Result<usize, TooShort>
    requires { (length entries.now ≤ 65536) × (length vector.now ≤ 32) }
    ensures value { result ≡ text_answer (listing_text k m entries.now vector.now) (length out.old) }
    ensures out_after { out.new ≡ text_buffer (listing_text k m entries.now vector.now) out.old }
{
    let needed = lines::listing_length(k, m, entries, vector);
    if out.len() < needed {
        return Err(TooShort { needed });
    }
    let mut pen = Pen { out, at: 0 };
    pen.put_listing(k, m, entries, vector);
    Ok(needed)
}

// The line of a refusal into the buffer, and its length; where it doesn't fit, the length needed.
pub fn refused(number: usize, out: &mut [u8]) -> Result<usize, TooShort>
    ensures value { result ≡ text_answer (refused_text number) (length out.old) }
    ensures out_after { out.new ≡ text_buffer (refused_text number) out.old }
{
    let length = lines::line_length(b"refused", &[number]);
    if out.len() < length {
        return Err(TooShort { needed: length });
    }
    let mut pen = Pen { out, at: 0 };
    pen.put_line(b"refused", &[number]);
    Ok(length)
}
