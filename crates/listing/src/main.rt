// The listing program: a card from standard input, its list of minimal erasures to standard output.
//
// The buffer holds every text, by `PrintedWhole` of crate render, so what is printed is the whole.
#![tactic(auto)]

ghost use Rattle.std.specs.Prelude.{◌≡◌, ◌≤◌, length};
ghost use Rattle.render.specs.Printed.{printed};

use std::io;
use std::io::Read;

// Reads until the card's buffer is full or the input ends, and returns how many bytes it put at the start of
// the buffer. A read that fails counts as the end.
fn read_card(input: &mut impl Read, card: &mut [u8]) -> usize
    ensures { result ≤ length card.new }
{
    let mut done = 0;
    while done < card.len() {
        match input.read(&mut card[done..]) {
            Ok(0) | Err(_) => break,
            Ok(read) => done += read,
        }
    }
    done
}

// Prints the text of a card: all that the documents say, and nothing else.
fn print(rt: &impl Print, card: &[u8], text: &[u8]) -> io::Result<()>
    requires { text.now ≡ printed card.now 16000 }
{
    rt.write_all(text)
}

fn main(rt: HostRuntime) -> io::Result<()> {
    let mut card = [0u8; 35];
    let read = read_card(&mut rt.stdin(), &mut card);
    let mut entries = [0u32; 16000];
    let mut out = [0u8; 262144];
    let answer = render::render(&card[..read], &mut entries, &mut out);
    print(&rt, &card[..read], render::shown(answer, &out))
}
