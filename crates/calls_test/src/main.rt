// Tests of the calls that judge and list: the listing of a card, the undetermined disks of a set and the equations of a disk, for document 01's
// worked codes, the chain code of document 002, IV-B, a dense code, and each refusal. What it must write was derived by
// tests/calls_test.py.
#![tactic(auto)]

use card::{CardFault, Edition};
use equations::EquationsError;
use std::io;
use verdicts::VerdictError;

// C1, C3 and C6 of document 01; of C6, data disk 1 is in no column.
const C1: [u8; 8] = [4, 3, 7, 0, 11, 0, 13, 0];

const C3: [u8; 6] = [2, 2, 1, 0, 2, 0];

const C6: [u8; 4] = [2, 1, 1, 0];

// The chain code.
const CHAIN: [u8; 8] = [3, 3, 3, 0, 6, 0, 5, 0];

// A code of 16 + 16 disks, with more entries than are lent.
const DENSE: [u8; 34] =
    *b"\x10\x10\xe6\x52\xa7\xf2\x9e\x26\x13\x65\xa3\xa6\x5c\x0c\x8b\x12\x3f\xd2\x2f\x89\x18\x18\x9d\x5d\x31\x95\xd9\x0e\xe2\xe8\xe7\x81\xf6\x36";

// Bytes as they are.
fn say(rt: &impl Print, text: &[u8]) -> io::Result<()> {
    rt.write_all(text)
}

// A word and a number.
fn say_number(rt: &impl Print, word: &[u8], number: usize) -> io::Result<()> {
    say(rt, word)?;
    rt.print(number)
}

// A card's fault.
fn say_fault(rt: &impl Print, fault: CardFault) -> io::Result<()> {
    match fault {
        CardFault::Column(j) => say_number(rt, b"refused 5 column ", j),
        _ => say_number(rt, b"refused ", fault.number()),
    }
}

// The listing of a card.
fn list(rt: &impl Print, card: &[u8]) -> io::Result<()> {
    let mut entries = [0u32; 16000];
    let mut out = [0u8; 262144];
    let answer = render::render(card, &mut entries, &mut out);
    say(rt, render::shown(answer, &out))
}

// The verdict on a set.
fn judge(rt: &impl Print, card: &[u8], set: u32) -> io::Result<()> {
    match verdicts::verdict(Edition::First, card, set) {
        Ok(undetermined) => say_number(rt, b"undetermined ", undetermined as usize)?,
        Err(VerdictError::OutsideSet) => say(rt, b"refused 8")?,
        Err(VerdictError::Card(fault)) => say_fault(rt, fault)?,
    }
    say(rt, b"\n")
}

// The equation call's answer.
fn say_told(rt: &impl Print, told: Result<usize, EquationsError>) -> io::Result<()> {
    match told {
        Ok(count) => say_number(rt, b"count ", count),
        Err(EquationsError::Card(fault)) => say_fault(rt, fault),
        Err(EquationsError::NoDisk) => say(rt, b"refused 9"),
        Err(EquationsError::Short(count)) => say_number(rt, b"refused 10 count ", count),
    }
}

// A slot of the slice.
fn say_slot(rt: &impl Print, slot: u32) -> io::Result<()> {
    say_number(rt, b" ", slot as usize)
}

// That answer and every slot, so that what is past the count, or lent to a refused call, is seen to stay.
fn show(rt: &impl Print, told: Result<usize, EquationsError>, slots: &[u32]) -> io::Result<()> {
    say_told(rt, told)?;
    for slot in slots {
        say_slot(rt, *slot)?;
    }
    say(rt, b"\n")
}

// The equations of a disk, into five slots.
fn tell(rt: &impl Print, card: &[u8], disk: usize) -> io::Result<()> {
    let mut slots = [99u32; 5];
    let told = equations::list(Edition::First, card, disk, &mut slots);
    show(rt, told, &slots)
}

// Into the first three of them.
fn tell_short(rt: &impl Print, card: &[u8], disk: usize) -> io::Result<()> {
    let mut slots = [99u32; 5];
    let told = equations::list(Edition::First, card, disk, &mut slots[..3]);
    show(rt, told, &slots)
}

// The equations of disks 0 to 5.
fn tell_six(rt: &impl Print, card: &[u8]) -> io::Result<()> {
    for disk in 0..6 {
        tell(rt, card, disk)?;
    }
    Ok(())
}

// C1, C3, C4 and C5, each refusal of a card, and a list that is too long.
fn listings(rt: &impl Print) -> io::Result<()> {
    list(rt, &C1)?;
    list(rt, &C3)?;
    list(rt, &[1, 2, 1, 0, 1, 0])?;
    list(rt, &[3, 1, 7, 0])?;
    list(rt, b"")?;
    list(rt, &[2])?;
    list(rt, &[0, 1, 1, 0])?;
    list(rt, &[17, 0, 1, 0])?;
    list(rt, &[2, 17, 1, 0])?;
    list(rt, &[2, 1, 1])?;
    list(rt, &[2, 1, 0, 0])?;
    list(rt, &[2, 1, 4, 0])?;
    list(rt, &DENSE)
}

// Sets that are not fatal, sets of undetermined disks alone, sets with determined disks too, and one with a disk that is none of the code's.
fn verdicts(rt: &impl Print) -> io::Result<()> {
    judge(rt, &C3, 15)?;
    judge(rt, &C3, 3)?;
    judge(rt, &C1, 127)?;
    judge(rt, &C1, 7)?;
    judge(rt, &C1, 14)?;
    judge(rt, &C1, 128)?;
    judge(rt, &DENSE, 0x80000000)?;
    judge(rt, &DENSE, 0xffffffff)?;
    judge(rt, &DENSE, 0xffff0000)?;
    judge(rt, &DENSE, 0x8000ffff)?;
    judge(rt, &C1, 15)?;
    judge(rt, &C6, 6)
}

// Every disk of three codes, and disks 3 to 5 of C6, which has none of them.
fn equations(rt: &impl Print) -> io::Result<()> {
    tell_six(rt, &CHAIN)?;
    tell_six(rt, &C1)?;
    tell(rt, &C1, 6)?;
    tell_six(rt, &C6)
}

// Too few slots, no such disk, and refused cards; a card's fault comes first.
fn equations_refused(rt: &impl Print) -> io::Result<()> {
    tell_short(rt, &CHAIN, 0)?;
    tell_short(rt, &CHAIN, 5)?;
    tell_short(rt, &CHAIN, 6)?;
    tell(rt, &CHAIN, 6)?;
    tell(rt, &CHAIN, 64)?;
    tell(rt, &CHAIN, 18446744073709551615)?;
    tell(rt, b"", 0)?;
    tell(rt, &[2], 9)?;
    tell(rt, &[0, 1, 1, 0], 0)?;
    tell(rt, &[2, 17, 1, 0], 0)?;
    tell(rt, &[2, 1, 1], 0)?;
    tell(rt, &[2, 2, 1, 0, 4, 0], 9)
}

fn main(rt: HostRuntime) -> io::Result<()> {
    listings(&rt)?;
    verdicts(&rt)?;
    equations(&rt)?;
    equations_refused(&rt)
}
