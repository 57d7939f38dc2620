//! Reads a depot's sheet from standard input and answers it on standard output.

#![tactic(auto)]

use refusal::limits::{BYTES, FAULTS, LINKS, NAMES};
use report::answer::answer;
use sheet::lent::Lists;
use site::room::SiteRoom;
use std::alloc::{AllocError, Global};
use std::io;
use std::io::{Read, Write};
use text::line::ReadLine;
use text::records::{FaultLine, LinkLine, TurnLine};

// One byte more than a sheet may have: what is longer is declined, and not cut.
const MOST: u64 = BYTES as u64 + 1;

// The answer to a sheet.
fn respond(heap: Global, bytes: &[u8]) -> Result<Vec<u8>, AllocError> {
    let mut links = vec![in heap; LinkLine::blank(); LINKS]?;
    let mut faults = vec![in heap; FaultLine::blank(); FAULTS]?;
    let mut turns = vec![in heap; TurnLine::blank(); NAMES]?;
    let mut page = vec![in heap; 0u8; 64]?;
    let room = SiteRoom::new(heap)?;
    let lists = Lists {
        links: &mut links,
        faults: &mut faults,
        turns: &mut turns,
    };
    let size = answer(bytes, lists, room, &mut None, &mut page).unwrap_or(0);
    page.truncate(size);
    Ok(page)
}

fn main(rt: HostRuntime) -> io::Result<()> {
    let heap = rt.alloc();
    let mut bytes = Vec::new(heap);
    rt.stdin().take(MOST).read_to_end(&mut bytes)?;
    let page = respond(heap, &bytes)?;
    rt.stdout().write_all(&page)
}

#[cfg(test)]
mod tests {
    use report::room::Room;
    use std::test::*;

    // Memory for an answer is had.
    #[test]
    fn room_made(rt: HostRuntime) -> Result<(), Fail> {
        let room = Room::new(rt.alloc());
        assert!(rt; room.is_ok());
        Ok(())
    }
}
