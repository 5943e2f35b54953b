// A manual: its lines, and the fences among them that open and close a block.
use crate::block::{Block, check_block};
use script::{FILE, Lines, load};
use std::io;
use std::rt::Files;

// So many lines are too many.
const TOO_MANY: u32 = 65535;

// The part of a text before one that ends it.
fn before<'a>(text: &'a [u8], end: &[u8]) -> &'a [u8] {
    let length = text.len().saturating_sub(end.len());
    text.get(..length).unwrap_or_default()
}

// The first fence opens a block, the next one closes it, and so on. Where the last one opens a block, nothing closes it.
fn check_lines<R: Print + AllocGlobal>(rt: &R, page: &[u8]) -> io::Result<()> {
    // No text yet.
    let mut base = &page[..0];
    let mut open: Option<Block> = None;
    let mut blocks = 0u32;
    let mut lines = Lines { rest: page };
    for line in 1..=TOO_MANY {
        let from = lines.rest;
        let Some(fence) = lines.next() else {
            if let Some(block) = open {
                check_block(rt, &block, base)?;
            }
            return Ok(());
        };
        if !fence.starts_with(b"```") {
            continue;
        }
        open = match open {
            None => {
                blocks = blocks.wrapping_add(1);
                Some(Block::opened(blocks, line, fence, lines.rest))
            }
            Some(block) => {
                let block = Block {
                    text: before(block.text, from),
                    is_closed: fence == b"```".as_slice(),
                    ..block
                };
                base = check_block(rt, &block, base)?;
                None
            }
        };
    }
    println!(rt; "too long: WRONG")
}

pub(crate) fn check_page<R: Files + Print + AllocGlobal>(rt: &R, name: &str) -> io::Result<()> {
    println!(rt; "{name}")?;
    let mut space = vec![in rt.alloc(); 0; FILE]?;
    let n = load(rt, name.as_bytes(), &mut space)?;
    check_lines(rt, &space[..n])
}
