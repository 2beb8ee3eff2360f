// The opcodes of Bitcoin that are not in the table.

ghost use Rattle.std.specs.Prelude.{◌≡◌, ◌++◌, IfOk, OnOk};
ghost use Rattle.warnings.specs.Opcodes.{is_known, data_len, unknown_in, is_plain, next_skip, placed};

use crate::parts::byte_at;
use std::alloc::{AllocError, Global};

// Whether an opcode of the table has this byte: a push, or one of those of Lightning's scripts.
fn is_known(byte: u8) -> bool
    ensures { result ≡ is_known byte }
{
    byte <= 75 || (81 <= byte && byte <= 96) || is_plain(byte)
}

// Whether an opcode of the table that pushes nothing has this byte.
#[tactic(auto, unfolding(crate::specs::Opcodes::is_plain))]
fn is_plain(byte: u8) -> bool
    ensures { result ≡ is_plain byte }
{
    byte == 0x63
        || byte == 0x64
        || byte == 0x67
        || byte == 0x68
        || byte == 0x75
        || byte == 0x76
        || byte == 0x7c
        || byte == 0x82
        || byte == 0x87
        || byte == 0x88
        || byte == 0xa9
        || byte == 0xac
        || byte == 0xae
        || byte == 0xb1
        || byte == 0xb2
}

// How many bytes belong to an opcode of Bitcoin after its own: what it pushes, and the length of that.
#[tactic(auto, unfolding(crate::specs::Opcodes::data_len))]
fn data_len(opcode: u8, rest: &[u8]) -> usize
    ensures { result ≡ data_len opcode rest.now }
{
    if opcode <= 75 {
        opcode as usize
    } else if opcode == 76 {
        1 + byte_at(rest, 0)
    } else if opcode == 77 {
        2 + byte_at(rest, 0) + 256 * byte_at(rest, 1)
    } else if opcode == 78 {
        4 + byte_at(rest, 0)
            + 256 * byte_at(rest, 1)
            + 65_536 * byte_at(rest, 2)
            + 16_777_216 * byte_at(rest, 3)
    } else {
        0
    }
}

// How many bytes after a byte belong to the opcode before them, or to its own. `skip` is how many belong to the opcode before it, of which it may be the first.
#[tactic(auto, unfolding(crate::specs::Opcodes::next_skip))]
fn next_skip(skip: usize, byte: u8, rest: &[u8]) -> usize
    ensures { result ≡ next_skip skip byte rest.now }
{
    if 0 < skip {
        skip - 1
    } else {
        data_len(byte, rest)
    }
}

// Appends the position of a byte, where it is an opcode that is not in the table. The only error is that memory ran out.
#[tactic(auto, unfolding(crate::specs::Opcodes::placed))]
fn push_place(places: &mut Vec<usize>, skip: usize, at: usize, byte: u8) -> Result<(), AllocError>
    ensures { OnOk result (places.new.items ≡ places.old.items ++ placed skip at byte) }
{
    if skip == 0 && !is_known(byte) {
        places.push(at)?;
    }
    Ok(())
}

/// The positions of all opcodes that are not in the table, where Bitcoin would read them. The only error is that memory ran out.
pub fn unknown_opcodes(alloc: Global, bytes: &[u8]) -> Result<Vec<usize>, AllocError>
    ensures { IfOk result (λ v. v.items ≡ unknown_in 0 0 bytes.now) }
{
    let mut places = Vec::new(alloc);
    let mut skip = 0usize;
    for (at, byte) in bytes.iter().enumerate() {
        push_place(&mut places, skip, at, *byte)?;
        skip = next_skip(skip, *byte, &bytes[at + 1..]);
    }
    Ok(places)
}
