// Blocks in memory: block k of a memory is its 256 bytes from 256 * k on.
ghost use Rattle.std.specs.Prelude.{◌≡◌, ◌+◌, ◌*◌, ◌≤◌, length, take, drop, vec_len, bit_xor};
ghost use Rattle.disk.specs.Layout.{inverted};
ghost use Rattle.disk.specs.Blocks.{over};

pub(crate) fn load(memory: &[u8], k: u32, out: &mut [u8; 256])
    requires { 256 * k + 256 ≤ length memory.now }
    ensures { out.new ≡ take 256 (drop (256 * k) memory.now) }
{
    let at = 256 * k as usize;
    out.copy_from_slice(&memory[at..at + 256]);
}

// A slice was tried in place of the `Vec`: what is behind an element is not lent out of a struct with a ghost field.
#[tactic(auto, using(std::proofs::lemmas::List::with_items_is, crate::specs::Blocks::put_over, crate::specs::Blocks::length_over))]
pub(crate) fn store(memory: &mut Vec<u8>, k: u32, block: &[u8; 256])
    requires { 256 * k + 256 ≤ vec_len memory.old }
    ensures bytes { memory.new.items ≡ over (256 * k) block.now memory.old.items }
    ensures len { vec_len memory.new ≡ vec_len memory.old }
{
    let at = 256 * k as usize;
    memory[at..at + 256].copy_from_slice(block);
}

fn turned(byte: u8) -> u8
    ensures { result ≡ bit_xor byte 255 }
{
    byte ^ 0xff
}

// Turns every bit where it stands. An array's `map` was tried: it keeps each byte as an option, and a read took some forty times as long.
pub(crate) fn invert(block: &mut [u8; 256])
    ensures { block.new ≡ inverted block.old }
{
    for byte in block.iter_mut() {
        *byte = turned(*byte);
    }
}

// The block with every bit turned.
pub(crate) fn inverse(block: &[u8; 256]) -> [u8; 256]
    ensures { result ≡ inverted block.now }
{
    let mut bytes = *block;
    invert(&mut bytes);
    bytes
}
