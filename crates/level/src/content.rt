// What a level writes into a place: bytes as they are, or an undo record.
ghost use Rattle.level.specs.Contents.{content_bytes};

use number::{Code, write_code};
use place::Fill;

#[derive(Clone, Copy, PartialEq, Eq, Debug)]
pub enum PlaceContent {
    Bytes([u8; 64]),
    Record(Code),
}

impl Fill for PlaceContent {
    ghost bytes = { content_bytes };

    // Where a caller knows which it is, half of the time was the call.
    #[inline(always)]
    fn fill(&self, out: &mut [u8]) {
        match self {
            PlaceContent::Bytes(bytes) => out.copy_from_slice(bytes),
            PlaceContent::Record(code) => {
                out.fill(0);
                write_code(*code, out, 0).unwrap();
            }
        }
    }
}
