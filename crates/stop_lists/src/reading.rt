//! Reading a file of stops.

ghost use Rattle.std.specs.Prelude.{IfErr, IfOk, IfSome};
ghost use Rattle.stop_lists.specs.Lists.{Explains, IsContent};

use crate::fault::ListFault;
use crate::ids::is_text;
use std::alloc::Global;
use std::io::{ErrorKind, Read};

/// The most bytes that a file of stops may have: 64 MiB.
pub const LONGEST: usize = 67_108_864;

/// The bytes of a file of stops. It fails if the reader does, if there are more than `LONGEST` bytes, of which no more are read, if they
/// aren't UTF-8 after a byte order mark, or if memory runs out.
pub fn read_list<R: Read + Drop>(alloc: Global, reader: R) -> Result<Vec<u8>, ListFault>
    ensures content { IfSome (R.remaining reader) (λ bytes. IfOk result (λ list. IsContent bytes list.items)) }
    ensures fault { IfSome (R.remaining reader) (λ bytes. IfErr result (Explains bytes)) }
{
    let mut list = Vec::new(alloc);
    let mut first = reader.take(LONGEST as u64 + 1);
    if let Err(error) = first.read_to_end(&mut list) {
        return Err(match error.kind() {
            ErrorKind::OutOfMemory => ListFault::Memory,
            _ => ListFault::ReadFailed,
        });
    }
    if list.len() > LONGEST {
        return Err(ListFault::TooLarge);
    }
    if !is_text(&list) {
        return Err(ListFault::BadText);
    }
    Ok(list)
}
