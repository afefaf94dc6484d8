// Reading standard input, up to the size of the largest board file.
ghost use Rattle.std.specs.Prelude.{◌≤◌, IfOk, vec_len};

use std::io;
use std::io::Read;

// The largest board has 799 records of 16 bytes. Of a longer input so much is taken that it is refused.
pub const MOST_BYTES: usize = 12800;

// At most MOST_BYTES bytes of standard input. By a loop, and not by `take` and `read_to_end`: each read asks for all that is
// still missing, so that nothing is lost of a message that comes in one piece, and no read finds room for more.
pub fn read_input(rt: &HostRuntime) -> io::Result<Vec<u8>>
    ensures { IfOk result (λ bytes. vec_len bytes ≤ 12800) }
{
    let mut bytes = vec![in rt.alloc(); 0u8; MOST_BYTES]?;
    let mut input = rt.stdin();
    let mut filled = 0;
    for _ in 0..MOST_BYTES {
        if filled >= bytes.len() {
            break;
        }
        let more = input.read(&mut bytes[filled..])?;
        if more == 0 {
            break;
        }
        filled += more;
    }
    bytes.truncate(filled);
    Ok(bytes)
}
