ghost use Rattle.std.specs.Prelude.{◌≡◌, ◌*◌, ◌<◌, ◌^◌, ◌++◌, OnOk};
ghost use Rattle.text_core.specs.Extends.{Extends};
ghost use Rattle.text_core.specs.Groups.{groups};

use std::alloc::AllocError;

/// Writes a number in groups of seven bits, the lowest first (LEB128), of which `most` stand after the first one at
/// most.
pub fn put_leb128(number: u64, most: u32, out: &mut Vec<u8>) -> Result<(), AllocError>
    requires { number < 128 * 128 ^ most }
    ensures ok { OnOk result (out.new.items ≡ out.old.items ++ groups most number) }
    ensures kept { Extends out.old.items out.new.items }
{
    let mut rest = number;
    let mut more = most;
    while (more > 0) & (rest >= 128) {
        out.push(128 + (rest % 128) as u8)?;
        rest /= 128;
        more -= 1;
    }
    out.push(rest as u8)?;
    Ok(())
}
