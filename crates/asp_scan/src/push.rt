//! Decimal texts of numbers, made by `itoa` without memory.

ghost use Rattle.std.specs.Prelude.{◌≡◌, ◌++◌, OnOk, OnErr};
ghost use Rattle.std.specs.Fmt.{signed_decimal};

use asp_base::Memory;
use itoa::Buffer;

/// Appends the decimal text of a number: a minus where it is negative, and its digits without leading zeros. `Memory`
/// where memory runs out; `out` is then as it was.
pub fn push_number(out: &mut Vec<u8>, value: i128) -> Result<(), Memory>
    ensures ok { OnOk result (out.new.items ≡ out.old.items ++ signed_decimal value) }
    ensures err { OnErr result (out.new.items ≡ out.old.items) }
{
    let mut buffer = Buffer::new();
    out.extend_from_slice(buffer.format(value).as_bytes())?;
    Ok(())
}
