//! The pieces that a text is put together from.

ghost use Rattle.std.specs.Prelude.{◌≡◌, ◌++◌, OnOk, OnErr};
ghost use Rattle.std.specs.Fmt.{decimal, signed_decimal};

use cas_types::Mem;
use itoa::Buffer;

pub(crate) fn append(out: &mut Vec<u8>, bytes: &[u8]) -> Result<(), Mem>
    ensures ok { OnOk result (out.new.items ≡ out.old.items ++ bytes.now) }
    ensures err { OnErr result (out.new.items ≡ out.old.items) }
{
    match out.extend_from_slice(bytes) {
        Ok(()) => Ok(()),
        Err(_) => Err(Mem),
    }
}

pub(crate) fn append_number(out: &mut Vec<u8>, number: u64) -> Result<(), Mem>
    ensures { OnOk result (out.new.items ≡ out.old.items ++ decimal number) }
{
    let mut buffer = Buffer::new();
    append(out, buffer.format(number).as_bytes())
}

pub(crate) fn append_signed(out: &mut Vec<u8>, number: i64) -> Result<(), Mem>
    ensures { OnOk result (out.new.items ≡ out.old.items ++ signed_decimal number) }
{
    let mut buffer = Buffer::new();
    append(out, buffer.format(number).as_bytes())
}
