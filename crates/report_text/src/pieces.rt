//! Texts, numbers and places.

ghost use Rattle.std.specs.Prelude.{◌≡◌, ◌++◌, codes, decimal, OnOk};
ghost use Rattle.std.specs.Fmt.{signed_decimal};
ghost use Rattle.js_units.specs.Quoted.{quoted};

use js_units::{NoMemory, Units, escape};
use std::alloc::Global;

pub(crate) fn push(out: &mut Vec<u8>, text: &str) -> Result<(), NoMemory>
    ensures { OnOk result (out.new.items ≡ out.old.items ++ text.now) }
{
    out.extend_from_slice(text.as_bytes())?;
    Ok(())
}

pub(crate) fn push_number(alloc: Global, out: &mut Vec<u8>, number: u32) -> Result<(), NoMemory>
    ensures { OnOk result (out.new.items ≡ out.old.items ++ decimal number) }
{
    let text = number.to_string(alloc)?;
    push(out, text.as_str())?;
    Ok(())
}

pub(crate) fn push_long(alloc: Global, out: &mut Vec<u8>, number: u64) -> Result<(), NoMemory>
    ensures { OnOk result (out.new.items ≡ out.old.items ++ decimal number) }
{
    let text = number.to_string(alloc)?;
    push(out, text.as_str())?;
    Ok(())
}

pub(crate) fn push_signed(alloc: Global, out: &mut Vec<u8>, number: i64) -> Result<(), NoMemory>
    ensures { OnOk result (out.new.items ≡ out.old.items ++ signed_decimal number) }
{
    let text = number.to_string(alloc)?;
    push(out, text.as_str())?;
    Ok(())
}

pub(crate) fn push_quoted(alloc: Global, out: &mut Vec<u8>, text: &Units) -> Result<(), NoMemory>
    ensures { OnOk result (out.new.items ≡ out.old.items ++ quoted text.now) }
{
    let text = escape(alloc, text)?;
    out.extend_from_slice(text.as_slice())?;
    Ok(())
}

pub(crate) fn push_at(
    alloc: Global,
    out: &mut Vec<u8>,
    text: &str,
    site: u32,
) -> Result<(), NoMemory>
    ensures { OnOk result (out.new.items ≡ out.old.items ++ text.now ++ codes "@" ++ decimal site) }
{
    push(out, text)?;
    push(out, "@")?;
    push_number(alloc, out, site)?;
    Ok(())
}
