//! Shadows without a term.

ghost use Rattle.std.specs.Prelude.{◌≡◌, None, IfOk};
ghost use Rattle.term_table.specs.declared.shadow.Plain.TheVariants as variant;
ghost use Rattle.js_state.specs.Bases.{IsBase};

use js_units::NoMemory;
use term_table::{Plain, Shadow, Text};

/// The value undefined.
pub const UNDEFINED: Shadow = Shadow {
    plain: Plain::Undefined,
    term: None,
};

/// An object, by its number.
pub fn object(id: u32) -> Shadow
    ensures { result ≡ record { plain = variant.Object id; term = None } }
{
    Shadow {
        plain: Plain::Object(id),
        term: None,
    }
}

/// The same content. A string is shared, not copied.
pub fn share_plain(plain: &Plain) -> Result<Plain, NoMemory>
    ensures { IfOk result (λ copy. copy ≡ plain.now) }
{
    let copy = match plain {
        Plain::Undefined => Plain::Undefined,
        Plain::Null => Plain::Null,
        Plain::Bool(holds) => Plain::Bool(*holds),
        Plain::Int(n) => Plain::Int(*n),
        Plain::NotNumber => Plain::NotNumber,
        Plain::Text(text) => Plain::Text(text.share()?),
        Plain::Object(id) => Plain::Object(*id),
    };
    Ok(copy)
}

/// The same value and term.
pub fn share(shadow: &Shadow) -> Result<Shadow, NoMemory>
    ensures { IfOk result (λ copy. copy ≡ shadow.now) }
{
    let plain = share_plain(&shadow.plain)?;
    Ok(Shadow {
        plain,
        term: shadow.term,
    })
}

/// What stands before a property, as far as that decides.
#[derive(Clone, Copy)]
pub enum Base<'b> {
    /// Undefined or null.
    Nothing,
    /// A boolean or a number.
    Primitive,
    Text(&'b Text),
    Object(u32),
}

/// The kind of base that a content is.
pub fn base_of(content: &Plain) -> Base
    ensures { IsBase content.now result }
{
    match content {
        Plain::Undefined => Base::Nothing,
        Plain::Null => Base::Nothing,
        Plain::Bool(_) => Base::Primitive,
        Plain::Int(_) => Base::Primitive,
        Plain::NotNumber => Base::Primitive,
        Plain::Text(text) => Base::Text(text),
        Plain::Object(id) => Base::Object(*id),
    }
}
