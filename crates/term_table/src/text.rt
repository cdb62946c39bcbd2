//! Strings that are shared and not copied.

ghost use Rattle.std.specs.Prelude.{◌≡◌, IfOk};

use js_units::{NoMemory, Units};
use std::alloc::Global;
use std::marker::Model;
use std::rc::Rc;

/// A string, which contracts see as the list of its code units. It stays within one run.
#[derive(Drop)]
pub struct Text {
    units: Rc<Units>,
}

impl Model for Text {
    ghost use Rattle.std.specs.Prelude.{ℕ, List};

    ghost Value = { List ℕ };

    ghost view = { λ t. t.units.value };
}

impl Text {
    pub fn new(alloc: Global, units: Units) -> Result<Text, NoMemory>
        ensures { IfOk result (λ text. text ≡ units) }
    {
        let units = Rc::new(alloc, units)?;
        Ok(Text { units })
    }

    /// The same string, not copied.
    pub fn share(&self) -> Result<Text, NoMemory>
        ensures { IfOk result (λ text. text ≡ self.now) }
    {
        let units = self.units.clone()?;
        Ok(Text { units })
    }

    pub fn units(&self) -> &Units
        ensures { result.now ≡ self.now }
    {
        self.units.as_ref()
    }
}
