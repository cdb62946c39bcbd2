//! Laws of the definitions in `specs/`. Each is the contract of a function that does nothing; crates above cite them.
//! Of rows: between two of its events a row passes no exit twice, and it ends at none that it has passed.

ghost use Rattle.std.specs.Prelude.{ℕ, Bool, List, Decides};
ghost use Rattle.js_units.specs.Order.{IsLess};
ghost use Rattle.js_ast.specs.declared.operators.BinaryOp.{BinaryOp as SpecBinaryOp};
ghost use Rattle.js_ast.specs.declared.operators.LogicalOp.{LogicalOp as SpecLogicalOp};
ghost use Rattle.js_ast.specs.declared.operators.StepOp.{StepOp as SpecStepOp};
ghost use Rattle.js_ast.specs.declared.operators.UnaryOp.{UnaryOp as SpecUnaryOp};
ghost use Rattle.js_meaning.specs.Values.{Text, Value, Object};
ghost use Rattle.js_meaning.specs.Running.{Reference};
ghost use Rattle.js_meaning.specs.Objects.{get_row, property_row, bracket_row, set_row, add_property, add_item};
ghost use Rattle.js_meaning.specs.Operators.{text_row, place_row, test_row, logical_row, binary_row, unary_row, step_row, text_less};
ghost use Rattle.js_meaning.specs.Apart.{RowApart, RowFits, IsNoReference, WrittenIn, WrittenKeeps, nowhere, only, read_last};

/// A test and the left side of `&&`, `||` and `??` pass no exit.
pub fn tests_apart()
    ensures test { (site : ℕ) (x : Value) → RowApart nowhere (test_row site x) }
    ensures logical { (op : SpecLogicalOp) (site : ℕ) (x : Value) → RowApart nowhere (logical_row op site x) }
{}

/// The end of a conversion is at its site.
pub fn conversions_apart()
    ensures text { (site : ℕ) (x : Value) → RowApart (only site) (text_row site x) }
    ensures place { (site : ℕ) (missing : Value) (x : Value) → RowApart (only site) (place_row site missing x) }
{}

/// The exits of an operator are at its mark, and one before its operand comes to no reference.
pub fn operators_apart()
    ensures binary { (op : SpecBinaryOp) (site : ℕ) (x : Value) (y : Value) → RowApart (only site) (binary_row op site x y) }
    ensures unary { (op : SpecUnaryOp) (site : ℕ) (x : Value) (objects : List Object) → RowApart (only site) (unary_row op site x objects) }
    ensures unary_value { (op : SpecUnaryOp) (site : ℕ) (x : Value) (objects : List Object) → IsNoReference (unary_row op site x objects).1 }
    ensures step { (op : SpecStepOp) (site : ℕ) (x : Value) → RowApart (only site) (step_row op site x) }
{}

/// The exits of a property that is read are at its `.` or `[`. So that it may be written behind the reading, at the same
/// site, it passes none behind its last event but such as the write doesn't begin with.
pub fn properties_apart()
    ensures get { (site : ℕ) (x : Value) (key : Text) (objects : List Object) → RowApart (only site) (get_row site x key objects) }
    ensures property { (site : ℕ) (r : Reference) (key : Text) (objects : List Object) → RowApart (only site) (property_row site r key objects) }
    ensures bracket { (site : ℕ) (is_literal : Bool) (r : Reference) (key : Value) (objects : List Object) → RowApart (only site) (bracket_row site is_literal r key objects) }
    ensures get_fits { (site : ℕ) (x : Value) (key : Text) (objects : List Object) → RowFits (only site) nowhere (get_row site x key objects) }
    ensures property_fits { (site : ℕ) (r : Reference) (key : Text) (objects : List Object) → RowFits (only site) nowhere (property_row site r key objects) }
    ensures bracket_fits { (site : ℕ) (is_literal : Bool) (r : Reference) (key : Value) (objects : List Object) → RowFits (only site) (read_last site is_literal key) (bracket_row site is_literal r key objects) }
{}

/// The ends of a property that is written, and of an entry that is added, are at their site, and no object's class is
/// changed.
pub fn writes_apart()
    ensures set { (site : ℕ) (base : Value) (key : Text) (x : Value) (objects : List Object) → WrittenIn (only site) (set_row site base key x objects) }
    ensures property { (site : ℕ) (objects : List Object) (o : ℕ) (key : Text) (x : Value) → WrittenIn (only site) (add_property site objects o key x) }
    ensures item { (site : ℕ) (objects : List Object) (o : ℕ) (x : Value) → WrittenIn (only site) (add_item site objects o x) }
    ensures set_keeps { (site : ℕ) (base : Value) (key : Text) (x : Value) (objects : List Object) → WrittenKeeps objects (set_row site base key x objects) }
    ensures property_keeps { (site : ℕ) (objects : List Object) (o : ℕ) (key : Text) (x : Value) → WrittenKeeps objects (add_property site objects o key x) }
    ensures item_keeps { (site : ℕ) (objects : List Object) (o : ℕ) (x : Value) → WrittenKeeps objects (add_item site objects o x) }
{}

/// `<` on two strings is the standard's order of their units (ECMA-262, section 7.2.12).
pub fn strings_ordered()
    ensures less { (a : Text) (b : Text) → Decides (text_less a b) (IsLess a b) }
{}
