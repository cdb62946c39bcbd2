//! The table of built-ins: names, listed properties of names, and methods.

ghost use Rattle.std.specs.Prelude.{◌≡◌, MatchOption, true, false, List};
ghost use Rattle.js_meaning.specs.Builtins.{among, error_names, is_builtin, is_static, is_method};
ghost use Rattle.js_state.specs.Builtins.{builtin_text, owner_of, key_of, method_text};

use js_units::Units;

/// A name that the profile knows.
#[derive(Clone, Copy)]
pub enum Builtin {
    Undefined,
    NotNumber,
    ParseInt,
    String,
    Object,
    Array,
    Error,
    TypeError,
    RangeError,
    ReferenceError,
}

/// A listed property of a built-in name.
#[derive(Clone, Copy)]
pub enum Static {
    /// `String.fromCharCode`
    FromCharCode,
    /// `Object.keys`
    Keys,
    /// `Array.isArray`
    IsArray,
}

/// A name that the table has as a method, of whichever base.
#[derive(Clone, Copy)]
pub enum Method {
    CharAt,
    CharCodeAt,
    IndexOf,
    Includes,
    StartsWith,
    EndsWith,
    Slice,
    Substring,
    ToLowerCase,
    ToUpperCase,
    Trim,
    Concat,
    Split,
    Match,
    Search,
    Replace,
    Push,
    Pop,
    Shift,
    Join,
    Map,
    Filter,
    ForEach,
    Some,
    Every,
    Reduce,
    Exec,
    Test,
    FromCharCode,
    Keys,
    IsArray,
}

const BUILTINS: [Builtin; 10] = [
    Builtin::Undefined,
    Builtin::NotNumber,
    Builtin::ParseInt,
    Builtin::String,
    Builtin::Object,
    Builtin::Array,
    Builtin::Error,
    Builtin::TypeError,
    Builtin::RangeError,
    Builtin::ReferenceError,
];

/// The methods of strings, of arrays, of patterns and of built-in names; some stand twice.
const METHODS: [Method; 35] = [
    Method::CharAt,
    Method::CharCodeAt,
    Method::IndexOf,
    Method::Includes,
    Method::StartsWith,
    Method::EndsWith,
    Method::Slice,
    Method::Substring,
    Method::ToLowerCase,
    Method::ToUpperCase,
    Method::Trim,
    Method::Concat,
    Method::Split,
    Method::Match,
    Method::Search,
    Method::Replace,
    Method::Push,
    Method::Pop,
    Method::Shift,
    Method::Slice,
    Method::Concat,
    Method::IndexOf,
    Method::Includes,
    Method::Join,
    Method::Map,
    Method::Filter,
    Method::ForEach,
    Method::Some,
    Method::Every,
    Method::Reduce,
    Method::Exec,
    Method::Test,
    Method::FromCharCode,
    Method::Keys,
    Method::IsArray,
];

fn builtin_text(builtin: Builtin) -> &'static str
    ensures { result.now ≡ builtin_text builtin }
{
    match builtin {
        Builtin::Undefined => "undefined",
        Builtin::NotNumber => "NaN",
        Builtin::ParseInt => "parseInt",
        Builtin::String => "String",
        Builtin::Object => "Object",
        Builtin::Array => "Array",
        Builtin::Error => "Error",
        Builtin::TypeError => "TypeError",
        Builtin::RangeError => "RangeError",
        Builtin::ReferenceError => "ReferenceError",
    }
}

fn method_text(method: Method) -> &'static str
    ensures { result.now ≡ method_text method }
{
    match method {
        Method::CharAt => "charAt",
        Method::CharCodeAt => "charCodeAt",
        Method::IndexOf => "indexOf",
        Method::Includes => "includes",
        Method::StartsWith => "startsWith",
        Method::EndsWith => "endsWith",
        Method::Slice => "slice",
        Method::Substring => "substring",
        Method::ToLowerCase => "toLowerCase",
        Method::ToUpperCase => "toUpperCase",
        Method::Trim => "trim",
        Method::Concat => "concat",
        Method::Split => "split",
        Method::Match => "match",
        Method::Search => "search",
        Method::Replace => "replace",
        Method::Push => "push",
        Method::Pop => "pop",
        Method::Shift => "shift",
        Method::Join => "join",
        Method::Map => "map",
        Method::Filter => "filter",
        Method::ForEach => "forEach",
        Method::Some => "some",
        Method::Every => "every",
        Method::Reduce => "reduce",
        Method::Exec => "exec",
        Method::Test => "test",
        Method::FromCharCode => "fromCharCode",
        Method::Keys => "keys",
        Method::IsArray => "isArray",
    }
}

/// The built-in name of this text, if it is one.
pub fn builtin_of(name: &Units) -> Option<Builtin>
    ensures { MatchOption result (is_builtin name.now ≡ false) (λ b. (is_builtin name.now ≡ true) × (builtin_text b ≡ name.now)) }
{
    let mut left = BUILTINS.as_slice();
    while let [first, rest @ ..] = left {
        let found = *first;
        if name.equals_bytes(builtin_text(found).as_bytes()) {
            return Some(found);
        }
        left = rest;
    }
    None
}

/// Whether the name is the constructor of an error.
pub fn is_error(builtin: Builtin) -> bool
    ensures { result ≡ among (builtin_text builtin) error_names }
{
    match builtin {
        Builtin::Error => true,
        Builtin::TypeError => true,
        Builtin::RangeError => true,
        Builtin::ReferenceError => true,
        _ => false,
    }
}

/// The method of this name, if the table has one.
pub fn method_of(name: &Units) -> Option<Method>
    ensures { MatchOption result (is_method name.now ≡ false) (λ m. (is_method name.now ≡ true) × (method_text m ≡ name.now)) }
{
    let mut left = METHODS.as_slice();
    while let [first, rest @ ..] = left {
        let found = *first;
        if name.equals_bytes(method_text(found).as_bytes()) {
            return Some(found);
        }
        left = rest;
    }
    None
}

/// The listed property of a built-in name with this key, if there is one.
pub fn static_of(builtin: Builtin, key: &Units) -> Option<Static>
    ensures { MatchOption result (is_static (builtin_text builtin) key.now ≡ false) (λ s. (is_static (builtin_text builtin) key.now ≡ true) × (owner_of s ≡ builtin_text builtin) × (key_of s ≡ key.now)) }
{
    match builtin {
        Builtin::String => {
            if key.equals_bytes(b"fromCharCode") {
                Some(Static::FromCharCode)
            } else {
                None
            }
        }
        Builtin::Object => {
            if key.equals_bytes(b"keys") {
                Some(Static::Keys)
            } else {
                None
            }
        }
        Builtin::Array => {
            if key.equals_bytes(b"isArray") {
                Some(Static::IsArray)
            } else {
                None
            }
        }
        _ => None,
    }
}
