//! The texts of usage and of refusals, which code and definitions share.

pub const USAGE: &str = "usage: expose list SCRIPT BOUNDS\n";

/// In front of the place of a file among the words, counted from 1.
pub const READ_FAULT: &str = "read fault: file ";

/// In front of the place of a file among the words, counted from 1.
pub const TOO_LONG: &str = "too long: file ";

/// In front of the reason.
pub const BOUNDS_REFUSED: &str = "bounds refused: ";

/// More inputs than are listed.
pub const TOO_MANY: &str = "too many";

/// No JSON.
pub const JSON: &str = "json";

/// Another version.
pub const VERSION: &str = "version";

/// In front of the quoted name of a member.
pub const FIELD: &str = "field ";

/// In front of the quoted name of a member.
pub const RANGE: &str = "range ";

/// In front of the quoted name of a member.
pub const ALPHABET: &str = "alphabet ";

/// In front of the byte offset.
pub const SCRIPT_REFUSED: &str = "script refused at ";

/// Behind the byte offset: the bytes aren't UTF-8.
pub const UTF8: &str = ": utf8\n";

/// Behind the byte offset: no script goes on there.
pub const SYNTAX: &str = ": syntax\n";

/// Behind the byte offset: a number above 2^53 - 1.
pub const NUMBER: &str = ": number\n";

/// Behind the byte offset: a name that is declared where it may not be.
pub const NAME: &str = ": name\n";

/// Behind the byte offset: nested too deep.
pub const DEPTH: &str = ": depth\n";

pub const LINE_END: &str = "\n";
