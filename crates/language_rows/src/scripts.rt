mod accepted;
mod others;
mod print_expressions;
mod print_statements;
mod printing;
mod refused;

use js_ast::Script;
use js_parser::{ScriptRefusal, parse_script};
use std::alloc::Global;

/// The script that the bytes spell; no table has as many bytes as may not be.
fn parsed(alloc: Global, bytes: &[u8]) -> Result<Script, ScriptRefusal> {
    if bytes.len() < 2_000_000 {
        return parse_script(alloc, bytes);
    }
    Err(ScriptRefusal::NoMemory)
}
